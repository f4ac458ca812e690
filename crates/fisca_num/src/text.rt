//! The text of a fraction.
ghost use Rattle.std.specs.Prelude.{◌≡◌, ◌≢◌, ℕ, ◌+◌, ◌*◌, ◌<◌, ◌≤◌, ◌^◌, ◌++◌, IfOk, IfErr, OnOk, OnErr, length, drop, unsigned_abs, string_bytes};
ghost use Rattle.std.specs.String.{string_len, string_capacity};
ghost use Rattle.std.specs.Int.{◌∣◌};
ghost use Rattle.fisca_num.specs.Numeral.{sign_of, fraction_text};
ghost use Rattle.fisca_num.specs.Part.{IsPart};
ghost use Rattle.fisca_num.specs.Tens.{IsLeastPower};
ghost use Rattle.fisca_num.specs.Text.{text_of};

use crate::decimals::decimal_places;
use crate::divisors::quotient_by;
use crate::faults::NumFault;
use crate::fractions::Fraction;
use crate::spelling::{put_byte, put_division, put_number, put_places};
use std::alloc::{AllocError, Global};

/// Room for the longest text: a sign, 19 digits, a point and 62 places.
const ROOM: usize = 84;

/// The most places whose power of ten is a word.
const WORD_PLACES: u32 = 19;

impl Fraction {
    /// The text of the number: the shortest exact decimal where there is one, with a digit before the point, as `3`
    /// or `-0.25`; else the numerator, `/` and the denominator, as `-1/3`.
    ///
    /// `Memory` where no memory is given, and no other fault.
    pub fn text(self, alloc: Global) -> Result<String, NumFault>
        ensures value { IfOk result (λ text. string_bytes text ≡ text_of self) }
        ensures memory { IfErr result (λ fault. fault ≡ NumFault.Memory) }
    {
        let mut line = String::new(alloc);
        match self.write_text(&mut line) {
            Ok(()) => Ok(line),
            Err(_) => Err(NumFault::Memory),
        }
    }

    /// Appends the text of the number to `line`. On `Err` the line is as it was; with room for the text there is none.
    #[inline(always)]
    pub fn write_text(self, line: &mut String) -> Result<(), AllocError>
        ensures ok { OnOk result (string_bytes line.new ≡ string_bytes line.old ++ text_of self) }
        ensures err { OnErr result (string_bytes line.new ≡ string_bytes line.old) }
        ensures full { OnErr result (string_capacity line.old < string_len line.old + length (text_of self)) }
    {
        if self.denominator() == 1 {
            return line.push_str(itoa::Buffer::new().format(self.numerator()));
        }
        self.write_any(line)
    }
}

impl Fraction {
    /// The same for any number, not only for whole ones.
    #[inline(always)]
    fn write_any(self, line: &mut String) -> Result<(), AllocError>
        ensures ok { OnOk result (string_bytes line.new ≡ string_bytes line.old ++ text_of self) }
        ensures err { OnErr result (string_bytes line.new ≡ string_bytes line.old) }
        ensures full { OnErr result (string_capacity line.old < string_len line.old + length (text_of self)) }
    {
        let mut buffer = [0u8; ROOM];
        let start = self.put_text(&mut buffer);
        line.push_str(unsafe { std::str::from_utf8_unchecked(&buffer[start..]) })
    }

    /// Writes the text into the end of the buffer, and gives its start.
    fn put_text(self, buffer: &mut [u8]) -> usize
        requires room { length buffer.old ≡ 84 }
        ensures start { result ≤ 84 }
        ensures text { drop result buffer.new ≡ text_of self }
    {
        match decimal_places(self.denominator) {
            Some(count) => self.put_numeral(buffer, count),
            None => self.put_fraction(buffer),
        }
    }

    /// Writes the numeral, with its count of places, into the end of the buffer, and gives its start.
    fn put_numeral(self, buffer: &mut [u8], count: u32) -> usize
        requires room { length buffer.old ≡ 84 }
        requires places { IsLeastPower self.denominator count }
        requires few { count < 63 }
        ensures start { result ≤ 84 }
        ensures text { drop result buffer.new ≡ text_of self }
    {
        let size = self.numerator.unsigned_abs();
        let whole = quotient_by(size, self.denominator);
        let rest = size - whole * self.denominator;
        let start = put_part(buffer, rest, self.denominator, count);
        let start = put_number(buffer, start, whole);
        put_sign(buffer, start, self.numerator)
    }

    /// Writes `n/d` into the end of the buffer, and gives its start.
    fn put_fraction(self, buffer: &mut [u8]) -> usize
        requires room { length buffer.old ≡ 84 }
        ensures start { result ≤ 84 }
        ensures text { drop result buffer.new ≡ fraction_text self }
    {
        let start = put_number(buffer, buffer.len(), self.denominator);
        let start = put_byte(buffer, start, b'/');
        let start = put_number(buffer, start, self.numerator.unsigned_abs());
        put_sign(buffer, start, self.numerator)
    }
}

/// Writes the sign of `number` before `end`, `-` or nothing, and gives its place.
fn put_sign(buffer: &mut [u8], end: usize, number: i64) -> usize
    requires some { 0 < end }
    requires within { end ≤ length buffer.old }
    ensures start { result ≤ end }
    ensures text { drop result buffer.new ≡ sign_of number ++ drop end buffer.old }
{
    if number < 0 {
        put_byte(buffer, end, b'-')
    } else {
        end
    }
}

/// Writes the point and the places of `rest / denominator` into the end of the buffer, if it has any, and gives their
/// start.
fn put_part(buffer: &mut [u8], rest: u64, denominator: u64, count: u32) -> usize
    requires room { length buffer.old ≡ 84 }
    requires fraction { rest < denominator }
    requires below { denominator < 2 ^ 63 }
    requires ends { denominator ∣ 10 ^ count }
    requires few { count < 63 }
    ensures start { 84 ≤ result + count + 1 }
    ensures within { result ≤ 84 }
    ensures part { IsPart rest denominator count (drop result buffer.new) }
{
    if count == 0 {
        return buffer.len();
    }
    let start = buffer.len() - count as usize;
    if count <= WORD_PLACES {
        put_places(
            buffer,
            buffer.len(),
            rest * (10u64.pow(count) / denominator),
            count as usize,
        );
    } else {
        put_division(buffer, start, rest, denominator);
    }
    put_byte(buffer, start, b'.')
}
