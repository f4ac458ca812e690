//! Decimal literals.
ghost use Rattle.std.specs.Prelude.{◌≡◌, ◌≢◌, ◌⊎◌, ℕ, ◌+◌, ◌*◌, ◌<◌, ◌≤◌, ◌^◌, ◌==◌, ◌&&◌, ◌||◌, min, length, [], drop, take, true, false, not, if◌then◌else◌, MatchOption};
ghost use Rattle.std.specs.List.{before_first, after_first, position_or_len};
ghost use Rattle.std.specs.Str.Parse.{digits_value};
ghost use Rattle.fisca_num.specs.Literal.{is_point, is_negative, unsigned_part, are_digits_or_none, digits_in, is_whole, IsRead, number_of_parts, number_of_literal};
ghost use Rattle.fisca_num.specs.Operations.{number_of};
ghost use Rattle.fisca_num.specs.Rational.{signed};

use crate::divisors::WORD;
use crate::faults::NumFault;
use crate::fractions::Fraction;
use crate::reduction::{from_lowest, reduce_size, reduce_tens};

/// The most places of a literal, zeros at the end aside.
const MOST_PLACES: u32 = 18;

/// The greatest numerator.
const LIMIT: u64 = 0x7fff_ffff_ffff_ffff;

/// Ten times this is the number from which the digits before a point are not told apart.
const TENTH_OF_CAP: u64 = 1_000_000_000_000_000_000;

/// What is read of the digits before the point.
#[derive(Clone, Copy)]
struct Whole {
    /// The number that they write, or 10^19 where it is larger.
    number: u64,
    /// Where they end: the place of the first point, or the end of the text.
    end: usize,
}

/// What is read of the digits after the point.
#[derive(Clone, Copy)]
struct Places {
    /// The number that the first 18 write.
    number: u64,
    /// How many they are.
    count: u32,
    /// Whether the others are 0.
    few: bool,
}

impl Fraction {
    /// The value of a decimal literal, as `-1_000.25`: perhaps `+` or `-`, then digits with at most one point and at
    /// least one digit. `_` between two digits is ignored; the digits before the point have no leading zero, unless it
    /// is the only one (this project's own rule).
    ///
    /// `NotANumber` where the text has not this form. Else `TooWide` where more than 18 digits stand after the point,
    /// zeros at the end aside, or the value is outside the limits.
    pub fn from_decimal(text: &str) -> Result<Fraction, NumFault>
        ensures { result ≡ number_of_literal text.now }
    {
        Fraction::from_literal(text.as_bytes())
    }

    /// The same of the bytes of a text.
    #[tactic(auto, unfolding(crate::specs::Literal::number_of_literal, crate::specs::Literal::is_negative))]
    pub fn from_literal(text: &[u8]) -> Result<Fraction, NumFault>
        ensures { result ≡ number_of_literal text.now }
    {
        value_of_unsigned(matches!(text, [b'-', ..]), without_sign(text))
    }
}

/// The value of a literal without its sign.
fn value_of_unsigned(negative: bool, text: &[u8]) -> Result<Fraction, NumFault>
    ensures { result ≡ number_of_parts negative (before_first is_point text.now) (after_first is_point text.now) }
{
    let Some(Whole { number, end }) = read_whole(text) else {
        return Err(NumFault::NotANumber);
    };
    if end > 1 && text[0] == b'0' {
        return Err(NumFault::NotANumber);
    }
    if end < text.len() {
        value_of_parts(negative, &text[..end], number, &text[end + 1..])
    } else {
        value_of_whole(negative, text, number)
    }
}

/// The value of a literal without a point, whose digits write `number`, or more where it is 10^19.
fn value_of_whole(negative: bool, whole: &[u8], number: u64) -> Result<Fraction, NumFault>
    requires whole { is_whole whole.now ≡ true }
    requires number { number ≡ min (10 ^ 19) (digits_value 10 (digits_in whole.now)) }
    ensures { result ≡ number_of_parts negative whole.now [] }
{
    if whole.is_empty() {
        Err(NumFault::NotANumber)
    } else if number > LIMIT {
        Err(NumFault::TooWide)
    } else {
        from_lowest(negative, u128::from(number), 1)
    }
}

/// The value of the digits before and after a point. Those before it write `number`, or more where it is 10^19.
/// A function of its own to the compiler too, so that whole numbers do not pay for its registers.
#[inline(never)]
fn value_of_parts(
    negative: bool,
    whole: &[u8],
    number: u64,
    places: &[u8],
) -> Result<Fraction, NumFault>
    requires whole { is_whole whole.now ≡ true }
    requires number { number ≡ min (10 ^ 19) (digits_value 10 (digits_in whole.now)) }
    ensures { result ≡ number_of_parts negative whole.now places.now }
{
    if whole.is_empty() && places.is_empty() {
        return Err(NumFault::NotANumber);
    }
    let Some(read) = read_places(places) else {
        return Err(NumFault::NotANumber);
    };
    if number > LIMIT || !read.few {
        return Err(NumFault::TooWide);
    }
    decimal(negative, number, read.number, read.count)
}

/// The text without a sign at its front.
fn without_sign(text: &[u8]) -> &[u8]
    ensures { result.now ≡ unsigned_part text.now }
{
    match text {
        [b'-' | b'+', rest @ ..] => rest,
        _ => text,
    }
}

/// Reads the digits before the first point.
fn read_whole(text: &[u8]) -> Option<Whole>
    ensures { MatchOption result (are_digits_or_none (before_first is_point text.now) ≡ false)
        (λ w. (are_digits_or_none (before_first is_point text.now) ≡ true) × (w.end ≡ position_or_len is_point text.now)
        × (w.number ≡ min (10 ^ 19) (digits_value 10 (digits_in (before_first is_point text.now))))) }
{
    let mut number = 0u64;
    let mut digit = false;
    for (index, byte) in text.iter().enumerate() {
        if byte.is_ascii_digit() {
            digit = true;
            number = next_capped(number, *byte - b'0');
        } else if digit && *byte == b'_' {
            digit = false;
        } else if *byte == b'.' {
            return ended(number, index, digit);
        } else {
            return None;
        }
    }
    ended(number, text.len(), digit)
}

/// What was read up to `end`, where the digits may end there: after a digit, or before any.
fn ended(number: u64, end: usize, digit: bool) -> Option<Whole>
    ensures { MatchOption result ((digit ≡ false) × (end ≢ 0)) (λ w. ((digit ≡ true) ⊎ (end ≡ 0)) × (w.number ≡ number) × (w.end ≡ end)) }
{
    if digit || end == 0 {
        Some(Whole { number, end })
    } else {
        None
    }
}

/// The number with one more digit at its end, or 10^19 where it is larger.
fn next_capped(number: u64, digit: u8) -> u64
    requires digit { digit < 10 }
    requires number { number ≤ 10 ^ 19 }
    ensures { result ≡ min (10 ^ 19) (10 * number + digit) }
{
    if number < TENTH_OF_CAP {
        10 * number + u64::from(digit)
    } else {
        10 * TENTH_OF_CAP
    }
}

/// The digits after the point.
fn read_places(text: &[u8]) -> Option<Places>
    ensures { MatchOption result (are_digits_or_none text.now ≡ false)
        (λ p. (are_digits_or_none text.now ≡ true) × IsRead (digits_in text.now) p.number p.count p.few) }
{
    let mut number = 0u64;
    let mut count = 0u32;
    let mut few = true;
    let mut digit = text.is_empty();
    for byte in text {
        if byte.is_ascii_digit() {
            digit = true;
            if count < MOST_PLACES {
                number = 10 * number + u64::from(*byte - b'0');
                count += 1;
            } else if *byte != b'0' {
                few = false;
            }
        } else if digit && *byte == b'_' {
            digit = false;
        } else {
            return None;
        }
    }
    if digit {
        Some(Places { number, count, few })
    } else {
        None
    }
}

/// The value of `whole` and `count` places.
fn decimal(negative: bool, whole: u64, places: u64, count: u32) -> Result<Fraction, NumFault>
    requires whole { whole < 2 ^ 63 }
    requires count { count ≤ 18 }
    requires places { places < 10 ^ count }
    ensures { result ≡ number_of (record { numerator = signed negative (whole * 10 ^ count + places); denominator = 10 ^ count }) }
{
    let denominator = 10u64.pow(count);
    let size = u128::from(whole) * u128::from(denominator) + u128::from(places);
    if size == 0 || size > WORD {
        return reduce_size(negative, size, u128::from(denominator));
    }
    reduce_tens(negative, size as u64, denominator, count)
}
