//! Digits, written into the end of a buffer.
ghost use Rattle.std.specs.Prelude.{◌≡◌, ℕ, ◌+◌, ◌*◌, ◌<◌, ◌≤◌, ◌-◌, ◌^◌, ◌++◌, ◌∷◌, length, drop};
ghost use Rattle.std.specs.Int.{◌∣◌};
ghost use Rattle.std.specs.Fmt.{decimal};
ghost use Rattle.std.specs.Str.Parse.{AllDigits, digits_value};
ghost use Rattle.fisca_num.specs.Digits.{padded};

/// Writes `byte` before `end`, and gives its place.
pub(crate) fn put_byte(buffer: &mut [u8], end: usize, byte: u8) -> usize
    requires some { 0 < end }
    requires within { end ≤ length buffer.old }
    ensures start { result + 1 ≡ end }
    ensures text { drop result buffer.new ≡ byte ∷ drop end buffer.old }
{
    let start = end - 1;
    buffer[start] = byte;
    start
}

/// Writes the digits of `number` before `end`, two at a time, and gives the place of the first.
pub(crate) fn put_number(buffer: &mut [u8], end: usize, number: u64) -> usize
    requires room { length (decimal number) ≤ end }
    requires within { end ≤ length buffer.old }
    ensures start { result + length (decimal number) ≡ end }
    ensures text { drop result buffer.new ≡ decimal number ++ drop end buffer.old }
{
    let mut rest = number;
    let mut start = end;
    while rest >= 100 {
        let pair = (rest % 100) as u8;
        start = put_byte(buffer, start, b'0' + pair % 10);
        start = put_byte(buffer, start, b'0' + pair / 10);
        rest /= 100;
    }
    put_pair(buffer, start, rest as u8)
}

/// Writes the one or two digits of `number` before `end`, and gives the place of the first.
fn put_pair(buffer: &mut [u8], end: usize, number: u8) -> usize
    requires pair { number < 100 }
    requires room { length (decimal number) ≤ end }
    requires within { end ≤ length buffer.old }
    ensures start { result + length (decimal number) ≡ end }
    ensures text { drop result buffer.new ≡ decimal number ++ drop end buffer.old }
{
    if number < 10 {
        return put_byte(buffer, end, b'0' + number);
    }
    let start = put_byte(buffer, end, b'0' + number % 10);
    put_byte(buffer, start, b'0' + number / 10)
}

/// Writes the last `count` digits of `number` before `end`, and gives the place of the first.
pub(crate) fn put_places(buffer: &mut [u8], end: usize, number: u64, count: usize) -> usize
    requires room { count ≤ end }
    requires within { end ≤ length buffer.old }
    ensures start { result + count ≡ end }
    ensures text { drop result buffer.new ≡ padded count number ++ drop end buffer.old }
{
    let mut rest = number;
    let mut start = end;
    for _ in 0..count {
        start = put_byte(buffer, start, b'0' + (rest % 10) as u8);
        rest /= 10;
    }
    start
}

/// Writes the places of `rest / denominator` from `start` to the end of the buffer, which are all that it has.
pub(crate) fn put_division(buffer: &mut [u8], start: usize, rest: u64, denominator: u64)
    requires within { start ≤ length buffer.old }
    requires fraction { rest < denominator }
    requires below { denominator < 2 ^ 63 }
    requires ends { denominator ∣ 10 ^ (length buffer.old - start) }
    ensures digits { AllDigits 10 (drop start buffer.new) }
    ensures value { rest * 10 ^ (length buffer.old - start) ≡ digits_value 10 (drop start buffer.new) * denominator }
{
    let mut left = rest;
    for index in start..buffer.len() {
        let tenfold = 10 * u128::from(left);
        let divisor = u128::from(denominator);
        buffer[index] = b'0' + (tenfold / divisor) as u8;
        left = (tenfold % divisor) as u64;
    }
}
