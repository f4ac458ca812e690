//! Numbers to so many places.

ghost use Rattle.std.specs.Prelude.{◌≡◌, ◌+◌, ◌*◌, ◌/◌, ◌%◌, ◌<◌, ◌≤◌, ◌^◌, ◌++◌, ◌==◌, ◌∷◌, [], if◌then◌else◌, OnOk, string_bytes, take, drop};
ghost use Rattle.fisca_forms.specs.Fixed.{count_text, fixed_text, nearest_count, places_of};
ghost use Rattle.fisca_num.specs.Characters.{zero_digit};
ghost use Rattle.fisca_num.specs.Numeral.{pointed, sign_of};

use fisca_num::Fraction;
use std::alloc::AllocError;

/// Appends the nearest multiple of 10^-places to a number, of two that are equally near the one away from 0, with just so many places: 1/3 to 2
/// places is 0.33, 2.5 to none is 3, and -0.001 to 2 is 0.00. There are at most 18 places. This project's own rule.
pub fn write_fixed(number: Fraction, places: u8, line: &mut String) -> Result<(), AllocError>
    requires { places ≤ 18 }
    ensures { OnOk result (string_bytes line.new ≡ string_bytes line.old ++ fixed_text places number) }
{
    let size = number.numerator().unsigned_abs();
    let count = count_near(size, number.denominator(), unit_of(places));
    if count != 0 && number.numerator() < 0 {
        line.push('-')?;
    }
    write_count(count, places, line)
}

/// 10^places.
fn unit_of(places: u8) -> u64
    requires { places ≤ 18 }
    ensures value { result ≡ 10 ^ places }
    ensures some { 0 < result }
    ensures small { result ≤ 10 ^ 18 }
{
    10u64.pow(u32::from(places))
}

/// How many units of 1 / unit are nearest to size / denominator, of two that are equally near the more.
fn count_near(size: u64, denominator: u64, unit: u64) -> u128
    requires size { size < 2 ^ 63 }
    requires some { 0 < denominator }
    requires below { denominator < 2 ^ 63 }
    requires unit { unit ≤ 10 ^ 18 }
    ensures value { result ≡ nearest_count size denominator unit }
    ensures small { result ≤ size * unit + 1 }
{
    let twice = 2 * product_of(size, unit);
    let denominator = u128::from(denominator);
    (twice + denominator) / (2 * denominator)
}

/// A product of words.
fn product_of(size: u64, unit: u64) -> u128
    requires size { size < 2 ^ 63 }
    requires unit { unit ≤ 10 ^ 18 }
    ensures value { result ≡ size * unit }
    ensures small { result < 2 ^ 123 }
{
    u128::from(size) * u128::from(unit)
}

/// Appends a count of units of 10^-places.
fn write_count(count: u128, places: u8, line: &mut String) -> Result<(), AllocError>
    requires few { places ≤ 18 }
    requires small { count ≤ 2 ^ 63 * 10 ^ places }
    ensures { OnOk result (string_bytes line.new ≡ string_bytes line.old ++ count_text places count) }
{
    let unit = u128::from(unit_of(places));
    line.push_str(itoa::Buffer::new().format((count / unit) as u64))?;
    write_places((count % unit) as u64, places, line)
}

/// Appends a point and so many digits of a number below 10^places; of no places nothing.
fn write_places(rest: u64, places: u8, line: &mut String) -> Result<(), AllocError>
    requires few { places ≤ 18 }
    requires small { rest < 10 ^ places }
    ensures { OnOk result (string_bytes line.new ≡ string_bytes line.old ++ pointed (places_of places rest)) }
{
    if places == 0 {
        return Ok(());
    }
    line.push('.')?;
    let mut left = places;
    while left > 0 {
        left -= 1;
        write_digit(rest, left, line)?;
    }
    Ok(())
}

/// Appends the digit of 10^place of a number.
fn write_digit(rest: u64, place: u8, line: &mut String) -> Result<(), AllocError>
    requires { place ≤ 18 }
    ensures { OnOk result (string_bytes line.new ≡ string_bytes line.old ++ (zero_digit + rest / 10 ^ place % 10) ∷ []) }
{
    let digit = rest / unit_of(place) % 10;
    line.push(char::from(b'0' + digit as u8))
}
