//! Lowest terms.
ghost use Rattle.std.specs.Prelude.{◌≡◌, ◌<◌, ◌≤◌, ◌*◌, ◌/◌, ◌^◌, unsigned_abs};
ghost use Rattle.std.specs.Int.{◌∣◌};
ghost use Rattle.fisca_num.specs.Lowest.{IsCoprime};
ghost use Rattle.fisca_num.specs.Operations.{number_of};
ghost use Rattle.fisca_num.specs.Rational.{IsLowest, signed};

use crate::divisors::{
    WORD, gcd, gcd_with_word, halvings, quotient_by, wide_gcd, wide_quotient_by,
};
use crate::faults::NumFault;
use crate::fractions::Fraction;

/// The greatest part of a fraction.
const LIMIT: u128 = 0x7fff_ffff_ffff_ffff;

/// The least numerator.
const LEAST: i64 = -0x7fff_ffff_ffff_ffff;

/// The number that `numerator / denominator` is.
pub(crate) fn reduce(numerator: i128, denominator: u128) -> Result<Fraction, NumFault>
    ensures { result ≡ number_of (record { numerator = numerator; denominator = denominator }) }
{
    let (negative, size) = parts_of(numerator);
    reduce_size(negative, size, denominator)
}

/// Whether a number is below 0, and its size.
fn parts_of(number: i128) -> (bool, u128)
    ensures number { signed result.0 result.1 ≡ number }
    ensures size { result.1 ≡ unsigned_abs number }
{
    (number < 0, number.unsigned_abs())
}

/// Whether a word is below 0, and its size.
pub(crate) fn parts_of_word(number: i64) -> (bool, u64)
    ensures number { signed result.0 result.1 ≡ number }
{
    (number < 0, number.unsigned_abs())
}

/// The number that `size / denominator` is, or its negation.
pub(crate) fn reduce_size(
    negative: bool,
    size: u128,
    denominator: u128,
) -> Result<Fraction, NumFault>
    ensures { result ≡ number_of (record { numerator = signed negative size; denominator = denominator }) }
{
    if denominator == 0 {
        return Err(NumFault::ZeroDivisor);
    }
    if size <= WORD && denominator <= WORD {
        return reduce_words(negative, size as u64, denominator as u64);
    }
    let divisor = wide_gcd(size, denominator);
    from_lowest(negative, size / divisor, denominator / divisor)
}

/// The same of words.
pub(crate) fn reduce_words(
    negative: bool,
    size: u64,
    denominator: u64,
) -> Result<Fraction, NumFault>
    requires { 0 < denominator }
    ensures { result ≡ number_of (record { numerator = signed negative size; denominator = denominator }) }
{
    let divisor = gcd(size, denominator);
    let size = u128::from(quotient_by(size, divisor));
    from_lowest(
        negative,
        size,
        u128::from(quotient_by(denominator, divisor)),
    )
}

/// The same over a power of ten, which has no other divisors than twos and fives.
pub(crate) fn reduce_tens(
    negative: bool,
    size: u64,
    denominator: u64,
    places: u32,
) -> Result<Fraction, NumFault>
    requires some { 0 < size }
    requires tens { denominator ≡ 10 ^ places }
    requires few { places ≤ 18 }
    ensures { result ≡ number_of (record { numerator = signed negative size; denominator = denominator }) }
{
    let twos = halvings(size).min(places);
    let mut left = size >> twos;
    let mut under = denominator >> twos;
    while left % 5 == 0 && under % 5 == 0 {
        left /= 5;
        under /= 5;
    }
    from_lowest(negative, u128::from(left), u128::from(under))
}

/// The number that a sum of two numerators over one denominator is.
pub(crate) fn reduce_word_sum(sum: i128, denominator: u64) -> Result<Fraction, NumFault>
    requires size { unsigned_abs sum < 2 ^ 64 }
    requires some { 0 < denominator }
    ensures { result ≡ number_of (record { numerator = sum; denominator = denominator }) }
{
    let (negative, size) = parts_of(sum);
    reduce_words(negative, size as u64, denominator)
}

/// The number that `sum / (left * right)` is, where the sum has no divisor with the denominator but what it has with
/// `shared`, a divisor of `right`.
pub(crate) fn reduce_shared(
    sum: i128,
    left: u64,
    right: u64,
    shared: u64,
) -> Result<Fraction, NumFault>
    requires left { 0 < left }
    requires right { 0 < right }
    requires shared { shared ∣ right }
    requires only { IsCoprime (unsigned_abs sum) (left * (right / shared)) }
    ensures { result ≡ number_of (record { numerator = sum; denominator = left * right }) }
{
    let (negative, size) = parts_of(sum);
    let divisor = gcd_with_word(size, shared);
    let denominator = u128::from(left) * u128::from(quotient_by(right, divisor));
    from_lowest(negative, wide_quotient_by(size, divisor), denominator)
}

/// The number that a whole number is.
pub(crate) fn from_whole(number: i128) -> Result<Fraction, NumFault>
    ensures { result ≡ number_of (record { numerator = number; denominator = 1 }) }
{
    match i64::try_from(number) {
        Ok(word) => from_word(word),
        Err(_) => Err(NumFault::TooWide),
    }
}

/// The number that a whole number is which fits a word.
pub(crate) fn from_word(number: i64) -> Result<Fraction, NumFault>
    ensures { result ≡ number_of (record { numerator = number; denominator = 1 }) }
{
    if number < LEAST {
        return Err(NumFault::TooWide);
    }
    Ok(Fraction {
        numerator: number,
        denominator: 1,
    })
}

/// The number with these parts, which are in lowest terms.
pub(crate) fn from_lowest(
    negative: bool,
    size: u128,
    denominator: u128,
) -> Result<Fraction, NumFault>
    requires { IsLowest (signed negative size) denominator }
    ensures { result ≡ number_of (record { numerator = signed negative size; denominator = denominator }) }
{
    if size > LIMIT || denominator > LIMIT {
        return Err(NumFault::TooWide);
    }
    let numerator = with_sign(negative, size as u64);
    Ok(Fraction {
        numerator,
        denominator: denominator as u64,
    })
}

/// `size`, or its negation.
pub(crate) fn with_sign(negative: bool, size: u64) -> i64
    requires { size < 2 ^ 63 }
    ensures { result ≡ signed negative size }
{
    let size = size as i64;
    if negative { -size } else { size }
}
