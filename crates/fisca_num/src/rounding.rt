//! Rounding to whole numbers and to decimal places.
ghost use Rattle.std.specs.Prelude.{◌≡◌, ◌<◌, ◌≤◌, ◌*◌, ◌^◌, ◌*ℤ◌, pos, unsigned_abs};
ghost use Rattle.fisca_num.specs.Operations.{number_of};
ghost use Rattle.fisca_num.specs.Rounding.{abs_of, floor_of, ceil_of, nearest, nearest_size, round_of, rounded_to, number_of_whole};

use crate::faults::NumFault;
use crate::fractions::Fraction;
use crate::reduction::{from_word, parts_of_word, reduce_size, with_sign};
use std::cmp::Ordering;

impl Fraction {
    /// The whole number `value`. `TooWide` where it is -2^63, whose size is beyond the limits.
    #[tactic(auto, unfolding(crate::specs::Rounding::number_of_whole, crate::specs::Operations::number_over))]
    pub fn whole(value: i64) -> Result<Fraction, NumFault>
        ensures { result ≡ number_of_whole value }
    {
        from_word(value)
    }

    /// The number without its sign. It is always within the limits.
    pub fn abs(self) -> Fraction
        ensures { result ≡ abs_of self }
    {
        Fraction {
            numerator: self.numerator.abs(),
            denominator: self.denominator,
        }
    }

    /// The greatest whole number that is not above this one, as -4 of -7/2.
    pub fn floor(self) -> i64
        ensures { result ≡ floor_of self }
    {
        self.numerator.div_euclid(self.denominator as i64)
    }

    /// The least whole number that is not below this one, as -3 of -7/2.
    pub fn ceil(self) -> i64
        ensures { result ≡ ceil_of self }
    {
        -self.neg().floor()
    }

    /// The nearest whole number, of two that are equally near the even one, as 2 of 5/2 (as Python's `round` and
    /// NumPy's `rint` have it).
    pub fn round(self) -> i64
        ensures { result ≡ round_of self }
    {
        let (negative, size) = parts_of_word(self.numerator);
        let count = nearest_quotient(u128::from(size), u128::from(self.denominator));
        with_sign(negative, count as u64)
    }

    /// The nearest multiple of 10^-places, of two that are equally near the even one, as 1234.56 of 1234.565 to 2
    /// places and 1200 of 1250 to -2 (as NumPy's `round` has it, but exact). `places` is from -9 to 9 (this project's
    /// own rule).
    ///
    /// `TooWide` where that multiple has a part beyond the limits in lowest terms.
    pub fn round_to(self, places: i8) -> Result<Fraction, NumFault>
        requires { unsigned_abs places ≤ 9 }
        ensures { result ≡ rounded_to places self }
    {
        let unit = power_of_ten(places.unsigned_abs());
        if places < 0 {
            self.nearest_multiple(unit)
        } else {
            self.nearest_part(unit)
        }
    }

    /// The nearest multiple of `unit`.
    fn nearest_multiple(self, unit: u64) -> Result<Fraction, NumFault>
        requires some { 0 < unit }
        requires small { unit ≤ 10 ^ 9 }
        ensures { result ≡ number_of (record { numerator = nearest (record { numerator = self.numerator; denominator = self.denominator * unit }) *ℤ pos unit; denominator = 1 }) }
    {
        let (negative, size) = parts_of_word(self.numerator);
        let count = nearest_quotient(
            u128::from(size),
            u128::from(self.denominator) * u128::from(unit),
        );
        reduce_size(negative, count * u128::from(unit), 1)
    }

    /// The nearest multiple of `1 / unit`.
    fn nearest_part(self, unit: u64) -> Result<Fraction, NumFault>
        requires some { 0 < unit }
        requires small { unit ≤ 10 ^ 9 }
        ensures { result ≡ number_of (record { numerator = nearest (record { numerator = self.numerator *ℤ pos unit; denominator = self.denominator }); denominator = unit }) }
    {
        let (negative, size) = parts_of_word(self.numerator);
        let count = nearest_quotient(
            u128::from(size) * u128::from(unit),
            u128::from(self.denominator),
        );
        reduce_size(negative, count, u128::from(unit))
    }
}

/// 10^places.
fn power_of_ten(places: u8) -> u64
    requires { places ≤ 9 }
    ensures value { result ≡ 10 ^ places }
    ensures some { 0 < result }
    ensures small { result ≤ 10 ^ 9 }
{
    10u64.pow(u32::from(places))
}

/// The whole number nearest to `size / denominator`, of two that are equally near the even one.
fn nearest_quotient(size: u128, denominator: u128) -> u128
    requires size { size < 2 ^ 127 }
    requires some { 0 < denominator }
    ensures value { result ≡ nearest_size size denominator }
    ensures small { result ≤ size }
{
    let quotient = size / denominator;
    let rest = size % denominator;
    match rest.cmp(&(denominator - rest)) {
        Ordering::Less => quotient,
        Ordering::Equal => quotient + quotient % 2,
        Ordering::Greater => quotient + 1,
    }
}
