//! Sums, differences, products and quotients of fractions.
ghost use Rattle.std.specs.Prelude.{◌≡◌, ◌^◌, ◌<◌, ◌*◌, ◌+ℤ◌, ◌-ℤ◌, ◌*ℤ◌, ◌≢◌, pos, unsigned_abs};
ghost use Rattle.fisca_num.specs.Number.{ratio_of};
ghost use Rattle.fisca_num.specs.Rational.{over, signed};
ghost use Rattle.fisca_num.specs.Operations.{number_of, number_over, sum_of, difference_of, product_of, quotient_of};

use crate::divisors::{gcd, quotient_by};
use crate::faults::NumFault;
use crate::fractions::Fraction;
use crate::reduction::{
    from_lowest, from_whole, from_word, parts_of_word, reduce, reduce_shared, reduce_word_sum,
    reduce_words,
};

impl Fraction {
    /// The fraction `numerator / denominator` in lowest terms.
    ///
    /// `ZeroDivisor` where the denominator is 0, `TooWide` where a part is beyond the limits in lowest terms.
    #[tactic(auto, unfolding(crate::specs::Operations::number_over))]
    pub fn new(numerator: i64, denominator: i64) -> Result<Fraction, NumFault>
        ensures { result ≡ number_over numerator denominator }
    {
        if denominator == 1 {
            return from_word(numerator);
        }
        if denominator > 1 {
            let (negative, size) = parts_of_word(numerator);
            return reduce_words(negative, size, denominator as u64);
        }
        quotient(i128::from(numerator), i128::from(denominator))
    }

    /// The sum. `TooWide` where a part of it is beyond the limits in lowest terms.
    pub fn add(self, other: Fraction) -> Result<Fraction, NumFault>
        ensures { result ≡ sum_of self other }
    {
        if self.denominator != other.denominator {
            return self.add_unlike(other);
        }
        if self.denominator == 1 {
            return self.add_whole(other);
        }
        self.add_like(other)
    }

    /// The sum of whole numbers, which needs no divisor.
    fn add_whole(self, other: Fraction) -> Result<Fraction, NumFault>
        requires left { self.denominator ≡ 1 }
        requires like { self.denominator ≡ other.denominator }
        ensures { result ≡ sum_of self other }
    {
        match self.numerator.checked_add(other.numerator) {
            Some(sum) => from_word(sum),
            None => Err(NumFault::TooWide),
        }
    }

    /// The sum over one denominator.
    #[inline(never)]
    fn add_like(self, other: Fraction) -> Result<Fraction, NumFault>
        requires { self.denominator ≡ other.denominator }
        ensures { result ≡ sum_of self other }
    {
        let sum = added(self.numerator, other.numerator);
        reduce_word_sum(sum, self.denominator)
    }

    /// The sum over two denominators, of which only what they share is looked for in it.
    #[inline(never)]
    fn add_unlike(self, other: Fraction) -> Result<Fraction, NumFault>
        ensures { result ≡ sum_of self other }
    {
        let shared = gcd(self.denominator, other.denominator);
        let left = quotient_by(self.denominator, shared);
        let right = quotient_by(other.denominator, shared);
        let sum = crossed(self.numerator, right, other.numerator, left);
        reduce_shared(sum, left, other.denominator, shared)
    }

    /// The difference. `TooWide` where a part of it is beyond the limits in lowest terms.
    pub fn sub(self, other: Fraction) -> Result<Fraction, NumFault>
        ensures { result ≡ difference_of self other }
    {
        self.add(other.neg())
    }

    /// The product. `TooWide` where a part of it is beyond the limits in lowest terms.
    pub fn mul(self, other: Fraction) -> Result<Fraction, NumFault>
        ensures { result ≡ product_of self other }
    {
        if self.denominator == 1 && other.denominator == 1 {
            self.mul_whole(other)
        } else {
            self.mul_crosswise(other)
        }
    }

    /// The product of whole numbers, which needs no divisor.
    fn mul_whole(self, other: Fraction) -> Result<Fraction, NumFault>
        requires left { self.denominator ≡ 1 }
        requires right { other.denominator ≡ 1 }
        ensures { result ≡ product_of self other }
    {
        from_whole(multiplied(self.numerator, other.numerator))
    }

    /// The product, each numerator freed of what it shares with the other denominator.
    #[inline(never)]
    fn mul_crosswise(self, other: Fraction) -> Result<Fraction, NumFault>
        ensures { result ≡ product_of self other }
    {
        let size = self.numerator.unsigned_abs();
        let other_size = other.numerator.unsigned_abs();
        let over = gcd(size, other.denominator);
        let under = gcd(other_size, self.denominator);
        from_lowest(
            has_negative_product(self.numerator, other.numerator),
            u128::from(quotient_by(size, over)) * u128::from(quotient_by(other_size, under)),
            u128::from(quotient_by(self.denominator, under))
                * u128::from(quotient_by(other.denominator, over)),
        )
    }

    /// The quotient. `ZeroDivisor` where `other` is 0, `TooWide` where a part of it is beyond the limits in lowest terms.
    #[tactic(auto, unfolding(crate::specs::Operations::quotient_of))]
    pub fn div(self, other: Fraction) -> Result<Fraction, NumFault>
        ensures { result ≡ quotient_of self other }
    {
        quotient(self.scaled(other), other.scaled(self))
    }

    /// The numerator over the product of both denominators.
    pub(crate) fn scaled(self, other: Fraction) -> i128
        ensures value { result ≡ self.numerator *ℤ pos other.denominator }
        ensures bound { unsigned_abs result < 2 ^ 126 }
    {
        i128::from(self.numerator) * i128::from(other.denominator as i64)
    }
}

/// The sum of two numerators.
fn added(numerator: i64, other: i64) -> i128
    ensures value { result ≡ numerator +ℤ other }
    ensures bound { unsigned_abs numerator < 2 ^ 63 → unsigned_abs other < 2 ^ 63 → unsigned_abs result < 2 ^ 64 }
{
    i128::from(numerator) + i128::from(other)
}

/// The product of two numerators.
fn multiplied(numerator: i64, other: i64) -> i128
    ensures { result ≡ numerator *ℤ other }
{
    i128::from(numerator) * i128::from(other)
}

/// A numerator brought to a denominator that is `by` times as large.
fn times(numerator: i64, by: u64) -> i128
    requires numerator { unsigned_abs numerator < 2 ^ 63 }
    requires by { by < 2 ^ 63 }
    ensures value { result ≡ numerator *ℤ pos by }
    ensures bound { unsigned_abs result < 2 ^ 126 }
{
    i128::from(numerator) * i128::from(by)
}

/// The sum of two numerators, each brought to a larger denominator.
fn crossed(numerator: i64, by: u64, other: i64, other_by: u64) -> i128
    requires numerator { unsigned_abs numerator < 2 ^ 63 }
    requires by { by < 2 ^ 63 }
    requires other { unsigned_abs other < 2 ^ 63 }
    requires other_by { other_by < 2 ^ 63 }
    ensures value { result ≡ (numerator *ℤ pos by) +ℤ (other *ℤ pos other_by) }
    ensures bound { unsigned_abs result < 2 ^ 127 }
{
    times(numerator, by) + times(other, other_by)
}

/// Whether the product of two numbers is below 0, where neither is 0.
fn has_negative_product(a: i64, b: i64) -> bool
    ensures { a *ℤ b ≡ signed result (unsigned_abs a * unsigned_abs b) }
{
    (a < 0) != (b < 0)
}

/// The rational `numerator / denominator`, whose denominator may be negative.
fn quotient(numerator: i128, denominator: i128) -> Result<Fraction, NumFault>
    requires numerator { unsigned_abs numerator < 2 ^ 126 }
    requires denominator { unsigned_abs denominator < 2 ^ 126 }
    ensures { result ≡ number_of (over numerator denominator) }
{
    let signed = if denominator < 0 {
        -numerator
    } else {
        numerator
    };
    reduce(signed, denominator.unsigned_abs())
}
