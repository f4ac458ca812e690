//! The type of exact fractions.
ghost use Rattle.std.specs.Prelude.{◌≡◌};
ghost use Rattle.fisca_num.specs.Number.{negation_of, trunc_of, zero_number, one_number};
ghost use Rattle.fisca_num.specs.Rational.{IsLowest, IsWithin};

use std::marker::Model;

/// An exact fraction in lowest terms: a numerator from -(2^63-1) to 2^63-1 over a denominator from 1 to 2^63-1
/// (this project's own rule). Equality, order and hash are those of its value.
#[derive(Clone, Copy, Debug, PartialEq, Eq, Hash)]
pub struct Fraction {
    pub(crate) numerator: i64,
    pub(crate) denominator: u64,
    ghost lowest: { IsLowest numerator denominator },
    ghost within: { IsWithin numerator denominator },
}

impl Model for Fraction {
    ghost use Rattle.fisca_num.specs.Number.{Number};

    ghost Value = { Number };

    ghost view = { λ f. record { numerator = f.numerator; denominator = f.denominator; lowest = f.lowest; within = f.within } };

    ghost inverse = { λ n. record { numerator = n.numerator; denominator = n.denominator; lowest = n.lowest; within = n.within } };
}

impl Fraction {
    /// The number 0.
    pub const ZERO: Fraction = Fraction {
        numerator: 0,
        denominator: 1,
    };

    /// The number 1.
    pub const ONE: Fraction = Fraction {
        numerator: 1,
        denominator: 1,
    };

    /// The constant `ZERO`, with its contract.
    pub fn zero() -> Fraction
        ensures { result ≡ zero_number }
    {
        Fraction::ZERO
    }

    /// The constant `ONE`, with its contract.
    pub fn one() -> Fraction
        ensures { result ≡ one_number }
    {
        Fraction::ONE
    }

    /// The numerator in lowest terms, which carries the sign.
    pub fn numerator(self) -> i64
        ensures { result ≡ self.numerator }
    {
        self.numerator
    }

    /// The denominator in lowest terms, from 1 up.
    pub fn denominator(self) -> u64
        ensures { result ≡ self.denominator }
    {
        self.denominator
    }

    /// The number with the other sign. It is always within the limits.
    pub fn neg(self) -> Fraction
        ensures { result ≡ negation_of self }
    {
        Fraction {
            numerator: -self.numerator,
            denominator: self.denominator,
        }
    }

    /// The whole part: the places cut off, towards 0, as -3 of -7/2.
    pub fn trunc(self) -> i64
        ensures { result ≡ trunc_of self }
    {
        self.numerator / self.denominator as i64
    }
}
