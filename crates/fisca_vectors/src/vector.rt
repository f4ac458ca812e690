//! The type of vectors.
ghost use Rattle.std.specs.Prelude.{◌≡◌, ℕ, ◌<◌, ◌≤◌, ◌^◌, length, IfSome, unsigned_abs};
ghost use Rattle.fisca_vectors.specs.Numerators.{at, lane_of, lanes_of};
ghost use Rattle.fisca_vectors.specs.Vectors.{lane};

use fisca_num::Fraction;
use std::marker::Model;

/// The first number beyond the limits of numerators and denominators.
pub(crate) const LIMIT: u64 = 0x8000_0000_0000_0000;

/// A number a lane: numerators over one denominator, with a bound of their sizes. Contracts see the list of the
/// numbers.
///
/// An operation gives nothing where its bound or a denominator is beyond 63 bits. So where it gives a vector, no lane
/// was too wide.
#[derive(Drop)]
pub struct Vector {
    pub(crate) numerators: Vec<i64>,
    pub(crate) denominator: u64,
    pub(crate) bound: u64,
}

impl Model for Vector {
    ghost use Rattle.std.specs.Prelude.{List};
    ghost use Rattle.fisca_num.specs.Number.{Number};
    ghost use Rattle.fisca_vectors.specs.Numerators.{IsVector, lanes_of};

    ghost Value = { List Number };

    ghost view = { λ v. lanes_of v.denominator v.numerators.items };

    ghost invariant = { λ v. IsVector v.denominator v.bound v.numerators.items };
}

impl Vector {
    /// The numbers with these numerators over one denominator, where they are within the limits.
    pub fn new(numerators: Vec<i64>, denominator: u64) -> Option<Vector>
        ensures { IfSome result (λ v. v ≡ lanes_of denominator numerators.items) }
    {
        let bound = greatest_size(&numerators);
        if denominator == 0 || denominator >= LIMIT || bound >= LIMIT {
            return None;
        }
        Some(Vector {
            numerators,
            denominator,
            bound,
        })
    }

    /// How many lanes there are.
    pub fn len(&self) -> usize
        ensures { result ≡ length self.now }
    {
        self.numerators.len()
    }

    /// The number at a lane.
    pub fn get(&self, index: usize) -> Fraction
        requires { index < length self.now }
        ensures { result ≡ lane self.now index }
    {
        fraction_of(self.numerators[index], self.denominator)
    }
}

/// The number that a numerator is over a denominator.
fn fraction_of(numerator: i64, denominator: u64) -> Fraction
    requires { denominator < 2 ^ 63 }
    ensures { result ≡ lane_of denominator numerator }
{
    match Fraction::new(numerator, denominator as i64) {
        Ok(number) => number,
        Err(_) => Fraction::zero(),
    }
}

/// The greatest size of the numerators.
fn greatest_size(numerators: &[i64]) -> u64
    ensures { (k : ℕ) → k < length numerators.now → unsigned_abs (at numerators.now k) ≤ result }
{
    let mut greatest = 0;
    for number in numerators {
        greatest = number.unsigned_abs().max(greatest);
    }
    greatest
}
