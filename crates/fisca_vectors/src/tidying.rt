//! Vectors over a smaller denominator.
ghost use Rattle.std.specs.Prelude.{◌≡◌, ℕ, ◌<◌, ◌*◌, ◌^◌, pos, ◌*ℤ◌, length, IfOk, IfSome, IsTrue};
ghost use Rattle.fisca_vectors.specs.Numerators.{at};

use crate::levels::divisor;
use crate::vector::{LIMIT, Vector};
use std::alloc::{AllocError, Global};

impl Vector {
    /// The same numbers over the least denominator of all, with the least bound.
    ///
    /// A vector that many operations made may have a large denominator and a loose bound, and the next operation gives
    /// nothing. What stands here may go on.
    pub fn tidied(&self) -> Result<Option<Vector>, AllocError>
        ensures { IfOk result (λ o. IfSome o (λ c. c ≡ self.now)) }
    {
        let by = common_divisor(&self.numerators, self.denominator);
        let Some(denominator) = smaller(self.denominator, by) else {
            return Ok(None);
        };
        match cut_each(*self.numerators.allocator(), &self.numerators, by)? {
            Some(numerators) => Ok(Vector::new(numerators, denominator)),
            None => Ok(None),
        }
    }
}

/// A denominator divided by a number that divides it.
fn smaller(denominator: u64, by: u64) -> Option<u64>
    requires some { 0 < denominator }
    ensures value { IfSome result (λ d. by * d ≡ denominator) }
    ensures some { IfSome result (λ d. 0 < d) }
    ensures by_some { IfSome result (λ _. 0 < by) }
    ensures by_below { IfSome result (λ _. by < 2 ^ 63) }
{
    if by == 0 || by >= LIMIT || denominator % by != 0 {
        return None;
    }
    Some(denominator / by)
}

/// The greatest common divisor of all. That it divides each shows where it is used.
fn common_divisor(numerators: &[i64], denominator: u64) -> u64 {
    let mut common = denominator;
    for numerator in numerators {
        if common == 1 {
            return 1;
        }
        common = divisor(numerator.unsigned_abs(), common);
    }
    common
}

/// The numerators divided by a number, where it divides each.
fn cut_each(alloc: Global, numerators: &[i64], by: u64) -> Result<Option<Vec<i64>>, AllocError>
    requires some { 0 < by }
    requires below { by < 2 ^ 63 }
    ensures lanes { IfOk result (λ o. IfSome o (λ v. length v.items ≡ length numerators.now)) }
    ensures each { IfOk result (λ o. IfSome o (λ v. (k : ℕ) → k < length numerators.now → at v.items k *ℤ pos by ≡ at numerators.now k)) }
{
    let mut made = Vec::from_slice(alloc, numerators)?;
    if cut_into(&mut made, by) {
        Ok(Some(made))
    } else {
        Ok(None)
    }
}

/// The same in place: whether it divides each.
fn cut_into(out: &mut [i64], by: u64) -> bool
    requires some { 0 < by }
    requires below { by < 2 ^ 63 }
    ensures { IsTrue result → (k : ℕ) → k < length out.old → at out.new k *ℤ pos by ≡ at out.old k }
{
    for i in 0..out.len() {
        match part_of(out[i], by) {
            Some(part) => out[i] = part,
            None => return false,
        }
    }
    true
}

/// The numerator divided by a number that divides it.
fn part_of(numerator: i64, by: u64) -> Option<i64>
    requires some { 0 < by }
    requires below { by < 2 ^ 63 }
    ensures { IfSome result (λ n. n *ℤ pos by ≡ numerator) }
{
    let by = by as i64;
    if numerator % by == 0 {
        Some(numerator / by)
    } else {
        None
    }
}
