//! Comparisons, lane by lane.
ghost use Rattle.std.specs.Prelude.{◌≡◌, ℕ, ◌<◌, ◌≤◌, ◌*◌, ◌^◌, length, unsigned_abs, IfOk, IfSome};
ghost use Rattle.fisca_vectors.specs.Vectors.{IsCompared, IsComparedWith};
ghost use Rattle.fisca_vectors.specs.Compared.{IsComparedBeside, IsTested, brought_test};
ghost use Rattle.fisca_vectors.specs.Numerators.{at, lane_of};

use crate::comparison::{
    IsAbove, IsAtLeast, IsAtMost, IsBelow, IsEqual, IsNotEqual, LaneComparison,
};
use crate::factors::Factors;
use crate::levels::level_of;
use crate::loops::flags_of;
use crate::mask::Mask;
use crate::sides::{Each, Side, Uniform};
use crate::vector::Vector;
use fisca_num::Fraction;
use std::alloc::{AllocError, Global};

impl Vector {
    /// Whether each lane stands so to that of another vector.
    pub fn compare(
        &self,
        comparison: LaneComparison,
        other: &Vector,
    ) -> Result<Option<Mask>, AllocError>
        requires { length self.now ≡ length other.now }
        ensures { IfOk result (λ o. IfSome o (λ m. IsCompared comparison self.now other.now m)) }
    {
        let right = Each(&other.numerators);
        self.compared(comparison, &right, other.denominator, other.bound)
    }

    /// Whether each lane stands so to one number.
    pub fn compare_uniform(
        &self,
        comparison: LaneComparison,
        other: Fraction,
    ) -> Result<Option<Mask>, AllocError>
        ensures { IfOk result (λ o. IfSome o (λ m. IsComparedWith comparison self.now other m)) }
    {
        let numerator = other.numerator();
        let denominator = other.denominator();
        let bound = numerator.unsigned_abs();
        self.compared(comparison, &Uniform(numerator), denominator, bound)
    }

    /// A comparison with what stands at the right side, by its denominator and its bound.
    fn compared<S: Side>(
        &self,
        comparison: LaneComparison,
        right: &S,
        denominator: u64,
        bound: u64,
    ) -> Result<Option<Mask>, AllocError>
        requires some { 0 < denominator }
        requires below { denominator < 2 ^ 63 }
        requires bound_below { bound < 2 ^ 63 }
        requires has { (k : ℕ) → k < length self.now → S.has right.now k }
        requires bounded { (k : ℕ) → k < length self.now → unsigned_abs (S.at right.now k) ≤ bound }
        ensures { IfOk result (λ o. IfSome o (λ m. IsComparedBeside comparison self.now (λ k. lane_of denominator (S.at right.now k)) m)) }
    {
        let alloc = *self.numerators.allocator();
        let Some(level) = level_of(self.denominator, self.bound, denominator, bound) else {
            return Ok(None);
        };
        let flags = tested(alloc, comparison, level.factors, &self.numerators, right)?;
        Ok(Some(Mask { flags }))
    }
}

/// What a comparison says of the numerators of each lane, over the common denominator.
fn tested<S: Side>(
    alloc: Global,
    comparison: LaneComparison,
    factors: Factors,
    left: &[i64],
    right: &S,
) -> Result<Vec<bool>, AllocError>
    requires has { (k : ℕ) → k < length left.now → S.has right.now k }
    requires left_fits { (k : ℕ) → k < length left.now → unsigned_abs (at left.now k) * factors.left < 2 ^ 63 }
    requires right_fits { (k : ℕ) → k < length left.now → unsigned_abs (S.at right.now k) * factors.right < 2 ^ 63 }
    ensures { IfOk result (λ v. IsTested (brought_test comparison factors.left factors.right) left.now (S.at right.now) v.items) }
{
    match comparison {
        LaneComparison::AtLeast => flags_of(alloc, &IsAtLeast, factors, left, right),
        LaneComparison::AtMost => flags_of(alloc, &IsAtMost, factors, left, right),
        LaneComparison::Equal => flags_of(alloc, &IsEqual, factors, left, right),
        LaneComparison::NotEqual => flags_of(alloc, &IsNotEqual, factors, left, right),
        LaneComparison::Above => flags_of(alloc, &IsAbove, factors, left, right),
        LaneComparison::Below => flags_of(alloc, &IsBelow, factors, left, right),
    }
}
