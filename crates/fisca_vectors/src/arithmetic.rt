//! Sums, differences and extremes, lane by lane.
ghost use Rattle.std.specs.Prelude.{◌≡◌, ℕ, ◌<◌, ◌≤◌, ◌^◌, length, unsigned_abs, IfOk, IfSome};
ghost use Rattle.fisca_num.specs.Operations.{sum_of, difference_of};
ghost use Rattle.fisca_vectors.specs.Vectors.{IsLanewise, IsOfEach, lesser_of, greater_of};
ghost use Rattle.fisca_vectors.specs.Numerators.{IsOperated, lane_of, on_numbers};

use crate::levels::level_of;
use crate::loops::made_of;
use crate::operations::LaneOperation;
use crate::sides::{Each, Side, Uniform};
use crate::vector::Vector;
use fisca_num::Fraction;
use std::alloc::AllocError;

impl Vector {
    /// The sum at each lane.
    pub fn add(&self, other: &Vector) -> Result<Option<Vector>, AllocError>
        requires { length self.now ≡ length other.now }
        ensures { IfOk result (λ o. IfSome o (λ c. IsLanewise sum_of self.now other.now c)) }
    {
        self.with_vector(LaneOperation::Sum, other)
    }

    /// The sum of each lane and one number.
    pub fn add_uniform(&self, other: Fraction) -> Result<Option<Vector>, AllocError>
        ensures { IfOk result (λ o. IfSome o (λ c. IsOfEach (λ x. sum_of x other) self.now c)) }
    {
        self.with_uniform(LaneOperation::Sum, other)
    }

    /// The difference at each lane.
    pub fn sub(&self, other: &Vector) -> Result<Option<Vector>, AllocError>
        requires { length self.now ≡ length other.now }
        ensures { IfOk result (λ o. IfSome o (λ c. IsLanewise difference_of self.now other.now c)) }
    {
        self.with_vector(LaneOperation::Difference, other)
    }

    /// Each lane less one number.
    pub fn sub_uniform(&self, other: Fraction) -> Result<Option<Vector>, AllocError>
        ensures { IfOk result (λ o. IfSome o (λ c. IsOfEach (λ x. difference_of x other) self.now c)) }
    {
        self.with_uniform(LaneOperation::Difference, other)
    }

    /// One number less each lane.
    pub fn sub_from_uniform(&self, other: Fraction) -> Result<Option<Vector>, AllocError>
        ensures { IfOk result (λ o. IfSome o (λ c. IsOfEach (λ x. difference_of other x) self.now c)) }
    {
        self.with_uniform(LaneOperation::Rest, other)
    }

    /// The lesser number at each lane.
    pub fn min(&self, other: &Vector) -> Result<Option<Vector>, AllocError>
        requires { length self.now ≡ length other.now }
        ensures { IfOk result (λ o. IfSome o (λ c. IsLanewise lesser_of self.now other.now c)) }
    {
        self.with_vector(LaneOperation::Least, other)
    }

    /// The lesser of each lane and one number.
    pub fn min_uniform(&self, other: Fraction) -> Result<Option<Vector>, AllocError>
        ensures { IfOk result (λ o. IfSome o (λ c. IsOfEach (λ x. lesser_of x other) self.now c)) }
    {
        self.with_uniform(LaneOperation::Least, other)
    }

    /// The greater number at each lane.
    pub fn max(&self, other: &Vector) -> Result<Option<Vector>, AllocError>
        requires { length self.now ≡ length other.now }
        ensures { IfOk result (λ o. IfSome o (λ c. IsLanewise greater_of self.now other.now c)) }
    {
        self.with_vector(LaneOperation::Greatest, other)
    }

    /// The greater of each lane and one number.
    pub fn max_uniform(&self, other: Fraction) -> Result<Option<Vector>, AllocError>
        ensures { IfOk result (λ o. IfSome o (λ c. IsOfEach (λ x. greater_of x other) self.now c)) }
    {
        self.with_uniform(LaneOperation::Greatest, other)
    }

    /// An operation with a number a lane.
    fn with_vector(
        &self,
        operation: LaneOperation,
        other: &Vector,
    ) -> Result<Option<Vector>, AllocError>
        requires { length self.now ≡ length other.now }
        ensures { IfOk result (λ o. IfSome o (λ c. IsLanewise (on_numbers operation) self.now other.now c)) }
    {
        let right = Each(&other.numerators);
        self.operated(operation, &right, other.denominator, other.bound)
    }

    /// An operation with one number for all lanes.
    fn with_uniform(
        &self,
        operation: LaneOperation,
        other: Fraction,
    ) -> Result<Option<Vector>, AllocError>
        ensures { IfOk result (λ o. IfSome o (λ c. IsOfEach (λ x. on_numbers operation x other) self.now c)) }
    {
        let numerator = other.numerator();
        let denominator = other.denominator();
        let bound = numerator.unsigned_abs();
        self.operated(operation, &Uniform(numerator), denominator, bound)
    }

    /// An operation with what stands at the right side, by its denominator and its bound.
    fn operated<S: Side>(
        &self,
        operation: LaneOperation,
        right: &S,
        denominator: u64,
        bound: u64,
    ) -> Result<Option<Vector>, AllocError>
        requires some { 0 < denominator }
        requires below { denominator < 2 ^ 63 }
        requires bound_below { bound < 2 ^ 63 }
        requires has { (k : ℕ) → k < length self.now → S.has right.now k }
        requires bounded { (k : ℕ) → k < length self.now → unsigned_abs (S.at right.now k) ≤ bound }
        ensures { IfOk result (λ o. IfSome o (λ c. IsOperated operation self.now (λ k. lane_of denominator (S.at right.now k)) c)) }
    {
        let alloc = *self.numerators.allocator();
        let Some(level) = level_of(self.denominator, self.bound, denominator, bound) else {
            return Ok(None);
        };
        let Some(bound) = operation.bound(level.left_bound, level.right_bound) else {
            return Ok(None);
        };
        let numerators = made_of(alloc, operation, level.factors, &self.numerators, right)?;
        Ok(Some(Vector {
            numerators,
            denominator: level.denominator,
            bound,
        }))
    }
}
