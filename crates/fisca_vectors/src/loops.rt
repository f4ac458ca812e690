//! The loops over all lanes.
ghost use Rattle.std.specs.Prelude.{◌≡◌, ℕ, ◌<◌, ◌≤◌, ◌^◌, ◌*◌, pos, ◌*ℤ◌, length, unsigned_abs, IfOk};
ghost use Rattle.fisca_vectors.specs.Vectors.{flag};
ghost use Rattle.fisca_vectors.specs.Numerators.{at, size_of, on_brought, IsMade};
ghost use Rattle.fisca_vectors.specs.Compared.{IsTested};

use crate::comparison::Test;
use crate::factors::{Bring, Factors, LeftOnly, Neither, RightOnly};
use crate::operations::{Greater, LaneOperation, Lesser, Minus, Pairwise, Plus, TakenFrom};
use crate::sides::Side;
use std::alloc::{AllocError, Global};

/// What an operation gives at each lane, over the common denominator.
pub(crate) fn made_of<S: Side>(
    alloc: Global,
    operation: LaneOperation,
    factors: Factors,
    left: &[i64],
    right: &S,
) -> Result<Vec<i64>, AllocError>
    requires has { (k : ℕ) → k < length left.now → S.has right.now k }
    requires left_fits { (k : ℕ) → k < length left.now → unsigned_abs (at left.now k) * factors.left < 2 ^ 63 }
    requires right_fits { (k : ℕ) → k < length left.now → unsigned_abs (S.at right.now k) * factors.right < 2 ^ 63 }
    requires fits { (k : ℕ) → k < length left.now → size_of operation (unsigned_abs (at left.now k) * factors.left) (unsigned_abs (S.at right.now k) * factors.right) < 2 ^ 63 }
    ensures { IfOk result (λ v. IsMade (on_brought operation factors.left factors.right) left.now (S.at right.now) v.items) }
{
    let mut made = Vec::from_slice(alloc, left)?;
    operate(operation, factors, &mut made, right);
    Ok(made)
}

/// The same in place.
fn operate<S: Side>(operation: LaneOperation, factors: Factors, out: &mut [i64], right: &S)
    requires has { (k : ℕ) → k < length out.old → S.has right.now k }
    requires left_fits { (k : ℕ) → k < length out.old → unsigned_abs (at out.old k) * factors.left < 2 ^ 63 }
    requires right_fits { (k : ℕ) → k < length out.old → unsigned_abs (S.at right.now k) * factors.right < 2 ^ 63 }
    requires fits { (k : ℕ) → k < length out.old → size_of operation (unsigned_abs (at out.old k) * factors.left) (unsigned_abs (S.at right.now k) * factors.right) < 2 ^ 63 }
    ensures { (k : ℕ) → k < length out.old → at out.new k ≡ on_brought operation factors.left factors.right (at out.old k) (S.at right.now k) }
{
    match operation {
        LaneOperation::Sum => bring(&Plus, factors, out, right),
        LaneOperation::Difference => bring(&Minus, factors, out, right),
        LaneOperation::Rest => bring(&TakenFrom, factors, out, right),
        LaneOperation::Least => bring(&Lesser, factors, out, right),
        LaneOperation::Greatest => bring(&Greater, factors, out, right),
    }
}

/// Multiplies no side whose factor is 1.
fn bring<O: Pairwise, S: Side>(operation: &O, factors: Factors, out: &mut [i64], right: &S)
    requires has { (k : ℕ) → k < length out.old → S.has right.now k }
    requires left_fits { (k : ℕ) → k < length out.old → unsigned_abs (at out.old k) * factors.left < 2 ^ 63 }
    requires right_fits { (k : ℕ) → k < length out.old → unsigned_abs (S.at right.now k) * factors.right < 2 ^ 63 }
    requires fits { (k : ℕ) → k < length out.old → O.size operation.now (unsigned_abs (at out.old k) * factors.left) (unsigned_abs (S.at right.now k) * factors.right) < 2 ^ 63 }
    ensures { (k : ℕ) → k < length out.old → at out.new k ≡ O.op operation.now (at out.old k *ℤ pos factors.left) (S.at right.now k *ℤ pos factors.right) }
{
    if factors.left == 1 && factors.right == 1 {
        apply_each(&Neither, operation, out, right)
    } else if factors.right == 1 {
        apply_each(&LeftOnly { by: factors.left }, operation, out, right)
    } else if factors.left == 1 {
        apply_each(&RightOnly { by: factors.right }, operation, out, right)
    } else {
        apply_each(&factors, operation, out, right)
    }
}

/// The operation at each lane.
pub(crate) fn apply_each<B: Bring, O: Pairwise, S: Side>(
    by: &B,
    operation: &O,
    out: &mut [i64],
    right: &S,
)
    requires has { (k : ℕ) → k < length out.old → S.has right.now k }
    requires left_fits { (k : ℕ) → k < length out.old → unsigned_abs (at out.old k) * B.left by.now < 2 ^ 63 }
    requires right_fits { (k : ℕ) → k < length out.old → unsigned_abs (S.at right.now k) * B.right by.now < 2 ^ 63 }
    requires fits { (k : ℕ) → k < length out.old → O.size operation.now (unsigned_abs (at out.old k) * B.left by.now) (unsigned_abs (S.at right.now k) * B.right by.now) < 2 ^ 63 }
    ensures { (k : ℕ) → k < length out.old → at out.new k ≡ O.op operation.now (at out.old k *ℤ pos (B.left by.now)) (S.at right.now k *ℤ pos (B.right by.now)) }
{
    for i in 0..out.len() {
        out[i] = brought(by, operation, out[i], right.numerator(i));
    }
}

/// The operation on two numerators that are brought over one denominator.
#[inline]
fn brought<B: Bring, O: Pairwise>(by: &B, operation: &O, left: i64, right: i64) -> i64
    requires left_fits { unsigned_abs left * B.left by.now < 2 ^ 63 }
    requires right_fits { unsigned_abs right * B.right by.now < 2 ^ 63 }
    requires fits { O.size operation.now (unsigned_abs left * B.left by.now) (unsigned_abs right * B.right by.now) < 2 ^ 63 }
    ensures { result ≡ O.op operation.now (left *ℤ pos (B.left by.now)) (right *ℤ pos (B.right by.now)) }
{
    operation.apply(by.left(left), by.right(right))
}

/// What a test says of each lane, over the common denominator.
pub(crate) fn flags_of<T: Test, S: Side>(
    alloc: Global,
    test: &T,
    factors: Factors,
    left: &[i64],
    right: &S,
) -> Result<Vec<bool>, AllocError>
    requires has { (k : ℕ) → k < length left.now → S.has right.now k }
    requires left_fits { (k : ℕ) → k < length left.now → unsigned_abs (at left.now k) * factors.left < 2 ^ 63 }
    requires right_fits { (k : ℕ) → k < length left.now → unsigned_abs (S.at right.now k) * factors.right < 2 ^ 63 }
    ensures { IfOk result (λ v. IsTested (λ x y. T.test test.now (x *ℤ pos factors.left) (y *ℤ pos factors.right)) left.now (S.at right.now) v.items) }
{
    let mut flags = Vec::from_elem(alloc, false, left.len())?;
    if factors.left == 1 && factors.right == 1 {
        test_each(&Neither, test, left, right, &mut flags);
    } else {
        test_each(&factors, test, left, right, &mut flags);
    }
    Ok(flags)
}

/// The test at each lane.
fn test_each<B: Bring, T: Test, S: Side>(
    by: &B,
    test: &T,
    left: &[i64],
    right: &S,
    out: &mut [bool],
)
    requires lanes { length left.now ≡ length out.old }
    requires has { (k : ℕ) → k < length left.now → S.has right.now k }
    requires left_fits { (k : ℕ) → k < length left.now → unsigned_abs (at left.now k) * B.left by.now < 2 ^ 63 }
    requires right_fits { (k : ℕ) → k < length left.now → unsigned_abs (S.at right.now k) * B.right by.now < 2 ^ 63 }
    ensures { (k : ℕ) → k < length left.now → flag out.new k ≡ T.test test.now (at left.now k *ℤ pos (B.left by.now)) (S.at right.now k *ℤ pos (B.right by.now)) }
{
    for i in 0..out.len() {
        out[i] = is_met(by, test, left[i], right.numerator(i));
    }
}

/// The test of two numerators that are brought over one denominator.
#[inline]
fn is_met<B: Bring, T: Test>(by: &B, test: &T, left: i64, right: i64) -> bool
    requires left_fits { unsigned_abs left * B.left by.now < 2 ^ 63 }
    requires right_fits { unsigned_abs right * B.right by.now < 2 ^ 63 }
    ensures { result ≡ T.test test.now (left *ℤ pos (B.left by.now)) (right *ℤ pos (B.right by.now)) }
{
    test.holds(by.left(left), by.right(right))
}

/// The product at each lane.
pub(crate) fn products_of<S: Side>(
    alloc: Global,
    left: &[i64],
    right: &S,
) -> Result<Vec<i64>, AllocError>
    requires has { (k : ℕ) → k < length left.now → S.has right.now k }
    requires fits { (k : ℕ) → k < length left.now → unsigned_abs (at left.now k) * unsigned_abs (S.at right.now k) < 2 ^ 63 }
    ensures { IfOk result (λ v. IsMade ◌*ℤ◌ left.now (S.at right.now) v.items) }
{
    let mut made = Vec::from_slice(alloc, left)?;
    multiply_each(&mut made, right);
    Ok(made)
}

/// The same in place.
fn multiply_each<S: Side>(out: &mut [i64], right: &S)
    requires has { (k : ℕ) → k < length out.old → S.has right.now k }
    requires fits { (k : ℕ) → k < length out.old → unsigned_abs (at out.old k) * unsigned_abs (S.at right.now k) < 2 ^ 63 }
    ensures { (k : ℕ) → k < length out.old → at out.new k ≡ at out.old k *ℤ S.at right.now k }
{
    for i in 0..out.len() {
        out[i] = product_of(out[i], right.numerator(i));
    }
}

/// The product of two numerators.
#[inline]
fn product_of(left: i64, right: i64) -> i64
    requires { unsigned_abs left * unsigned_abs right < 2 ^ 63 }
    ensures { result ≡ left *ℤ right }
{
    left * right
}
