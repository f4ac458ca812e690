//! Numerators that are merged, taken out and put back.
ghost use Rattle.std.specs.Prelude.{◌≡◌, ℕ, ◌<◌, ◌^◌, ◌*◌, length, map, unsigned_abs, IfOk};
ghost use Rattle.std.specs.List.{All};
ghost use Rattle.fisca_vectors.specs.Vectors.{flag};
ghost use Rattle.fisca_vectors.specs.Numerators.{at};
ghost use Rattle.fisca_vectors.specs.Moved.{IsMerged, merged_of, widened};
ghost use Rattle.fisca_vectors.specs.Selected.{scattered};

use crate::factors::{Bring, Factors, Neither, scaled};
use std::alloc::{AllocError, Global};

/// At each lane the left numerator where the flag is true, the right one elsewhere, over the common denominator.
pub(crate) fn merged(
    alloc: Global,
    factors: Factors,
    flags: &[bool],
    left: &[i64],
    right: &[i64],
) -> Result<Vec<i64>, AllocError>
    requires same { length left.now ≡ length right.now }
    requires masked { length left.now ≡ length flags.now }
    requires left_fits { (k : ℕ) → k < length left.now → unsigned_abs (at left.now k) * factors.left < 2 ^ 63 }
    requires right_fits { (k : ℕ) → k < length left.now → unsigned_abs (at right.now k) * factors.right < 2 ^ 63 }
    ensures { IfOk result (λ v. IsMerged factors.left factors.right flags.now left.now right.now v.items) }
{
    let mut made = Vec::from_slice(alloc, left)?;
    if factors.left == 1 && factors.right == 1 {
        merge_into(&Neither, flags, &mut made, right);
    } else {
        merge_into(&factors, flags, &mut made, right);
    }
    Ok(made)
}

/// The same in place.
fn merge_into<B: Bring>(by: &B, flags: &[bool], out: &mut [i64], right: &[i64])
    requires same { length out.old ≡ length right.now }
    requires masked { length out.old ≡ length flags.now }
    requires left_fits { (k : ℕ) → k < length out.old → unsigned_abs (at out.old k) * B.left by.now < 2 ^ 63 }
    requires right_fits { (k : ℕ) → k < length out.old → unsigned_abs (at right.now k) * B.right by.now < 2 ^ 63 }
    ensures { (k : ℕ) → k < length out.old → at out.new k ≡ merged_of (B.left by.now) (B.right by.now) (flag flags.now k) (at out.old k) (at right.now k) }
{
    for i in 0..out.len() {
        out[i] = merged_one(by, flags[i], out[i], right[i]);
    }
}

/// One of two numerators, over the common denominator.
#[inline]
#[tactic(auto, unfolding(crate::specs::Moved::merged_of))]
fn merged_one<B: Bring>(by: &B, flag: bool, left: i64, right: i64) -> i64
    requires left { unsigned_abs left * B.left by.now < 2 ^ 63 }
    requires right { unsigned_abs right * B.right by.now < 2 ^ 63 }
    ensures { result ≡ merged_of (B.left by.now) (B.right by.now) flag left right }
{
    let left = by.left(left);
    let right = by.right(right);
    if flag { left } else { right }
}

/// The numerators at these places.
pub(crate) fn gathered(
    alloc: Global,
    numerators: &[i64],
    places: &[usize],
) -> Result<Vec<i64>, AllocError>
    requires { All (λ p. p < length numerators.now) places.now }
    ensures { IfOk result (λ v. v.items ≡ map (λ p. at numerators.now p) places.now) }
{
    let mut made = Vec::with_capacity(alloc, places.len())?;
    for place in places {
        made.push(numerators[*place]).map_err(AllocError::from)?;
    }
    Ok(made)
}

/// The numerators over a denominator that is `by` times as large.
fn widened(alloc: Global, numerators: &[i64], by: u64) -> Result<Vec<i64>, AllocError>
    requires below { by < 2 ^ 63 }
    requires fits { (k : ℕ) → k < length numerators.now → unsigned_abs (at numerators.now k) * by < 2 ^ 63 }
    ensures { IfOk result (λ v. v.items ≡ widened by numerators.now) }
{
    let mut made = Vec::with_capacity(alloc, numerators.len())?;
    for numerator in numerators {
        made.push(scaled(*numerator, by)).map_err(AllocError::from)?;
    }
    Ok(made)
}

/// The right numerators with the first of the left ones at the first of the places, the second at the second, and so on,
/// over the common denominator.
pub(crate) fn put_back(
    alloc: Global,
    factors: Factors,
    places: &[usize],
    left: &[i64],
    right: &[i64],
) -> Result<Vec<i64>, AllocError>
    requires same { length left.now ≡ length places.now }
    requires within { All (λ p. p < length right.now) places.now }
    requires left_fits { (k : ℕ) → k < length left.now → unsigned_abs (at left.now k) * factors.left < 2 ^ 63 }
    requires right_fits { (k : ℕ) → k < length right.now → unsigned_abs (at right.now k) * factors.right < 2 ^ 63 }
    ensures { IfOk result (λ v. v.items ≡ scattered places.now (widened factors.left left.now) (widened factors.right right.now)) }
{
    let left = widened(alloc, left, factors.left)?;
    let mut made = widened(alloc, right, factors.right)?;
    scatter_into(&left, places, &mut made);
    Ok(made)
}

/// Writes the first of the numerators at the first of the places, the second at the second, and so on.
#[tactic(auto, using(crate::proofs::Places::scatter_step))]
fn scatter_into(numerators: &[i64], places: &[usize], out: &mut [i64])
    requires same { length numerators.now ≡ length places.now }
    requires within { All (λ p. p < length out.old) places.now }
    ensures { out.new ≡ scattered places.now numerators.now out.old }
{
    for i in 0..places.len() {
        out[places[i]] = numerators[i];
    }
}
