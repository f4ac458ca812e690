//! What the tests make and look at.

use fisca_num::Fraction;
use fisca_vectors::{Mask, Vector};
use std::alloc::{AllocError, Global};

/// The number n / d.
pub(crate) fn number(n: i64, d: i64) -> Fraction {
    Fraction::new(n, d).unwrap_or(Fraction::zero())
}

/// These numerators over one denominator, with four lanes.
pub(crate) fn vector(
    alloc: Global,
    numerators: [i64; 4],
    denominator: u64,
) -> Result<Option<Vector>, AllocError> {
    Ok(Vector::new(Vec::from_slice(alloc, &numerators)?, denominator))
}

/// Whether the vector has these numbers, as numerators over one denominator.
pub(crate) fn is(vector: &Option<Vector>, numerators: [i64; 4], denominator: i64) -> bool {
    match vector {
        Some(vector) => has(vector, &numerators, denominator),
        None => false,
    }
}

/// The same of a vector with any number of lanes.
pub(crate) fn has(vector: &Vector, numerators: &[i64], denominator: i64) -> bool {
    if vector.len() != numerators.len() {
        return false;
    }
    for i in 0..vector.len() {
        if vector.get(i) != number(numerators[i], denominator) {
            return false;
        }
    }
    true
}

/// Whether the mask has these flags.
pub(crate) fn shows(mask: &Option<Mask>, flags: [bool; 4]) -> bool {
    match mask {
        Some(mask) => has_flags(mask, &flags),
        None => false,
    }
}

/// The same of a mask with any number of lanes.
pub(crate) fn has_flags(mask: &Mask, flags: &[bool]) -> bool {
    if mask.len() != flags.len() {
        return false;
    }
    for i in 0..mask.len() {
        if mask.get(i) != flags[i] {
            return false;
        }
    }
    true
}
