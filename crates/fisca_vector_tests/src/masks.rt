//! Comparisons, masks, and lanes that are chosen, taken out and put back.

use crate::lanes::{has, has_flags, is, number, shows, vector};
use fisca_vectors::{LaneComparison, Mask};
use std::alloc::{AllocError, Global};

/// 1/2, 1, -3/2, 0 against 1/3, 1, 2, 0, and against 0.
fn comparisons(alloc: Global) -> Result<bool, AllocError> {
    let (Some(a), Some(b)) = (
        vector(alloc, [1, 2, -3, 0], 2)?,
        vector(alloc, [1, 3, 6, 0], 3)?,
    ) else {
        return Ok(false);
    };
    if a.len() != b.len() {
        return Ok(false);
    }
    let zero = number(0, 1);
    Ok(
        shows(
            &a.compare(LaneComparison::AtLeast, &b)?,
            [true, true, false, true],
        ) && shows(
            &a.compare(LaneComparison::AtMost, &b)?,
            [false, true, true, true],
        ) && shows(
            &a.compare(LaneComparison::Equal, &b)?,
            [false, true, false, true],
        ) && shows(
            &a.compare(LaneComparison::NotEqual, &b)?,
            [true, false, true, false],
        ) && shows(
            &a.compare(LaneComparison::Above, &b)?,
            [true, false, false, false],
        ) && shows(
            &a.compare(LaneComparison::Below, &b)?,
            [false, false, true, false],
        ) && shows(
            &a.compare_uniform(LaneComparison::Above, zero)?,
            [true, true, false, false],
        ),
    )
}

/// Flags together.
fn flags(alloc: Global) -> Result<bool, AllocError> {
    let a = Mask::new(Vec::from_slice(alloc, &[true, true, false, false])?);
    let b = Mask::new(Vec::from_slice(alloc, &[true, false, true, false])?);
    if a.len() != b.len() {
        return Ok(false);
    }
    let places = a.places()?;
    Ok(
        has_flags(&a.and(&b)?, &[true, false, false, false])
            && has_flags(&a.or(&b)?, &[true, true, true, false])
            && has_flags(&a.not()?, &[false, false, true, true])
            && a.count() == 2
            && places.as_slice() == [0, 1].as_slice(),
    )
}

/// Lanes of two vectors.
fn lanes(alloc: Global) -> Result<bool, AllocError> {
    let mask = Mask::new(Vec::from_slice(alloc, &[true, false, false, true])?);
    let (Some(a), Some(b)) = (
        vector(alloc, [1, 2, -3, 5], 2)?,
        vector(alloc, [1, 4, 6, 0], 3)?,
    ) else {
        return Ok(false);
    };
    if a.len() != b.len() || a.len() != mask.len() || a.len() != 4 {
        return Ok(false);
    }
    let taken = a.gather(&[3, 0])?;
    if taken.len() != 2 {
        return Ok(false);
    }
    Ok(
        is(&a.choose(&mask, &b)?, [3, 8, 12, 15], 6)
            && has(&taken, &[5, 1], 2)
            && is(&taken.scatter(&[3, 0], &b)?, [3, 8, 12, 15], 6),
    )
}

#[test]
fn masks_say_which_lanes(rt: HostRuntime) {
    assert_eq!(rt; comparisons(rt.alloc()), Ok(true));
    assert_eq!(rt; flags(rt.alloc()), Ok(true));
    assert_eq!(rt; lanes(rt.alloc()), Ok(true));
}
