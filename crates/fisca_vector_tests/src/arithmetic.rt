//! Sums, differences, extremes, products and quotients, over one denominator and over two.

use crate::lanes::{has, is, number, vector};
use std::alloc::{AllocError, Global};

/// 1/2, 1, -3/2, 0 and 1/3, -1/3, 2, 0.
fn pairs(alloc: Global) -> Result<bool, AllocError> {
    let (Some(a), Some(b)) = (
        vector(alloc, [1, 2, -3, 0], 2)?,
        vector(alloc, [1, -1, 6, 0], 3)?,
    ) else {
        return Ok(false);
    };
    if a.len() != b.len() {
        return Ok(false);
    }
    Ok(
        is(&a.add(&b)?, [5, 4, 3, 0], 6)
            && is(&a.sub(&b)?, [1, 8, -21, 0], 6)
            && is(&a.min(&b)?, [2, -2, -9, 0], 6)
            && is(&a.max(&b)?, [3, 6, 12, 0], 6)
            && is(&a.mul(&b)?, [1, -2, -18, 0], 6)
            && is(&a.add(&a)?, [1, 2, -3, 0], 1),
    )
}

/// The same with one number for all lanes.
fn uniform(alloc: Global) -> Result<bool, AllocError> {
    let Some(a) = vector(alloc, [1, 2, -3, 0], 2)? else {
        return Ok(false);
    };
    let third = number(1, 3);
    let minus = number(-3, 2);
    Ok(
        is(&a.add_uniform(third)?, [5, 8, -7, 2], 6)
            && is(&a.sub_uniform(third)?, [1, 4, -11, -2], 6)
            && is(&a.sub_from_uniform(third)?, [-1, -4, 11, 2], 6)
            && is(&a.min_uniform(third)?, [2, 2, -9, 0], 6)
            && is(&a.max_uniform(third)?, [3, 6, 2, 2], 6)
            && is(&a.mul_uniform(minus)?, [-3, -6, 9, 0], 4)
            && is(&a.div_uniform(minus)?, [-1, -2, 3, 0], 3)
            && a.div_uniform(number(0, 1))?.is_none(),
    )
}

/// What has no room gives nothing; a vector that was tidied has room again.
fn limits(alloc: Global) -> Result<bool, AllocError> {
    let (Some(a), Some(wide)) = (
        vector(
            alloc,
            [4_000_000_000_000, 0, -8_000_000_000_000, 0],
            4_000_000_000_000,
        )?,
        vector(alloc, [9_000_000_000_000_000_000, 0, 0, 0], 1)?,
    ) else {
        return Ok(false);
    };
    if a.len() != wide.len() {
        return Ok(false);
    }
    let Some(small) = a.tidied()? else {
        return Ok(false);
    };
    if small.len() != a.len() {
        return Ok(false);
    }
    Ok(
        wide.add(&wide)?.is_none()
            && is(&wide.min(&wide)?, [9_000_000_000_000_000_000, 0, 0, 0], 1)
            && a.mul(&a)?.is_none()
            && has(&small, &[1, 0, -2, 0], 1)
            && is(&small.mul(&small)?, [1, 0, 4, 0], 1)
            && is(&small.tidied()?, [1, 0, -2, 0], 1),
    )
}

#[test]
fn operations_are_lane_by_lane(rt: HostRuntime) {
    assert_eq!(rt; pairs(rt.alloc()), Ok(true));
    assert_eq!(rt; uniform(rt.alloc()), Ok(true));
    assert_eq!(rt; limits(rt.alloc()), Ok(true));
}
