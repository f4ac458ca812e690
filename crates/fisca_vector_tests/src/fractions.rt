//! A denominator a lane.

use crate::lanes::{number, vector};
use fisca_num::Fraction;
use fisca_vectors::{FractionOperation, FractionRounding, Fractions};
use std::alloc::{AllocError, Global};

/// Whether the lanes are these numbers.
fn are(fractions: &Option<Fractions>, wanted: [Fraction; 2]) -> bool {
    let wanted = &wanted[..];
    match fractions {
        Some(fractions) => {
            fractions.len() == 2 && fractions.get(0) == wanted[0] && fractions.get(1) == wanted[1]
        }
        None => false,
    }
}

/// 5/2, -3 and 3, 7.
fn fractions(alloc: Global) -> Result<bool, AllocError> {
    let Some(first) = vector(alloc, [5, -6, 0, 0], 2)? else {
        return Ok(false);
    };
    let all = first.fractions()?;
    let a = Fractions::new(Vec::from_slice(alloc, &[number(5, 2), number(-3, 1)])?);
    let b = Fractions::new(Vec::from_slice(alloc, &[number(3, 1), number(7, 1)])?);
    let none = Fractions::new(Vec::from_slice(alloc, &[number(1, 1), number(0, 1)])?);
    if a.len() != b.len() || a.len() != none.len() || all.len() != 4 {
        return Ok(false);
    }
    Ok(
        all.get(0) == number(5, 2)
            && all.get(1) == number(-3, 1)
            && are(
                &a.operate(FractionOperation::Add, &b)?,
                [number(11, 2), number(4, 1)],
            )
            && are(
                &a.operate(FractionOperation::Sub, &b)?,
                [number(-1, 2), number(-10, 1)],
            )
            && are(
                &a.operate(FractionOperation::Mul, &b)?,
                [number(15, 2), number(-21, 1)],
            )
            && are(
                &a.operate(FractionOperation::Div, &b)?,
                [number(5, 6), number(-3, 7)],
            )
            && a.operate(FractionOperation::Div, &none)?.is_none()
            && are(
                &a.round(FractionRounding::Whole)?,
                [number(2, 1), number(-3, 1)],
            )
            && are(
                &a.round(FractionRounding::Floor)?,
                [number(2, 1), number(-3, 1)],
            )
            && are(
                &a.round(FractionRounding::Ceiling)?,
                [number(3, 1), number(-3, 1)],
            )
            && are(
                &a.round(FractionRounding::Nearest)?,
                [number(2, 1), number(-3, 1)],
            ),
    )
}

#[test]
fn each_lane_has_its_denominator(rt: HostRuntime) {
    assert_eq!(rt; fractions(rt.alloc()), Ok(true));
}
