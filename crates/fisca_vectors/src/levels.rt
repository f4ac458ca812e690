//! Common multiples of denominators.
ghost use Rattle.std.specs.Prelude.{◌≡◌, ◌<◌, ◌*◌, ◌^◌, ◌*ℤ◌, pos, IfSome};
ghost use Rattle.fisca_vectors.specs.Numerators.{IsLevel};

use crate::factors::{Factors, scaled};
use crate::vector::LIMIT;

/// What the numerators of two sides are multiplied by, over which denominator they then are, and what bounds them.
#[derive(Clone, Copy)]
pub(crate) struct Level {
    pub(crate) factors: Factors,
    pub(crate) denominator: u64,
    pub(crate) left_bound: u64,
    pub(crate) right_bound: u64,
}

/// A common multiple of two denominators, where one is found that is within the limits with both bounds.
pub(crate) fn level_of(left: u64, left_bound: u64, right: u64, right_bound: u64) -> Option<Level>
    requires left { 0 < left }
    requires right { 0 < right }
    ensures level { IfSome result (λ l. IsLevel left right l.factors.left l.factors.right l.denominator) }
    ensures below { IfSome result (λ l. l.denominator < 2 ^ 63) }
    ensures left_bound { IfSome result (λ l. l.left_bound ≡ left_bound * l.factors.left) }
    ensures right_bound { IfSome result (λ l. l.right_bound ≡ right_bound * l.factors.right) }
    ensures left_fits { IfSome result (λ l. l.left_bound < 2 ^ 63) }
    ensures right_fits { IfSome result (λ l. l.right_bound < 2 ^ 63) }
{
    let (by_left, by_right) = factors_of(left, right);
    let denominator = product_within(left, by_left)?;
    if denominator == 0 || by_right == 0 || product_within(right, by_right)? != denominator {
        return None;
    }
    Some(Level {
        factors: Factors {
            left: by_left,
            right: by_right,
        },
        denominator,
        left_bound: product_within(left_bound, by_left)?,
        right_bound: product_within(right_bound, by_right)?,
    })
}

/// Factors that bring two denominators to their least common multiple. That they bring them to one shows where they
/// are used.
fn factors_of(left: u64, right: u64) -> (u64, u64)
    ensures left { result.0 < 2 ^ 63 }
    ensures right { result.1 < 2 ^ 63 }
{
    if left == right {
        return (1, 1);
    }
    let divisor = divisor(left, right);
    if divisor == 0 || right / divisor >= LIMIT || left / divisor >= LIMIT {
        return (1, 1);
    }
    (right / divisor, left / divisor)
}

/// The product, where it is within the limits.
pub(crate) fn product_within(x: u64, y: u64) -> Option<u64>
    ensures value { IfSome result (λ p. p ≡ x * y) }
    ensures below { IfSome result (λ p. p < 2 ^ 63) }
{
    let product = x.checked_mul(y)?;
    if product < LIMIT { Some(product) } else { None }
}

/// The greatest common divisor. That it divides shows where it is used.
pub(crate) fn divisor(left: u64, right: u64) -> u64 {
    let mut x = left;
    let mut y = right;
    while y != 0 {
        let rest = x % y;
        x = y;
        y = rest;
    }
    x
}

/// What is left of a numerator and a denominator by a common divisor.
#[derive(Clone, Copy)]
pub(crate) struct Cut {
    pub(crate) numerator: i64,
    pub(crate) denominator: u64,
    pub(crate) divisor: u64,
}

/// A numerator and a denominator divided by what they share.
pub(crate) fn cut_of(numerator: i64, denominator: u64) -> Option<Cut>
    requires some { 0 < denominator }
    requires below { denominator < 2 ^ 63 }
    ensures numerator { IfSome result (λ c. c.numerator *ℤ pos c.divisor ≡ numerator) }
    ensures denominator { IfSome result (λ c. c.denominator * c.divisor ≡ denominator) }
    ensures some { IfSome result (λ c. 0 < c.denominator) }
{
    let divisor = divisor(numerator.unsigned_abs(), denominator);
    if divisor == 0 || divisor >= LIMIT {
        return None;
    }
    let left = numerator / (divisor as i64);
    let under = denominator / divisor;
    if under == 0 || product_within(left.unsigned_abs(), divisor).is_none() {
        return None;
    }
    if product_within(under, divisor)? != denominator || scaled(left, divisor) != numerator {
        return None;
    }
    Some(Cut {
        numerator: left,
        denominator: under,
        divisor,
    })
}
