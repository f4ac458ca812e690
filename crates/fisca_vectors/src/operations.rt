//! What is done with two numerators.
ghost use Rattle.std.specs.Prelude.{◌≡◌, ◌<◌, ◌+◌, ◌^◌, max, IfSome};
ghost use Rattle.fisca_vectors.specs.Numerators.{size_of};

use crate::vector::LIMIT;

/// An operation on two numbers, lane by lane, over one denominator.
#[derive(Clone, Copy)]
pub(crate) enum LaneOperation {
    /// The left plus the right.
    Sum,
    /// The left less the right.
    Difference,
    /// The right less the left.
    Rest,
    /// The lesser.
    Least,
    /// The greater.
    Greatest,
}

impl LaneOperation {
    /// A bound of what the operation gives, where it is within the limits.
    pub(crate) fn bound(self, left: u64, right: u64) -> Option<u64>
        requires left { left < 2 ^ 63 }
        requires right { right < 2 ^ 63 }
        ensures value { IfSome result (λ b. b ≡ size_of self left right) }
        ensures below { IfSome result (λ b. b < 2 ^ 63) }
    {
        let bound = match self {
            LaneOperation::Sum | LaneOperation::Difference | LaneOperation::Rest => left + right,
            LaneOperation::Least | LaneOperation::Greatest => left.max(right),
        };
        if bound < LIMIT { Some(bound) } else { None }
    }
}

/// An operation on two numerators, where what it gives fits a word.
pub(crate) trait Pairwise {
    ghost use Rattle.std.specs.Prelude.{ℕ, ℤ, ◌≡◌, ◌<◌, ◌^◌, unsigned_abs};

    ghost op: { Self → ℤ → ℤ → ℤ };

    ghost size: { Self → ℕ → ℕ → ℕ };

    fn apply(&self, x: i64, y: i64) -> i64
        requires { size self.now (unsigned_abs x) (unsigned_abs y) < 2 ^ 63 }
        ensures { result ≡ op self.now x y };
}

/// Sums.
#[derive(Clone, Copy)]
pub(crate) struct Plus;

impl Pairwise for Plus {
    ghost use Rattle.std.specs.Prelude.{◌+◌, ◌+ℤ◌};

    ghost op = { λ _ x y. x +ℤ y };

    ghost size = { λ _ a b. a + b };

    #[inline]
    fn apply(&self, x: i64, y: i64) -> i64 {
        x + y
    }
}

/// Differences.
#[derive(Clone, Copy)]
pub(crate) struct Minus;

impl Pairwise for Minus {
    ghost use Rattle.std.specs.Prelude.{◌+◌, ◌-ℤ◌};

    ghost op = { λ _ x y. x -ℤ y };

    ghost size = { λ _ a b. a + b };

    #[inline]
    fn apply(&self, x: i64, y: i64) -> i64 {
        x - y
    }
}

/// Differences the other way.
#[derive(Clone, Copy)]
pub(crate) struct TakenFrom;

impl Pairwise for TakenFrom {
    ghost use Rattle.std.specs.Prelude.{◌+◌, ◌-ℤ◌};

    ghost op = { λ _ x y. y -ℤ x };

    ghost size = { λ _ a b. a + b };

    #[inline]
    fn apply(&self, x: i64, y: i64) -> i64 {
        y - x
    }
}

/// The lesser numerators.
#[derive(Clone, Copy)]
pub(crate) struct Lesser;

impl Pairwise for Lesser {
    ghost use Rattle.std.specs.Prelude.{max, cond, int_lt};

    ghost op = { λ _ x y. cond (int_lt y x) y x };

    ghost size = { λ _ a b. max a b };

    #[inline]
    fn apply(&self, x: i64, y: i64) -> i64 {
        if y < x { y } else { x }
    }
}

/// The greater numerators.
#[derive(Clone, Copy)]
pub(crate) struct Greater;

impl Pairwise for Greater {
    ghost use Rattle.std.specs.Prelude.{max, cond, int_lt};

    ghost op = { λ _ x y. cond (int_lt y x) x y };

    ghost size = { λ _ a b. max a b };

    #[inline]
    fn apply(&self, x: i64, y: i64) -> i64 {
        if y < x { x } else { y }
    }
}
