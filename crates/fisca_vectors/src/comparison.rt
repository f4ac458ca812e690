//! Comparisons of numbers, and the tests of numerators that tell them.

/// How a number is compared with another.
#[derive(Clone, Copy)]
pub enum LaneComparison {
    /// `>=`
    AtLeast,
    /// `<=`
    AtMost,
    /// `==`
    Equal,
    /// `!=`
    NotEqual,
    /// `>`
    Above,
    /// `<`
    Below,
}

/// A test of two numerators over one denominator.
pub(crate) trait Test {
    ghost use Rattle.std.specs.Prelude.{ℤ, ◌≡◌, Bool};

    ghost test: { Self → ℤ → ℤ → Bool };

    fn holds(&self, x: i64, y: i64) -> bool
        ensures { result ≡ test self.now x y };
}

/// Whether the left is at least the right.
#[derive(Clone, Copy)]
pub(crate) struct IsAtLeast;

impl Test for IsAtLeast {
    ghost use Rattle.std.specs.Prelude.{int_lt, not};

    ghost test = { λ _ x y. not (int_lt x y) };

    #[inline]
    fn holds(&self, x: i64, y: i64) -> bool {
        x >= y
    }
}

/// Whether the left is at most the right.
#[derive(Clone, Copy)]
pub(crate) struct IsAtMost;

impl Test for IsAtMost {
    ghost use Rattle.std.specs.Prelude.{int_lt, not};

    ghost test = { λ _ x y. not (int_lt y x) };

    #[inline]
    fn holds(&self, x: i64, y: i64) -> bool {
        x <= y
    }
}

/// Whether both are equal.
#[derive(Clone, Copy)]
pub(crate) struct IsEqual;

impl Test for IsEqual {
    ghost use Rattle.std.specs.Ordering.{int_eq};

    ghost test = { λ _ x y. int_eq x y };

    #[inline]
    fn holds(&self, x: i64, y: i64) -> bool {
        x == y
    }
}

/// Whether both are not equal.
#[derive(Clone, Copy)]
pub(crate) struct IsNotEqual;

impl Test for IsNotEqual {
    ghost use Rattle.std.specs.Prelude.{not};
    ghost use Rattle.std.specs.Ordering.{int_eq};

    ghost test = { λ _ x y. not (int_eq x y) };

    #[inline]
    fn holds(&self, x: i64, y: i64) -> bool {
        x != y
    }
}

/// Whether the left is above the right.
#[derive(Clone, Copy)]
pub(crate) struct IsAbove;

impl Test for IsAbove {
    ghost use Rattle.std.specs.Prelude.{int_lt};

    ghost test = { λ _ x y. int_lt y x };

    #[inline]
    fn holds(&self, x: i64, y: i64) -> bool {
        x > y
    }
}

/// Whether the left is below the right.
#[derive(Clone, Copy)]
pub(crate) struct IsBelow;

impl Test for IsBelow {
    ghost use Rattle.std.specs.Prelude.{int_lt};

    ghost test = { λ _ x y. int_lt x y };

    #[inline]
    fn holds(&self, x: i64, y: i64) -> bool {
        x < y
    }
}
