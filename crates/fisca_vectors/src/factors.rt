//! What brings numerators over a common denominator.
ghost use Rattle.std.specs.Prelude.{◌≡◌, ◌<◌, ◌*◌, ◌^◌, pos, ◌*ℤ◌, unsigned_abs};

/// What the numerators of two sides are multiplied by.
#[derive(Clone, Copy)]
pub(crate) struct Factors {
    pub(crate) left: u64,
    pub(crate) right: u64,
    ghost left_below: { left < 2 ^ 63 },
    ghost right_below: { right < 2 ^ 63 },
}

/// The numerator over a denominator that is `by` times as large.
#[inline]
pub(crate) fn scaled(x: i64, by: u64) -> i64
    requires by { by < 2 ^ 63 }
    requires fits { unsigned_abs x * by < 2 ^ 63 }
    ensures { result ≡ x *ℤ pos by }
{
    x * (by as i64)
}

/// Brings the numerators of two sides over one denominator.
pub(crate) trait Bring {
    ghost use Rattle.std.specs.Prelude.{ℕ, ◌≡◌, ◌<◌, ◌^◌, ◌*◌, ◌*ℤ◌, pos, unsigned_abs};

    ghost left: { Self → ℕ };

    ghost right: { Self → ℕ };

    fn left(&self, x: i64) -> i64
        requires { unsigned_abs x * left self.now < 2 ^ 63 }
        ensures value { result ≡ x *ℤ pos (left self.now) }
        ensures size { unsigned_abs result ≡ unsigned_abs x * left self.now };

    fn right(&self, x: i64) -> i64
        requires { unsigned_abs x * right self.now < 2 ^ 63 }
        ensures value { result ≡ x *ℤ pos (right self.now) }
        ensures size { unsigned_abs result ≡ unsigned_abs x * right self.now };
}

/// Both are multiplied.
impl Bring for Factors {
    ghost left = { λ f. f.left };

    ghost right = { λ f. f.right };

    #[inline]
    fn left(&self, x: i64) -> i64 {
        scaled(x, self.left)
    }

    #[inline]
    fn right(&self, x: i64) -> i64 {
        scaled(x, self.right)
    }
}

/// None is.
#[derive(Clone, Copy)]
pub(crate) struct Neither;

impl Bring for Neither {
    ghost left = { λ _. 1 };

    ghost right = { λ _. 1 };

    #[inline]
    fn left(&self, x: i64) -> i64 {
        x
    }

    #[inline]
    fn right(&self, x: i64) -> i64 {
        x
    }
}

/// The left alone is.
#[derive(Clone, Copy)]
pub(crate) struct LeftOnly {
    pub(crate) by: u64,
    ghost below: { by < 2 ^ 63 },
}

impl Bring for LeftOnly {
    ghost left = { λ f. f.by };

    ghost right = { λ _. 1 };

    #[inline]
    fn left(&self, x: i64) -> i64 {
        scaled(x, self.by)
    }

    #[inline]
    fn right(&self, x: i64) -> i64 {
        x
    }
}

/// The right alone is.
#[derive(Clone, Copy)]
pub(crate) struct RightOnly {
    pub(crate) by: u64,
    ghost below: { by < 2 ^ 63 },
}

impl Bring for RightOnly {
    ghost left = { λ _. 1 };

    ghost right = { λ f. f.by };

    #[inline]
    fn left(&self, x: i64) -> i64 {
        x
    }

    #[inline]
    fn right(&self, x: i64) -> i64 {
        scaled(x, self.by)
    }
}
