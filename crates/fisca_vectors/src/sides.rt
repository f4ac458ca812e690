//! The right side of an operation: numerators of all lanes, or one for all.
ghost use Rattle.std.specs.Prelude.{◌<◌, length};

/// What has a numerator at a lane.
pub(crate) trait Side {
    ghost use Rattle.std.specs.Prelude.{ℕ, ℤ, ◌≡◌};

    ghost at: { Self → ℕ → ℤ };

    ghost has: { Self → ℕ → Type 0 };

    fn numerator(&self, lane: usize) -> i64
        requires { has self.now lane }
        ensures { result ≡ at self.now lane };
}

/// A numerator a lane.
#[derive(Clone, Copy)]
pub(crate) struct Each<'a>(pub(crate) &'a [i64]);

impl<'a> Side for Each<'a> {
    ghost use Rattle.std.specs.Prelude.{◌<◌, length};
    ghost use Rattle.fisca_vectors.specs.Numerators as numerators;

    ghost at = { λ s k. numerators.at s.0.now k };

    ghost has = { λ s k. k < length s.0.now };

    #[inline]
    fn numerator(&self, lane: usize) -> i64 {
        self.0[lane]
    }
}

/// One numerator for all lanes.
#[derive(Clone, Copy)]
pub(crate) struct Uniform(pub(crate) i64);

impl Side for Uniform {
    ghost at = { λ s _. s.0 };

    ghost has = { λ _ _. Unit };

    #[inline]
    fn numerator(&self, _lane: usize) -> i64 {
        self.0
    }
}
