//! Counts of formulas that gave values.

ghost use Rattle.std.specs.Prelude.{◌≡◌};
ghost use Rattle.fisca_evaluator.specs.Counted.{no_counts, with_kept, with_lost};

/// How many formulas gave values, by what became of these. Each count stops at `u64::MAX`.
#[derive(Clone, Copy, Debug, PartialEq, Eq)]
pub struct Counts {
    free: u64,
    bound: u64,
    lost: u64,
}

impl Counts {
    /// No formula so far.
    pub fn new() -> Counts
        ensures { result ≡ no_counts }
    {
        Counts {
            free: 0,
            bound: 0,
            lost: 0,
        }
    }

    /// The values that were remembered and read no wheel.
    pub fn free(self) -> u64
        ensures { result ≡ self.free }
    {
        self.free
    }

    /// The values that were remembered and read some wheel.
    pub fn bound(self) -> u64
        ensures { result ≡ self.bound }
    {
        self.bound
    }

    /// The values for which there was no memory.
    pub fn lost(self) -> u64
        ensures { result ≡ self.lost }
    {
        self.lost
    }

    /// Counts a value that is remembered and reads these wheels.
    pub(crate) fn count_kept(&mut self, reads: u16)
        ensures { self.new ≡ with_kept reads self.old }
    {
        if reads == 0 {
            self.free = self.free.saturating_add(1);
        } else {
            self.bound = self.bound.saturating_add(1);
        }
    }

    /// Counts a value for which there was no memory.
    pub(crate) fn count_lost(&mut self)
        ensures { self.new ≡ with_lost self.old }
    {
        self.lost = self.lost.saturating_add(1);
    }
}
