//! How outputs come out.

ghost use Rattle.std.specs.Prelude.{◌≡◌};
ghost use Rattle.fisca_test_file.specs.Steps.Verdicts.{is_passed};

use fisca_model::Value;

/// How an output came out. `F` is the type of the faults of keys.
#[derive(Clone, Copy)]
pub enum Outcome<F> {
    /// The value is near enough to the expected one.
    Passed,
    /// This value is not.
    Missed(Value),
    /// The difference, or how far it may be, has a part beyond the limits of numbers.
    TooWide,
    /// There is no value.
    Faulted(F),
}

impl<F> Outcome<F> {
    /// Whether the output passed.
    pub fn is_passed(&self) -> bool
        ensures { result ≡ is_passed self.now }
    {
        match self {
            Outcome::Passed => true,
            Outcome::Missed(_) | Outcome::TooWide | Outcome::Faulted(_) => false,
        }
    }
}
