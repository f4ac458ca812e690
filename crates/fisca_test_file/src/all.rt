//! The verdict on all tests.

ghost use Rattle.std.specs.Prelude.{◌≡◌, ◌+◌, ◌<◌, ◌^◌};
ghost use Rattle.fisca_test_file.specs.Report as spec;

/// How many tests passed and failed.
#[derive(Clone, Copy, Debug, PartialEq, Eq)]
pub struct Verdict {
    /// How many passed.
    pub passed: u64,
    /// How many failed.
    pub failed: u64,
}

impl Verdict {
    /// One test more, which passed or failed.
    pub(crate) fn with(self, passed: bool) -> Verdict
        requires { self.passed + self.failed + 1 < 2 ^ 64 }
        ensures { result ≡ spec.counted passed self }
    {
        if passed {
            Verdict {
                passed: self.passed + 1,
                failed: self.failed,
            }
        } else {
            Verdict {
                passed: self.passed,
                failed: self.failed + 1,
            }
        }
    }
}
