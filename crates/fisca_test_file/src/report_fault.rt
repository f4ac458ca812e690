//! Why there is no report.

ghost use Rattle.std.specs.Prelude.{◌≡◌};
ghost use Rattle.fisca_test_file.specs.Handing as spec;

use crate::fault::{TestFault, TestKind};
use std::alloc::AllocError;
use thiserror::Error;

/// Why there is no report on a file of tests, or not all of it.
#[derive(Clone, Copy, Debug, PartialEq, Eq, Error)]
#[error("{}", self.name())]
pub enum ReportFault {
    /// 1: the file is refused: its first fault, or that memory was refused.
    Tests(TestFault),
    /// 2: the sink failed.
    Write,
}

impl ReportFault {
    /// The number of the fault, 1 or 2.
    pub fn number(self) -> u8
        ensures { result ≡ spec.number_of self }
    {
        match self {
            ReportFault::Tests(_) => 1,
            ReportFault::Write => 2,
        }
    }

    /// The plain name of the fault: of tests that of their own fault, as `BadTest`.
    pub fn name(self) -> &'static str
        ensures { result.now ≡ spec.name_of self }
    {
        match self {
            ReportFault::Tests(fault) => fault.kind.name(),
            ReportFault::Write => "Write",
        }
    }
}

impl From<TestFault> for ReportFault {
    ghost use Rattle.std.specs.Prelude.{◌≡◌};
    ghost use Rattle.fisca_test_file.specs.declared.report_fault.ReportFault.TheVariants.{Tests};

    ghost from_gives = { λ fault f. f ≡ Tests fault };

    fn from(fault: TestFault) -> ReportFault {
        ReportFault::Tests(fault)
    }
}

impl From<AllocError> for ReportFault {
    ghost use Rattle.std.specs.Prelude.{◌≡◌};
    ghost use Rattle.fisca_test_file.specs.Handing.{memory_refused};

    ghost from_gives = { λ _ f. f ≡ memory_refused };

    fn from(_error: AllocError) -> ReportFault {
        ReportFault::Tests(TestFault {
            line: 0,
            kind: TestKind::Memory,
        })
    }
}
