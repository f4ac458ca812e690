//! Why tests are refused.

ghost use Rattle.std.specs.Prelude.{◌≡◌};
ghost use Rattle.fisca_test_file.specs.Faults as spec;
ghost use Rattle.fisca_test_file.specs.Steps.Faults as steps;

use fisca_expected::OutputFault;
use fisca_inputs::{SituationFault, SituationKind};
use std::alloc::{AllocError, AllocFailed};
use thiserror::Error;

/// Why a file of tests is refused: this project's own list, by its numbers.
#[derive(Clone, Copy, Debug, PartialEq, Eq, Error)]
#[error("{}", self.name())]
pub enum TestKind {
    /// 1: a key is unknown or missing, or what stands there has a wrong shape.
    BadTest,
    /// 2: the input is no situation.
    Situation(SituationKind),
    /// 3: an expected value names nothing that can be asked for, or is none of its variable.
    BadOutput,
    /// 4: a growth was refused.
    Memory,
    /// 5: the test names reforms or extensions, which stand in folders of their own: the program takes them by its option `--reform`.
    UseReform,
}

impl TestKind {
    /// The number of the kind, from 1 to 5.
    pub fn number(self) -> u8
        ensures { result ≡ spec.number_of self }
    {
        match self {
            TestKind::BadTest => 1,
            TestKind::Situation(_) => 2,
            TestKind::BadOutput => 3,
            TestKind::Memory => 4,
            TestKind::UseReform => 5,
        }
    }

    /// The plain name of the kind, as `BadTest`: of a situation that of its own fault, as `UnknownPerson`.
    pub fn name(self) -> &'static str
        ensures { result.now ≡ spec.name_of self }
    {
        match self {
            TestKind::BadTest => "BadTest",
            TestKind::Situation(kind) => kind.name(),
            TestKind::BadOutput => "BadOutput",
            TestKind::Memory => "Memory",
            TestKind::UseReform => "UseReform",
        }
    }
}

/// A refusal, and the line where the file's first fault stands, counted from 1 (0 for want of memory).
#[derive(Clone, Copy, Debug, PartialEq, Eq, Error)]
#[error("{line}: {kind}")]
pub struct TestFault {
    /// The line.
    pub line: usize,
    /// What the fault is.
    pub kind: TestKind,
}

/// The kind of a fault of a situation.
fn kind_of(kind: SituationKind) -> TestKind
    ensures { result ≡ steps.kind_of kind }
{
    match kind {
        SituationKind::UnknownEntity
        | SituationKind::UnknownVariable
        | SituationKind::UnknownPerson
        | SituationKind::PersonTwice
        | SituationKind::RoleFull
        | SituationKind::BadValue
        | SituationKind::PeriodMismatch
        | SituationKind::InconsistentInput
        | SituationKind::TooMany => TestKind::Situation(kind),
        SituationKind::Memory => TestKind::Memory,
    }
}

/// A fault of a situation, as one of the file.
pub(crate) fn situation_fault(fault: SituationFault) -> TestFault
    ensures { result ≡ steps.situation_fault fault }
{
    TestFault {
        line: fault.line,
        kind: kind_of(fault.kind),
    }
}

/// A fault of outputs, as one of the file.
pub(crate) fn output_fault(fault: OutputFault) -> TestFault
    ensures { result ≡ steps.output_fault fault }
{
    match fault {
        OutputFault::BadOutput { line } => TestFault {
            line,
            kind: TestKind::BadOutput,
        },
        OutputFault::Memory => TestFault {
            line: 0,
            kind: TestKind::Memory,
        },
    }
}

/// A test that is refused on this line.
pub(crate) fn bad_test(line: usize) -> TestFault
    ensures { result ≡ record { line = line; kind = TestKind.BadTest } }
{
    TestFault {
        line,
        kind: TestKind::BadTest,
    }
}

impl From<AllocError> for TestFault {
    ghost use Rattle.std.specs.Prelude.{◌≡◌};
    ghost use Rattle.fisca_test_file.specs.declared.fault.TestKind.TheVariants.{Memory};

    ghost from_gives = { λ _ f. (f.kind ≡ Memory) × (f.line ≡ 0) };

    fn from(_error: AllocError) -> TestFault {
        TestFault {
            line: 0,
            kind: TestKind::Memory,
        }
    }
}

impl<T: Drop> From<AllocFailed<T>> for TestFault {
    ghost use Rattle.std.specs.Prelude.{◌≡◌};
    ghost use Rattle.fisca_test_file.specs.declared.fault.TestKind.TheVariants.{Memory};

    ghost from_gives = { λ _ f. (f.kind ≡ Memory) × (f.line ≡ 0) };

    fn from(_error: AllocFailed<T>) -> TestFault {
        TestFault {
            line: 0,
            kind: TestKind::Memory,
        }
    }
}
