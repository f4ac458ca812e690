//! Why a run file is refused.

ghost use Rattle.std.specs.Prelude.{◌≡◌};
ghost use Rattle.fisca_columns.specs.Faults.{name_of, number_of};

use fisca_grid::AxesFault;
use fisca_inputs::SituationKind;
use std::alloc::{AllocError, AllocFailed};
use thiserror::Error;

/// Why a run file, or a file of `fisca calc`, is refused: this project's own list, by its numbers.
#[derive(Clone, Copy, Debug, PartialEq, Eq, Error)]
#[error("{}", self.name())]
pub enum RunFileKind {
    /// 1: a key is unknown, or what stands there has a wrong shape.
    BadKey,
    /// 2: the input is no situation.
    Situation(SituationKind),
    /// 3: the axes make no grid, or do not fit the situation.
    Axes(AxesFault),
    /// 4: a column can't be read, or names nothing that can be asked for.
    BadColumn,
    /// 5: a condition can't be read, speaks of nothing that can be asked for, or has a constant of another type.
    BadCondition,
    /// 6: a growth was refused.
    Memory,
    /// 7: what is to be neutralised is no variable that has values.
    BadNeutral,
}

impl RunFileKind {
    /// The number of the kind, from 1 to 7.
    pub fn number(self) -> u8
        ensures { result ≡ number_of self }
    {
        match self {
            RunFileKind::BadKey => 1,
            RunFileKind::Situation(_) => 2,
            RunFileKind::Axes(_) => 3,
            RunFileKind::BadColumn => 4,
            RunFileKind::BadCondition => 5,
            RunFileKind::Memory => 6,
            RunFileKind::BadNeutral => 7,
        }
    }

    /// The plain name of the kind, as `BadKey`: of a situation or of axes that of their own fault, as `UnknownPerson`.
    pub fn name(self) -> &'static str
        ensures { result.now ≡ name_of self }
    {
        match self {
            RunFileKind::BadKey => "BadKey",
            RunFileKind::Situation(kind) => kind.name(),
            RunFileKind::Axes(fault) => fault.name(),
            RunFileKind::BadColumn => "BadColumn",
            RunFileKind::BadCondition => "BadCondition",
            RunFileKind::Memory => "Memory",
            RunFileKind::BadNeutral => "BadNeutral",
        }
    }
}

/// A refusal, and the line where the file's first fault stands, counted from 1 (0 for want of memory).
#[derive(Clone, Copy, Debug, PartialEq, Eq, Error)]
#[error("{line}: {kind}")]
pub struct RunFileFault {
    /// The line.
    pub line: usize,
    /// What the fault is.
    pub kind: RunFileKind,
}

impl From<AllocError> for RunFileFault {
    ghost use Rattle.std.specs.Prelude.{◌≡◌};
    ghost use Rattle.fisca_columns.specs.declared.fault.RunFileKind.TheVariants.{Memory};

    ghost from_gives = { λ _ f. (f.kind ≡ Memory) × (f.line ≡ 0) };

    fn from(_error: AllocError) -> RunFileFault {
        RunFileFault {
            line: 0,
            kind: RunFileKind::Memory,
        }
    }
}

impl<T: Drop> From<AllocFailed<T>> for RunFileFault {
    ghost use Rattle.std.specs.Prelude.{◌≡◌};
    ghost use Rattle.fisca_columns.specs.declared.fault.RunFileKind.TheVariants.{Memory};

    ghost from_gives = { λ _ f. (f.kind ≡ Memory) × (f.line ≡ 0) };

    fn from(_error: AllocFailed<T>) -> RunFileFault {
        RunFileFault {
            line: 0,
            kind: RunFileKind::Memory,
        }
    }
}
