//! Why a situation is refused.

ghost use Rattle.std.specs.Prelude.{◌≡◌};
ghost use Rattle.fisca_inputs.specs.Faults.{name_of, number_of};

use std::alloc::{AllocError, AllocFailed};
use thiserror::Error;

/// Why a situation is refused: this project's own list, by its numbers.
#[derive(Clone, Copy, Debug, PartialEq, Eq, Error)]
#[error("{}", self.name())]
pub enum SituationKind {
    /// 1: a key names no entity, or an entity is named twice.
    UnknownEntity,
    /// 2: a key names no variable of the entity.
    UnknownVariable,
    /// 3: a name is no person's, or there is no person at all.
    UnknownPerson,
    /// 4: a person stands in two groups of a kind, or twice in one.
    PersonTwice,
    /// 5: a role has more persons than it may have.
    RoleFull,
    /// 6: a value has not the variable's type, something has a wrong shape, or a share is too wide.
    BadValue,
    /// 7: a period is missing, unreadable, or not one that the variable takes.
    PeriodMismatch,
    /// 8: two inputs of one key contradict each other, or a divided one leaves something that no part takes.
    InconsistentInput,
    /// 9: there are more than 1,000 persons or groups of a kind, or more than 100,000 inputs.
    TooMany,
    /// 10: a growth was refused.
    Memory,
}

impl SituationKind {
    /// The number of the kind, from 1 to 10.
    pub fn number(self) -> u8
        ensures { result ≡ number_of self }
    {
        match self {
            SituationKind::UnknownEntity => 1,
            SituationKind::UnknownVariable => 2,
            SituationKind::UnknownPerson => 3,
            SituationKind::PersonTwice => 4,
            SituationKind::RoleFull => 5,
            SituationKind::BadValue => 6,
            SituationKind::PeriodMismatch => 7,
            SituationKind::InconsistentInput => 8,
            SituationKind::TooMany => 9,
            SituationKind::Memory => 10,
        }
    }

    /// The plain name of the kind, as `BadValue`.
    pub fn name(self) -> &'static str
        ensures { result.now ≡ name_of self }
    {
        match self {
            SituationKind::UnknownEntity => "UnknownEntity",
            SituationKind::UnknownVariable => "UnknownVariable",
            SituationKind::UnknownPerson => "UnknownPerson",
            SituationKind::PersonTwice => "PersonTwice",
            SituationKind::RoleFull => "RoleFull",
            SituationKind::BadValue => "BadValue",
            SituationKind::PeriodMismatch => "PeriodMismatch",
            SituationKind::InconsistentInput => "InconsistentInput",
            SituationKind::TooMany => "TooMany",
            SituationKind::Memory => "Memory",
        }
    }
}

/// A refusal, and the line where the situation's first fault stands, counted from 1 (0 for want of memory).
#[derive(Clone, Copy, Debug, PartialEq, Eq, Error)]
#[error("{line}: {kind}")]
pub struct SituationFault {
    /// The line.
    pub line: usize,
    /// What the fault is.
    pub kind: SituationKind,
}

impl From<AllocError> for SituationFault {
    ghost use Rattle.std.specs.Prelude.{◌≡◌};
    ghost use Rattle.fisca_inputs.specs.declared.fault.SituationKind.TheVariants.{Memory};

    ghost from_gives = { λ _ f. (f.kind ≡ Memory) × (f.line ≡ 0) };

    fn from(_error: AllocError) -> SituationFault {
        SituationFault {
            line: 0,
            kind: SituationKind::Memory,
        }
    }
}

impl<T: Drop> From<AllocFailed<T>> for SituationFault {
    ghost use Rattle.std.specs.Prelude.{◌≡◌};
    ghost use Rattle.fisca_inputs.specs.declared.fault.SituationKind.TheVariants.{Memory};

    ghost from_gives = { λ _ f. (f.kind ≡ Memory) × (f.line ≡ 0) };

    fn from(_error: AllocFailed<T>) -> SituationFault {
        SituationFault {
            line: 0,
            kind: SituationKind::Memory,
        }
    }
}
