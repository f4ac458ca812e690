//! Why no members can be read.

ghost use Rattle.std.specs.Prelude.{◌≡◌};
ghost use Rattle.fisca_members.specs.Kinds.{number_of};

use std::alloc::{AllocError, AllocFailed};
use thiserror::Error;

/// What is wrong with the persons or groups of an input.
#[derive(Clone, Copy, Debug, PartialEq, Eq, Hash, Error)]
pub enum MembersKind {
    /// A key names no entity, or one that an earlier key names.
    #[error("UnknownEntity")]
    UnknownEntity,
    /// A role is given to a name that no person has, or there is no person at all.
    #[error("UnknownPerson")]
    UnknownPerson,
    /// A person has a role of this kind of group already.
    #[error("PersonTwice")]
    PersonTwice,
    /// As many persons have the role as can have it.
    #[error("RoleFull")]
    RoleFull,
    /// What stands there is of a wrong shape.
    #[error("BadValue")]
    BadValue,
    /// There are more than 1,000 persons, or more than 1,000 groups of a kind (this project's own limit).
    #[error("TooMany")]
    TooMany,
    /// No memory was given.
    #[error("Memory")]
    Memory,
}

impl MembersKind {
    /// The number of the kind, from 1 to 7.
    pub fn number(self) -> u8
        ensures { result ≡ number_of self }
    {
        match self {
            MembersKind::UnknownEntity => 1,
            MembersKind::UnknownPerson => 2,
            MembersKind::PersonTwice => 3,
            MembersKind::RoleFull => 4,
            MembersKind::BadValue => 5,
            MembersKind::TooMany => 6,
            MembersKind::Memory => 7,
        }
    }
}

/// Why no members can be read: the line of the input's text on which the first fault stands, counted from 1 (0 for want of
/// memory), and what it is.
#[derive(Clone, Copy, Debug, PartialEq, Eq, Hash, Error)]
#[error("{line}: {kind}")]
pub struct MembersFault {
    /// The line.
    pub line: usize,
    /// What is wrong there.
    pub kind: MembersKind,
}

impl From<AllocError> for MembersFault {
    ghost use Rattle.std.specs.Prelude.{◌≡◌};
    ghost use Rattle.fisca_members.specs.declared.fault.MembersKind.TheVariants.{Memory};

    ghost from_gives = { λ _ f. (f.kind ≡ Memory) × (f.line ≡ 0) };

    fn from(_error: AllocError) -> MembersFault {
        MembersFault {
            line: 0,
            kind: MembersKind::Memory,
        }
    }
}

impl<T: Drop> From<AllocFailed<T>> for MembersFault {
    ghost use Rattle.std.specs.Prelude.{◌≡◌};
    ghost use Rattle.fisca_members.specs.declared.fault.MembersKind.TheVariants.{Memory};

    ghost from_gives = { λ _ f. (f.kind ≡ Memory) × (f.line ≡ 0) };

    fn from(_error: AllocFailed<T>) -> MembersFault {
        MembersFault {
            line: 0,
            kind: MembersKind::Memory,
        }
    }
}
