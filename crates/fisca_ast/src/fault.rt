//! The faults of modules and rule sets.

ghost use Rattle.std.specs.Prelude.{◌≡◌};
ghost use Rattle.fisca_ast.specs.Faults.{name_of, number_of};

use std::alloc::{AllocError, AllocFailed};
use thiserror::Error;

/// Why a module or a rule set is refused: this project's own list, in the order of its numbers.
#[derive(Clone, Copy, Debug, PartialEq, Eq, Error)]
#[error("{}", self.name())]
pub enum FormulaKind {
    /// The text is no module.
    Syntax = 1,
    /// A line stands at an indentation that is not open, or a tab stands in its indentation.
    Indent = 2,
    /// The text has a form of Python that is left out, or a number outside the limits.
    Unsupported = 3,
    /// A name stands for nothing.
    UnknownName = 4,
    /// No variable has this name.
    UnknownVariable = 5,
    /// No parameter has this name.
    UnknownParameter = 6,
    /// A value has not the type that its place asks for.
    BadType = 7,
    /// A value is one of the members where it has to be the group's own, or the other way round.
    BadLevel = 8,
    /// An attribute is unknown, missing, misfitting or given twice.
    BadAttribute = 9,
    /// Two things have one name.
    DuplicateName = 10,
    /// An expression is higher, or has more nodes, than the limits allow.
    TooDeep = 11,
    /// The text has more than 1 MiB.
    TooLong = 12,
    /// A growth was refused.
    Memory = 13,
}

impl FormulaKind {
    /// The number of the kind, from 1 to 13.
    pub fn number(self) -> u8
        ensures { result ≡ number_of self }
    {
        match self {
            FormulaKind::Syntax => 1,
            FormulaKind::Indent => 2,
            FormulaKind::Unsupported => 3,
            FormulaKind::UnknownName => 4,
            FormulaKind::UnknownVariable => 5,
            FormulaKind::UnknownParameter => 6,
            FormulaKind::BadType => 7,
            FormulaKind::BadLevel => 8,
            FormulaKind::BadAttribute => 9,
            FormulaKind::DuplicateName => 10,
            FormulaKind::TooDeep => 11,
            FormulaKind::TooLong => 12,
            FormulaKind::Memory => 13,
        }
    }

    /// The plain name of the kind, as `UnknownName`.
    pub fn name(self) -> &'static str
        ensures { result.now ≡ name_of self }
    {
        match self {
            FormulaKind::Syntax => "Syntax",
            FormulaKind::Indent => "Indent",
            FormulaKind::Unsupported => "Unsupported",
            FormulaKind::UnknownName => "UnknownName",
            FormulaKind::UnknownVariable => "UnknownVariable",
            FormulaKind::UnknownParameter => "UnknownParameter",
            FormulaKind::BadType => "BadType",
            FormulaKind::BadLevel => "BadLevel",
            FormulaKind::BadAttribute => "BadAttribute",
            FormulaKind::DuplicateName => "DuplicateName",
            FormulaKind::TooDeep => "TooDeep",
            FormulaKind::TooLong => "TooLong",
            FormulaKind::Memory => "Memory",
        }
    }
}

impl From<AllocError> for FormulaKind {
    ghost use Rattle.std.specs.Prelude.{◌≡◌};
    ghost use Rattle.fisca_ast.specs.declared.fault.FormulaKind.TheVariants.{Memory};

    ghost from_gives = { λ _ k. k ≡ Memory };

    fn from(_error: AllocError) -> FormulaKind {
        FormulaKind::Memory
    }
}

impl<T: Drop> From<AllocFailed<T>> for FormulaKind {
    ghost use Rattle.std.specs.Prelude.{◌≡◌};
    ghost use Rattle.fisca_ast.specs.declared.fault.FormulaKind.TheVariants.{Memory};

    ghost from_gives = { λ _ k. k ≡ Memory };

    fn from(_error: AllocFailed<T>) -> FormulaKind {
        FormulaKind::Memory
    }
}

/// A refusal, and the line where the first fault stands, counted from 1 (0 for want of memory).
#[derive(Clone, Copy, Debug, PartialEq, Eq, Error)]
#[error("{line}: {kind}")]
pub struct FormulaFault {
    pub line: usize,
    pub kind: FormulaKind,
}

impl From<AllocError> for FormulaFault {
    ghost use Rattle.std.specs.Prelude.{◌≡◌};
    ghost use Rattle.fisca_ast.specs.declared.fault.FormulaKind.TheVariants.{Memory};

    ghost from_gives = { λ _ f. f.kind ≡ Memory };

    fn from(_error: AllocError) -> FormulaFault {
        FormulaFault {
            line: 0,
            kind: FormulaKind::Memory,
        }
    }
}

impl<T: Drop> From<AllocFailed<T>> for FormulaFault {
    ghost use Rattle.std.specs.Prelude.{◌≡◌};
    ghost use Rattle.fisca_ast.specs.declared.fault.FormulaKind.TheVariants.{Memory};

    ghost from_gives = { λ _ f. f.kind ≡ Memory };

    fn from(_error: AllocFailed<T>) -> FormulaFault {
        FormulaFault {
            line: 0,
            kind: FormulaKind::Memory,
        }
    }
}
