//! Why a rule set is refused.

use fisca_ast::FormulaKind;
use std::alloc::{AllocError, AllocFailed};
use thiserror::Error;

/// Why the modules of a rule set are refused: the place of the module, the line of its first fault, counted from 1 (0 for want
/// of memory), and what it is. A missing person entity is told of line 1 of the first module.
#[derive(Clone, Copy, Debug, PartialEq, Eq, Error)]
#[error("module {module}: {line}: {kind}")]
pub struct BuildFault {
    /// The place of the module.
    pub module: usize,
    /// The line of the statement that has the fault.
    pub line: usize,
    /// What the fault is, by the number of its kind.
    pub kind: FormulaKind,
}

impl From<AllocError> for BuildFault {
    ghost use Rattle.std.specs.Prelude.{◌≡◌};
    ghost use Rattle.fisca_ast.specs.declared.fault.FormulaKind.TheVariants.{Memory};

    ghost from_gives = { λ _ f. f.kind ≡ Memory };

    fn from(_error: AllocError) -> BuildFault {
        BuildFault {
            module: 0,
            line: 0,
            kind: FormulaKind::Memory,
        }
    }
}

impl<T: Drop> From<AllocFailed<T>> for BuildFault {
    ghost use Rattle.std.specs.Prelude.{◌≡◌};
    ghost use Rattle.fisca_ast.specs.declared.fault.FormulaKind.TheVariants.{Memory};

    ghost from_gives = { λ _ f. f.kind ≡ Memory };

    fn from(_error: AllocFailed<T>) -> BuildFault {
        BuildFault {
            module: 0,
            line: 0,
            kind: FormulaKind::Memory,
        }
    }
}
