//! Refusals of expressions.

use fisca_ast::FormulaKind;
use std::alloc::{AllocError, AllocFailed};

/// A refusal, and how many tokens are left where it stands.
#[derive(Clone, Copy, Debug, PartialEq, Eq)]
pub struct ParseRefusal {
    /// How many tokens are left there.
    pub left: usize,
    /// Why.
    pub kind: FormulaKind,
}

impl From<AllocError> for ParseRefusal {
    ghost use Rattle.std.specs.Prelude.{◌≡◌};
    ghost use Rattle.fisca_ast.specs.declared.fault.FormulaKind.TheVariants.{Memory};

    ghost from_gives = { λ _ f. f.kind ≡ Memory };

    fn from(_error: AllocError) -> ParseRefusal {
        ParseRefusal {
            left: 0,
            kind: FormulaKind::Memory,
        }
    }
}

impl<T: Drop> From<AllocFailed<T>> for ParseRefusal {
    ghost use Rattle.std.specs.Prelude.{◌≡◌};
    ghost use Rattle.fisca_ast.specs.declared.fault.FormulaKind.TheVariants.{Memory};

    ghost from_gives = { λ _ f. f.kind ≡ Memory };

    fn from(_error: AllocFailed<T>) -> ParseRefusal {
        ParseRefusal {
            left: 0,
            kind: FormulaKind::Memory,
        }
    }
}
