//! Faults of lines.

ghost use Rattle.std.specs.Prelude.{◌≡◌, ◌≢◌};

use crate::BuildFault;
use fisca_ast::FormulaKind;

/// A fault of a line of a module; want of memory has no line.
pub(crate) fn fault_at(place: usize, line: usize, kind: FormulaKind) -> BuildFault
    ensures kind { result.kind ≡ kind }
    ensures told { kind ≢ FormulaKind.Memory → result ≡ record { «module» = place; line = line; kind = kind } }
{
    if kind == FormulaKind::Memory {
        return BuildFault {
            module: 0,
            line: 0,
            kind,
        };
    }
    BuildFault {
        module: place,
        line,
        kind,
    }
}
