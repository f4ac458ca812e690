//! Why expected values can't be read.

ghost use Rattle.std.specs.Prelude.{◌≡◌};
ghost use Rattle.std.specs.Option.{unwrap_or};
ghost use Rattle.fisca_expected.specs.Faults as spec;
ghost use Rattle.fisca_yaml.specs.Find.{begins_on};
ghost use Rattle.fisca_yaml.specs.Views.{node};

use fisca_yaml::Tree;
use std::alloc::{AllocError, AllocFailed};
use thiserror::Error;

/// Why the expected values of a test can't be read: this project's own list, by its numbers.
#[derive(Clone, Copy, Debug, PartialEq, Eq, Error)]
#[error("{}", self.name())]
pub enum OutputFault {
    /// 1: a name, a period or a value is wrong, on this line, counted from 1.
    BadOutput {
        /// The line.
        line: usize,
    },
    /// 2: a growth was refused.
    Memory,
}

impl OutputFault {
    /// The number of the fault, 1 or 2.
    pub fn number(self) -> u8
        ensures { result ≡ spec.number_of self }
    {
        match self {
            OutputFault::BadOutput { .. } => 1,
            OutputFault::Memory => 2,
        }
    }

    /// The plain name of the fault, as `BadOutput`.
    pub fn name(self) -> &'static str
        ensures { result.now ≡ spec.name_of self }
    {
        match self {
            OutputFault::BadOutput { .. } => "BadOutput",
            OutputFault::Memory => "Memory",
        }
    }
}

/// A fault of the line on which this begins; of nothing, and of a list or a map without any, of the one that is given.
pub(crate) fn bad(line: usize, tree: &Tree<'_>) -> OutputFault
    ensures { result ≡ OutputFault.BadOutput (unwrap_or (begins_on (node tree.now)) line) }
{
    OutputFault::BadOutput {
        line: tree.line().unwrap_or(line),
    }
}

impl From<AllocError> for OutputFault {
    ghost use Rattle.std.specs.Prelude.{◌≡◌};
    ghost use Rattle.fisca_expected.specs.declared.fault.OutputFault.TheVariants.{Memory};

    ghost from_gives = { λ _ f. f ≡ Memory };

    fn from(_error: AllocError) -> OutputFault {
        OutputFault::Memory
    }
}

impl<T: Drop> From<AllocFailed<T>> for OutputFault {
    ghost use Rattle.std.specs.Prelude.{◌≡◌};
    ghost use Rattle.fisca_expected.specs.declared.fault.OutputFault.TheVariants.{Memory};

    ghost from_gives = { λ _ f. f ≡ Memory };

    fn from(_error: AllocFailed<T>) -> OutputFault {
        OutputFault::Memory
    }
}
