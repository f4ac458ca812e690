//! Why a file's tree finds no place among the nodes.
ghost use Rattle.std.specs.Prelude.{◌≡◌};
ghost use Rattle.fisca_params.specs.Answers.{fault_in};

use fisca_scales::ParamFault;
use std::alloc::{AllocError, AllocFailed};
use thiserror::Error;

/// Why a file's tree finds no place among the nodes. `line` is a line of the file, counted from 1.
#[derive(Clone, Copy, Debug, Error)]
pub(crate) enum NodeFault {
    /// What stands there is no parameter, scale or map of such.
    #[error("BadParameter")]
    BadParameter { line: usize },
    /// The name stands there already.
    #[error("DuplicateName")]
    DuplicateName { line: usize },
    /// No memory was given.
    #[error("Memory")]
    Memory,
}

impl NodeFault {
    /// The fault of the file at this place.
    pub(crate) fn in_file(self, file: usize) -> ParamFault
        ensures { result ≡ fault_in file self }
    {
        match self {
            NodeFault::BadParameter { line } => ParamFault::BadParameter { file, line },
            NodeFault::DuplicateName { line } => ParamFault::DuplicateName { file, line },
            NodeFault::Memory => ParamFault::Memory,
        }
    }
}

impl From<AllocError> for NodeFault {
    ghost use Rattle.std.specs.Prelude.{◌≡◌};
    ghost use Rattle.fisca_params.specs.declared.fault.NodeFault.TheVariants.{Memory};

    ghost from_gives = { λ _ fault. fault ≡ Memory };

    fn from(_refused: AllocError) -> NodeFault {
        NodeFault::Memory
    }
}

impl<T: Drop> From<AllocFailed<T>> for NodeFault {
    ghost use Rattle.std.specs.Prelude.{◌≡◌};
    ghost use Rattle.fisca_params.specs.declared.fault.NodeFault.TheVariants.{Memory};

    ghost from_gives = { λ _ fault. fault ≡ Memory };

    fn from(_refused: AllocFailed<T>) -> NodeFault {
        NodeFault::Memory
    }
}
