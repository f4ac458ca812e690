//! Why parameters are refused, or a scale has no sum.
ghost use Rattle.std.specs.Prelude.{◌≡◌};
ghost use Rattle.fisca_scales.specs.Names.{name_of, number_of};

use fisca_num::NumFault;
use fisca_yaml::YamlFault;
use std::alloc::{AllocError, AllocFailed};
use thiserror::Error;

/// Why parameter files are refused, or a scale has no sum. `file` is a place in the slice of files that was read, and
/// `line` a line of that file, counted from 1.
#[derive(Clone, Copy, Debug, PartialEq, Eq, Error)]
#[error("{}", self.name())]
pub enum ParamFault {
    /// 1: the file's text has no YAML tree, or passes a limit.
    Yaml { file: usize, fault: YamlFault },
    /// 2: the file's tree is no parameter, scale or node.
    BadParameter { file: usize, line: usize },
    /// 3: another file, or another file's folder, has the name of this file's node or of a folder above it.
    DuplicateName { file: usize, line: usize },
    /// 4: two brackets of the scale have one threshold at the instant.
    BadScale,
    /// 5: no bracket of the scale is complete at the instant.
    Undefined,
    /// 6: a part of the scale's sum is no number.
    Number(NumFault),
    /// 7: no memory was given.
    Memory,
}

impl ParamFault {
    /// The number of the fault, from 1 to 7.
    pub fn number(self) -> u8
        ensures { result ≡ number_of self }
    {
        match self {
            ParamFault::Yaml { .. } => 1,
            ParamFault::BadParameter { .. } => 2,
            ParamFault::DuplicateName { .. } => 3,
            ParamFault::BadScale => 4,
            ParamFault::Undefined => 5,
            ParamFault::Number(_) => 6,
            ParamFault::Memory => 7,
        }
    }

    /// The plain name of the fault, as `BadScale`: of a fault of YAML or of a number, that one's name.
    pub fn name(self) -> &'static str
        ensures { result.now ≡ name_of self }
    {
        match self {
            ParamFault::Yaml { fault, .. } => fault.kind.name(),
            ParamFault::BadParameter { .. } => "BadParameter",
            ParamFault::DuplicateName { .. } => "DuplicateName",
            ParamFault::BadScale => "BadScale",
            ParamFault::Undefined => "Undefined",
            ParamFault::Number(fault) => fault.name(),
            ParamFault::Memory => "Memory",
        }
    }
}

impl From<AllocError> for ParamFault {
    ghost use Rattle.std.specs.Prelude.{◌≡◌};
    ghost use Rattle.fisca_scales.specs.declared.fault.ParamFault.TheVariants.{Memory};

    ghost from_gives = { λ _ fault. fault ≡ Memory };

    fn from(_refused: AllocError) -> ParamFault {
        ParamFault::Memory
    }
}

impl<T: Drop> From<AllocFailed<T>> for ParamFault {
    ghost use Rattle.std.specs.Prelude.{◌≡◌};
    ghost use Rattle.fisca_scales.specs.declared.fault.ParamFault.TheVariants.{Memory};

    ghost from_gives = { λ _ fault. fault ≡ Memory };

    fn from(_refused: AllocFailed<T>) -> ParamFault {
        ParamFault::Memory
    }
}
