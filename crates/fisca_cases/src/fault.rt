//! What is told in place of an answer.

use fisca_ast::FormulaFault;
use fisca_cases_base::{BaseFault, Written};
use fisca_columns::RunFileFault;
use fisca_inputs::SituationFault;
use fisca_num::NumFault;
use fisca_params::ParamFault;
use fisca_rules::BuildFault;
use fisca_time::TimeFault;
use fisca_yaml::YamlFault;
use std::alloc::{AllocError, AllocFailed, Global};
use thiserror::Error;

/// Why a case has no answer: the fault that the call gave, or that it is no case.
#[derive(Debug, Drop, Error)]
pub enum CaseFault {
    #[error("{0}")]
    Layer(#[from] BaseFault),
    #[error("{0}")]
    Build(#[from] BuildFault),
    #[error("{0}")]
    Situation(#[from] SituationFault),
    #[error("{0}")]
    RunFile(#[from] RunFileFault),
}

impl From<AllocError> for CaseFault {
    fn from(error: AllocError) -> CaseFault {
        CaseFault::Layer(BaseFault::from(error))
    }
}

impl<T: Drop> From<AllocFailed<T>> for CaseFault {
    fn from(_error: AllocFailed<T>) -> CaseFault {
        CaseFault::Layer(BaseFault::Memory)
    }
}

impl From<NumFault> for CaseFault {
    fn from(fault: NumFault) -> CaseFault {
        CaseFault::Layer(BaseFault::from(fault))
    }
}

impl From<TimeFault> for CaseFault {
    fn from(fault: TimeFault) -> CaseFault {
        CaseFault::Layer(BaseFault::from(fault))
    }
}

impl From<YamlFault> for CaseFault {
    fn from(fault: YamlFault) -> CaseFault {
        CaseFault::Layer(BaseFault::from(fault))
    }
}

impl From<FormulaFault> for CaseFault {
    fn from(fault: FormulaFault) -> CaseFault {
        CaseFault::Layer(BaseFault::from(fault))
    }
}

impl From<ParamFault> for CaseFault {
    fn from(fault: ParamFault) -> CaseFault {
        CaseFault::Layer(BaseFault::from(fault))
    }
}

/// It is no case.
pub fn malformed() -> CaseFault {
    CaseFault::Layer(BaseFault::Malformed)
}

/// There was no memory.
pub fn no_memory() -> CaseFault {
    CaseFault::Layer(BaseFault::Memory)
}

impl CaseFault {
    /// The fault as its number, its name and the line where it stands.
    pub fn told(&self, alloc: Global) -> Result<String, AllocError> {
        let mut told = Written::new(alloc);
        match self {
            CaseFault::Layer(fault) => return fault.told(alloc),
            CaseFault::Build(fault) => push_build(&mut told, *fault),
            CaseFault::Situation(fault) => {
                told.push_fault(fault.kind.number(), &fault.kind);
                told.push_line(fault.line);
            }
            CaseFault::RunFile(fault) => {
                told.push_fault(fault.kind.number(), &fault.kind);
                told.push_line(fault.line);
            }
        }
        told.finish()
    }
}

fn push_build(told: &mut Written, fault: BuildFault) {
    told.push_fault(fault.kind as u8, &fault.kind);
    told.push(", module ");
    told.push_number(fault.module as u64);
    told.push_line(fault.line);
}
