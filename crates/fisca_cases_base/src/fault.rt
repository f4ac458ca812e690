//! What is told in place of an answer.

use crate::written::Written;
use fisca_ast::FormulaFault;
use fisca_grid::AxesFault;
use fisca_num::NumFault;
use fisca_params::ParamFault;
use fisca_time::TimeFault;
use fisca_yaml::YamlFault;
use std::alloc::{AllocError, AllocFailed, Global};
use thiserror::Error;

/// Why a case has no answer: the fault that the call gave, or that it is no case.
#[derive(Debug, Drop, Error)]
pub enum BaseFault {
    #[error("malformed")]
    Malformed,
    #[error("no memory")]
    Memory,
    #[error("{0}")]
    Num(#[from] NumFault),
    #[error("{0}")]
    Time(#[from] TimeFault),
    #[error("{0}")]
    Yaml(#[from] YamlFault),
    #[error("{0}")]
    Formula(#[from] FormulaFault),
    #[error("{0}")]
    Param(#[from] ParamFault),
    #[error("{0}")]
    Axes(#[from] AxesFault),
}

impl From<AllocError> for BaseFault {
    fn from(_error: AllocError) -> BaseFault {
        BaseFault::Memory
    }
}

impl<T: Drop> From<AllocFailed<T>> for BaseFault {
    fn from(_error: AllocFailed<T>) -> BaseFault {
        BaseFault::Memory
    }
}

impl BaseFault {
    /// The fault as its number, its name and the line where it stands.
    pub fn told(&self, alloc: Global) -> Result<String, AllocError> {
        let mut told = Written::new(alloc);
        match self {
            BaseFault::Malformed => told.push("malformed"),
            BaseFault::Memory => told.push("no memory"),
            BaseFault::Num(fault) => told.push_fault(*fault as u8, fault),
            BaseFault::Time(fault) => told.push_fault(*fault as u8, fault),
            BaseFault::Yaml(fault) => push_yaml(&mut told, *fault),
            BaseFault::Formula(fault) => push_formula(&mut told, *fault),
            BaseFault::Param(fault) => push_param(&mut told, *fault),
            BaseFault::Axes(fault) => told.push_fault(*fault as u8, fault),
        }
        told.finish()
    }
}

fn push_yaml(told: &mut Written, fault: YamlFault) {
    told.push_fault(fault.kind.number(), &fault.kind);
    told.push_line(fault.line);
}

fn push_formula(told: &mut Written, fault: FormulaFault) {
    told.push_fault(fault.kind as u8, &fault.kind);
    told.push_line(fault.line);
}

fn push_param(told: &mut Written, fault: ParamFault) {
    told.push_fault(fault.number(), &fault);
    match fault {
        ParamFault::Yaml { file, fault } => push_place(told, file, fault.line),
        ParamFault::BadParameter { file, line } | ParamFault::DuplicateName { file, line } => {
            push_place(told, file, line);
        }
        ParamFault::BadScale | ParamFault::Undefined | ParamFault::Number(_) | ParamFault::Memory =>
            {}
    }
}

fn push_place(told: &mut Written, file: usize, line: usize) {
    told.push(", file ");
    told.push_number(file as u64);
    told.push_line(line);
}
