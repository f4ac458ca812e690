//! Refusals of commands.

use crate::fault::{CaseFault, malformed};
use fisca_cases_base::{Written, one};
use fisca_grid::AxesFault;
use fisca_model::{EvalFault, Key};
use fisca_rule_files::{Refusal, Unanswered};
use fisca_time::Period;
use fisca_writer::RunFault;
use std::alloc::{AllocError, Global};

/// The answer to a case of refusals: the one of this name, of those to which no text leads and of values that cannot be worked out.
pub fn answer(alloc: Global, operation: &str, words: &[String]) -> Result<String, CaseFault> {
    match operation {
        "told" => told(alloc, &named(alloc, one(words)?)?),
        _ => Err(malformed()),
    }
}

fn named(alloc: Global, name: &str) -> Result<Refusal, CaseFault> {
    match name {
        "memory" => Ok(Refusal::Memory),
        "memory_of_axes" => Ok(Refusal::Axes(AxesFault::Memory)),
        "memory_of_run" => Ok(Refusal::Run(RunFault::Memory { position: 1 })),
        "write" => Ok(Refusal::Write),
        "write_of_run" => Ok(Refusal::Run(RunFault::Write { position: 1 })),
        "value" => Ok(Refusal::Eval(unanswered(alloc)?)),
        "value_of_run" => Ok(Refusal::Run(RunFault::Eval {
            position: 7,
            fault: unanswered(alloc)?,
        })),
        _ => Err(malformed()),
    }
}

/// A key that has no value.
fn unanswered(alloc: Global) -> Result<Unanswered, AllocError> {
    Ok(Unanswered {
        fault: EvalFault::ZeroDivisor(Key {
            variable: 0,
            member: 0,
            period: Period::ETERNITY,
        }),
        key: String::from_str(alloc, "salary Ann 2017-01")?,
    })
}

/// The number of a refusal, its status and its line for standard error.
fn told(alloc: Global, refusal: &Refusal) -> Result<String, CaseFault> {
    let mut told = Written::new(alloc);
    told.push("refusal ");
    told.push_number(u64::from(refusal.number()));
    told.push(", status ");
    told.push_number(u64::from(refusal.status()));
    told.push(", ");
    told.push(refusal.line(alloc, "file.yaml", &[])?.as_str());
    Ok(told.finish()?)
}
