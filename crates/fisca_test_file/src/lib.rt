//! Tests of rule sets: the files that say them, their verdicts, and what is told of these.
#![tactic(auto)]

mod all;
mod checking;
mod comparing;
mod draft;
mod fault;
mod handing;
mod key_fault;
mod keys;
mod law;
mod lines;
mod margins;
mod outcome;
mod passing;
mod renewal;
mod report;
mod report_fault;
mod simulation_builder;
mod test;
mod tests;

pub use all::Verdict;
pub use comparing::passes;
pub use fault::{TestFault, TestKind};
pub use key_fault::KeyFault;
pub use law::situations_are_read;
pub use margins::Margins;
pub use outcome::Outcome;
pub use report_fault::ReportFault;
pub use simulation_builder::SimulationBuilder;
pub use test::Test;
pub use tests::report_on;
