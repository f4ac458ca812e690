//! Rule sets: what modules declare beside parameters, with typed formulas, or the first fault: of names, then of attributes and entities, then of formulas.
#![tactic(auto)]

mod build_fault;
mod built;
mod constants;
mod dated;
mod entities;
mod enums;
mod faults;
mod formulas;
mod found;
mod in_force;
mod law;
mod lines;
mod meets;
mod members;
mod noted;
mod persons;
mod rule_set;
mod seen;
mod statements;
mod tables;
mod titles;
mod typed;
mod within;

pub use build_fault::BuildFault;
pub use dated::DatedFormula;
pub use formulas::TypedFormulas;
pub use law::{
    days_and_texts_have_no_formulas, defaults_are_of_their_types, rule_sets_are_never_stuck,
};
pub use rule_set::RuleSet;
pub use seen::Seen;
pub use tables::tables_found;
