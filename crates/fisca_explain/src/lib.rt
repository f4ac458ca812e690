//! How the values of a situation came about, as lines.
#![tactic(auto)]

mod bare;
mod below;
mod cells;
mod explain;
mod keys;
mod law;
mod line;
mod lines;
mod origin;
mod reading;
mod stated;
mod text;
mod view;
mod walk;

pub use cells::explain_names;
pub use explain::{ExplainFault, Explained, RuleFiles, explain_columns};
pub use law::{
    answers_from_memory_are_those_of_the_rules, keys_that_are_told_are_those_of_the_explanation,
};
