//! The rows of a run, over anything that answers: conditions of a filter, how they are read and when they are met, and lines and cells.
#![tactic(auto)]

mod condition;
mod conditions;
mod formed_lines;
mod going;
mod lines;
mod met;
mod row;
mod style;

pub use condition::{Condition, read_condition};
pub use conditions::{Conditions, conditions_in};
pub use going::{is_unmet, met_or_fault, write_going_line};
pub use met::{all_met, meets};
pub use row::{Asked, write_line_in, write_row};
pub use style::RowStyle;
