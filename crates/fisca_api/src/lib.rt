//! All that a third party calls, by the modules `num`, `time`, `yaml`, `params`, `formula`, `eval`, `grid` and `commands`.
//!
//! What another crate declares is handed on with its contract. Declared here are situations that keep their marks, the evaluator over these, the
//! readers that take a rule set, and in `laws` what calls promise together.
#![tactic(auto)]

mod answer_laws;
mod axis_laws;
pub mod command_line;
pub mod commands;
mod eternal_laws;
pub mod eval;
mod evaluator;
pub mod formula;
mod given;
pub mod grid;
pub mod laws;
mod marks;
mod member_laws;
pub mod num;
pub mod params;
mod position_laws;
mod readers;
mod situation;
mod situation_laws;
pub mod time;
pub mod yaml;
