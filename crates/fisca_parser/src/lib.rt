//! Modules: what a text declares, line by line, and the first fault where it declares nothing.
#![tactic(auto)]

mod bodies;
mod declarations;
mod forms;
mod heading;
mod law;
mod line;
mod lines;
mod reader;
mod shape;
mod start;
mod statement;

pub use law::each_text_has_one_module;
pub use reader::read_module;
