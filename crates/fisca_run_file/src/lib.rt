//! Files of `fisca run`: a situation, the axes that move some of its inputs, columns, and the conditions of a filter.
#![tactic(auto)]

mod base_situation;
mod file;
mod grids;
mod keys;
mod marks;
mod moved;
mod movement;
mod names;
mod neutral;
mod positions;
mod run_file;
mod said;
mod said_axes;
mod said_axis;
mod sharing;
mod slots;

pub use file::{RunFile, RunRequest, RunStart};
pub use fisca_inputs::overlaps;
pub use fisca_rows::{Condition, Conditions, read_condition};
pub use marks::wheels_of;
pub use moved::MovedInputs;
pub use names::cell_names;
pub use slots::slots_of;
