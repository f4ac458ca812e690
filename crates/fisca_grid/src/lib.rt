//! Axes, grids of axes in groups, and the rows of a grid.
#![tactic(auto)]

mod axes;
mod axis_rows;
mod condition;
mod cursor;
mod formed_rows;
mod grid;
mod law;
mod named_axes;
mod turning;
mod words;

pub use axes::{AxesFault, AxisSpec, each_step_is_a_number};
pub use axis_rows::AxisRows;
pub use condition::{AxisComparison, AxisCondition, Filter, past_spaces, read_condition};
pub use cursor::GridCursor;
pub use formed_rows::FormedAxisRows;
pub use grid::Axes;
pub use law::positions_are_tuples;
pub use named_axes::{axis_names, has_twins, own_groups, read_axes, read_filter};
pub use words::{around_first, read_axis, read_part};
