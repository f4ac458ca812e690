//! Locals of typed formulas, and arguments, calls of functions and parameters.
#![tactic(auto)]

mod arguments;
mod calls;
mod counting;
mod keeping;
mod local;
mod locals;
mod name;
mod parameters;
mod size;
mod table;

pub use arguments::{GivenArgument, Positions, Settled, alone, positions_of, settle, single};
pub use calls::{calculation_by, function_by, offset_of, reader_by};
pub use counting::{size_of, small_size};
pub use keeping::kept;
pub use local::{Held, Local};
pub use locals::Locals;
pub use parameters::{
    Children, Wanted, children_alike, chosen_below, node_attribute, scale_attribute,
};
pub use size::{Size, above, beside, is_small};
