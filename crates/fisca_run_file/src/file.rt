//! What is kept of a run file.

ghost use Rattle.std.specs.Prelude.{◌≡◌, length, map};

use crate::moved::MovedInputs;
use fisca_columns::Columns;
use fisca_grid::Axes;
use fisca_inputs::Inputs;
use fisca_rows::Conditions;
use fisca_situations::{GivenInputs, Situation, Slot};

/// A grid, the input that each of its axes moves, and the inputs with these.
#[derive(Drop)]
pub(crate) struct Movement {
    /// The grid.
    pub(crate) axes: Axes,
    /// How many axes there are in each group.
    pub(crate) lengths: Vec<u32>,
    /// The inputs, in the order of the axes.
    pub(crate) moved: MovedInputs,
    /// All inputs by keys, where those have the value 0 and neutralised variables have none.
    pub(crate) inputs: Inputs,
    ghost grouped: { map length axes ≡ lengths.items },
}

/// What a run file requests: at each position of a grid the columns of a situation, where conditions hold.
#[derive(Drop)]
pub struct RunRequest {
    /// The inputs as they are given.
    pub given: GivenInputs,
    /// A mark for each variable that is neutralised, by its place.
    pub neutral: Vec<bool>,
    /// The grid.
    pub axes: Axes,
    /// How many axes there are in each of its groups.
    pub(crate) lengths: Vec<u32>,
    /// The inputs that the axes move, in the order of the axes.
    pub moved: MovedInputs,
    /// The keys of the columns in order.
    pub columns: Columns,
    /// The conditions of the filter in order.
    pub conditions: Conditions,
    ghost grouped: { map length axes ≡ lengths.items },
}

/// A file of `fisca run`: what it requests, and the situation with which a run begins.
#[derive(Drop)]
pub struct RunFile {
    /// The situation, where each axis has the value 0 and neutralised variables have no inputs.
    pub situation: Situation,
    /// What is requested.
    pub request: RunRequest,
}

/// What a run begins with.
#[derive(Drop)]
pub struct RunStart {
    /// The situation, where each axis has the value 0 and neutralised variables have no inputs.
    pub situation: Situation,
    /// What the axes move, in their order.
    pub slots: Vec<Slot>,
    /// For each variable, by its place, the wheels that move its inputs, as bits.
    pub wheels: Vec<u16>,
    /// What is requested.
    pub request: RunRequest,
}
