//! Locals.
ghost use Rattle.std.specs.Prelude.{◌≡◌, true};
ghost use Rattle.fisca_check_calls.specs.Counts.{size as size_of};
ghost use Rattle.fisca_typing.specs.Sizes.{is_small};

use crate::size::Size;
use fisca_ast::Slice;
use fisca_ir::{Chosen, Moves};
use fisca_model::ValueType;
use fisca_params::NodeId;
use fisca_typing::Level;
use std::rc::Rc;

/// What the name of a local stands for.
#[derive(Drop)]
pub enum Held {
    /// A value: its type, its level, and how many locals with values come before.
    Value(ValueType, Level, usize),
    /// A period, by the moves to it.
    Period(Moves),
    /// Parameters.
    Nodes(Rc<Chosen>),
    /// A scale at the start of a period.
    Scale(NodeId, Moves),
    /// The members of an Enum.
    Choices(usize),
}

/// A local: its name, what that stands for, and the size of its expression with the earlier locals put in, which is
/// within the limits.
#[derive(Drop)]
pub struct Local<'a> {
    pub name: Slice<'a>,
    pub held: Held,
    pub size: Size,
    ghost is_small: { is_small (size_of size) ≡ true },
}
