//! What is to be done with a value.

use fisca_ast::Comparison;
use fisca_ir::{Node, Parameter, ScaleSum, Totalled};
use fisca_model::Value;
use fisca_num::Fraction;
use fisca_ops::Share;
use fisca_symbols::DeclaredType;
use fisca_time::{Instant, Period, Unit};
use fisca_typing::{Arithmetic, Logic, Total, Unary};

/// For which person of the group a node is worked out, where for one, and how many locals it sees.
#[derive(Clone, Copy, Debug, PartialEq, Eq)]
pub struct At {
    /// The person.
    pub person: Option<u32>,
    /// How many locals are seen.
    pub visible: usize,
}

/// For which member of an entity, and at which period, a formula is worked out.
#[derive(Clone, Copy, Debug, PartialEq, Eq)]
pub struct Frame {
    /// The place of the entity.
    pub entity: usize,
    /// The place of the person or group among those of its kind.
    pub member: u32,
    /// The period.
    pub period: Period,
}

/// What is made of two values.
#[derive(Clone, Copy)]
pub(crate) enum Operation {
    /// A number of two.
    Arithmetic(Arithmetic),
    /// A bool of two.
    Logic(Logic),
    /// How two numbers compare.
    Comparison(Comparison),
    /// Whether two are the same member of an Enum.
    Same,
}

/// What is to be done with a value. What needs another value, a day or a frame beside it has kept that.
#[derive(Clone, Copy)]
pub(crate) enum Pending<'a> {
    /// It is the left operand; the right one is this node.
    Right(Operation, &'a Node, At),
    /// It is the right operand; the left one is kept.
    Apply(Operation),
    /// A value is made of it alone.
    Unary(Unary),
    /// It chooses between two nodes.
    Choose(&'a Node, &'a Node, At),
    /// It joins the total that is kept, which goes on with the persons from a place on.
    Turn(Total, &'a Totalled, usize, At),
    /// It is the first of the lowest or the highest, which goes on with the persons from a place on.
    First(Total, &'a Totalled, usize, At),
    /// It is added to the sum that is kept, which goes on with the parts of the period by this unit from a place on: of a variable for a member.
    Part(usize, u32, Unit, u32),
    /// Of the year's value a part is meant.
    Share(Share),
    /// It is the member at a place that chooses a parameter; those before it chose so far.
    Index(&'a Parameter, usize, usize, At),
    /// It is the base of a scale.
    Scale(&'a ScaleSum),
    /// It is the result of a formula of a variable of this type; the formula below has these locals.
    Return(&'a [Node], DeclaredType),
}

/// A day.
#[derive(Clone, Copy)]
pub(crate) struct Day {
    /// The date.
    pub(crate) date: Instant,
}

/// A period, and the sum over its parts so far.
#[derive(Clone, Copy)]
pub(crate) struct PartSum {
    /// The period.
    pub(crate) period: Period,
    /// The sum.
    pub(crate) sum: Fraction,
}

/// What is kept for what is pending.
#[derive(Clone, Copy)]
pub(crate) enum Kept {
    /// A value.
    Value(Value),
    /// A day.
    Day(Day),
    /// A period, and the sum over its parts so far.
    Sum(PartSum),
    /// For whom the formula below is worked out.
    Frame(Frame),
}
