//! What nodes name, looked up.

ghost use Rattle.std.specs.Prelude.{◌≡◌, slice_get, None, Some, MatchOption};
ghost use Rattle.fisca_typing.specs.Questions.{at_start, part_of as part_of_day, counted as counts};
ghost use Rattle.fisca_ir.specs.Views.{node};
ghost use Rattle.fisca_typing.specs.Nodes.{no_index, index};
ghost use Rattle.fisca_symbols.specs.Known.{tables as known};
ghost use Rattle.fisca_symbols.specs.KnownVariables.{value_type, variable};
ghost use Rattle.fisca_ops.specs.Ended.{IsMoving, ended};
ghost use Rattle.fisca_machine.specs.Running.{from, parametric};
ghost use Rattle.fisca_machine.specs.Steps.Running.{applied as applies};
ghost use Rattle.fisca_model.specs.Seen.{value_seen};

use crate::pending::Operation;
use fisca_ir::{Node, Parameter};
use fisca_model::{Value, ValueType};
use fisca_ops::{OperationFault, arithmetic, comparison, counted, logic, moved_all, part_of, same};
use fisca_params::NodeId;
use fisca_symbols::{DeclaredType, Tables, Variable};
use fisca_time::Period;
use fisca_typing::{DatePart, Move};

/// The type in formulas of values that are declared so; days and texts have none.
pub(crate) fn type_of(declared: DeclaredType) -> Option<ValueType>
    ensures { result ≡ value_type declared }
{
    match declared {
        DeclaredType::Float | DeclaredType::Int => Some(ValueType::Number),
        DeclaredType::Bool => Some(ValueType::Bool),
        DeclaredType::Enum(place) => Some(ValueType::Enum(place)),
        DeclaredType::Date | DeclaredType::Text => None,
    }
}

/// The variable at a place.
#[tactic(auto, using(crate::proofs::Lookups::variable_there))]
pub(crate) fn variable_at<'r, 't>(tables: &'r Tables<'t>, place: usize) -> Option<&'r Variable<'t>>
    ensures { MatchOption result (slice_get (known tables.now).variables place ≡ None) (λ v. slice_get (known tables.now).variables place ≡ Some (variable v.now)) }
{
    tables.variables.as_slice().get(place)
}

/// The local at a place.
pub(crate) fn local_at<'a>(locals: &'a [Node], place: usize) -> Option<&'a Node>
    ensures { MatchOption result (slice_get locals.now place ≡ None) (λ e. slice_get locals.now place ≡ Some e.now) }
{
    locals.get(place)
}

/// A member that chooses among parameters, how many members its Enum has, and the place behind it.
#[derive(Clone, Copy)]
pub(crate) struct Choice<'a> {
    /// The member.
    pub(crate) member: &'a Node,
    /// How many members its Enum has.
    pub(crate) size: usize,
    /// The place behind it.
    pub(crate) next: usize,
}

/// The member that chooses at a place of a parameter.
pub(crate) fn choice_at<'a>(parameter: &'a Parameter, next: usize) -> Option<Choice<'a>>
    ensures { MatchOption result (from next (parametric parameter.now).indices ≡ no_index) (λ c. from next (parametric parameter.now).indices ≡ index (node c.member.now) c.size (from c.next (parametric parameter.now).indices)) }
{
    match parameter.indices.as_slice().get(next) {
        None => None,
        Some(index) => Some(Choice {
            member: &index.member,
            size: index.size,
            next: next + 1,
        }),
    }
}

/// The place of the parameter that is chosen.
pub(crate) fn place_at(parameter: &Parameter, chosen: usize) -> Option<NodeId>
    ensures { MatchOption result (slice_get (parametric parameter.now).places chosen ≡ None) (λ place. slice_get (parametric parameter.now).places chosen ≡ Some place) }
{
    match parameter.places.as_slice().get(chosen) {
        None => None,
        Some(place) => Some(*place),
    }
}

/// A part of the day on which the period starts that moves lead to. `PeriodOutOfRange` where a move leaves the calendar, and of eternity.
pub(crate) fn date_part(
    part: DatePart,
    moves: &[Move],
    period: Period,
) -> Result<Value, OperationFault>
    ensures { ended result ≡ at_start moves.now period (λ day. counts (part_of_day part day)) }
{
    match moved_all(moves, period) {
        Err(_) => Err(OperationFault::PeriodOutOfRange),
        Ok(here) => match here.start() {
            None => Err(OperationFault::PeriodOutOfRange),
            Some(day) => counted(usize::from(part_of(part, day))),
        },
    }
}

/// What is made of two values.
#[inline(always)]
pub(crate) fn applied(
    operation: Operation,
    left: Value,
    right: Value,
) -> Result<Value, OperationFault>
    requires { IsMoving (applies operation (value_seen left) (value_seen right)) }
    ensures { ended result ≡ applies operation (value_seen left) (value_seen right) }
{
    match operation {
        Operation::Arithmetic(operation) => arithmetic(operation, left, right),
        Operation::Logic(operation) => Ok(logic(operation, left, right)),
        Operation::Comparison(operation) => Ok(comparison(operation, left, right)),
        Operation::Same => Ok(same(left, right)),
    }
}
