//! What nodes name, looked up.

ghost use Rattle.std.specs.Prelude.{◌≡◌, slice_get, None, Some, MatchOption, MatchResult, option_map, length};
ghost use Rattle.fisca_typing.specs.Questions.{at_start, part_of as part_of_day, counted as counts, group_at as group_meant, person_of as person_meant};
ghost use Rattle.fisca_groups.specs.Grouped.{grouped};
ghost use Rattle.fisca_ir.specs.Views.{node};
ghost use Rattle.fisca_machine.specs.Running.{from, parametric, point};
ghost use Rattle.fisca_time.specs.Instant.{CivilDate};
ghost use Rattle.fisca_typing.specs.Nodes.{no_index, index};
ghost use Rattle.fisca_model.specs.Seen.{value_seen};
ghost use Rattle.fisca_simulation.specs.Followers.{applied_to};
ghost use Rattle.fisca_simulation.specs.NotedFormulas.{at_start as starts};
ghost use Rattle.fisca_simulation.specs.Noted.{Noted, fails};
ghost use Rattle.fisca_symbols.specs.Known.{tables as known};
ghost use Rattle.fisca_symbols.specs.KnownVariables.{value_type, variable};
ghost use Rattle.fisca_ops.specs.Ended.{IsMoving, ended, fault_seen};
ghost use Rattle.fisca_ops.specs.Persons.{persons_from};

use fisca_ast::Comparison;
use fisca_ir::{Node, Parameter};
use fisca_machine::{At, Frame};
use fisca_members::Members;
use fisca_model::{RolePlace, Value, ValueType};
use fisca_ops::{
    OperationFault, arithmetic, comparison, count_of, counted, group_of, logic, moved_all, part_of,
    same,
};
use fisca_params::NodeId;
use fisca_symbols::{DeclaredType, Tables, Variable};
use fisca_time::{Instant, Period};
use fisca_typing::{Arithmetic, DatePart, Logic, Move};

/// The type in formulas of values that are declared so; days and texts have none.
pub(crate) fn type_of(declared: DeclaredType) -> Option<ValueType>
    ensures { result ≡ value_type declared }
{
    match declared {
        DeclaredType::Float | DeclaredType::Int => Some(ValueType::Number),
        DeclaredType::Bool => Some(ValueType::Bool),
        DeclaredType::Enum(place) => Some(ValueType::Enum(place)),
        DeclaredType::Date | DeclaredType::Text => None,
    }
}

/// The variable at a place.
#[tactic(auto, using(fisca_machine::proofs::Lookups::variable_there))]
pub(crate) fn variable_at<'r, 't>(tables: &'r Tables<'t>, place: usize) -> Option<&'r Variable<'t>>
    ensures { MatchOption result (slice_get (known tables.now).variables place ≡ None) (λ v. slice_get (known tables.now).variables place ≡ Some (variable v.now)) }
{
    tables.variables.as_slice().get(place)
}

/// The role that is wanted, where one is.
pub(crate) fn role_wanted(role: &Option<Box<RolePlace>>) -> Option<RolePlace>
    ensures { result ≡ option_map (λ b. b.value) role.now }
{
    match role {
        None => None,
        Some(role) => Some(**role),
    }
}

/// The person whose role is meant: one of the group's persons where their values are taken, else the frame's own member.
pub(crate) fn person_of(frame: &Frame, at: At) -> u32
    ensures { result ≡ person_meant (point frame.now at) }
{
    match at.person {
        Some(person) => person,
        None => frame.member,
    }
}

/// The group of an entity whose persons are meant: the frame's own member where it is one, else the group of that person.
pub(crate) fn group_at(members: &Members, frame: &Frame, entity: usize) -> u32
    ensures { result ≡ group_meant (grouped members.now) (point frame.now (record { person = None; visible = 0 })) entity }
{
    if frame.entity == entity {
        frame.member
    } else {
        group_of(members, entity, frame.member)
    }
}

/// The number of the persons of a group who have a role.
pub(crate) fn count_from(
    members: &Members,
    entity: usize,
    group: u32,
    role: Option<RolePlace>,
) -> Result<Value, OperationFault>
    ensures { ended result ≡ counts (length (persons_from (grouped members.now) entity group role 0)) }
{
    counted(count_of(members, entity, group, role))
}

/// The day on which the period starts that moves lead to. `PeriodOutOfRange` where a move leaves the calendar, and of eternity.
pub(crate) fn day_at(moves: &[Move], period: Period) -> Result<Instant, OperationFault>
    ensures { MatchResult result (λ day. (f : CivilDate → Noted) → starts moves.now period f ≡ f day) (λ e. (f : CivilDate → Noted) → starts moves.now period f ≡ fails (fault_seen e)) }
{
    match moved_all(moves, period) {
        Err(_) => Err(OperationFault::PeriodOutOfRange),
        Ok(here) => match here.start() {
            None => Err(OperationFault::PeriodOutOfRange),
            Some(day) => Ok(day),
        },
    }
}

/// What is made of two values.
#[derive(Clone, Copy)]
pub(crate) enum Operation {
    /// A number of two.
    Arithmetic(Arithmetic),
    /// A bool of two.
    Logic(Logic),
    /// How two numbers compare.
    Comparison(Comparison),
    /// Whether two are the same member of an Enum.
    Same,
}

/// What is made of two values.
pub(crate) fn applied(
    operation: Operation,
    left: Value,
    right: Value,
) -> Result<Value, OperationFault>
    requires { IsMoving (applied_to operation (value_seen left) (value_seen right)) }
    ensures { ended result ≡ applied_to operation (value_seen left) (value_seen right) }
{
    match operation {
        Operation::Arithmetic(operation) => arithmetic(operation, left, right),
        Operation::Logic(operation) => Ok(logic(operation, left, right)),
        Operation::Comparison(operation) => Ok(comparison(operation, left, right)),
        Operation::Same => Ok(same(left, right)),
    }
}

/// A member that chooses among parameters, how many members its Enum has, and the place behind it.
#[derive(Clone, Copy)]
pub(crate) struct Choice<'a> {
    /// The member.
    pub(crate) member: &'a Node,
    /// How many members its Enum has.
    pub(crate) size: usize,
    /// The place behind it.
    pub(crate) next: usize,
}

/// The member that chooses at a place of a parameter.
pub(crate) fn choice_at<'a>(parameter: &'a Parameter, next: usize) -> Option<Choice<'a>>
    ensures { MatchOption result (from next (parametric parameter.now).indices ≡ no_index) (λ c. from next (parametric parameter.now).indices ≡ index (node c.member.now) c.size (from c.next (parametric parameter.now).indices)) }
{
    match parameter.indices.as_slice().get(next) {
        None => None,
        Some(index) => Some(Choice {
            member: &index.member,
            size: index.size,
            next: next + 1,
        }),
    }
}

/// The place of the parameter that is chosen.
pub(crate) fn place_at(parameter: &Parameter, chosen: usize) -> Option<NodeId>
    ensures { MatchOption result (slice_get (parametric parameter.now).places chosen ≡ None) (λ place. slice_get (parametric parameter.now).places chosen ≡ Some place) }
{
    match parameter.places.as_slice().get(chosen) {
        None => None,
        Some(place) => Some(*place),
    }
}

/// A part of the day on which the period starts that moves lead to. `PeriodOutOfRange` where a move leaves the calendar, and of eternity.
pub(crate) fn date_part(
    part: DatePart,
    moves: &[Move],
    period: Period,
) -> Result<Value, OperationFault>
    ensures { ended result ≡ at_start moves.now period (λ day. counts (part_of_day part day)) }
{
    match moved_all(moves, period) {
        Err(_) => Err(OperationFault::PeriodOutOfRange),
        Ok(here) => match here.start() {
            None => Err(OperationFault::PeriodOutOfRange),
            Some(day) => counted(usize::from(part_of(part, day))),
        },
    }
}
