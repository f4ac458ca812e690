//! Calls of what stands behind the formula's first argument, and of all else that is called.
ghost use Rattle.std.specs.Prelude.{◌≡◌, option_map};
ghost use Rattle.fisca_check_calls.specs.Arguments.{all_given, positions as positions_view};
ghost use Rattle.fisca_check.specs.Questions.{settled_view};
ghost use Rattle.fisca_check.specs.Views.{names as names_of};
ghost use Rattle.fisca_ast.specs.Outcomes.{Gives};
ghost use Rattle.fisca_ir.specs.Views.{relation as relation_of, thing as thing_of};
ghost use Rattle.fisca_typing.specs.Asks as spec;
ghost use Rattle.fisca_typing.specs.Typing.{called as called_as, not_called as refused};

use crate::asks::asked_with;
use crate::groups::{count_by, has_role_by, total_by};
use crate::methods::{to_person, to_self};
use crate::scope::FormulaScope;
use fisca_ast::FormulaKind;
use fisca_check_calls::{
    GivenArgument, Positions, calculation_by, function_by, offset_of, positions_of, reader_by,
    settle,
};
use fisca_ir::{Relation, Thing};
use fisca_typing::{Level, Method};
use std::alloc::Global;

/// The arguments of a call by position and by keyword, or their first fault.
fn settled_positions<'a, 't>(
    alloc: Global,
    arguments: Vec<GivenArgument<'a, 't>>,
) -> Result<Positions<'a, 't>, FormulaKind>
    ensures { Gives positions_view (settled_view (all_given arguments.entry.items)) result }
{
    Ok(positions_of(settle(alloc, arguments)?))
}

/// A call of a function of the formula's entity.
fn method_by(
    alloc: Global,
    names: &FormulaScope,
    method: Method,
    arguments: Vec<GivenArgument>,
) -> Result<Thing, FormulaKind>
    ensures { Gives thing_of (spec.method_by (names_of names.now) method (all_given arguments.entry.items)) result }
{
    match method {
        Method::HasRole => {
            let positions = settled_positions(alloc, arguments)?;
            has_role_by(alloc, Level::Own, positions)
        }
        Method::EachHasRole => {
            let positions = settled_positions(alloc, arguments)?;
            has_role_by(alloc, Level::Members, positions)
        }
        Method::Members => {
            let relation = to_person(names.tables);
            asked_with(
                alloc,
                names.tables,
                relation,
                Level::Members,
                arguments.as_slice(),
            )
        }
        Method::Total(total) => {
            total_by(
                alloc,
                names.entity,
                total,
                settled_positions(alloc, arguments)?,
            )
        }
        Method::Count => {
            let positions = settled_positions(alloc, arguments)?;
            count_by(alloc, names.entity, &positions)
        }
    }
}

/// Whether the first of some arguments is a text.
fn begins_with_text(arguments: &[GivenArgument]) -> bool
    ensures { result ≡ spec.begins_with_text (all_given arguments.now) }
{
    match arguments {
        [first, ..] => matches!(&first.thing, Ok(Thing::Text(_))),
        [] => false,
    }
}

/// A call of what stands behind the formula's first argument: where a name is a role's or a group's and a function's too,
/// a text comes first where a variable is asked for.
fn method_called(
    alloc: Global,
    names: &FormulaScope,
    method: Option<Method>,
    relation: Option<Relation>,
    arguments: Vec<GivenArgument>,
) -> Result<Thing, FormulaKind>
    ensures { Gives thing_of (spec.method_called (names_of names.now) method (option_map relation_of relation) (all_given arguments.entry.items)) result }
{
    match (method, relation) {
        (None, None) => Err(FormulaKind::UnknownName),
        (None, Some(whom)) => {
            asked_with(alloc, names.tables, whom, Level::Own, arguments.as_slice())
        }
        (Some(function), None) => method_by(alloc, names, function, arguments),
        (Some(function), Some(whom)) => {
            if begins_with_text(arguments.as_slice()) {
                asked_with(alloc, names.tables, whom, Level::Own, arguments.as_slice())
            } else {
                method_by(alloc, names, function, arguments)
            }
        }
    }
}

/// A call of what is not called: the first fault of the arguments, else `BadType`.
fn not_called(alloc: Global, arguments: Vec<GivenArgument>) -> Result<Thing, FormulaKind>
    ensures { Gives thing_of (refused (all_given arguments.entry.items)) result }
{
    settle(alloc, arguments)?;
    Err(FormulaKind::BadType)
}

/// A call of a thing with some arguments, or the first fault.
pub fn called(
    alloc: Global,
    names: &FormulaScope,
    thing: Thing,
    arguments: Vec<GivenArgument>,
) -> Result<Thing, FormulaKind>
    ensures { Gives thing_of (called_as (names_of names.now) (thing_of thing) (all_given arguments.entry.items)) result }
{
    match thing {
        Thing::Offset(moves) => offset_of(alloc, &moves, settled_positions(alloc, arguments)?),
        Thing::Reader => {
            reader_by(
                alloc,
                &names.tables.parameters,
                settled_positions(alloc, arguments)?,
            )
        }
        Thing::Calculation(place, moves) => {
            calculation_by(alloc, place, &moves, settled_positions(alloc, arguments)?)
        }
        Thing::Asker => {
            let relation = to_self(names.entity);
            asked_with(
                alloc,
                names.tables,
                relation,
                Level::Own,
                arguments.as_slice(),
            )
        }
        Thing::Method(method, relation) => {
            method_called(alloc, names, method, relation, arguments)
        }
        Thing::GroupCount(entity) => {
            let positions = settled_positions(alloc, arguments)?;
            count_by(alloc, entity, &positions)
        }
        Thing::Function(function) => {
            function_by(alloc, function, settled_positions(alloc, arguments)?)
        }
        Thing::Value(_) => not_called(alloc, arguments),
        Thing::Period(_) => not_called(alloc, arguments),
        Thing::Start(_) => not_called(alloc, arguments),
        Thing::Nodes(_) => not_called(alloc, arguments),
        Thing::Scale(..) => not_called(alloc, arguments),
        Thing::Enumeration(_) => not_called(alloc, arguments),
        Thing::Choices(_) => not_called(alloc, arguments),
        Thing::Entity(_) => not_called(alloc, arguments),
        Thing::Role(..) => not_called(alloc, arguments),
        Thing::Library => not_called(alloc, arguments),
        Thing::Asking(_) => not_called(alloc, arguments),
        Thing::Text(_) => not_called(alloc, arguments),
        Thing::Listed(_) => not_called(alloc, arguments),
    }
}
