//! What stands in brackets, and brackets behind an expression.
ghost use Rattle.std.specs.Prelude.{◌≡◌, map};
ghost use Rattle.fisca_check_calls.specs.Arguments.{all_given, given as given_view};
ghost use Rattle.fisca_check.specs.Elements.{all_elements, element_of, list_view};
ghost use Rattle.fisca_check.specs.Views.{names as names_of};
ghost use Rattle.fisca_ast.specs.Outcomes.{Gives};
ghost use Rattle.fisca_ir.specs.Views.{thing as thing_of};
ghost use Rattle.fisca_typing.specs.Typing as spec;

use crate::calls::called;
use crate::rows::Rows;
use crate::scope::FormulaScope;
use crate::subscripts::subscripted;
use fisca_ast::{Delimiter, FormulaKind, Suffix};
use fisca_check_calls::GivenArgument;
use fisca_ir::{Thing, nodes_of, value_of};
use std::alloc::Global;

/// An element of a list, or its first fault; `BadType` behind a keyword.
fn element(argument: GivenArgument) -> Result<Thing, FormulaKind>
    ensures { Gives thing_of (element_of (given_view argument.entry)) result }
{
    let thing = argument.thing?;
    if argument.keyword.is_some() {
        return Err(FormulaKind::BadType);
    }
    Ok(thing)
}

/// The elements of a list, or the first fault.
fn elements(alloc: Global, arguments: Vec<GivenArgument>) -> Result<Vec<Thing>, FormulaKind>
    ensures { Gives (λ xs. map thing_of xs.items) (all_elements (all_given arguments.entry.items)) result }
{
    let mut things = Vec::new(alloc);
    for argument in arguments {
        things.push(element(argument)?)?;
    }
    Ok(things)
}

/// A list of some elements, or the first fault.
fn list_of(alloc: Global, arguments: Vec<GivenArgument>) -> Result<Thing, FormulaKind>
    ensures { Gives thing_of (list_view (all_given arguments.entry.items)) result }
{
    Ok(Thing::Listed(elements(alloc, arguments)?))
}

/// What stands alone in brackets, or `BadType`.
fn only(mut arguments: Vec<GivenArgument>) -> Result<Thing, FormulaKind>
    ensures { Gives thing_of (spec.only (all_given arguments.entry.items)) result }
{
    let [GivenArgument { keyword: None, .. }] = arguments.as_slice() else {
        return Err(FormulaKind::BadType);
    };
    match arguments.pop() {
        Some(given) => given.thing,
        None => unreachable!(),
    }
}

/// What an expression in brackets stands for: parentheses group, square brackets make a list; no formula has maps.
#[tactic(auto, using(crate::proofs::Elements::in_square))]
pub fn in_brackets(
    alloc: Global,
    bracket: Delimiter,
    arguments: Vec<GivenArgument>,
) -> Result<Thing, FormulaKind>
    ensures { Gives thing_of (spec.in_brackets bracket (all_given arguments.entry.items)) result }
{
    match bracket {
        Delimiter::Round => only(arguments),
        Delimiter::Square => list_of(alloc, arguments),
        Delimiter::Curly => Err(FormulaKind::BadType),
    }
}

/// Parameters with a member of an Enum behind them in brackets, or the first fault.
fn subscript_of(
    alloc: Global,
    names: &FormulaScope,
    thing: Thing,
    arguments: Vec<GivenArgument>,
    rows: &mut Rows,
) -> Result<Thing, FormulaKind>
    requires { rows.old ≡ (names_of names.now).tables }
    ensures thing { Gives thing_of (spec.subscript_of (names_of names.now) (thing_of thing) (all_given arguments.entry.items)) result }
    ensures same { rows.new ≡ rows.old }
{
    let index = only(arguments)?;
    let chosen = nodes_of(thing)?;
    let member = value_of(index)?;
    subscripted(alloc, names.tables, chosen.as_ref(), member, rows)
}

/// What an expression with brackets behind it stands for, or the first fault. Its frame is not among those of the
/// functions that call one another for the parts of an expression.
#[inline(never)]
pub fn with_suffix(
    alloc: Global,
    names: &FormulaScope,
    suffix: Suffix,
    thing: Thing,
    arguments: Vec<GivenArgument>,
    rows: &mut Rows,
) -> Result<Thing, FormulaKind>
    requires { rows.old ≡ (names_of names.now).tables }
    ensures thing { Gives thing_of (spec.with_suffix (names_of names.now) suffix (thing_of thing) (all_given arguments.entry.items)) result }
    ensures same { rows.new ≡ rows.old }
{
    match suffix {
        Suffix::Call => called(alloc, names, thing, arguments),
        Suffix::Subscript => subscript_of(alloc, names, thing, arguments, rows),
    }
}
