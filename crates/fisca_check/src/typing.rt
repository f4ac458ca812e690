//! What expressions stand for: functions that call one another, each of which only matches and calls.
ghost use Rattle.std.specs.Prelude.{◌≡◌, ◌∷◌, [], Bool, IfOk, Result, map};
ghost use Rattle.fisca_check_calls.specs.Arguments.{all_given as given_list, given as given_view};
ghost use Rattle.fisca_ast.specs.Views.{argument_view, series_of, series_view, tree as tree_of};
ghost use Rattle.fisca_check.specs.Views.{names as names_of};
ghost use Rattle.fisca_ir.specs.Operations.{by};
ghost use Rattle.fisca_ast.specs.Outcomes.{Gives};
ghost use Rattle.fisca_ir.specs.Views.{thing};
ghost use Rattle.fisca_num.specs.Results.{and_then};
ghost use Rattle.fisca_ast.specs.declared.fault.FormulaKind.{FormulaKind};
ghost use Rattle.fisca_typing.specs.Operations as operations;
ghost use Rattle.fisca_typing.specs.Things as things;
ghost use Rattle.fisca_typing.specs.Typing as spec;

use crate::atoms::{if_known, number_thing, text_thing};
use crate::attributes::attribute_of;
use crate::brackets::{in_brackets, with_suffix};
use crate::names::named;
use crate::rows::Rows;
use crate::scope::FormulaScope;
use fisca_ast::{Argument, Arguments, Delimiter, Expr, FormulaKind, Prefix, Suffix};
use fisca_check_calls::GivenArgument;
use fisca_ir::{Dyadic, Thing, operated, prefixed_value};
use std::alloc::{AllocError, Global};

/// What an expression stands for, or its first fault. Each form with parts has a function of its own, whose frame is
/// cleared only where it is called.
#[cycle(typing)]
pub fn thing_of<'a, 't>(
    alloc: Global,
    tree: &'t Expr<'a>,
    names: &FormulaScope,
    rows: &mut Rows,
) -> Result<Thing, FormulaKind>
    requires { rows.old ≡ (names_of names.now).tables }
    ensures thing { Gives thing (spec.thing_of (names_of names.now) (tree_of tree.now)) result }
    ensures same { rows.new ≡ rows.old }
{
    match tree {
        Expr::Name(name) => named(names, name.as_str()),
        Expr::Number(digits) => number_thing(digits.as_bytes()),
        Expr::Text(text) => text_thing(alloc, text.as_str()),
        Expr::Bracketed(bracket, inside) => bracketed(alloc, names, *bracket, inside, rows),
        Expr::Attribute(access) => attribute(
            alloc,
            names,
            &access.front,
            access.name.as_str(),
            rows,
        ),
        Expr::Applied(suffix, application) => {
            let before = thing_of(alloc, &application.front, names, rows);
            applied(alloc, names, *suffix, before, &application.behind, rows)
        }
        Expr::Prefixed(prefix, operand) => prefixed(alloc, names, *prefix, operand, rows),
        Expr::Binary(operator, operands) => {
            let first = thing_of(alloc, &operands.left, names, rows);
            let dyadic = Dyadic::Operator(*operator);
            of_two(alloc, names, dyadic, first, &operands.right, rows)
        }
        Expr::Compare(comparison, operands) => {
            let first = thing_of(alloc, &operands.left, names, rows);
            let dyadic = Dyadic::Comparison(*comparison);
            of_two(alloc, names, dyadic, first, &operands.right, rows)
        }
    }
}

/// What brackets stand for, or the first fault of what stands in them.
#[cycle(typing)]
#[inline(never)]
fn bracketed<'a, 't>(
    alloc: Global,
    names: &FormulaScope,
    bracket: Delimiter,
    inside: &'t Arguments<'a>,
    rows: &mut Rows,
) -> Result<Thing, FormulaKind>
    requires { rows.old ≡ (names_of names.now).tables }
    ensures thing { Gives thing (spec.in_brackets bracket (spec.all_given (names_of names.now) (series_view inside.now))) result }
    ensures same { rows.new ≡ rows.old }
{
    match (bracket, inside) {
        (Delimiter::Round, Arguments::One(only)) => parenthesised(alloc, names, only, rows),
        (Delimiter::Round | Delimiter::Square | Delimiter::Curly, _) => {
            in_brackets(alloc, bracket, given_inside(alloc, names, inside, rows)?)
        }
    }
}

/// What stands alone in parentheses, or its first fault; `BadType` behind a keyword. It needs no list.
#[cycle(typing)]
fn parenthesised<'a, 't>(
    alloc: Global,
    names: &FormulaScope,
    only: &'t Argument<'a>,
    rows: &mut Rows,
) -> Result<Thing, FormulaKind>
    requires { rows.old ≡ (names_of names.now).tables }
    ensures thing { Gives thing (spec.only (spec.given_of (names_of names.now) (argument_view only.now) ∷ [])) result }
    ensures same { rows.new ≡ rows.old }
{
    match only {
        Argument::Positional(value) => thing_of(alloc, value, names, rows),
        Argument::Keyword(..) | Argument::Entry(..) => Err(FormulaKind::BadType),
    }
}

/// What a name behind an expression stands for, or the first fault.
#[cycle(typing)]
#[inline(never)]
fn attribute<'a, 't>(
    alloc: Global,
    names: &FormulaScope,
    front: &'t Expr<'a>,
    name: &str,
    rows: &mut Rows,
) -> Result<Thing, FormulaKind>
    requires { rows.old ≡ (names_of names.now).tables }
    ensures thing { Gives thing (and_then (spec.thing_of (names_of names.now) (tree_of front.now)) (spec.attribute_of (names_of names.now) name.now)) result }
    ensures same { rows.new ≡ rows.old }
{
    let before = thing_of(alloc, front, names, rows)?;
    attribute_of(alloc, names, name, before)
}

/// What brackets behind what was found stand for, or the first fault.
#[cycle(typing)]
#[inline(never)]
fn applied<'a, 't>(
    alloc: Global,
    names: &FormulaScope,
    suffix: Suffix,
    found: Result<Thing, FormulaKind>,
    behind: &'t Arguments<'a>,
    rows: &mut Rows,
) -> Result<Thing, FormulaKind>
    requires { rows.old ≡ (names_of names.now).tables }
    ensures thing { (told : Result things.Thing FormulaKind) → Gives thing told found → Gives thing (and_then told (λ before. spec.with_suffix (names_of names.now) suffix before (spec.all_given (names_of names.now) (series_view behind.now)))) result }
    ensures same { rows.new ≡ rows.old }
{
    let before = found?;
    let arguments = given_inside(alloc, names, behind, rows)?;
    with_suffix(alloc, names, suffix, before, arguments, rows)
}

/// What a prefix and its operand stand for, or the first fault.
#[cycle(typing)]
#[inline(never)]
fn prefixed<'a, 't>(
    alloc: Global,
    names: &FormulaScope,
    prefix: Prefix,
    operand: &'t Expr<'a>,
    rows: &mut Rows,
) -> Result<Thing, FormulaKind>
    requires { rows.old ≡ (names_of names.now).tables }
    ensures thing { Gives thing (and_then (spec.thing_of (names_of names.now) (tree_of operand.now)) (operations.prefixed_value prefix)) result }
    ensures same { rows.new ≡ rows.old }
{
    let inside = thing_of(alloc, operand, names, rows)?;
    prefixed_value(alloc, prefix, inside)
}

/// What an operation on what was found and a second operand stands for, or the first fault.
#[cycle(typing)]
fn of_two<'a, 't>(
    alloc: Global,
    names: &FormulaScope,
    dyadic: Dyadic,
    found: Result<Thing, FormulaKind>,
    right: &'t Expr<'a>,
    rows: &mut Rows,
) -> Result<Thing, FormulaKind>
    requires { rows.old ≡ (names_of names.now).tables }
    ensures thing { (told : Result things.Thing FormulaKind) → Gives thing told found → Gives thing (and_then told (λ first. and_then (spec.thing_of (names_of names.now) (tree_of right.now)) (operations.operated (by dyadic) first))) result }
    ensures same { rows.new ≡ rows.old }
{
    let first = found?;
    let second = thing_of(alloc, right, names, rows)?;
    operated(alloc, dyadic, first, second)
}

/// What stands between brackets, each with what it stands for or its first fault.
#[cycle(typing)]
fn given_inside<'a, 't>(
    alloc: Global,
    names: &FormulaScope,
    inside: &'t Arguments<'a>,
    rows: &mut Rows,
) -> Result<Vec<GivenArgument<'a, 't>>, AllocError>
    requires { rows.old ≡ (names_of names.now).tables }
    ensures thing { IfOk result (λ gs. given_list gs.items ≡ spec.all_given (names_of names.now) (series_view inside.now)) }
    ensures same { rows.new ≡ rows.old }
{
    match inside {
        Arguments::One(argument) => {
            let mut found = Vec::with_capacity(alloc, 1)?;
            found.push(given_of(alloc, argument, names, rows)?)?;
            Ok(found)
        }
        Arguments::Several(items, _) => all_given(alloc, items.as_slice(), names, rows),
    }
}

/// Some arguments, each with what it stands for or its first fault.
#[cycle(typing)]
#[tactic(auto, using(crate::proofs::Elements::series_given))]
fn all_given<'a, 't>(
    alloc: Global,
    items: &'t [Argument<'a>],
    names: &FormulaScope,
    rows: &mut Rows,
) -> Result<Vec<GivenArgument<'a, 't>>, AllocError>
    requires { rows.old ≡ (names_of names.now).tables }
    ensures thing { IfOk result (λ gs. (comma : Bool) → given_list gs.items ≡ spec.all_given (names_of names.now) (series_of comma (map argument_view items.now))) }
    ensures same { rows.new ≡ rows.old }
{
    let mut found = Vec::with_capacity(alloc, items.len())?;
    for item in items {
        found.push(given_of(alloc, item, names, rows)?)?;
    }
    Ok(found)
}

/// One of what stands between brackets, with what it stands for or its first fault.
#[cycle(typing)]
fn given_of<'a, 't>(
    alloc: Global,
    argument: &'t Argument<'a>,
    names: &FormulaScope,
    rows: &mut Rows,
) -> Result<GivenArgument<'a, 't>, AllocError>
    requires { rows.old ≡ (names_of names.now).tables }
    ensures thing { IfOk result (λ g. given_view g ≡ spec.given_of (names_of names.now) (argument_view argument.now)) }
    ensures same { rows.new ≡ rows.old }
{
    match argument {
        Argument::Positional(value) => Ok(GivenArgument {
            keyword: None,
            tree: value,
            thing: if_known(thing_of(alloc, value, names, rows))?,
        }),
        Argument::Keyword(keyword, value) => Ok(GivenArgument {
            keyword: Some(keyword.as_bytes()),
            tree: value,
            thing: if_known(thing_of(alloc, value, names, rows))?,
        }),
        Argument::Entry(_, value) => Ok(GivenArgument {
            keyword: None,
            tree: value,
            thing: Err(FormulaKind::BadType),
        }),
    }
}
