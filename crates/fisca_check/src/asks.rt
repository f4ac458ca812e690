//! What formulas ask for: the values of variables.
ghost use Rattle.std.specs.Prelude.{◌≡◌, Some, Ok};
ghost use Rattle.fisca_check_calls.specs.Arguments.{all_given, given as given_of, key, outcome};
ghost use Rattle.fisca_check.specs.Questions.{given_if, outcome_of};
ghost use Rattle.fisca_check.specs.Steps.Questions.{asked_by as asked_view};
ghost use Rattle.fisca_ast.specs.Outcomes.{Gives};
ghost use Rattle.fisca_ir.specs.Views.{listed, relation as relation_of, thing as thing_of};
ghost use Rattle.fisca_symbols.specs.Known.{tables as tables_of};
ghost use Rattle.fisca_symbols.specs.KnownVariables.{value_type as used_view, variable as variable_view};
ghost use Rattle.fisca_typing.specs.Asks as spec;

use fisca_ast::FormulaKind;
use fisca_check_calls::GivenArgument;
use fisca_ir::{Relation, Thing, Typed, ask, is_numeric, option_of, period_of, text_of};
use fisca_model::ValueType;
use fisca_symbols::{DeclaredType, Tables, Variable};
use fisca_typing::{Asking, Level};
use std::alloc::Global;

/// The type in formulas of a variable: days and texts have none.
fn used_type(value_type: DeclaredType) -> Option<ValueType>
    ensures { result ≡ used_view value_type }
{
    match value_type {
        DeclaredType::Float | DeclaredType::Int => Some(ValueType::Number),
        DeclaredType::Bool => Some(ValueType::Bool),
        DeclaredType::Enum(choices) => Some(ValueType::Enum(choices)),
        DeclaredType::Date | DeclaredType::Text => None,
    }
}

/// The type of a variable of this entity: `BadType` where formulas do not use it, `BadLevel` where it is of another.
fn usable(
    entity: usize,
    place: usize,
    variable: &Variable,
) -> Result<(usize, ValueType), FormulaKind>
    ensures { let v = variable_view variable.now in Gives (λ p. (p.0, p.1)) (spec.usable entity (place, v) v.value_type) result }
{
    let Some(value_type) = used_type(variable.value_type) else {
        return Err(FormulaKind::BadType);
    };
    if variable.entity == entity {
        Ok((place, value_type))
    } else {
        Err(FormulaKind::BadLevel)
    }
}

/// The place and the type of the variable of this entity that a text names: `BadType` for what is no text,
/// `UnknownVariable`, or a fault of the variable.
fn variable_of(
    tables: &Tables,
    entity: usize,
    thing: &Thing,
) -> Result<(usize, ValueType), FormulaKind>
    ensures { Gives (λ p. (p.0, p.1)) (spec.variable_of (tables_of tables.now) entity (thing_of thing.now)) result }
{
    match tables.variable_named(text_of(thing)?) {
        Some((place, variable)) => usable(entity, place, variable),
        None => Err(FormulaKind::UnknownVariable),
    }
}

/// What an argument stands for, or its fault.
fn known(found: &Result<Thing, FormulaKind>) -> Result<&Thing, FormulaKind>
    ensures { Gives (λ x. thing_of x.now) (outcome found.now) result }
{
    match found {
        Ok(thing) => Ok(thing),
        Err(kind) => Err(*kind),
    }
}

/// The option that stands alone in a list, or `BadType`.
fn one_option(things: &[Thing]) -> Result<Asking, FormulaKind>
    ensures { Gives (λ a. a) (spec.one_option (listed things.now)) result }
{
    match things {
        [] => Err(FormulaKind::BadType),
        [only] => option_of(only),
        [_, _, ..] => Err(FormulaKind::BadType),
    }
}

/// The option that a list has alone, or `BadType`.
fn option_in(list: &Thing) -> Result<Asking, FormulaKind>
    ensures { Gives (λ a. a) (spec.options_of (Some (Ok (thing_of list.now)))) result }
{
    match list {
        Thing::Listed(things) => one_option(things.as_slice()),
        _ => Err(FormulaKind::BadType),
    }
}

/// What is asked for by options, if there are any, or their fault.
fn options_of(options: Option<&GivenArgument>) -> Result<Asking, FormulaKind>
    ensures { Gives (λ a. a) (spec.options_of (outcome_of options.entry)) result }
{
    match options {
        None => Ok(Asking::Plain),
        Some(given) => option_in(known(&given.thing)?),
    }
}

/// The type of what is asked for of a variable of a type, or `BadType`: sums and parts are of numbers and bools.
fn asked_type(asking: Asking, value_type: ValueType) -> Result<ValueType, FormulaKind>
    ensures { Gives (λ t. t) (spec.asked_type asking value_type) result }
{
    match asking {
        Asking::Plain => Ok(value_type),
        Asking::Add | Asking::Divide => {
            if is_numeric(value_type) {
                Ok(ValueType::Number)
            } else {
                Err(FormulaKind::BadType)
            }
        }
    }
}

/// A variable and a period, perhaps with options: the first fault of the variable, else of the period, else of the
/// options.
fn asked(
    alloc: Global,
    tables: &Tables,
    relation: Relation,
    level: Level,
    variable: &GivenArgument,
    period: &GivenArgument,
    options: Option<&GivenArgument>,
) -> Result<Thing, FormulaKind>
    ensures { Gives thing_of (spec.asked (tables_of tables.now) (relation_of relation) level (given_of variable.now) (given_of period.now) (outcome_of options.entry)) result }
{
    let (place, declared) = variable_of(tables, relation.entity, known(&variable.thing)?)?;
    let moves = period_of(known(&period.thing)?)?;
    let asking = options_of(options)?;
    let value_type = asked_type(asking, declared)?;
    Ok(Thing::Value(Typed {
        value_type,
        level,
        node: ask(alloc, place, relation.whom, asking, moves.to_vec(alloc)?)?,
    }))
}

/// Whether an argument stands behind `options`.
fn is_options(keyword: Option<&[u8]>) -> bool
    ensures { result ≡ spec.is_options (key keyword.entry) }
{
    match keyword {
        Some(word) => word == b"options".as_slice(),
        None => false,
    }
}

/// A variable and a period by position, and perhaps options by keyword; or `BadType`.
fn asked_by(
    alloc: Global,
    tables: &Tables,
    relation: Relation,
    level: Level,
    variable: &GivenArgument,
    period: &GivenArgument,
    options: Option<&GivenArgument>,
) -> Result<Thing, FormulaKind>
    ensures { Gives thing_of (asked_view (tables_of tables.now) (relation_of relation) level (given_of variable.now) (given_of period.now) (given_if options.entry)) result }
{
    if variable.keyword.is_some() || period.keyword.is_some() {
        return Err(FormulaKind::BadType);
    }
    match options {
        None => asked(alloc, tables, relation, level, variable, period, None),
        Some(last) => {
            if !is_options(last.keyword) {
                return Err(FormulaKind::BadType);
            }
            asked(alloc, tables, relation, level, variable, period, Some(last))
        }
    }
}

/// What is asked for by some arguments: `BadType` where they are not a variable, a period and perhaps options, else their
/// first fault.
#[tactic(auto, using(crate::proofs::Shapes::asked_two, crate::proofs::Shapes::asked_three))]
pub fn asked_with(
    alloc: Global,
    tables: &Tables,
    relation: Relation,
    level: Level,
    arguments: &[GivenArgument],
) -> Result<Thing, FormulaKind>
    ensures { Gives thing_of (spec.asked_with (tables_of tables.now) (relation_of relation) level (all_given arguments.now)) result }
{
    match arguments {
        [] => Err(FormulaKind::BadType),
        [_] => Err(FormulaKind::BadType),
        [variable, period] => asked_by(alloc, tables, relation, level, variable, period, None),
        [variable, period, options] => {
            asked_by(
                alloc,
                tables,
                relation,
                level,
                variable,
                period,
                Some(options),
            )
        }
        [_, _, _, _, ..] => Err(FormulaKind::BadType),
    }
}
