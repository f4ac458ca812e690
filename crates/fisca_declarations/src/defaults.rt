//! Default values.

ghost use Rattle.std.specs.Prelude.{◌≡◌, Ok, is_ok, option_map};
ghost use Rattle.fisca_attributes.specs.Steps.Values as values;
ghost use Rattle.fisca_ast.specs.Steps.Groups.{bare as unwrapped};
ghost use Rattle.fisca_ast.specs.Views.{tree};
ghost use Rattle.fisca_ast.specs.Outcomes.{Gives};
ghost use Rattle.fisca_declarations.specs.VariableForms as spec;
ghost use Rattle.fisca_declarations.specs.Steps.VariableForms as steps;

use crate::declared::Declared;
use crate::members::enum_default;
use crate::types::TypeLines;
use fisca_ast::{Expr, FormulaKind, bare};
use fisca_attributes::{TypeName, date_value, dotted_value, number_value, text_value, truth_value};
use fisca_num::Fraction;
use fisca_symbols::DefaultValue;
use std::alloc::Global;

/// Whether a whole number has 32 bits.
fn fits_int(number: i64) -> bool
    ensures { result ≡ steps.fits_int number }
{
    number >= -2_147_483_648 && number <= 2_147_483_647
}

/// Whether a number is a whole one of 32 bits.
fn is_int(number: Fraction) -> bool
    ensures { result ≡ steps.is_int number }
{
    number.denominator() == 1 && fits_int(number.numerator())
}

/// A number.
fn number_default<'a>(value: &Expr<'_>) -> Result<DefaultValue<'a>, FormulaKind>
    ensures { Gives (λ d. d) (steps.number_default (tree value.now)) result }
{
    Ok(DefaultValue::Number(number_value(value)?))
}

/// A whole number of 32 bits.
fn int_default<'a>(value: &Expr<'_>) -> Result<DefaultValue<'a>, FormulaKind>
    ensures { Gives (λ d. d) (steps.int_default (tree value.now)) result }
{
    let number = number_value(value)?;
    if is_int(number) {
        Ok(DefaultValue::Number(number))
    } else {
        Err(FormulaKind::BadAttribute)
    }
}

/// `True` or `False`.
fn bool_default<'a>(value: &Expr<'_>) -> Result<DefaultValue<'a>, FormulaKind>
    ensures { Gives (λ d. d) (steps.bool_default (tree value.now)) result }
{
    Ok(DefaultValue::Bool(truth_value(value)?))
}

/// A day of the calendar.
fn date_default<'a>(alloc: Global, value: &Expr<'_>) -> Result<DefaultValue<'a>, FormulaKind>
    ensures { Gives (λ d. d) (steps.date_default (tree value.now)) result }
{
    Ok(DefaultValue::Date(Some(date_value(alloc, value)?)))
}

/// A text.
fn text_default<'a>(alloc: Global, value: &Expr<'a>) -> Result<DefaultValue<'a>, FormulaKind>
    ensures { Gives (λ d. d) (steps.text_default (tree value.now)) result }
{
    Ok(DefaultValue::Text(Some(text_value(alloc, value)?)))
}

/// A value of this type; of an Enum a member of it.
fn default_of<'a>(
    alloc: Global,
    declared: &Declared<'_>,
    choices: Option<usize>,
    value_type: TypeName,
    value: &Expr<'a>,
) -> Result<DefaultValue<'a>, FormulaKind>
    ensures { Gives (λ d. d) (steps.default_of declared.now choices value_type (tree value.now)) result }
{
    match value_type {
        TypeName::Float => number_default(value),
        TypeName::Int => int_default(value),
        TypeName::Bool => bool_default(value),
        TypeName::Date => date_default(alloc, value),
        TypeName::Text => text_default(alloc, value),
        TypeName::Enum => enum_default(declared, choices, value),
    }
}

/// What is the value where none is written; an Enum names one.
pub(crate) fn no_default<'a>(value_type: TypeName) -> Result<DefaultValue<'a>, FormulaKind>
    ensures { Gives (λ d. d) (steps.no_default value_type) result }
{
    match value_type {
        TypeName::Float | TypeName::Int => Ok(DefaultValue::Number(Fraction::zero())),
        TypeName::Bool => Ok(DefaultValue::Bool(false)),
        TypeName::Date => Ok(DefaultValue::Date(None)),
        TypeName::Text => Ok(DefaultValue::Text(None)),
        TypeName::Enum => Err(FormulaKind::BadAttribute),
    }
}

/// Whether a value is a text.
fn is_text(value: &Expr<'_>) -> bool
    ensures { result ≡ spec.is_text_in (unwrapped (tree value.now)) }
{
    match bare(value) {
        Expr::Text(_) => true,
        Expr::Name(_)
        | Expr::Number(_)
        | Expr::Bracketed(_, _)
        | Expr::Attribute(_)
        | Expr::Applied(_, _)
        | Expr::Prefixed(_, _)
        | Expr::Binary(_, _)
        | Expr::Compare(_, _) => false,
    }
}

/// Whether a value is two names with a point between them.
fn is_dotted(value: &Expr<'_>) -> Result<bool, FormulaKind>
    ensures { Gives (λ b. b) (Ok (is_ok (values.dotted_value (tree value.now)))) result }
{
    match dotted_value(value) {
        Ok(_) => Ok(true),
        Err(FormulaKind::Memory) => Err(FormulaKind::Memory),
        Err(_) => Ok(false),
    }
}

/// Whether a value is a day.
fn is_day(alloc: Global, value: &Expr<'_>) -> Result<bool, FormulaKind>
    ensures { Gives (λ b. b) (Ok (steps.is_day (tree value.now))) result }
{
    match date_value(alloc, value) {
        Ok(_) => Ok(true),
        Err(FormulaKind::Memory) => Err(FormulaKind::Memory),
        Err(_) => Ok(false),
    }
}

/// Whether a value is one of some type.
fn is_default(alloc: Global, value: &Expr<'_>) -> Result<bool, FormulaKind>
    ensures { Gives (λ b. b) (Ok (steps.is_default (tree value.now))) result }
{
    if number_value(value).is_ok() || truth_value(value).is_ok() || is_text(value) {
        return Ok(true);
    }
    if is_dotted(value)? {
        return Ok(true);
    }
    is_day(alloc, value)
}

/// A value of this type. Of an unknown one it is a value of some type, and none is taken.
pub(crate) fn default_said<'a>(
    alloc: Global,
    declared: &Declared<'_>,
    types: TypeLines,
    value: &Expr<'a>,
) -> Result<Option<DefaultValue<'a>>, FormulaKind>
    ensures { Gives (λ d. d) (steps.default_said declared.now types (tree value.now)) result }
{
    match types.value_type {
        Ok(known) => {
            let choices = types.possible_values.ok();
            Ok(Some(default_of(alloc, declared, choices, known, value)?))
        }
        Err(_) => {
            if is_default(alloc, value)? {
                Ok(None)
            } else {
                Err(FormulaKind::BadAttribute)
            }
        }
    }
}
