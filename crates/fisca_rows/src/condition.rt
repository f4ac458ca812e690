//! The condition that a text states of a column.

ghost use Rattle.std.specs.Prelude.{◌≡◌, option_map};
ghost use Rattle.fisca_grid.specs.Condition.{signs};
ghost use Rattle.fisca_grid.specs.Words.{literal_of};
ghost use Rattle.fisca_model.specs.Tables.{variable_type};
ghost use Rattle.fisca_rows.specs.Steps.Conditions as spec;
ghost use Rattle.fisca_situations.specs.Steps.Views.{situation as situation_view};
ghost use Rattle.fisca_symbols.specs.Known.{tables as known};
ghost use Rattle.fisca_symbols.specs.KnownVariables.{value_type as known_type};

use fisca_columns::read_column;
use fisca_grid::{AxisComparison, around_first, past_spaces};
use fisca_model::{Key, Value};
use fisca_num::Fraction;
use fisca_situations::Situation;
use fisca_symbols::{DeclaredType, Tables};
use fisca_time::Period;

/// A condition: how the value of a key is compared with a constant of its type.
#[derive(Clone, Copy, Debug, PartialEq, Eq)]
pub struct Condition {
    /// The key.
    pub key: Key,
    /// How it is compared.
    pub comparison: AxisComparison,
    /// The constant.
    pub constant: Value,
}

/// The text without its last spaces.
fn before_spaces(text: &str) -> &str
    ensures { result.now ≡ spec.before_spaces text.now }
{
    let mut rest = text;
    'spaces: while let Some(less) = rest.strip_suffix(' ') {
        rest = less;
    }
    rest
}

/// The comparison of a text, and what stands before and behind its sign. A longer sign comes before the one that begins it.
fn around_sign(text: &str) -> Option<(AxisComparison, (&str, &str))>
    ensures { option_map (λ s. (s.0, (s.1.0.now, s.1.1.now))) result ≡ spec.around_sign signs text.now }
{
    if let Some(parts) = around_first(text, ">=") {
        Some((AxisComparison::AtLeast, parts))
    } else if let Some(parts) = around_first(text, "<=") {
        Some((AxisComparison::AtMost, parts))
    } else if let Some(parts) = around_first(text, "==") {
        Some((AxisComparison::Equal, parts))
    } else if let Some(parts) = around_first(text, "!=") {
        Some((AxisComparison::NotEqual, parts))
    } else if let Some(parts) = around_first(text, ">") {
        Some((AxisComparison::Above, parts))
    } else if let Some(parts) = around_first(text, "<") {
        Some((AxisComparison::Below, parts))
    } else {
        None
    }
}

/// Whether a comparison goes by an order, which bools and members of Enums have not.
fn is_of_order(comparison: AxisComparison) -> bool
    ensures { result ≡ spec.is_of_order comparison }
{
    match comparison {
        AxisComparison::AtLeast
        | AxisComparison::AtMost
        | AxisComparison::Above
        | AxisComparison::Below => true,
        AxisComparison::Equal | AxisComparison::NotEqual => false,
    }
}

/// The bool that a text says.
fn bool_of(text: &str) -> Option<bool>
    ensures { result ≡ spec.bool_of text.now }
{
    match text {
        "true" => Some(true),
        "false" => Some(false),
        _ => None,
    }
}

/// The number that a text says.
fn number_of(text: &str) -> Option<Fraction>
    ensures { result ≡ literal_of text.now }
{
    Fraction::from_decimal(text).ok()
}

/// What a text stands for beside values of a type.
fn constant_of(
    tables: &Tables<'_>,
    comparison: AxisComparison,
    value_type: DeclaredType,
    text: &str,
) -> Option<Value>
    ensures { result ≡ spec.constant_of (known tables.now) comparison (known_type value_type) text.now }
{
    match value_type {
        DeclaredType::Float | DeclaredType::Int => Some(Value::Number(number_of(text)?)),
        DeclaredType::Bool if is_of_order(comparison) => None,
        DeclaredType::Bool => Some(Value::Bool(bool_of(text)?)),
        DeclaredType::Enum(_) if is_of_order(comparison) => None,
        DeclaredType::Enum(choices) => { Some(Value::Member(tables.member_named(choices, text)?)) }
        DeclaredType::Date | DeclaredType::Text => None,
    }
}

/// The same beside values of the variable at a place.
fn constant_at(
    tables: &Tables<'_>,
    comparison: AxisComparison,
    variable: usize,
    text: &str,
) -> Option<Value>
    ensures { result ≡ spec.constant_of (known tables.now) comparison (variable_type (known tables.now) variable) text.now }
{
    let declared = tables.variables.as_slice().get(variable)?;
    constant_of(tables, comparison, declared.value_type, text)
}

/// The condition of these parts.
fn condition_by(
    tables: &Tables<'_>,
    situation: &Situation,
    default: Option<Period>,
    comparison: AxisComparison,
    column: &str,
    constant: &str,
) -> Option<Condition>
    ensures { result ≡ spec.condition_by (known tables.now) (situation_view situation.now).members default (comparison, (column.now, constant.now)) }
{
    let key = read_column(tables, situation, before_spaces(column), default)?;
    let constant = constant_at(tables, comparison, key.variable, past_spaces(constant))?;
    Some(Condition {
        key,
        comparison,
        constant,
    })
}

/// The condition that a text states: a column, as `read_column` reads it; one of `>=`, `<=`, `==`, `!=`, `>` and `<`; and a constant, which is a
/// decimal literal beside numbers, `true` or `false` beside bools, and the name of a member beside those of an Enum. Bools and members take `==`
/// and `!=` alone. Spaces may stand around the comparison.
///
/// `None` where the text has not this form, names nothing that can be asked for, or has a constant of another type. It takes no memory. This
/// project's own rule.
pub fn read_condition(
    tables: &Tables<'_>,
    situation: &Situation,
    text: &str,
    default: Option<Period>,
) -> Option<Condition>
    ensures { result ≡ spec.condition_of (known tables.now) (situation_view situation.now).members default text.now }
{
    let (comparison, (column, constant)) = around_sign(text)?;
    condition_by(tables, situation, default, comparison, column, constant)
}
