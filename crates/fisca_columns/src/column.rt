//! The key that a column names.

ghost use Rattle.std.specs.Prelude.{◌≡◌, option_map, is_some};
ghost use Rattle.fisca_symbols.specs.Known.{tables as known};
ghost use Rattle.fisca_symbols.specs.KnownVariables.{value_type as known_type};
ghost use Rattle.fisca_columns.specs.Columns as spec;
ghost use Rattle.fisca_columns.specs.Steps.Columns as steps;
ghost use Rattle.fisca_columns.specs.ColumnViews.{parts as parts_view};
ghost use Rattle.fisca_situations.specs.Steps.Views.{situation as situation_view};

use crate::place::member_at;
use crate::written::{Parts, parts_of};
use fisca_inputs::key_period;
use fisca_model::{Key, fits};
use fisca_situations::Situation;
use fisca_symbols::{DeclaredType, Tables, Variable};
use fisca_time::{Period, Unit};

/// The period of the key that a variable is asked for at a period.
fn asked_at(variable: &Variable<'_>, period: Period) -> Option<Period>
    ensures { result ≡ steps.asked_at variable.now.definition_period period }
{
    if fits(variable.definition_period, period) {
        Some(key_period(variable, period))
    } else {
        None
    }
}

/// The same at the default period, which an eternal variable does not need.
fn asked_at_default(variable: &Variable<'_>, default: Option<Period>) -> Option<Period>
    ensures { result ≡ steps.asked_at_default variable.now.definition_period default }
{
    match default {
        Some(period) => asked_at(variable, period),
        None if variable.definition_period == Unit::Eternity => Some(Period::ETERNITY),
        None => None,
    }
}

/// The same at the period that is written, if one is.
fn period_at(
    variable: &Variable<'_>,
    default: Option<Period>,
    written: Option<&str>,
) -> Option<Period>
    ensures { result ≡ steps.period_at variable.now.definition_period default (option_map (λ t. t.now) written.entry) }
{
    match written {
        Some(text) => match Period::read(text) {
            Ok(period) => asked_at(variable, period),
            Err(_) => None,
        },
        None => asked_at_default(variable, default),
    }
}

/// Whether formulas use values of this type.
fn is_usable(value_type: DeclaredType) -> bool
    ensures { result ≡ is_some (known_type value_type) }
{
    match value_type {
        DeclaredType::Float | DeclaredType::Int | DeclaredType::Bool | DeclaredType::Enum(_) => {
            true
        }
        DeclaredType::Date | DeclaredType::Text => false,
    }
}

/// The key that these parts name.
fn key_of(
    tables: &Tables<'_>,
    situation: &Situation,
    default: Option<Period>,
    parts: Parts<'_>,
) -> Option<Key>
    ensures { result ≡ spec.key_of_parts (known tables.now) (situation_view situation.now).members default (parts_view parts.entry) }
{
    let (variable, declared) = tables.variable_named(parts.name)?;
    if !is_usable(declared.value_type) {
        return None;
    }
    let member = member_at(situation.members(declared.entity), parts.index)?;
    let period = period_at(declared, default, parts.period)?;
    Some(Key {
        variable,
        member,
        period,
    })
}

/// The key that a column names: `NAME`, `NAME#INDEX`, `NAME@PERIOD` or `NAME#INDEX@PERIOD`, with the variable of this name, the member
/// at a place counted from 0 (the first where there is no `#`; zeros before it are read), and the period (the default one where there is no
/// `@`). The key of an eternal variable has the eternal period, whatever period is written; it needs none.
///
/// `None` where the text has not this form, the variable is not there or is a day or a text, there is no such member, or the variable can't be
/// asked for at the period. It takes no memory. This project's own rule.
pub fn read_column(
    tables: &Tables<'_>,
    situation: &Situation,
    text: &str,
    default: Option<Period>,
) -> Option<Key>
    ensures { result ≡ spec.column_of (known tables.now) (situation_view situation.now).members default text.now }
{
    key_of(tables, situation, default, parts_of(text))
}
