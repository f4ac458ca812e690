//! The periods at which variables are asked for.

ghost use Rattle.std.specs.Prelude.{◌≡◌, option_map, is_some};
ghost use Rattle.fisca_columns.specs.Steps.Columns as spec;
ghost use Rattle.fisca_symbols.specs.KnownVariables.{value_type as known_type};

use fisca_inputs::key_period;
use fisca_model::fits;
use fisca_symbols::{DeclaredType, Variable};
use fisca_time::{Period, Unit};

/// The period of the key that a variable is asked for at a period.
fn asked_at(variable: &Variable<'_>, period: Period) -> Option<Period>
    ensures { result ≡ spec.asked_at variable.now.definition_period period }
{
    if fits(variable.definition_period, period) {
        Some(key_period(variable, period))
    } else {
        None
    }
}

/// The same at the default period, which an eternal variable does not need.
fn asked_at_default(variable: &Variable<'_>, default: Option<Period>) -> Option<Period>
    ensures { result ≡ spec.asked_at_default variable.now.definition_period default }
{
    match default {
        Some(period) => asked_at(variable, period),
        None if variable.definition_period == Unit::Eternity => Some(Period::ETERNITY),
        None => None,
    }
}

/// The same at the period that is written, if one is.
pub(crate) fn period_at(
    variable: &Variable<'_>,
    default: Option<Period>,
    written: Option<&str>,
) -> Option<Period>
    ensures { result ≡ spec.period_at variable.now.definition_period default (option_map (λ t. t.now) written.entry) }
{
    match written {
        Some(text) => match Period::read(text) {
            Ok(period) => asked_at(variable, period),
            Err(_) => None,
        },
        None => asked_at_default(variable, default),
    }
}

/// Whether formulas use values of this type.
pub(crate) fn is_usable(value_type: DeclaredType) -> bool
    ensures { result ≡ is_some (known_type value_type) }
{
    match value_type {
        DeclaredType::Float | DeclaredType::Int | DeclaredType::Bool | DeclaredType::Enum(_) => {
            true
        }
        DeclaredType::Date | DeclaredType::Text => false,
    }
}
