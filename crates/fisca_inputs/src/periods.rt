//! The periods that a variable is given values for.

ghost use Rattle.std.specs.Prelude.{◌≡◌};
ghost use Rattle.fisca_inputs.specs.Rules as spec;
ghost use Rattle.fisca_inputs.specs.Steps.Rules as steps;
ghost use Rattle.fisca_model.specs.Periods as asking;

use fisca_model::fits;
use fisca_symbols::Variable;
use fisca_time::{Period, Unit};

/// Whether a period has more than one of this unit in it.
pub(crate) fn is_longer(unit: Unit, period: Period) -> bool
    ensures { result ≡ steps.is_longer unit period }
{
    match period.sub_count(unit) {
        Ok(count) => count > 1,
        Err(_) => false,
    }
}

/// Whether a variable may be given a value for this period: for one of its definition period, for a longer one where it has a rule
/// that shares it, and for any where it is eternal.
pub fn takes(variable: &Variable<'_>, period: Period) -> bool
    ensures { result ≡ spec.is_accepted (spec.rule_of variable.now) period }
{
    fits(variable.definition_period, period)
        || variable.set_input.is_some() && is_longer(variable.definition_period, period)
}

/// The period that the key of a value given for this period has: of an eternal variable the eternal one.
pub fn key_period(variable: &Variable<'_>, period: Period) -> Period
    ensures { result ≡ asking.key_period variable.now.definition_period period }
{
    match variable.definition_period {
        Unit::Day | Unit::Month | Unit::Year => period,
        Unit::Eternity => Period::ETERNITY,
    }
}
