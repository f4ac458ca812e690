//! Inputs that a caller gives in place of axes.

ghost use Rattle.std.specs.Prelude.{◌≡◌, IfOk};
ghost use Rattle.fisca_api.specs.Situations as spec;
ghost use Rattle.fisca_situations.specs.AllAxes.{put_all_in};

use fisca_inputs::{Given, key_period};
use fisca_model::Value;
use fisca_num::Fraction;
use fisca_situations::{cut_for, put_in};
use fisca_symbols::Tables;
use fisca_time::Period;
use std::alloc::{AllocError, Global};

/// A value that an axis gives to a variable of a member for a period.
#[derive(Clone, Copy, Debug, PartialEq, Eq)]
pub struct AxisValue {
    /// The place of the variable among all.
    pub variable: usize,
    /// The place of the person or group among those of its kind.
    pub member: u32,
    /// The period.
    pub period: Period,
    /// The value. That of a variable of whole numbers is cut towards zero.
    pub value: Fraction,
}

/// A copy of inputs. `AllocError` only where memory was refused.
pub(crate) fn given_copied(alloc: Global, given: &[Given]) -> Result<Vec<Given>, AllocError>
    ensures { IfOk result (λ v. v.items ≡ given.now) }
{
    let mut copy = Vec::with_capacity(alloc, given.len())?;
    copy.extend_from_slice(given)?;
    Ok(copy)
}

/// The input of this number for this period.
fn number_given(axis: &AxisValue, period: Period, number: Fraction) -> Given
    ensures { result ≡ spec.number_given axis.now period number }
{
    Given {
        variable: axis.variable,
        member: axis.member,
        period,
        value: Value::Number(number),
        line: 0,
    }
}

/// The input that such a value is.
fn given_by(tables: &Tables<'_>, axis: &AxisValue) -> Given
    ensures { result ≡ spec.given_by tables.now axis.now }
{
    match tables.variables.as_slice().get(axis.variable) {
        Some(variable) => number_given(
            axis,
            key_period(variable, axis.period),
            cut_for(variable.value_type, axis.value),
        ),
        None => number_given(axis, axis.period, axis.value),
    }
}

/// These inputs, where such values are put in one after another, each behind them or in the place of that of just its variable, member and
/// period. `AllocError` only where memory was refused.
pub(crate) fn with_values(
    alloc: Global,
    tables: &Tables<'_>,
    given: &[Given],
    values: &[AxisValue],
) -> Result<Vec<Given>, AllocError>
    ensures { IfOk result (λ v. v.items ≡ put_all_in given.now (spec.all_given tables.now values.now)) }
{
    let mut all = given_copied(alloc, given)?;
    for value in values {
        put_in(&mut all, given_by(tables, value))?;
    }
    Ok(all)
}
