//! Whether values are near enough to the expected ones.

ghost use Rattle.std.specs.Prelude.{◌≡◌};
ghost use Rattle.fisca_test_file.specs.Verdicts as spec;
ghost use Rattle.fisca_test_file.specs.Steps.Verdicts as steps;

use crate::margins::Margins;
use crate::outcome::Outcome;
use fisca_model::Value;
use fisca_num::{Fraction, NumFault};

/// A number without its sign.
fn size_of(number: Fraction) -> Fraction
    ensures { result ≡ steps.size_of number }
{
    if number.numerator() < 0 {
        number.neg()
    } else {
        number
    }
}

/// How far a value is from the expected one.
fn distance(expected: Fraction, got: Fraction) -> Result<Fraction, NumFault>
    ensures { result ≡ steps.distance expected got }
{
    let difference = got.sub(expected)?;
    Ok(size_of(difference))
}

/// How far a relative margin lets a value be from the expected one.
fn relative_bound(margin: Fraction, expected: Fraction) -> Result<Fraction, NumFault>
    ensures { result ≡ steps.relative_bound margin expected }
{
    let bound = margin.mul(expected)?;
    Ok(size_of(bound))
}

/// Whether a difference is at most this.
fn is_at_most(difference: Fraction, bound: Fraction) -> bool
    ensures { result ≡ steps.is_at_most difference bound }
{
    difference <= bound
}

/// The same, where there is such a margin.
fn bound_in(margin: Option<Fraction>, expected: Fraction) -> Result<Option<Fraction>, NumFault>
    ensures { result ≡ steps.bound_in margin expected }
{
    match margin {
        Some(margin) => {
            let bound = relative_bound(margin, expected)?;
            Ok(Some(bound))
        }
        None => Ok(None),
    }
}

/// Whether a difference is within the absolute margin and the bound that the relative one sets.
fn is_within(absolute: Option<Fraction>, relative: Option<Fraction>, difference: Fraction) -> bool
    ensures { result ≡ steps.is_within (spec.bounds_of absolute relative) difference }
{
    match (absolute, relative) {
        (None, None) => is_at_most(difference, Fraction::zero()),
        (Some(absolute), None) => is_at_most(difference, absolute),
        (None, Some(relative)) => is_at_most(difference, relative),
        (Some(absolute), Some(relative)) => {
            is_at_most(difference, absolute) && is_at_most(difference, relative)
        }
    }
}

/// Whether a number is near enough to the expected one.
fn number_passes(margins: Margins, expected: Fraction, got: Fraction) -> Result<bool, NumFault>
    ensures { result ≡ steps.number_passes margins expected got }
{
    let difference = distance(expected, got)?;
    let bound = bound_in(margins.relative, expected)?;
    Ok(is_within(margins.absolute, bound, difference))
}

/// Whether two bools are the same.
fn same_bool(expected: bool, got: bool) -> bool
    ensures { result ≡ steps.same_bool expected got }
{
    if expected { got } else { !got }
}

/// Whether a value is a number that is near enough to the expected one.
fn is_near(margins: Margins, expected: Fraction, got: Value) -> Result<bool, NumFault>
    ensures { result ≡ steps.is_near margins expected got }
{
    match got {
        Value::Number(got) => number_passes(margins, expected, got),
        Value::Bool(_) => Ok(false),
        Value::Member(_) => Ok(false),
    }
}

/// Whether a value is this bool.
fn is_bool(expected: bool, got: Value) -> bool
    ensures { result ≡ steps.is_bool expected got }
{
    match got {
        Value::Number(_) => false,
        Value::Bool(got) => same_bool(expected, got),
        Value::Member(_) => false,
    }
}

/// Whether a value is this member of an Enum.
fn is_member(expected: usize, got: Value) -> bool
    ensures { result ≡ steps.is_member expected got }
{
    match got {
        Value::Number(_) => false,
        Value::Bool(_) => false,
        Value::Member(got) => expected == got,
    }
}

/// Whether a value is near enough to the expected one: a number whose difference is at most each margin that there is, where the relative one
/// counts for the size of its product with the expected number, and 0 where there is none; a bool or a member of an Enum that is the same.
/// `TooWide` where the difference or that product has a part beyond the limits, whatever the other margin says. (The margins are those of
/// OpenFisca's tests in YAML; both having to hold, and what is too wide, are this project's own.)
pub fn passes(margins: Margins, expected: Value, got: Value) -> Result<bool, NumFault>
    ensures { result ≡ steps.value_passes margins expected got }
{
    match expected {
        Value::Number(expected) => is_near(margins, expected, got),
        Value::Bool(expected) => Ok(is_bool(expected, got)),
        Value::Member(expected) => Ok(is_member(expected, got)),
    }
}

/// How an output comes out whose key has this value.
pub(crate) fn outcome_of<F>(margins: Margins, expected: Value, got: &Value) -> Outcome<F>
    ensures { result ≡ spec.outcome_by got.now (steps.value_passes margins expected got.now) }
{
    match passes(margins, expected, *got) {
        Ok(true) => Outcome::Passed,
        Ok(false) => Outcome::Missed(*got),
        Err(_) => Outcome::TooWide,
    }
}
