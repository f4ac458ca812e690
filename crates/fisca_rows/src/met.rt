//! When values meet the conditions of a filter.

ghost use Rattle.std.specs.Prelude.{◌≡◌};
ghost use Rattle.fisca_situations.specs.Asked.{HaveAsked};
ghost use Rattle.fisca_rows.specs.Asked.{keys_met};
ghost use Rattle.fisca_rows.specs.Met as spec;
ghost use Rattle.fisca_rows.specs.Outcomes.{IsOutcome};

use crate::condition::Condition;
use fisca_grid::AxisComparison;
use fisca_model::Value;
use fisca_num::Fraction;
use fisca_situations::Answers;
use fisca_writer::RowFault;

/// Whether values that have no order meet a comparison, by whether they are the same.
fn is_met_by_sameness(comparison: AxisComparison, same: bool) -> bool
    ensures { result ≡ spec.is_met_by_sameness comparison same }
{
    match comparison {
        AxisComparison::Equal => same,
        AxisComparison::NotEqual => !same,
        AxisComparison::AtLeast
        | AxisComparison::AtMost
        | AxisComparison::Above
        | AxisComparison::Below => false,
    }
}

/// Whether two bools are the same.
fn same_bool(ours: bool, theirs: bool) -> bool
    ensures { result ≡ spec.same_bool ours theirs }
{
    ours == theirs
}

/// Whether a number meets a comparison with a constant.
fn meets_number(comparison: AxisComparison, number: Fraction, constant: Value) -> bool
    ensures { result ≡ spec.meets_number comparison number constant }
{
    match constant {
        Value::Number(other) => comparison.is_met_by(number.cmp(&other)),
        Value::Bool(_) | Value::Member(_) => false,
    }
}

/// Whether a bool does.
fn meets_bool(comparison: AxisComparison, truth: bool, constant: Value) -> bool
    ensures { result ≡ spec.meets_bool comparison truth constant }
{
    match constant {
        Value::Bool(other) => is_met_by_sameness(comparison, same_bool(truth, other)),
        Value::Number(_) | Value::Member(_) => false,
    }
}

/// Whether a member of an Enum does.
fn meets_member(comparison: AxisComparison, place: usize, constant: Value) -> bool
    ensures { result ≡ spec.meets_member comparison place constant }
{
    match constant {
        Value::Member(other) => is_met_by_sameness(comparison, place == other),
        Value::Number(_) | Value::Bool(_) => false,
    }
}

/// Whether a value of its key meets a condition: a number by the order of numbers, a bool and a member of an Enum by whether it is the
/// constant. A constant of another type is never met. This project's own rule.
#[inline(always)]
pub fn meets(condition: &Condition, value: Value) -> bool
    ensures { result ≡ spec.meets condition.now value }
{
    match value {
        Value::Number(number) => meets_number(condition.comparison, number, condition.constant),
        Value::Bool(truth) => meets_bool(condition.comparison, truth, condition.constant),
        Value::Member(place) => meets_member(condition.comparison, place, condition.constant),
    }
}

/// Whether all conditions hold. They are worked out in order, each once, up to the first that does not hold.
///
/// `Eval` where the key of one that is worked out has no value: its fault. `Memory` only where memory was refused. This project's own rule.
#[inline(always)]
pub fn all_met<A: Answers>(
    answers: &mut A,
    conditions: &[Condition],
) -> Result<bool, RowFault<A::Fault>>
    requires { A.ready answers.old }
    ensures met { IsOutcome (spec.all_met (A.answer answers.old) conditions.now) result }
    ensures asked { HaveAsked A.worked A.refused (keys_met (A.answer answers.old) conditions.now) answers.old answers.new result }
    ensures ready { A.ready answers.new }
    ensures same_answers { A.answer answers.new ≡ A.answer answers.old }
    ensures same_members { A.members answers.new ≡ A.members answers.old }
{
    for condition in conditions {
        let value = answers.value(condition.key)?;
        if !meets(condition, value) {
            return Ok(false);
        }
    }
    Ok(true)
}
