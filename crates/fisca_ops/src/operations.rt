//! Operations on values, whose operands are of the types that fit.

ghost use Rattle.std.specs.Prelude.{◌≡◌};
ghost use Rattle.fisca_model.specs.Seen.{value_seen};
ghost use Rattle.fisca_typing.specs.Answers.{arithmetic_of, comparison_of, logic_of, same_of, unary_of};
ghost use Rattle.fisca_ops.specs.Ended.{IsMoving, ended};

use crate::fault::OperationFault;
use crate::numbers::{by, compares, computed};
use crate::operands::{member_of, number_of, truth_of};
use fisca_ast::Comparison;
use fisca_model::Value;
use fisca_num::Fraction;
use fisca_typing::{Arithmetic, Logic, Unary, is_places};

/// A number of two numbers, as `arithmetic_of` has it; bools count as 0 and 1.
///
/// `ZeroDivisor` of a division by 0, `TooWide` where a part of the number is beyond the limits.
#[inline(always)]
pub fn arithmetic(operation: Arithmetic, left: Value, right: Value) -> Result<Value, OperationFault>
    requires { IsMoving (arithmetic_of operation (value_seen left) (value_seen right)) }
    ensures { ended result ≡ arithmetic_of operation (value_seen left) (value_seen right) }
{
    let left = number_of(left);
    let right = number_of(right);
    computed(by(operation, left, right))
}

/// A bool of two bools, as `logic_of` has it.
pub fn logic(operation: Logic, left: Value, right: Value) -> Value
    requires { IsMoving (logic_of operation (value_seen left) (value_seen right)) }
    ensures { ended (Ok result) ≡ logic_of operation (value_seen left) (value_seen right) }
{
    let left = truth_of(left);
    let right = truth_of(right);
    Value::Bool(match operation {
        Logic::Or => left || right,
        Logic::And => left && right,
    })
}

/// Whether two numbers compare in this way, as `comparison_of` has it; bools count as 0 and 1.
pub fn comparison(comparison: Comparison, left: Value, right: Value) -> Value
    requires { IsMoving (comparison_of comparison (value_seen left) (value_seen right)) }
    ensures { ended (Ok result) ≡ comparison_of comparison (value_seen left) (value_seen right) }
{
    let left = number_of(left);
    let right = number_of(right);
    Value::Bool(compares(comparison, left, right))
}

/// Whether two are the same member of an Enum, as `same_of` has it.
pub fn same(left: Value, right: Value) -> Value
    requires { IsMoving (same_of (value_seen left) (value_seen right)) }
    ensures { ended (Ok result) ≡ same_of (value_seen left) (value_seen right) }
{
    let left = member_of(left);
    let right = member_of(right);
    Value::Bool(left == right)
}

/// The nearest number with so many decimal places, from -9 to 9. `TooWide` where a part of it is beyond the limits.
fn rounded(places: i8, value: Value) -> Result<Value, OperationFault>
    requires { IsMoving (unary_of (Unary.Round places) (value_seen value)) }
    ensures { ended result ≡ unary_of (Unary.Round places) (value_seen value) }
{
    if !is_places(i64::from(places)) {
        unreachable!();
    }
    computed(number_of(value).round_to(places))
}

/// A value of one, as `unary_of` has it; a bool counts as 0 or 1 where a number is meant.
///
/// `TooWide` where a part of a rounded number is beyond the limits.
pub fn unary(operation: Unary, value: Value) -> Result<Value, OperationFault>
    requires { IsMoving (unary_of operation (value_seen value)) }
    ensures { ended result ≡ unary_of operation (value_seen value) }
{
    match operation {
        Unary::Not => Ok(Value::Bool(!truth_of(value))),
        Unary::Minus => Ok(Value::Number(number_of(value).neg())),
        Unary::Floor => computed(Fraction::whole(number_of(value).floor())),
        Unary::Ceil => computed(Fraction::whole(number_of(value).ceil())),
        Unary::Round(places) => rounded(places, value),
        Unary::Absolute => Ok(Value::Number(number_of(value).abs())),
    }
}
