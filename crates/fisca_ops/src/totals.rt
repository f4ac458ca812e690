//! Totals over persons, one person after another.

ghost use Rattle.std.specs.Prelude.{◌≡◌, option_map};
ghost use Rattle.fisca_model.specs.Seen.{value_seen};
ghost use Rattle.fisca_ops.specs.Ended.{IsMoving, ended};
ghost use Rattle.fisca_ops.specs.Totals as spec;
ghost use Rattle.fisca_ops.specs.Steps.Totals as steps;

use crate::fault::OperationFault;
use crate::operations::{arithmetic, logic};
use fisca_model::Value;
use fisca_num::Fraction;
use fisca_typing::{Arithmetic, Logic, Total};

/// What a total is of nobody: a sum is 0, of any is `False` and of all `True`; the lowest and the highest have none.
pub fn beginning(total: Total) -> Option<Value>
    ensures { option_map value_seen result ≡ steps.beginning total }
{
    match total {
        Total::Sum => Some(Value::Number(Fraction::zero())),
        Total::Min | Total::Max => None,
        Total::Any => Some(Value::Bool(false)),
        Total::All => Some(Value::Bool(true)),
    }
}

/// A total with one person more, as `step_of` has it. `TooWide` where a part of a sum is beyond the limits.
pub fn stepped(total: Total, sum: Value, value: Value) -> Result<Value, OperationFault>
    requires { IsMoving (spec.step_of total (value_seen sum) (value_seen value)) }
    ensures { ended result ≡ spec.step_of total (value_seen sum) (value_seen value) }
{
    match total {
        Total::Sum => arithmetic(Arithmetic::Add, sum, value),
        Total::Min => arithmetic(Arithmetic::Min, sum, value),
        Total::Max => arithmetic(Arithmetic::Max, sum, value),
        Total::Any => Ok(logic(Logic::Or, sum, value)),
        Total::All => Ok(logic(Logic::And, sum, value)),
    }
}
