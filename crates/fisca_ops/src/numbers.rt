//! Numbers of two, and how they compare.

ghost use Rattle.std.specs.Prelude.{◌≡◌, pos};
ghost use Rattle.fisca_typing.specs.Answers.{holds, number_by};
ghost use Rattle.fisca_key_semantics.specs.Dialogues.{computed};
ghost use Rattle.fisca_num.specs.Operations.{number_over};
ghost use Rattle.fisca_ops.specs.Ended.{ended};

use crate::fault::{OperationFault, fault_of};
use fisca_ast::Comparison;
use fisca_model::Value;
use fisca_num::{Fraction, NumFault};
use fisca_typing::Arithmetic;

/// The number that an operation makes of two, as `number_by` has it: `ZeroDivisor` of a division by 0, `TooWide` where a part is beyond the limits.
/// Of equal numbers the lower and the higher one are the first.
#[inline(always)]
pub fn by(operation: Arithmetic, left: Fraction, right: Fraction) -> Result<Fraction, NumFault>
    ensures { result ≡ number_by operation left right }
{
    match operation {
        Arithmetic::Add => left.add(right),
        Arithmetic::Subtract => left.sub(right),
        Arithmetic::Multiply => left.mul(right),
        Arithmetic::Divide => left.div(right),
        Arithmetic::Min => Ok(if left > right { right } else { left }),
        Arithmetic::Max => Ok(if left < right { right } else { left }),
    }
}

/// Whether two numbers compare in this way, as `holds` has it.
pub fn compares(comparison: Comparison, left: Fraction, right: Fraction) -> bool
    ensures { result ≡ holds comparison left right }
{
    let order = left.cmp(&right);
    match comparison {
        Comparison::Less => order.is_lt(),
        Comparison::LessEqual => !order.is_gt(),
        Comparison::Greater => order.is_gt(),
        Comparison::GreaterEqual => !order.is_lt(),
        Comparison::Equal => order.is_eq(),
        Comparison::NotEqual => !order.is_eq(),
    }
}

/// The value of a computed number, or what its fault means.
pub(crate) fn computed(number: Result<Fraction, NumFault>) -> Result<Value, OperationFault>
    ensures { ended result ≡ computed number }
{
    match number {
        Ok(number) => Ok(Value::Number(number)),
        Err(fault) => Err(fault_of(fault)),
    }
}

/// The value of a whole number.
pub fn whole(number: i64) -> Result<Value, OperationFault>
    ensures { ended result ≡ computed (number_over number (pos 1)) }
{
    computed(Fraction::new(number, 1))
}
