//! The result of a formula as a value of its variable.

ghost use Rattle.std.specs.Prelude.{◌≡◌};
ghost use Rattle.fisca_model.specs.Seen.{value_seen};
ghost use Rattle.fisca_ops.specs.Casts as spec;
ghost use Rattle.fisca_ops.specs.Steps.Casts as steps;
ghost use Rattle.fisca_ops.specs.Ended.{IsMoving, ended};

use crate::fault::OperationFault;
use crate::numbers::whole;
use crate::operands::{member_of, number_of};
use fisca_model::Value;
use fisca_num::Fraction;
use fisca_symbols::DeclaredType;

/// Whether a whole number has 32 bits.
fn fits_int(number: i64) -> bool
    ensures { result ≡ steps.fits_int number }
{
    number >= -2_147_483_648 && number <= 2_147_483_647
}

/// A whole number of 32 bits, or `TooWide`.
fn if_int(number: i64) -> Result<Value, OperationFault>
    ensures { ended result ≡ steps.if_int number }
{
    if fits_int(number) {
        whole(number)
    } else {
        Err(OperationFault::TooWide)
    }
}

/// Whether a number is 0.
fn is_zero(number: Fraction) -> bool
    ensures { result ≡ steps.is_zero number }
{
    number.cmp(&Fraction::zero()).is_eq()
}

/// What a formula's result is as a value of a variable of this type: for whole numbers it is cut towards 0, for bools it is whether it is
/// another number than 0, and a bool counts as 0 or 1. Formulas of days and texts have no results.
///
/// `TooWide` where a whole number has more than 32 bits.
pub fn cast(declared: DeclaredType, value: Value) -> Result<Value, OperationFault>
    requires { IsMoving (spec.cast declared (value_seen value)) }
    ensures { ended result ≡ spec.cast declared (value_seen value) }
{
    match declared {
        DeclaredType::Float => Ok(Value::Number(number_of(value))),
        DeclaredType::Int => if_int(number_of(value).trunc()),
        DeclaredType::Bool => Ok(Value::Bool(!is_zero(number_of(value)))),
        DeclaredType::Enum(_) => Ok(Value::Member(member_of(value))),
        DeclaredType::Date | DeclaredType::Text => unreachable!(),
    }
}
