//! What stands for the value of nobody.

ghost use Rattle.std.specs.Prelude.{◌≡◌};
ghost use Rattle.fisca_model.specs.Seen.{value_seen};
ghost use Rattle.fisca_typing.specs.Questions as spec;

use fisca_model::{Value, ValueType};
use fisca_num::Fraction;
use fisca_typing::Asking;

/// What stands for a value of this type where nobody has one, as `default_of` has it: 0, `False` or the first member.
pub fn default_of(value_type: ValueType) -> Value
    ensures { value_seen result ≡ spec.default_of value_type }
{
    match value_type {
        ValueType::Number => Value::Number(Fraction::zero()),
        ValueType::Bool => Value::Bool(false),
        ValueType::Enum(_) => Value::Member(0),
    }
}

/// The same of what is asked for, as `default_by` has it: sums and parts of a year's value are numbers.
pub fn default_by(asking: Asking, value_type: ValueType) -> Value
    ensures { value_seen result ≡ spec.default_by asking value_type }
{
    match asking {
        Asking::Plain => default_of(value_type),
        Asking::Add | Asking::Divide => Value::Number(Fraction::zero()),
    }
}
