//! Values of axes for a type of values.

ghost use Rattle.std.specs.Prelude.{◌≡◌};
ghost use Rattle.fisca_situations.specs.Steps.Cuts as spec;

use fisca_num::Fraction;
use fisca_symbols::DeclaredType;

/// A number cut towards zero.
fn whole_part(value: Fraction) -> Fraction
    ensures { result ≡ spec.whole_part value }
{
    match Fraction::new(value.trunc(), 1) {
        Ok(whole) => whole,
        Err(_) => unreachable!(),
    }
}

/// The value of an axis for a variable of this type: whole numbers are cut towards zero. This project's own rule.
pub fn cut_for(value_type: DeclaredType, value: Fraction) -> Fraction
    ensures { result ≡ spec.cut_for value_type value }
{
    match value_type {
        DeclaredType::Int => whole_part(value),
        DeclaredType::Float
        | DeclaredType::Bool
        | DeclaredType::Date
        | DeclaredType::Text
        | DeclaredType::Enum(_) => value,
    }
}
