//! What operands are taken for.

ghost use Rattle.std.specs.Prelude.{◌≡◌};
ghost use Rattle.fisca_model.specs.Seen.{value_seen};
ghost use Rattle.fisca_key_semantics.specs.Dialogues.{Dialogue, gives, with_number, with_bool, with_member};
ghost use Rattle.fisca_model.specs.Values.{number, bool, member};
ghost use Rattle.fisca_num.specs.Number.{Number};
ghost use Rattle.fisca_ops.specs.Ended.{IsMoving};
ghost use Rattle.std.specs.Prelude.{ℕ, Bool};

use fisca_model::Value;
use fisca_num::Fraction;

/// The number that a value counts as, where it is no member: a bool is 0 or 1.
pub fn number_of(value: Value) -> Fraction
    requires { IsMoving (with_number (value_seen value) (λ n. gives (number n))) }
    ensures { (f : Number → Dialogue) → with_number (value_seen value) f ≡ f result }
{
    match value {
        Value::Number(number) => number,
        Value::Bool(true) => Fraction::one(),
        Value::Bool(false) => Fraction::zero(),
        Value::Member(_) => unreachable!(),
    }
}

/// The bool that a value is.
pub fn truth_of(value: Value) -> bool
    requires { IsMoving (with_bool (value_seen value) (λ b. gives (bool b))) }
    ensures { (f : Bool → Dialogue) → with_bool (value_seen value) f ≡ f result }
{
    match value {
        Value::Bool(truth) => truth,
        Value::Number(_) | Value::Member(_) => unreachable!(),
    }
}

/// The place of the member that a value is.
pub fn member_of(value: Value) -> usize
    requires { IsMoving (with_member (value_seen value) (λ i. gives (member i))) }
    ensures { (f : ℕ → Dialogue) → with_member (value_seen value) f ≡ f result }
{
    match value {
        Value::Member(place) => place,
        Value::Number(_) | Value::Bool(_) => unreachable!(),
    }
}
