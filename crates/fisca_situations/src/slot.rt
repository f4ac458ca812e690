//! What an axis moves.

ghost use Rattle.std.specs.Prelude.{◌≡◌, ◌<◌, ◌^◌};
ghost use Rattle.fisca_situations.specs.Sets.{set_each};
ghost use Rattle.fisca_situations.specs.Steps.Slots as spec;
ghost use Rattle.fisca_situations.specs.Views.{slot as slot_view};

use crate::cuts::cut_for;
use fisca_inputs::Inputs;
use fisca_model::{Key, Value};
use fisca_num::{Fraction, NumFault};
use fisca_symbols::DeclaredType;
use fisca_time::Period;

/// What an axis moves: the inputs of a member for these periods.
#[derive(Drop)]
pub struct Slot {
    /// The place of the variable among all.
    pub variable: usize,
    /// The place of the person or group among those of its kind.
    pub member: u32,
    /// The place of the axis's group, all axes of which turn together.
    pub wheel: u32,
    /// The type of the variable's values.
    pub value_type: DeclaredType,
    /// Whether each period gets an equal share of a value, and not the whole.
    pub is_divided: bool,
    /// The periods in order of time.
    pub periods: Vec<Period>,
}

/// Whether values of this type are numbers, so that an axis can move them. This project's own rule.
pub fn has_numbers(value_type: DeclaredType) -> bool
    ensures { result ≡ spec.has_numbers value_type }
{
    match value_type {
        DeclaredType::Float | DeclaredType::Int => true,
        DeclaredType::Bool | DeclaredType::Date | DeclaredType::Text | DeclaredType::Enum(_) =>
            false,
    }
}

/// One of so many equal parts of a number.
fn part_of(count: usize, value: Fraction) -> Result<Fraction, NumFault>
    requires { count < 2 ^ 63 }
    ensures { result ≡ spec.part_of count value }
{
    if count == 0 {
        return Err(NumFault::ZeroDivisor);
    }
    match Fraction::new(count as i64, 1) {
        Ok(parts) => value.div(parts),
        Err(_) => unreachable!(),
    }
}

impl Slot {
    /// What each key gets of a value of the axis.
    fn share(&self, value: Fraction) -> Result<Fraction, NumFault>
        ensures { result ≡ spec.share_in (slot_view self.now) value }
    {
        let cut = cut_for(self.value_type, value);
        if self.is_divided {
            part_of(self.periods.len(), cut)
        } else {
            Ok(cut)
        }
    }

    /// Gives this value to the keys of the slot that have one, one after another.
    fn set_all(&self, inputs: &mut Inputs, value: &Value)
        ensures { inputs.new ≡ set_each self.now.variable self.now.member self.now.periods.items value.now inputs.old }
    {
        for period in self.periods.as_slice() {
            let key = Key {
                variable: self.variable,
                member: self.member,
                period: *period,
            };
            inputs.set(&key, *value);
        }
    }

    /// Sets the inputs of the slot's keys to what a value of the axis gives them: cut towards zero where the variable has whole numbers, and an
    /// equal share of it where the variable divides. A key that has no input gets none, and all others keep theirs; where a share is too wide nothing
    /// is set; no axis of an accepted file has such a share. It costs one look-up for each key, and takes no memory. This project's own rule.
    #[tactic(auto, using(crate::proofs::Sets::set_untold))]
    pub fn turn(&self, inputs: &mut Inputs, value: Fraction)
        ensures { inputs.new ≡ spec.turned (slot_view self.now) value inputs.old }
    {
        match self.share(value) {
            Ok(share) => self.set_all(inputs, &Value::Number(share)),
            Err(_) => {}
        }
    }
}
