//! Axes that take other values in the situation of an evaluator.

ghost use Rattle.std.specs.Prelude.{◌≡◌, ◌<◌};
ghost use Rattle.fisca_memo_theory.specs.Reads.{unless_moved};
ghost use Rattle.fisca_model.specs.Values as meaning;
ghost use Rattle.fisca_evaluator.specs.Evaluators as spec;
ghost use Rattle.fisca_situations.specs.Views.{slot as slot_view};

use crate::Recall;
use crate::evaluator::Evaluator;
use fisca_num::Fraction;
use fisca_situations::Slot;

impl<'r, 't, R: Recall> Evaluator<'r, 't, R> {
    /// An axis takes another value: what reads its slot's wheel is forgotten, and the inputs of the slot's keys become what that value gives
    /// them, as `Slot::turn` tells. All other inputs stay, and all that is still remembered is true in the situation as it is then. It takes
    /// no memory, and costs one look-up for each key of the slot, whatever is remembered. The counts stay. The slot's wheel is below 16, and the
    /// evaluator has it among the wheels of the slot's variable. This project's own rule.
    pub fn turn(&mut self, slot: &Slot, value: Fraction)
        requires wheel { slot.now.wheel < 16 }
        requires marked { spec.AreMarked (spec.marks_in self.old) (slot_view slot.now) }
        ensures situation { spec.simulation_of self.new ≡ spec.turned_by (slot_view slot.now) value (spec.simulation_of self.old) }
        ensures dropped { (k : meaning.Key) → R.find self.new.store.recall k ≡ unless_moved slot.now.wheel (R.find self.old.store.recall k) }
        ensures wheels { spec.marks_in self.new ≡ spec.marks_in self.old }
        ensures counts { self.new.store.counts ≡ self.old.store.counts }
        ensures memory { spec.IsMemoryOf (spec.marks_in self.old) (spec.simulation_of self.old) (R.find self.old.store.recall) self.old.store.counts.free
            → spec.IsMemoryOf (spec.marks_in self.old) (spec.simulation_of self.new) (R.find self.new.store.recall) self.new.store.counts.free }
    {
        self.turn_wheel(slot.wheel);
        slot.turn(&mut self.situation.inputs, value);
    }
}
