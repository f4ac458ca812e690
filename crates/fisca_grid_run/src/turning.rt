//! The situation of a run, moved from position to position.

ghost use Rattle.std.specs.Prelude.{◌≡◌, ◌<◌, List, Some, length, map};
ghost use Rattle.fisca_grid.specs.AxesRow.{values_of};
ghost use Rattle.fisca_grid.specs.Grid.{axes_at, axes_in, size_of};
ghost use Rattle.fisca_evaluator.specs.Evaluators.{IsMemoryOf, marks_in, simulation_of};
ghost use Rattle.fisca_num.specs.Number.{Number};
ghost use Rattle.fisca_grid_run.specs.Kept.{AllMarked, with_inputs};
ghost use Rattle.fisca_grid_run.specs.Remembered.{AreJust};
ghost use Rattle.fisca_slots.specs.Turning.{turned_below};
ghost use Rattle.fisca_situations.specs.Views.{slot as slot_view};

use fisca_evaluator::{Evaluator, Recall};
use fisca_grid::Axes;
use fisca_situations::Slot;

/// Turns the slots of the first `turned` wheels to the values that their axes have at a position, and forgets what reads one of these. It takes no
/// memory.
pub(crate) fn turn_slots<R: Recall>(
    evaluator: &mut Evaluator<'_, '_, R>,
    axes: &Axes,
    slots: &[Slot],
    position: u64,
    turned: u32,
)
    requires position { position < size_of axes.now }
    requires many { length slots.now ≡ axes_in axes.now }
    requires marked { AllMarked (marks_in evaluator.old) slots.now }
    ensures turned { (values : List Number) → values_of (axes_at axes.now position) ≡ Some values
        → simulation_of evaluator.new ≡ with_inputs (simulation_of evaluator.old) (turned_below turned (map slot_view slots.now) values (simulation_of evaluator.old).situation.inputs) }
    ensures marks { marks_in evaluator.new ≡ marks_in evaluator.old }
    ensures memory { IsMemoryOf (marks_in evaluator.old) (simulation_of evaluator.old) (R.find evaluator.old.store.recall) evaluator.old.store.counts.free
        → IsMemoryOf (marks_in evaluator.old) (simulation_of evaluator.new) (R.find evaluator.new.store.recall) evaluator.new.store.counts.free }
    ensures counts { evaluator.new.store.counts ≡ evaluator.old.store.counts }
    ensures just { AreJust (R.find evaluator.old.store.recall) (R.find evaluator.new.store.recall) (λ k. ⊥) }
{
    for axis in 0..slots.len() {
        let slot = &slots[axis];
        if slot.wheel < turned {
            evaluator.turn(slot, axes.step(axis, position));
        }
    }
}
