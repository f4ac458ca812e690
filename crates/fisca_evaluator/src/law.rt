//! Laws of what is counted, and of wheels and axes that turn, each as the contract of a function that does nothing.

ghost use Rattle.std.specs.Prelude.{◌≡◌, ℕ, ◌+◌, ◌<◌, ◌^◌, Some};
ghost use Rattle.fisca_memo_theory.specs.Entries.{Entries};
ghost use Rattle.fisca_inputs.specs.Entries.{value_at};
ghost use Rattle.fisca_model.specs.declared.value.Value.TheVariants as v;
ghost use Rattle.fisca_model.specs.declared.key.Key as inputs;
ghost use Rattle.fisca_model.specs.Values.{Key};
ghost use Rattle.fisca_evaluator.specs.Counting.{IsCounted};
ghost use Rattle.fisca_evaluator.specs.Evaluators.{IsStill, IsTurned, turned_by};
ghost use Rattle.fisca_num.specs.Number.{Number};
ghost use Rattle.fisca_evaluator.specs.declared.counts.Counts.{Counts};
ghost use Rattle.fisca_situations.specs.Slots.{Slot};
ghost use Rattle.fisca_simulation.specs.Simulations.{Simulation};
ghost use Rattle.fisca_simulation.specs.Sound.{InputsFit};

/// Law: the values that were remembered, whatever they read, rise by the entries that are added, as long as no count stands at its greatest.
pub fn counts_rise_by_what_is_added()
    ensures { (old new : Entries) (before after : Counts) (c : IsCounted old new before after) → before.free + c.more_free < 2 ^ 64 → before.bound + c.more_bound < 2 ^ 64
        → after.free + after.bound ≡ before.free + before.bound + (c.more_free + c.more_bound) }
{}

/// Law: where a wheel turns and only inputs of its variables become others, what the values of all other keys come from stays.
pub fn turned_situations_are_still()
    ensures { (marks : Key → ℕ) (wheel : ℕ) (old new : Simulation) → IsTurned marks wheel old new → IsStill marks wheel old new }
{}

/// Law: where an axis takes another value, and some input of its variable is a number, each input is of its variable's type as before.
pub fn inputs_fit_when_turned()
    ensures { (slot : Slot) (value : Number) (m : Simulation) → InputsFit m.rules m.situation → (key : inputs.Key) (n : Number) → key.variable ≡ slot.variable
        → value_at m.situation.inputs key ≡ Some (v.Number n) → InputsFit m.rules (turned_by slot value m).situation }
{}
