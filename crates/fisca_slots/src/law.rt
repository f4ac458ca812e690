//! Laws of slots that are turned.

ghost use Rattle.std.specs.Prelude.{◌≡◌, ◌≢◌};
ghost use Rattle.fisca_inputs.specs.Entries.{Entries, value_at};
ghost use Rattle.fisca_model.specs.declared.key.Key.{Key};
ghost use Rattle.fisca_num.specs.Number.{Number};
ghost use Rattle.fisca_situations.specs.Slots.{Slot};
ghost use Rattle.fisca_situations.specs.Steps.Slots.{turned};

/// Law: where a slot is turned, the keys of all other variables keep their inputs.
pub fn turning_keeps_other_variables()
    ensures { (slot : Slot) (value : Number) (inputs : Entries) (key : Key) → key.variable ≢ slot.variable → value_at (turned slot value inputs) key ≡ value_at inputs key }
{}
