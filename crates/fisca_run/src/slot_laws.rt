//! Laws of the slots of run files.

ghost use Rattle.std.specs.Prelude.{◌≡◌, ◌<◌, ℕ, List, drop, length, slice_get, true, Some, Ok};
ghost use Rattle.fisca_grid.specs.AxesRow.{values_of};
ghost use Rattle.fisca_grid.specs.Grid.{axes_at};
ghost use Rattle.fisca_inputs.specs.Entries.{Entries, value_at};
ghost use Rattle.fisca_inputs.specs.declared.given.Given.{Given};
ghost use Rattle.fisca_model.specs.declared.key.Key.{Key};
ghost use Rattle.fisca_num.specs.Number.{Number};
ghost use Rattle.fisca_run_file.specs.Positions.{moved_at};
ghost use Rattle.fisca_run_file.specs.Steps.Positions.{inputs_with};
ghost use Rattle.fisca_run_file.specs.RunFiles.{RunFile, run_file_of};
ghost use Rattle.fisca_run_file.specs.Marks.{AreWithin, IsMoved, has_mark};
ghost use Rattle.fisca_run_file.specs.Steps.Marks.{wheels_of};
ghost use Rattle.fisca_slots.specs.Turning.{AreSamePlaces, turned_below};
ghost use Rattle.fisca_run_file.specs.Slots.{places_of};
ghost use Rattle.fisca_run_file.specs.Steps.Slots.{slots_of};
ghost use Rattle.fisca_situations.specs.Slots.{Slot};
ghost use Rattle.fisca_symbols.specs.declared.tables.Tables.{Tables};
ghost use Rattle.fisca_yaml.specs.Node.{Node};

/// Law: an accepted run file has inputs where its axes have the values with which it was read. Where all its slots are turned to the values of a
/// position, these become the inputs there.
pub fn slots_turn_from_the_start()
    ensures { (tables : Tables) (n : Node) (f : RunFile) → run_file_of tables n ≡ Ok f → (start : Entries) × (inputs_with tables f f.moved ≡ Ok start)
        × ((position : ℕ) (moved : List Given) (values : List Number) → moved_at tables f position ≡ Some moved → values_of (axes_at f.groups position) ≡ Some values
        → inputs_with tables f moved ≡ Ok (turned_below (length f.groups) (slots_of tables f) values start)) }
{}

/// Law: between two positions of an accepted run file it is enough to turn the slots of the wheels behind which all have the same places: these are
/// turned to the values at the second position, and the inputs at the first become those there.
pub fn slots_turn_between_positions()
    ensures { (tables : Tables) (n : Node) (f : RunFile) → run_file_of tables n ≡ Ok f → (here there wheel : ℕ) → drop wheel (places_of f here) ≡ drop wheel (places_of f there)
        → (before after : List Given) (old new : List Number) → moved_at tables f here ≡ Some before → values_of (axes_at f.groups here) ≡ Some old
        → moved_at tables f there ≡ Some after → values_of (axes_at f.groups there) ≡ Some new → (inputs : Entries) → inputs_with tables f before ≡ Ok inputs
        → inputs_with tables f after ≡ Ok (turned_below wheel (slots_of tables f) new inputs) }
{}

/// Law: a key has the same input at two positions of an accepted run file, where each wheel that moves its variable has the same place at both.
pub fn other_variables_stay()
    ensures { (tables : Tables) (n : Node) (f : RunFile) → run_file_of tables n ≡ Ok f → (here there : ℕ) (before after : List Given) (old new : List Number)
        → moved_at tables f here ≡ Some before → values_of (axes_at f.groups here) ≡ Some old → moved_at tables f there ≡ Some after
        → values_of (axes_at f.groups there) ≡ Some new → (inputs others : Entries) → inputs_with tables f before ≡ Ok inputs → inputs_with tables f after ≡ Ok others
        → (key : Key) → AreSamePlaces (places_of f here) (places_of f there) (slots_of tables f) key.variable → value_at inputs key ≡ value_at others key }
{}

/// Law: each slot that moves one of so many variables marks it with its wheel, where that is below 16, and a variable has no mark but those of the slots
/// that move it.
pub fn marks_are_of_slots()
    ensures all { (variables : ℕ) (slots : List Slot) (i : ℕ) (slot : Slot) → slice_get slots i ≡ Some slot → slot.variable < variables → slot.wheel < 16
        → has_mark (wheels_of variables slots) slot.variable slot.wheel ≡ true }
    ensures only { (variables : ℕ) (slots : List Slot) (variable wheel : ℕ) → has_mark (wheels_of variables slots) variable wheel ≡ true → IsMoved slots variable wheel }
{}

/// Law: the slots of an accepted run file move variables of its rule set, and their wheels are below 16.
pub fn slots_are_within()
    ensures { (tables : Tables) (n : Node) (f : RunFile) → run_file_of tables n ≡ Ok f → AreWithin (length tables.variables) (slots_of tables f) }
{}
