//! Runs of keys that have values and follow one another in time: what long inputs have filled is not walked through again.

ghost use Rattle.std.specs.Prelude.{◌≡◌, ◌<◌, ◌≤◌, length, IfOk, OnOk};
ghost use Rattle.std.specs.Map.{lookup};
ghost use Rattle.std.specs.Option.{unwrap_or};
ghost use Rattle.fisca_inputs.specs.Entries as entries;
ghost use Rattle.fisca_inputs.specs.Steps.Runs.{AreFilled, AreThere, IsFilled};
ghost use Rattle.fisca_inputs.specs.Steps.Sharing as steps;

use crate::given::Given;
use crate::hashed::Numbers;
use crate::sharing::part_at;
use fisca_model::Key;
use fisca_time::Unit;
use std::alloc::AllocError;

/// How many keys from this one on have values for sure.
pub(crate) fn run_from(runs: &Numbers, key: &Key) -> u32
    ensures { result ≡ unwrap_or (lookup (entries.same_key key.now) runs.now.entries) 0 }
{
    match runs.get(key) {
        Some(run) => *run,
        None => 0,
    }
}

/// Notes that so many keys from this one on have values, and tells how many of these were noted before, at least one.
fn note_run(runs: &mut Numbers, key: Key, count: u32) -> Result<u32, AllocError>
    requires { 0 < count }
    ensures filled { OnOk result ((es : entries.Entries) → IsFilled es (key, count) → AreFilled es runs.old.entries → AreFilled es runs.new.entries) }
    ensures some { IfOk result (λ places. (0 < places) × (places ≤ count)) }
{
    let run = runs.entry(key)?.or_insert(0);
    let before = *run;
    *run = before.max(count);
    Ok(before.max(1).min(count))
}

/// Notes that all parts of a given input have values. What is noted of later parts is passed over, and reaches to the last one then: so each
/// key is passed over a few times at most, however many inputs there are.
pub(crate) fn note_parts(
    runs: &mut Numbers,
    given: &Given,
    unit: Unit,
    count: u32,
) -> Result<(), AllocError>
    requires { count ≡ length (steps.parts_by unit given.now) }
    ensures { OnOk result ((es : entries.Entries) → AreThere es (steps.parts_by unit given.now) → AreFilled es runs.old.entries → AreFilled es runs.new.entries) }
{
    let mut i = 0;
    while i < count {
        i += note_run(runs, part_at(given, unit, i), count - i)?;
    }
    Ok(())
}
