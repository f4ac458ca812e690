//! Which wheels move the inputs of each variable.

ghost use Rattle.std.specs.Prelude.{◌≡◌, IfOk, OnOk, ◌++◌, ◌∷◌, []};
ghost use Rattle.fisca_run_file.specs.Steps.Marks as spec;
ghost use Rattle.fisca_situations.specs.Views.{slot as slot_view, slot_list};

use fisca_situations::Slot;
use std::alloc::{AllocError, Global};

/// The wheel of a slot as a bit, where the slot moves the variable.
fn mark_of(slot: &Slot, variable: usize) -> u16
    ensures { result ≡ spec.mark_of (slot_view slot.now) variable }
{
    if slot.variable == variable && slot.wheel < 16 {
        1 << slot.wheel
    } else {
        0
    }
}

/// The wheels of the slots that move the variable, as bits. There are at most 16 slots of a file.
fn marks_of(slots: &[Slot], variable: usize) -> u16
    ensures { result ≡ spec.marks_of (slot_list slots.now) variable }
{
    match slots {
        [] => 0,
        [first, rest @ ..] => mark_of(first, variable) | marks_of(rest, variable),
    }
}

/// Puts the wheels of a variable behind these.
fn push_marks(wheels: &mut Vec<u16>, marks: u16) -> Result<(), AllocError>
    ensures { OnOk result (wheels.new.items ≡ wheels.old.items ++ marks ∷ []) }
{
    wheels.push(marks).map_err(AllocError::from)
}

/// For each of so many variables, by its place, the wheels of the slots that move it, as bits: the lowest bit is that of the first wheel. A wheel
/// past the sixteenth has none. A neutralised variable keeps its marks, though its slots set nothing. `AllocError` only where memory was refused.
/// This project's own rule.
pub fn wheels_of(alloc: Global, variables: usize, slots: &[Slot]) -> Result<Vec<u16>, AllocError>
    ensures { IfOk result (λ v. v.items ≡ spec.wheels_of variables (slot_list slots.now)) }
{
    let mut wheels = Vec::with_capacity(alloc, variables)?;
    for variable in 0..variables {
        push_marks(&mut wheels, marks_of(slots, variable))?;
    }
    Ok(wheels)
}
