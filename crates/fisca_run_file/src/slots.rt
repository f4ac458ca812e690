//! The slots of a run file.

ghost use Rattle.std.specs.Prelude.{◌≡◌, ◌<◌, ◌^◌, ◌++◌, ◌∷◌, [], length, IfOk, OnOk};
ghost use Rattle.fisca_run_file.specs.Views.{run_file as run_file_view};
ghost use Rattle.fisca_run_file.specs.Groups.{so_many};
ghost use Rattle.fisca_run_file.specs.Steps.Groups.{wheels_by};
ghost use Rattle.fisca_run_file.specs.Steps.Slots as spec;
ghost use Rattle.fisca_slots.specs.Turning as turning;
ghost use Rattle.fisca_situations.specs.Views.{slot as slot_view, slot_list};

use crate::file::RunFile;
use fisca_inputs::Given;
use fisca_situations::{Slot, slot_of};
use fisca_symbols::Tables;
use std::alloc::{AllocError, Global};

/// Puts a slot behind these.
fn push_slot(slots: &mut Vec<Slot>, slot: Slot) -> Result<(), AllocError>
    ensures { OnOk result (slot_list slots.new.items ≡ slot_list slots.old.items ++ slot_view slot ∷ []) }
{
    slots.push(slot).map_err(AllocError::from)
}

/// The slots of axes whose groups have these places.
fn slots_with(
    alloc: Global,
    tables: &Tables<'_>,
    neutral: &[bool],
    wheels: &[u32],
    moved: &[Given],
) -> Result<Vec<Slot>, AllocError>
    ensures { IfOk result (λ v. slot_list v.items ≡ spec.slots_with tables.now neutral.now wheels.now moved.now) }
{
    let mut slots = Vec::with_capacity(alloc, wheels.len())?;
    for i in 0..wheels.len() {
        if i >= moved.len() {
            return Ok(slots);
        }
        push_slot(
            &mut slots,
            slot_of(alloc, tables, neutral, wheels[i], &moved[i])?,
        )?;
    }
    Ok(slots)
}

/// Puts a wheel behind these.
fn push_wheel(wheels: &mut Vec<u32>, wheel: u32) -> Result<(), AllocError>
    ensures { OnOk result (wheels.new.items ≡ wheels.old.items ++ wheel ∷ []) }
{
    wheels.push(wheel).map_err(AllocError::from)
}

/// Puts a wheel so many times behind these.
fn push_wheels(wheels: &mut Vec<u32>, wheel: u32, count: u32) -> Result<(), AllocError>
    ensures { OnOk result (wheels.new.items ≡ wheels.old.items ++ so_many count wheel) }
{
    for _time in 0..count {
        push_wheel(wheels, wheel)?;
    }
    Ok(())
}

/// For each axis the place of its group, of groups that have so many axes.
fn wheels_by(alloc: Global, lengths: &[u32]) -> Result<Vec<u32>, AllocError>
    requires few { length lengths.now < 2 ^ 32 }
    ensures { IfOk result (λ v. v.items ≡ wheels_by 0 lengths.now) }
{
    let mut wheels = Vec::new(alloc);
    let mut wheel = 0u32;
    for length in lengths {
        push_wheels(&mut wheels, wheel, *length)?;
        wheel += 1;
    }
    Ok(wheels)
}

/// For each axis of a file the place of its group.
#[tactic(auto, using(crate::proofs::Grouped::wheels_are))]
fn wheels_in(alloc: Global, run: &RunFile) -> Result<Vec<u32>, AllocError>
    ensures { IfOk result (λ v. v.items ≡ turning.wheels_from 0 (run_file_view run.now).groups) }
{
    // there are as many lengths as groups, and these are counted
    let _count = run.request.axes.groups().count();
    wheels_by(alloc, run.request.lengths())
}

/// What the axes of a file move, in their order: for each axis the place of its group, the member, and the periods, which are its own where it is
/// of the variable's definition period, and else the parts of it. A neutralised variable has no inputs, and its slots no periods. `AllocError` only
/// where memory was refused. This project's own rule.
pub fn slots_of(alloc: Global, tables: &Tables<'_>, run: &RunFile) -> Result<Vec<Slot>, AllocError>
    ensures { IfOk result (λ v. slot_list v.items ≡ spec.slots_of tables.now (run_file_view run.now)) }
{
    let wheels = wheels_in(alloc, run)?;
    let neutral = run.request.neutral.as_slice();
    slots_with(
        alloc,
        tables,
        neutral,
        wheels.as_slice(),
        run.request.moved.as_slice(),
    )
}
