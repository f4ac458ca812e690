//! Marks of variables, by their places.

ghost use Rattle.std.specs.Prelude.{◌≡◌, ◌<◌, ◌==◌, ◌||◌, ℕ, length, OnOk, IfOk};
ghost use Rattle.std.specs.List.{list_any};
ghost use Rattle.fisca_api.specs.Marks as spec;

use std::alloc::{AllocError, Global};

/// A copy of marks. `AllocError` only where memory was refused.
pub(crate) fn marks_copied(alloc: Global, marks: &[bool]) -> Result<Vec<bool>, AllocError>
    ensures { IfOk result (λ v. v.items ≡ marks.now) }
{
    let mut copy = Vec::with_capacity(alloc, marks.len())?;
    copy.extend_from_slice(marks)?;
    Ok(copy)
}

/// A copy of sets of wheels. `AllocError` only where memory was refused.
pub(crate) fn wheels_copied(alloc: Global, wheels: &[u16]) -> Result<Vec<u16>, AllocError>
    ensures { IfOk result (λ v. v.items ≡ wheels.now) }
{
    let mut copy = Vec::with_capacity(alloc, wheels.len())?;
    copy.extend_from_slice(wheels)?;
    Ok(copy)
}

/// Makes places up to this one, without marks.
#[tactic(auto, using(crate::proofs::Marking::pushed))]
fn widen_marks(marks: &mut Vec<bool>, place: usize) -> Result<(), AllocError>
    ensures enough { OnOk result (place < length marks.new.items) }
    ensures same { OnOk result ((x : ℕ) → spec.is_at marks.new.items x ≡ spec.is_at marks.old.items x) }
{
    while marks.len() <= place {
        marks.push(false).map_err(AllocError::from)?;
    }
    Ok(())
}

/// Makes places up to this one, without wheels.
#[tactic(auto, using(crate::proofs::Marking::pushed))]
fn widen_wheels(wheels: &mut Vec<u16>, place: usize) -> Result<(), AllocError>
    ensures enough { OnOk result (place < length wheels.new.items) }
    ensures same { OnOk result ((x : ℕ) → spec.wheels_at wheels.new.items x ≡ spec.wheels_at wheels.old.items x) }
{
    while wheels.len() <= place {
        wheels.push(0).map_err(AllocError::from)?;
    }
    Ok(())
}

/// Marks the variable at a place.
#[tactic(auto, using(crate::proofs::Marking::marked_more))]
fn mark(marks: &mut Vec<bool>, place: usize) -> Result<(), AllocError>
    ensures { OnOk result ((x : ℕ) → spec.is_at marks.new.items x ≡ ((x == place) || spec.is_at marks.old.items x)) }
{
    widen_marks(marks, place)?;
    marks[place] = true;
    Ok(())
}

/// These marks, and those of more variables, by their places. `AllocError` only where memory was refused.
pub(crate) fn with_all(
    alloc: Global,
    marks: &[bool],
    places: &[usize],
) -> Result<Vec<bool>, AllocError>
    ensures { IfOk result (λ v. (x : ℕ) → spec.is_at v.items x ≡ (list_any (λ place. x == place) places.now || spec.is_at marks.now x)) }
{
    let mut all = marks_copied(alloc, marks)?;
    for place in places {
        mark(&mut all, *place)?;
    }
    Ok(all)
}

/// These sets of wheels, where that of the variable at a place has one wheel more. `AllocError` only where memory was refused.
pub(crate) fn with_wheel(
    alloc: Global,
    wheels: &[u16],
    place: usize,
    wheel: u32,
) -> Result<Vec<u16>, AllocError>
    requires { wheel < 16 }
    ensures { IfOk result (λ v. (x : ℕ) → spec.wheels_at v.items x ≡ spec.with_wheel wheel place (spec.wheels_at wheels.now) x) }
{
    let mut all = wheels_copied(alloc, wheels)?;
    widen_wheels(&mut all, place)?;
    all[place] = all[place] | (1 << wheel);
    Ok(all)
}
