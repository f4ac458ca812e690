//! The slot of an axis.

ghost use Rattle.std.specs.Prelude.{◌≡◌, ◌++◌, ◌∷◌, [], false, Some, IfOk, OnOk};
ghost use Rattle.fisca_inputs.specs.Rules.{rule_of};
ghost use Rattle.fisca_situations.specs.Slots as spec;
ghost use Rattle.fisca_situations.specs.Steps.Slots as steps;
ghost use Rattle.fisca_situations.specs.Views.{slot as slot_view};
ghost use Rattle.fisca_time.specs.Period.{subs};

use crate::slot::Slot;
use fisca_inputs::{Given, is_marked, key_period};
use fisca_model::fits;
use fisca_symbols::{DeclaredType, SetInput, Tables, Variable};
use fisca_time::{Period, Unit};
use std::alloc::{AllocError, Global};

/// Puts a period behind these.
fn push_period(periods: &mut Vec<Period>, period: Period) -> Result<(), AllocError>
    ensures { OnOk result (periods.new.items ≡ periods.old.items ++ period ∷ []) }
{
    periods.push(period).map_err(AllocError::from)
}

/// The parts of a period, in order of time; none where it has none of this unit.
fn parts_of(alloc: Global, period: Period, unit: Unit) -> Result<Vec<Period>, AllocError>
    ensures { IfOk result (λ v. v.items ≡ subs period unit) }
{
    let count = period.sub_count(unit).unwrap_or(0);
    let mut parts = Vec::with_capacity(alloc, count as usize)?;
    for i in 0..count {
        push_period(&mut parts, period.sub(unit, i))?;
    }
    Ok(parts)
}

/// The periods that an axis moves: its own where it is of the definition period, and else the parts of it.
fn periods_of(
    alloc: Global,
    variable: &Variable<'_>,
    given: &Given,
) -> Result<Vec<Period>, AllocError>
    ensures { IfOk result (λ v. v.items ≡ steps.periods_of (rule_of variable.now) given.now) }
{
    if !fits(variable.definition_period, given.period) {
        return parts_of(alloc, given.period, variable.definition_period);
    }
    let mut own = Vec::with_capacity(alloc, 1)?;
    push_period(&mut own, key_period(variable, given.period))?;
    Ok(own)
}

/// Whether parts of a period get equal shares of a value.
fn divides(rule: Option<SetInput>) -> bool
    ensures { result ≡ steps.divides rule }
{
    match rule {
        Some(SetInput::DivideByPeriod) => true,
        Some(SetInput::DispatchByPeriod) | None => false,
    }
}

/// Whether the parts of an axis's period get equal shares of its value, and not each the whole.
fn is_divided(variable: &Variable<'_>, given: &Given) -> bool
    ensures { result ≡ steps.is_divided (rule_of variable.now) given.now }
{
    !fits(variable.definition_period, given.period) && divides(variable.set_input)
}

/// The slot of an axis that moves the input of no key.
fn slot_without(alloc: Global, value_type: DeclaredType, wheel: u32, given: &Given) -> Slot
    ensures { slot_view result ≡ spec.slot_with wheel given.now value_type false [] }
{
    Slot {
        variable: given.variable,
        member: given.member,
        wheel,
        value_type,
        is_divided: false,
        periods: Vec::new(alloc),
    }
}

/// The slot of an axis that moves a variable, which is neutralised or not.
pub(crate) fn slot_by(
    alloc: Global,
    is_neutral: bool,
    variable: &Variable<'_>,
    wheel: u32,
    given: &Given,
) -> Result<Slot, AllocError>
    ensures { IfOk result (λ s. slot_view s ≡ steps.slot_by is_neutral (Some variable.now) wheel given.now) }
{
    if is_neutral {
        return Ok(slot_without(alloc, variable.value_type, wheel, given));
    }
    Ok(Slot {
        variable: given.variable,
        member: given.member,
        wheel,
        value_type: variable.value_type,
        is_divided: is_divided(variable, given),
        periods: periods_of(alloc, variable, given)?,
    })
}

/// What an axis moves that moves this input, where its group has the place `wheel`: the periods are its own where it is of the variable's definition period,
/// and else the parts of it. A neutralised variable, which has a mark at its place, has no inputs, and its slot no periods. `AllocError` only where
/// memory was refused. This project's own rule.
pub fn slot_of(
    alloc: Global,
    tables: &Tables<'_>,
    neutral: &[bool],
    wheel: u32,
    given: &Given,
) -> Result<Slot, AllocError>
    ensures { IfOk result (λ s. slot_view s ≡ steps.slot_of tables.now neutral.now wheel given.now) }
{
    match tables.variables.as_slice().get(given.variable) {
        Some(variable) => {
            let is_neutral = is_marked(neutral, given.variable);
            slot_by(alloc, is_neutral, variable, wheel, given)
        }
        None => Ok(slot_without(alloc, DeclaredType::Float, wheel, given)),
    }
}
