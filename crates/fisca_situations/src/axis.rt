//! Axes put into a situation.

ghost use Rattle.std.specs.Prelude.{◌≡◌, IfOk, OnErr};
ghost use Rattle.fisca_inputs.specs.Outcomes.{Answers, Tells};
ghost use Rattle.fisca_situations.specs.Axes as spec;
ghost use Rattle.fisca_situations.specs.Steps.Axes as steps;
ghost use Rattle.fisca_situations.specs.Views.{slot as slot_view};
ghost use Rattle.fisca_situations.specs.Steps.Views.{situation as situation_view};

use crate::axis_slot::slot_of;
use crate::putting::put_in;
use crate::situation::Situation;
use crate::slot::{Slot, has_numbers};
use fisca_inputs::{Given, Inputs, SituationFault, SituationKind, key_period, overlaps};
use fisca_members::Members;
use fisca_model::{Key, Value};
use fisca_num::Fraction;
use fisca_symbols::{Tables, Variable};
use std::alloc::{AllocError, Global};

/// A fault that no line says.
fn refused(kind: SituationKind) -> SituationFault
    ensures { result ≡ record { line = 0; kind = kind } }
{
    SituationFault { line: 0, kind }
}

/// The input that an axis of this variable moves, with the value 0.
fn moved(variable: &Variable<'_>, key: &Key) -> Given
    ensures { result ≡ steps.moved variable.now key.now }
{
    Given {
        variable: key.variable,
        member: key.member,
        period: key_period(variable, key.period),
        value: Value::Number(Fraction::zero()),
        line: 0,
    }
}

/// The input that an axis moves at this key, where the variable has numbers, the member is there, and no input of another period shares a day with it.
fn moved_of(
    tables: &Tables<'_>,
    members: &Members,
    given: &[Given],
    key: &Key,
) -> Result<Given, SituationFault>
    ensures { Answers (λ g. g) (steps.moved_of tables.now members.now given.now key.now) result }
{
    let Some(variable) = tables.variables.as_slice().get(key.variable) else {
        return Err(refused(SituationKind::UnknownVariable));
    };
    if !has_numbers(variable.value_type) {
        return Err(refused(SituationKind::BadValue));
    }
    if key.member >= members.count(variable.entity) {
        return Err(refused(SituationKind::UnknownPerson));
    }
    let input = moved(variable, key);
    if overlaps(given, input.variable, input.member, input.period) {
        return Err(refused(SituationKind::InconsistentInput));
    }
    Ok(input)
}

/// These inputs, where one is put in.
fn with_input(alloc: Global, given: &[Given], input: Given) -> Result<Vec<Given>, AllocError>
    ensures { IfOk result (λ v. v.items ≡ steps.put_in given.now input) }
{
    let mut all = Vec::with_capacity(alloc, given.len())?;
    all.extend_from_slice(given)?;
    put_in(&mut all, input)?;
    Ok(all)
}

/// The inputs of situations with these members, where this is given: shared anew, and without those of neutralised variables, which have a mark in
/// `neutral`, by their places. Else as `Inputs::share` tells, at line 0. This project's own rule.
pub fn shared_anew(
    alloc: Global,
    tables: &Tables<'_>,
    neutral: &[bool],
    members: &Members,
    given: &[Given],
) -> Result<Inputs, SituationFault>
    ensures { Tells (λ i. i) (steps.shared_anew tables.now neutral.now members.now given.now) result }
{
    let counts = members.counts(alloc)?;
    let variables = tables.variables.as_slice();
    match Inputs::share(alloc, variables, counts.as_slice(), given) {
        Ok(mut inputs) => {
            inputs.neutralize(neutral);
            Ok(inputs)
        }
        Err(fault) => Err(refused(fault.kind)),
    }
}

impl Situation {
    /// Makes the inputs that an axis will move at this key, with the value 0: such an input is put in among those that are given, or in the place of
    /// that of just this variable, member and period, and all are shared anew. The variables that have a mark in `neutral`, by their places, have no
    /// inputs then. Answers what the axis moves, whose group has the place `wheel`; `Slot::turn` gives it a value.
    ///
    /// Else the first fault, at line 0, and the situation and what is given stay as they were:
    ///
    /// - `UnknownVariable` where there is no such variable, `BadValue` where it has no numbers, `UnknownPerson` where there is no such member;
    /// - `InconsistentInput` where an input of the variable and member is given for another period that shares a day with this one;
    /// - what `Inputs::share` tells of the inputs then, as `PeriodMismatch` where the variable is given no values for the period;
    /// - `Memory` only where a growth was refused.
    ///
    /// (OpenFisca's axes; what is refused is this project's own rule.)
    pub fn axis(
        &mut self,
        alloc: Global,
        tables: &Tables<'_>,
        neutral: &[bool],
        given: &mut Vec<Given>,
        key: &Key,
        wheel: u32,
    ) -> Result<Slot, SituationFault>
        ensures moved { Tells (λ s. record { given = given.new.items; situation = situation_view self.new; slot = slot_view s })
            (spec.with_axis tables.now neutral.now (situation_view self.old) given.old.items wheel key.now) result }
        ensures kept { OnErr result ((given.new ≡ given.old) × (self.new ≡ self.old)) }
    {
        let input = moved_of(tables, &self.members, given.as_slice(), key)?;
        let all = with_input(alloc, given.as_slice(), input)?;
        let inputs = shared_anew(alloc, tables, neutral, &self.members, all.as_slice())?;
        let slot = slot_of(alloc, tables, neutral, wheel, &input)?;
        *given = all;
        self.inputs = inputs;
        Ok(slot)
    }
}
