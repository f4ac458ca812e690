//! Parameters and scales.

ghost use Rattle.std.specs.Prelude.{◌≡◌, ◌∷◌, ◌<◌, ◌+◌, ◌*◌, MatchOption, ⊤, IfOk, IfErr, OnOk, drop};
ghost use Rattle.fisca_model.specs.Seen.{value_seen};
ghost use Rattle.fisca_typing.specs.Meaning.{scale_value};
ghost use Rattle.fisca_typing.specs.Questions.{at_start};
ghost use Rattle.fisca_params.specs.Lookup.{sum_in};
ghost use Rattle.fisca_params.specs.Tree.{content_at};
ghost use Rattle.fisca_ops.specs.Ended.{IsMoving};
ghost use Rattle.fisca_machine.specs.Running.{before, rest, waiting, resume, Told, saying, choosing, from, parametric, chosen_parameter, scale_by, top, waits};
ghost use Rattle.fisca_machine.specs.Weights.{load, stack_weight, weighing, indices_weighing};
ghost use Rattle.fisca_machine.specs.Context.{tables};

use crate::context::Context;
use crate::found::{choice_at, place_at};
use crate::machine::{Control, Machine, Step};
use crate::pending::{At, Day, Kept, Pending};
use fisca_ir::{Parameter, ScaleSum};
use fisca_model::Value;
use fisca_num::Fraction;
use fisca_ops::{OperationFault, moved_all, parameter_at, scale_sum_at};
use fisca_time::Instant;

/// Which parameter is chosen by one member more; none where the place has no number.
fn chosen_behind(chosen: usize, size: usize, member: usize) -> Option<usize>
    ensures { MatchOption result ⊤ (λ i. i ≡ chosen * size + member) }
{
    chosen.checked_mul(size)?.checked_add(member)
}

impl<'a> Machine<'a> {
    /// The parameter that was chosen.
    pub(crate) fn chosen(
        &mut self,
        context: &Context<'_, '_, '_>,
        x: &'a Parameter,
        chosen: usize,
        day: Instant,
    ) -> Result<Control<'a>, Step>
        requires moving { IsMoving (before (chosen_parameter (tables context.now) (parametric x.now).places day chosen) (rest context.now self.old)) }
        ensures same { IfOk result (λ k. resume context.now self.new k ≡ (before (chosen_parameter (tables context.now) (parametric x.now).places day chosen) (rest context.now self.old))) }
        ensures waits { OnOk result (waiting context.now self.new ≡ (waiting context.now self.old)) }
        ensures lighter { IfOk result (λ k. load context.now self.new k < 1 + stack_weight context.now self.old.locals.now self.old.frame self.old.stack self.old.kept) }
        ensures stop { IfErr result (λ s. Told s (before (chosen_parameter (tables context.now) (parametric x.now).places day chosen) (rest context.now self.old)) (rest context.now self.new) (waiting context.now self.old) (waiting context.now self.new)) }
    {
        match place_at(x, chosen) {
            None => unreachable!(),
            Some(place) => {
                let outcome = parameter_at(&context.tables.parameters, place, day);
                self.ends(context, outcome)
            }
        }
    }

    /// Goes on with the members that choose, from a place on.
    pub(crate) fn index(
        &mut self,
        context: &Context<'_, '_, '_>,
        x: &'a Parameter,
        next: usize,
        chosen: usize,
        day: Instant,
        at: At,
    ) -> Result<Control<'a>, Step>
        requires moving { IsMoving (choosing context.now self.old.locals.now self.old.frame (from next (parametric x.now).indices) chosen at (λ j. before (chosen_parameter (tables context.now) (parametric x.now).places day j) (rest context.now self.old))) }
        ensures same { IfOk result (λ k. resume context.now self.new k ≡ (choosing context.now self.old.locals.now self.old.frame (from next (parametric x.now).indices) chosen at (λ j. before (chosen_parameter (tables context.now) (parametric x.now).places day j) (rest context.now self.old)))) }
        ensures waits { OnOk result (waiting context.now self.new ≡ (waiting context.now self.old)) }
        ensures lighter { IfOk result (λ k. load context.now self.new k < indices_weighing context.now self.old.locals.now self.old.frame (from next (parametric x.now).indices) at + stack_weight context.now self.old.locals.now self.old.frame self.old.stack self.old.kept) }
        ensures stop { IfErr result (λ s. Told s (choosing context.now self.old.locals.now self.old.frame (from next (parametric x.now).indices) chosen at (λ j. before (chosen_parameter (tables context.now) (parametric x.now).places day j) (rest context.now self.old))) (rest context.now self.new) (waiting context.now self.old) (waiting context.now self.new)) }
    {
        match choice_at(x, next) {
            None => self.chosen(context, x, chosen, day),
            Some(choice) => {
                let Ok(()) = self.put(Pending::Index(x, next, chosen, at)) else {
                    return Err(Step::Memory);
                };
                let Ok(()) = self.keep(Kept::Day(Day { date: day })) else {
                    return Err(Step::Memory);
                };
                Ok(Control::Eval(choice.member, at))
            }
        }
    }

    /// A member that chooses.
    pub(crate) fn indexed(
        &mut self,
        context: &Context<'_, '_, '_>,
        x: &'a Parameter,
        next: usize,
        chosen: usize,
        at: At,
        value: Value,
    ) -> Result<Control<'a>, Step>
        requires moving { IsMoving (top context.now self.old.locals.now self.old.frame (Pending.Index x next chosen at ∷ self.old.stack) self.old.kept (value_seen value)) }
        ensures same { IfOk result (λ k. resume context.now self.new k ≡ (top context.now self.old.locals.now self.old.frame (Pending.Index x.entry next chosen at ∷ self.old.stack) self.old.kept (value_seen value))) }
        ensures waits { OnOk result (waiting context.now self.new ≡ (waits context.now self.old.locals.now self.old.frame (Pending.Index x.entry next chosen at ∷ self.old.stack) self.old.kept)) }
        ensures lighter { IfOk result (λ k. load context.now self.new k < stack_weight context.now self.old.locals.now self.old.frame (Pending.Index x.entry next chosen at ∷ self.old.stack) self.old.kept) }
        ensures stop { IfErr result (λ s. Told s (top context.now self.old.locals.now self.old.frame (Pending.Index x.entry next chosen at ∷ self.old.stack) self.old.kept (value_seen value)) (rest context.now self.new) (waits context.now self.old.locals.now self.old.frame (Pending.Index x.entry next chosen at ∷ self.old.stack) self.old.kept) (waiting context.now self.new)) }
    {
        match self.kept.pop() {
            Some(Kept::Day(Day { date: day })) => match value {
                Value::Member(member) => match choice_at(x, next) {
                    None => unreachable!(),
                    Some(choice) => match chosen_behind(chosen, choice.size, member) {
                        None => Err(Step::Memory),
                        Some(chosen) => self.index(context, x, choice.next, chosen, day, at),
                    },
                },
                Value::Number(_) | Value::Bool(_) => unreachable!(),
            },
            None | Some(Kept::Value(_)) | Some(Kept::Sum(_)) | Some(Kept::Frame(_)) =>
                unreachable!(),
        }
    }

    /// Begins with a parameter. `PeriodOutOfRange` where a move leaves the calendar, and of eternity.
    pub(crate) fn parameter(
        &mut self,
        context: &Context<'_, '_, '_>,
        x: &'a Parameter,
        at: At,
    ) -> Result<Control<'a>, Step>
        requires moving { IsMoving (at_start (parametric x.now).moves self.old.frame.period (λ day. choosing context.now self.old.locals.now self.old.frame (parametric x.now).indices 0 at (λ j. before (chosen_parameter (tables context.now) (parametric x.now).places day j) (rest context.now self.old)))) }
        ensures same { IfOk result (λ k. resume context.now self.new k ≡ (at_start (parametric x.now).moves self.old.frame.period (λ day. choosing context.now self.old.locals.now self.old.frame (parametric x.now).indices 0 at (λ j. before (chosen_parameter (tables context.now) (parametric x.now).places day j) (rest context.now self.old))))) }
        ensures waits { OnOk result (waiting context.now self.new ≡ (waiting context.now self.old)) }
        ensures lighter { IfOk result (λ k. load context.now self.new k < 1 + (indices_weighing context.now self.old.locals.now self.old.frame (parametric x.now).indices at + stack_weight context.now self.old.locals.now self.old.frame self.old.stack self.old.kept)) }
        ensures stop { IfErr result (λ s. Told s (at_start (parametric x.now).moves self.old.frame.period (λ day. choosing context.now self.old.locals.now self.old.frame (parametric x.now).indices 0 at (λ j. before (chosen_parameter (tables context.now) (parametric x.now).places day j) (rest context.now self.old)))) (rest context.now self.new) (waiting context.now self.old) (waiting context.now self.new)) }
    {
        match moved_all(x.moves.as_slice(), self.frame.period) {
            Err(_) => Err(Step::Failed(OperationFault::PeriodOutOfRange)),
            Ok(here) => match here.start() {
                None => Err(Step::Failed(OperationFault::PeriodOutOfRange)),
                Some(day) => self.index(context, x, 0, 0, day, at),
            },
        }
    }

    /// Begins with the base of a scale. `PeriodOutOfRange` where a move leaves the calendar, and of eternity.
    pub(crate) fn scale(
        &mut self,
        context: &Context<'_, '_, '_>,
        x: &'a ScaleSum,
        at: At,
    ) -> Result<Control<'a>, Step>
        ensures same { IfOk result (λ k. resume context.now self.new k ≡ (at_start x.now.moves.items self.old.frame.period (λ day. saying context.now self.old.locals.now self.old.frame x.now.base at (λ v. before (scale_by (tables context.now) x.now.place day v) (rest context.now self.old))))) }
        ensures waits { OnOk result (waiting context.now self.new ≡ (waiting context.now self.old)) }
        ensures lighter { IfOk result (λ k. load context.now self.new k < weighing context.now self.old.locals.now self.old.frame x.now.base at + 2 + stack_weight context.now self.old.locals.now self.old.frame self.old.stack self.old.kept) }
        ensures stop { IfErr result (λ s. Told s (at_start x.now.moves.items self.old.frame.period (λ day. saying context.now self.old.locals.now self.old.frame x.now.base at (λ v. before (scale_by (tables context.now) x.now.place day v) (rest context.now self.old)))) (rest context.now self.new) (waiting context.now self.old) (waiting context.now self.new)) }
    {
        match moved_all(x.moves.as_slice(), self.frame.period) {
            Err(_) => Err(Step::Failed(OperationFault::PeriodOutOfRange)),
            Ok(here) => match here.start() {
                None => Err(Step::Failed(OperationFault::PeriodOutOfRange)),
                Some(day) => {
                    let Ok(()) = self.put(Pending::Scale(x)) else {
                        return Err(Step::Memory);
                    };
                    let Ok(()) = self.keep(Kept::Day(Day { date: day })) else {
                        return Err(Step::Memory);
                    };
                    Ok(Control::Eval(&x.base, at))
                }
            },
        }
    }

    /// The sum of a scale for a number.
    pub(crate) fn scaled_number(
        &mut self,
        context: &Context<'_, '_, '_>,
        x: &'a ScaleSum,
        day: Instant,
        number: Fraction,
    ) -> Result<Control<'a>, Step>
        ensures same { IfOk result (λ k. resume context.now self.new k ≡ (before (scale_value (sum_in (content_at (tables context.now).nodes x.now.place) day number)) (rest context.now self.old))) }
        ensures waits { OnOk result (waiting context.now self.new ≡ (waiting context.now self.old)) }
        ensures lighter { IfOk result (λ k. load context.now self.new k < 1 + stack_weight context.now self.old.locals.now self.old.frame self.old.stack self.old.kept) }
        ensures stop { IfErr result (λ s. Told s (before (scale_value (sum_in (content_at (tables context.now).nodes x.now.place) day number)) (rest context.now self.old)) (rest context.now self.new) (waiting context.now self.old) (waiting context.now self.new)) }
    {
        match scale_sum_at(&context.tables.parameters, x.place, day, number) {
            Ok(value) => {
                self.value = value;
                Ok(Control::Give)
            }
            Err(fault) => Err(Step::Failed(fault)),
        }
    }

    /// The base of a scale.
    pub(crate) fn scaled(
        &mut self,
        context: &Context<'_, '_, '_>,
        x: &'a ScaleSum,
        value: Value,
    ) -> Result<Control<'a>, Step>
        requires moving { IsMoving (top context.now self.old.locals.now self.old.frame (Pending.Scale x ∷ self.old.stack) self.old.kept (value_seen value)) }
        ensures same { IfOk result (λ k. resume context.now self.new k ≡ (top context.now self.old.locals.now self.old.frame (Pending.Scale x.entry ∷ self.old.stack) self.old.kept (value_seen value))) }
        ensures waits { OnOk result (waiting context.now self.new ≡ (waits context.now self.old.locals.now self.old.frame (Pending.Scale x.entry ∷ self.old.stack) self.old.kept)) }
        ensures lighter { IfOk result (λ k. load context.now self.new k < stack_weight context.now self.old.locals.now self.old.frame (Pending.Scale x.entry ∷ self.old.stack) self.old.kept) }
        ensures stop { IfErr result (λ s. Told s (top context.now self.old.locals.now self.old.frame (Pending.Scale x.entry ∷ self.old.stack) self.old.kept (value_seen value)) (rest context.now self.new) (waits context.now self.old.locals.now self.old.frame (Pending.Scale x.entry ∷ self.old.stack) self.old.kept) (waiting context.now self.new)) }
    {
        match self.kept.pop() {
            Some(Kept::Day(Day { date: day })) => match value {
                Value::Number(number) => self.scaled_number(context, x, day, number),
                Value::Bool(true) => self.scaled_number(context, x, day, Fraction::one()),
                Value::Bool(false) => self.scaled_number(context, x, day, Fraction::zero()),
                Value::Member(_) => unreachable!(),
            },
            None | Some(Kept::Value(_)) | Some(Kept::Sum(_)) | Some(Kept::Frame(_)) =>
                unreachable!(),
        }
    }
}
