//! What nodes ask for.

ghost use Rattle.std.specs.Prelude.{◌≡◌, ◌∷◌, ◌<◌, ◌+◌, IfOk, IfErr, OnOk, drop, slice_get, Some};
ghost use Rattle.fisca_model.specs.Seen.{value_seen};
ghost use Rattle.fisca_typing.specs.Questions as questions;
ghost use Rattle.fisca_key_semantics.specs.Dialogues.{computed, with_number};
ghost use Rattle.fisca_num.specs.Operations.{sum_of};
ghost use Rattle.fisca_time.specs.Period.{subs};
ghost use Rattle.fisca_ops.specs.Ended.{IsMoving};
ghost use Rattle.fisca_machine.specs.Running.{before, rest, waiting, resume, Told, point, top, waits};
ghost use Rattle.fisca_machine.specs.Weights.{load, stack_weight};
ghost use Rattle.fisca_machine.specs.Context.{tables, groups};

use crate::context::Context;
use crate::found::{type_of, variable_at};
use crate::machine::{Control, Machine, Step};
use crate::pending::{At, Kept, PartSum, Pending};
use fisca_ir::Ask;
use fisca_model::{Key, RolePlace, Value, ValueType};
use fisca_num::Fraction;
use fisca_ops::{
    OperationFault, default_by, fault_of, group_of, has_no_parts, moved_all, next_part,
    next_person, plain_key, year_part,
};
use fisca_time::{Period, Unit};
use fisca_typing::{Asking, Whom};

impl<'a> Machine<'a> {
    /// Goes on with the parts of a period from a place on.
    #[inline(always)]
    pub(crate) fn parts(
        &mut self,
        context: &Context<'_, '_, '_>,
        variable: usize,
        member: u32,
        unit: Unit,
        period: Period,
        next: u32,
        sum: Fraction,
    ) -> Result<Control<'a>, Step>
        ensures same { IfOk result (λ k. resume context.now self.new k ≡ (before (questions.ask_all variable member (drop next (subs period unit)) sum) (rest context.now self.old))) }
        ensures waits { OnOk result (waiting context.now self.new ≡ (waiting context.now self.old)) }
        ensures lighter { IfOk result (λ k. load context.now self.new k < 1 + stack_weight context.now self.old.locals.now self.old.frame self.old.stack self.old.kept) }
        ensures stop { IfErr result (λ s. Told s (before (questions.ask_all variable member (drop next (subs period unit)) sum) (rest context.now self.old)) (rest context.now self.new) (waiting context.now self.old) (waiting context.now self.new)) }
    {
        match next_part(unit, period, next) {
            None => {
                self.value = Value::Number(sum);
                Ok(Control::Give)
            }
            Some(part) => {
                let Some(after) = next.checked_add(1) else {
                    return Err(Step::Memory);
                };
                let Ok(()) = self.put(Pending::Part(variable, member, unit, after)) else {
                    return Err(Step::Memory);
                };
                let Ok(()) = self.keep(Kept::Sum(PartSum { period, sum })) else {
                    return Err(Step::Memory);
                };
                Err(Step::Needs(Key {
                    variable,
                    member,
                    period: part,
                }))
            }
        }
    }

    /// Adds the parts of a period up. `PeriodMismatch` where it has no such parts.
    #[inline(always)]
    pub(crate) fn add_up(
        &mut self,
        context: &Context<'_, '_, '_>,
        variable: usize,
        unit: Unit,
        member: u32,
        period: Period,
    ) -> Result<Control<'a>, Step>
        ensures same { IfOk result (λ k. resume context.now self.new k ≡ (before (questions.ask_sum variable unit member period) (rest context.now self.old))) }
        ensures waits { OnOk result (waiting context.now self.new ≡ (waiting context.now self.old)) }
        ensures lighter { IfOk result (λ k. load context.now self.new k < 1 + stack_weight context.now self.old.locals.now self.old.frame self.old.stack self.old.kept) }
        ensures stop { IfErr result (λ s. Told s (before (questions.ask_sum variable unit member period) (rest context.now self.old)) (rest context.now self.new) (waiting context.now self.old) (waiting context.now self.new)) }
    {
        if has_no_parts(unit, period) {
            return Err(Step::Failed(OperationFault::PeriodMismatch(Key {
                variable,
                member,
                period,
            })));
        }
        self.parts(context, variable, member, unit, period, 0, Fraction::zero())
    }

    /// Asks a member for a variable at a period.
    #[inline(always)]
    pub(crate) fn ask_by(
        &mut self,
        context: &Context<'_, '_, '_>,
        asking: Asking,
        variable: usize,
        unit: Unit,
        member: u32,
        period: Period,
    ) -> Result<Control<'a>, Step>
        ensures same { IfOk result (λ k. resume context.now self.new k ≡ (before (questions.ask_by asking variable unit member period) (rest context.now self.old))) }
        ensures waits { OnOk result (waiting context.now self.new ≡ (waiting context.now self.old)) }
        ensures lighter { IfOk result (λ k. load context.now self.new k < 1 + stack_weight context.now self.old.locals.now self.old.frame self.old.stack self.old.kept) }
        ensures stop { IfErr result (λ s. Told s (before (questions.ask_by asking variable unit member period) (rest context.now self.old)) (rest context.now self.new) (waiting context.now self.old) (waiting context.now self.new)) }
    {
        match asking {
            Asking::Plain => match plain_key(variable, unit, member, period) {
                Ok(key) => Err(Step::Needs(key)),
                Err(fault) => Err(Step::Failed(fault)),
            },
            Asking::Add => self.add_up(context, variable, unit, member, period),
            Asking::Divide => match year_part(variable, unit, member, period) {
                Ok(part) => {
                    let Ok(()) = self.put(Pending::Share(part.share)) else {
                        return Err(Step::Memory);
                    };
                    Err(Step::Needs(part.key))
                }
                Err(fault) => Err(Step::Failed(fault)),
            },
        }
    }

    /// Asks the first person who has a role, where one has it.
    pub(crate) fn ask_holder(
        &mut self,
        context: &Context<'_, '_, '_>,
        role: RolePlace,
        asking: Asking,
        variable: usize,
        unit: Unit,
        value_type: ValueType,
        period: Period,
        at: At,
    ) -> Result<Control<'a>, Step>
        ensures same { IfOk result (λ k. resume context.now self.new k ≡ (before (questions.ask_of (groups context.now) (point self.old.frame at) (Whom.Holder role) asking variable unit value_type period) (rest context.now self.old))) }
        ensures waits { OnOk result (waiting context.now self.new ≡ (waiting context.now self.old)) }
        ensures lighter { IfOk result (λ k. load context.now self.new k < 1 + stack_weight context.now self.old.locals.now self.old.frame self.old.stack self.old.kept) }
        ensures stop { IfErr result (λ s. Told s (before (questions.ask_of (groups context.now) (point self.old.frame at) (Whom.Holder role) asking variable unit value_type period) (rest context.now self.old)) (rest context.now self.new) (waiting context.now self.old) (waiting context.now self.new)) }
    {
        match next_person(
            context.members,
            self.frame.entity,
            self.frame.member,
            Some(role),
            0,
        ) {
            Some((person, _)) => self.ask_by(context, asking, variable, unit, person, period),
            None => {
                self.value = default_by(asking, value_type);
                Ok(Control::Give)
            }
        }
    }

    /// Asks whom a node means.
    pub(crate) fn ask_of(
        &mut self,
        context: &Context<'_, '_, '_>,
        whom: Whom,
        asking: Asking,
        variable: usize,
        unit: Unit,
        value_type: ValueType,
        period: Period,
        at: At,
    ) -> Result<Control<'a>, Step>
        requires moving { IsMoving (before (questions.ask_of (groups context.now) (point self.old.frame at) whom asking variable unit value_type period) (rest context.now self.old)) }
        ensures same { IfOk result (λ k. resume context.now self.new k ≡ (before (questions.ask_of (groups context.now) (point self.old.frame at) whom asking variable unit value_type period) (rest context.now self.old))) }
        ensures waits { OnOk result (waiting context.now self.new ≡ (waiting context.now self.old)) }
        ensures lighter { IfOk result (λ k. load context.now self.new k < 1 + stack_weight context.now self.old.locals.now self.old.frame self.old.stack self.old.kept) }
        ensures stop { IfErr result (λ s. Told s (before (questions.ask_of (groups context.now) (point self.old.frame at) whom asking variable unit value_type period) (rest context.now self.old)) (rest context.now self.new) (waiting context.now self.old) (waiting context.now self.new)) }
    {
        match whom {
            Whom::Own => self.ask_by(context, asking, variable, unit, self.frame.member, period),
            Whom::Group(entity) => {
                let group = group_of(context.members, entity, self.frame.member);
                self.ask_by(context, asking, variable, unit, group, period)
            }
            Whom::Person => match at.person {
                Some(person) => self.ask_by(context, asking, variable, unit, person, period),
                None => unreachable!(),
            },
            Whom::Holder(role) => self.ask_holder(
                context, role, asking, variable, unit, value_type, period, at,
            ),
        }
    }

    /// Asks for a variable at a period.
    pub(crate) fn ask_known(
        &mut self,
        context: &Context<'_, '_, '_>,
        ask: &Ask,
        period: Period,
        at: At,
    ) -> Result<Control<'a>, Step>
        requires moving { IsMoving (before (questions.ask_known (groups context.now) (point self.old.frame at) ask.now.whom ask.now.asking ask.now.variable period (slice_get (tables context.now).variables ask.now.variable)) (rest context.now self.old)) }
        ensures same { IfOk result (λ k. resume context.now self.new k ≡ (before (questions.ask_known (groups context.now) (point self.old.frame at) ask.now.whom ask.now.asking ask.now.variable period (slice_get (tables context.now).variables ask.now.variable)) (rest context.now self.old))) }
        ensures waits { OnOk result (waiting context.now self.new ≡ (waiting context.now self.old)) }
        ensures lighter { IfOk result (λ k. load context.now self.new k < 1 + stack_weight context.now self.old.locals.now self.old.frame self.old.stack self.old.kept) }
        ensures stop { IfErr result (λ s. Told s (before (questions.ask_known (groups context.now) (point self.old.frame at) ask.now.whom ask.now.asking ask.now.variable period (slice_get (tables context.now).variables ask.now.variable)) (rest context.now self.old)) (rest context.now self.new) (waiting context.now self.old) (waiting context.now self.new)) }
    {
        match variable_at(context.tables, ask.variable) {
            None => unreachable!(),
            Some(variable) => match type_of(variable.value_type) {
                None => unreachable!(),
                Some(value_type) => self.ask_of(
                    context,
                    ask.whom,
                    ask.asking,
                    ask.variable,
                    variable.definition_period,
                    value_type,
                    period,
                    at,
                ),
            },
        }
    }

    /// Asks for a variable at the period that moves lead to. `PeriodOutOfRange` where one leaves the calendar.
    pub(crate) fn ask(
        &mut self,
        context: &Context<'_, '_, '_>,
        ask: &Ask,
        at: At,
    ) -> Result<Control<'a>, Step>
        requires moving { IsMoving (before (questions.at_period ask.now.moves.items self.old.frame.period (λ q. questions.ask_known (groups context.now) (point self.old.frame at) ask.now.whom ask.now.asking ask.now.variable q (slice_get (tables context.now).variables ask.now.variable))) (rest context.now self.old)) }
        ensures same { IfOk result (λ k. resume context.now self.new k ≡ (before (questions.at_period ask.now.moves.items self.old.frame.period (λ q. questions.ask_known (groups context.now) (point self.old.frame at) ask.now.whom ask.now.asking ask.now.variable q (slice_get (tables context.now).variables ask.now.variable))) (rest context.now self.old))) }
        ensures waits { OnOk result (waiting context.now self.new ≡ (waiting context.now self.old)) }
        ensures lighter { IfOk result (λ k. load context.now self.new k < 1 + stack_weight context.now self.old.locals.now self.old.frame self.old.stack self.old.kept) }
        ensures stop { IfErr result (λ s. Told s (before (questions.at_period ask.now.moves.items self.old.frame.period (λ q. questions.ask_known (groups context.now) (point self.old.frame at) ask.now.whom ask.now.asking ask.now.variable q (slice_get (tables context.now).variables ask.now.variable))) (rest context.now self.old)) (rest context.now self.new) (waiting context.now self.old) (waiting context.now self.new)) }
    {
        match moved_all(ask.moves.as_slice(), self.frame.period) {
            Ok(period) => self.ask_known(context, ask, period, at),
            Err(_) => Err(Step::Failed(OperationFault::PeriodOutOfRange)),
        }
    }

    /// A number is added to the sum over parts.
    #[inline(always)]
    pub(crate) fn added(
        &mut self,
        context: &Context<'_, '_, '_>,
        variable: usize,
        member: u32,
        unit: Unit,
        period: Period,
        next: u32,
        sum: Fraction,
        number: Fraction,
    ) -> Result<Control<'a>, Step>
        ensures same { IfOk result (λ k. resume context.now self.new k ≡ (before ((before (computed (sum_of sum number)) (λ y. with_number y (λ s. questions.ask_all variable member (drop next (subs period unit)) s)))) (rest context.now self.old))) }
        ensures waits { OnOk result (waiting context.now self.new ≡ (waiting context.now self.old)) }
        ensures lighter { IfOk result (λ k. load context.now self.new k < 1 + stack_weight context.now self.old.locals.now self.old.frame self.old.stack self.old.kept) }
        ensures stop { IfErr result (λ s. Told s (before ((before (computed (sum_of sum number)) (λ y. with_number y (λ s. questions.ask_all variable member (drop next (subs period unit)) s)))) (rest context.now self.old)) (rest context.now self.new) (waiting context.now self.old) (waiting context.now self.new)) }
    {
        match sum.add(number) {
            Ok(sum) => self.parts(context, variable, member, unit, period, next, sum),
            Err(fault) => Err(Step::Failed(fault_of(fault))),
        }
    }

    /// The value of a part of the period.
    pub(crate) fn parted(
        &mut self,
        context: &Context<'_, '_, '_>,
        variable: usize,
        member: u32,
        unit: Unit,
        next: u32,
        value: Value,
    ) -> Result<Control<'a>, Step>
        requires moving { IsMoving (top context.now self.old.locals.now self.old.frame (Pending.Part variable member unit next ∷ self.old.stack) self.old.kept (value_seen value)) }
        ensures same { IfOk result (λ k. resume context.now self.new k ≡ (top context.now self.old.locals.now self.old.frame (Pending.Part variable member unit next ∷ self.old.stack) self.old.kept (value_seen value))) }
        ensures waits { OnOk result (waiting context.now self.new ≡ (waits context.now self.old.locals.now self.old.frame (Pending.Part variable member unit next ∷ self.old.stack) self.old.kept)) }
        ensures lighter { IfOk result (λ k. load context.now self.new k < stack_weight context.now self.old.locals.now self.old.frame (Pending.Part variable member unit next ∷ self.old.stack) self.old.kept) }
        ensures stop { IfErr result (λ s. Told s (top context.now self.old.locals.now self.old.frame (Pending.Part variable member unit next ∷ self.old.stack) self.old.kept (value_seen value)) (rest context.now self.new) (waits context.now self.old.locals.now self.old.frame (Pending.Part variable member unit next ∷ self.old.stack) self.old.kept) (waiting context.now self.new)) }
    {
        match self.kept.pop() {
            Some(Kept::Sum(PartSum { period, sum })) => match value {
                Value::Number(number) => self.added(
                    context, variable, member, unit, period, next, sum, number,
                ),
                Value::Bool(true) => self.added(
                    context,
                    variable,
                    member,
                    unit,
                    period,
                    next,
                    sum,
                    Fraction::one(),
                ),
                Value::Bool(false) => self.added(
                    context,
                    variable,
                    member,
                    unit,
                    period,
                    next,
                    sum,
                    Fraction::zero(),
                ),
                Value::Member(_) => unreachable!(),
            },
            None | Some(Kept::Value(_)) | Some(Kept::Day(_)) | Some(Kept::Frame(_)) =>
                unreachable!(),
        }
    }
}
