//! Totals over the persons of a group, one after another.

ghost use Rattle.std.specs.Prelude.{◌≡◌, ◌∷◌, ◌<◌, ◌+◌, IfOk, IfErr, OnOk};
ghost use Rattle.fisca_model.specs.Seen.{value_seen};
ghost use Rattle.fisca_ops.specs.Ended.{IsMoving};
ghost use Rattle.fisca_ops.specs.Persons.{persons_from};
ghost use Rattle.fisca_ops.specs.Totals.{step_of};
ghost use Rattle.fisca_machine.specs.Running.{rest, waiting, resume, Told, saying_for, turn_then, first_then, total_then, top, waits};
ghost use Rattle.fisca_machine.specs.Weights.{load, stack_weight, weighing, persons_weight};
ghost use Rattle.fisca_machine.specs.Context.{groups};

use crate::context::Context;
use crate::machine::{Control, Machine, Step};
use crate::pending::{At, Kept, Pending};
use fisca_ir::Totalled;
use fisca_model::Value;
use fisca_num::Fraction;
use fisca_ops::{OperationFault, beginning, next_person, stepped};
use fisca_typing::Total;

impl<'a> Machine<'a> {
    /// Goes on with the persons from a place on.
    #[inline(always)]
    pub(crate) fn turn(
        &mut self,
        context: &Context<'_, '_, '_>,
        total: Total,
        x: &'a Totalled,
        next: usize,
        sum: Value,
        at: At,
    ) -> Result<Control<'a>, Step>
        ensures same { IfOk result (λ k. resume context.now self.new k ≡ (turn_then (step_of total) (saying_for context.now self.old.locals.now self.old.frame x.now.values at) (persons_from (groups context.now) self.old.frame.entity self.old.frame.member x.now.role next) (value_seen sum) (rest context.now self.old))) }
        ensures waits { OnOk result (waiting context.now self.new ≡ (waiting context.now self.old)) }
        ensures lighter { IfOk result (λ k. load context.now self.new k < persons_weight (weighing context.now self.old.locals.now self.old.frame x.now.values at) (persons_from (groups context.now) self.old.frame.entity self.old.frame.member x.now.role next) + stack_weight context.now self.old.locals.now self.old.frame self.old.stack self.old.kept) }
        ensures stop { IfErr result (λ s. Told s (turn_then (step_of total) (saying_for context.now self.old.locals.now self.old.frame x.now.values at) (persons_from (groups context.now) self.old.frame.entity self.old.frame.member x.now.role next) (value_seen sum) (rest context.now self.old)) (rest context.now self.new) (waiting context.now self.old) (waiting context.now self.new)) }
    {
        match next_person(
            context.members,
            self.frame.entity,
            self.frame.member,
            x.role,
            next,
        ) {
            None => {
                self.value = sum;
                Ok(Control::Give)
            }
            Some((person, after)) => {
                let Ok(()) = self.put(Pending::Turn(total, x, after, at)) else {
                    return Err(Step::Memory);
                };
                let Ok(()) = self.keep(Kept::Value(sum)) else {
                    return Err(Step::Memory);
                };
                Ok(Control::Eval(
                    &x.values,
                    At {
                        person: Some(person),
                        visible: at.visible,
                    },
                ))
            }
        }
    }

    /// Begins with the first person. `NoMember` where there is none.
    pub(crate) fn first(
        &mut self,
        context: &Context<'_, '_, '_>,
        total: Total,
        x: &'a Totalled,
        at: At,
    ) -> Result<Control<'a>, Step>
        ensures same { IfOk result (λ k. resume context.now self.new k ≡ (first_then (step_of total) (saying_for context.now self.old.locals.now self.old.frame x.now.values at) (persons_from (groups context.now) self.old.frame.entity self.old.frame.member x.now.role 0) (rest context.now self.old))) }
        ensures waits { OnOk result (waiting context.now self.new ≡ (waiting context.now self.old)) }
        ensures lighter { IfOk result (λ k. load context.now self.new k < persons_weight (weighing context.now self.old.locals.now self.old.frame x.now.values at) (persons_from (groups context.now) self.old.frame.entity self.old.frame.member x.now.role 0) + stack_weight context.now self.old.locals.now self.old.frame self.old.stack self.old.kept) }
        ensures stop { IfErr result (λ s. Told s (first_then (step_of total) (saying_for context.now self.old.locals.now self.old.frame x.now.values at) (persons_from (groups context.now) self.old.frame.entity self.old.frame.member x.now.role 0) (rest context.now self.old)) (rest context.now self.new) (waiting context.now self.old) (waiting context.now self.new)) }
    {
        match next_person(
            context.members,
            self.frame.entity,
            self.frame.member,
            x.role,
            0,
        ) {
            None => Err(Step::Failed(OperationFault::NoMember)),
            Some((person, after)) => {
                let Ok(()) = self.put(Pending::First(total, x, after, at)) else {
                    return Err(Step::Memory);
                };
                Ok(Control::Eval(
                    &x.values,
                    At {
                        person: Some(person),
                        visible: at.visible,
                    },
                ))
            }
        }
    }

    /// Begins a total.
    pub(crate) fn total(
        &mut self,
        context: &Context<'_, '_, '_>,
        total: Total,
        x: &'a Totalled,
        at: At,
    ) -> Result<Control<'a>, Step>
        ensures same { IfOk result (λ k. resume context.now self.new k ≡ (total_then total (saying_for context.now self.old.locals.now self.old.frame x.now.values at) (persons_from (groups context.now) self.old.frame.entity self.old.frame.member x.now.role 0) (rest context.now self.old))) }
        ensures waits { OnOk result (waiting context.now self.new ≡ (waiting context.now self.old)) }
        ensures lighter { IfOk result (λ k. load context.now self.new k < 1 + (persons_weight (weighing context.now self.old.locals.now self.old.frame x.now.values at) (persons_from (groups context.now) self.old.frame.entity self.old.frame.member x.now.role 0) + stack_weight context.now self.old.locals.now self.old.frame self.old.stack self.old.kept)) }
        ensures stop { IfErr result (λ s. Told s (total_then total (saying_for context.now self.old.locals.now self.old.frame x.now.values at) (persons_from (groups context.now) self.old.frame.entity self.old.frame.member x.now.role 0) (rest context.now self.old)) (rest context.now self.new) (waiting context.now self.old) (waiting context.now self.new)) }
    {
        match beginning(total) {
            None => self.first(context, total, x, at),
            Some(sum) => self.turn(context, total, x, 0, sum, at),
        }
    }

    /// One person more.
    pub(crate) fn turned(
        &mut self,
        context: &Context<'_, '_, '_>,
        total: Total,
        x: &'a Totalled,
        next: usize,
        at: At,
        value: Value,
    ) -> Result<Control<'a>, Step>
        requires moving { IsMoving (top context.now self.old.locals.now self.old.frame (Pending.Turn total x next at ∷ self.old.stack) self.old.kept (value_seen value)) }
        ensures same { IfOk result (λ k. resume context.now self.new k ≡ (top context.now self.old.locals.now self.old.frame (Pending.Turn total x.entry next at ∷ self.old.stack) self.old.kept (value_seen value))) }
        ensures waits { OnOk result (waiting context.now self.new ≡ (waits context.now self.old.locals.now self.old.frame (Pending.Turn total x.entry next at ∷ self.old.stack) self.old.kept)) }
        ensures lighter { IfOk result (λ k. load context.now self.new k < stack_weight context.now self.old.locals.now self.old.frame (Pending.Turn total x.entry next at ∷ self.old.stack) self.old.kept) }
        ensures stop { IfErr result (λ s. Told s (top context.now self.old.locals.now self.old.frame (Pending.Turn total x.entry next at ∷ self.old.stack) self.old.kept (value_seen value)) (rest context.now self.new) (waits context.now self.old.locals.now self.old.frame (Pending.Turn total x.entry next at ∷ self.old.stack) self.old.kept) (waiting context.now self.new)) }
    {
        match self.kept.pop() {
            Some(Kept::Value(sum)) => match stepped(total, sum, value) {
                Ok(sum) => self.turn(context, total, x, next, sum, at),
                Err(fault) => Err(Step::Failed(fault)),
            },
            None | Some(Kept::Day(_)) | Some(Kept::Sum(_)) | Some(Kept::Frame(_)) => unreachable!(),
        }
    }

    /// The first person.
    pub(crate) fn firstly(
        &mut self,
        context: &Context<'_, '_, '_>,
        total: Total,
        x: &'a Totalled,
        next: usize,
        at: At,
        value: Value,
    ) -> Result<Control<'a>, Step>
        requires moving { IsMoving (top context.now self.old.locals.now self.old.frame (Pending.First total x next at ∷ self.old.stack) self.old.kept (value_seen value)) }
        ensures same { IfOk result (λ k. resume context.now self.new k ≡ (top context.now self.old.locals.now self.old.frame (Pending.First total x.entry next at ∷ self.old.stack) self.old.kept (value_seen value))) }
        ensures waits { OnOk result (waiting context.now self.new ≡ (waits context.now self.old.locals.now self.old.frame (Pending.First total x.entry next at ∷ self.old.stack) self.old.kept)) }
        ensures lighter { IfOk result (λ k. load context.now self.new k < stack_weight context.now self.old.locals.now self.old.frame (Pending.First total x.entry next at ∷ self.old.stack) self.old.kept) }
        ensures stop { IfErr result (λ s. Told s (top context.now self.old.locals.now self.old.frame (Pending.First total x.entry next at ∷ self.old.stack) self.old.kept (value_seen value)) (rest context.now self.new) (waits context.now self.old.locals.now self.old.frame (Pending.First total x.entry next at ∷ self.old.stack) self.old.kept) (waiting context.now self.new)) }
    {
        match value {
            Value::Number(number) => self.turn(context, total, x, next, Value::Number(number), at),
            Value::Bool(true) => self.turn(
                context,
                total,
                x,
                next,
                Value::Number(Fraction::one()),
                at,
            ),
            Value::Bool(false) => self.turn(
                context,
                total,
                x,
                next,
                Value::Number(Fraction::zero()),
                at,
            ),
            Value::Member(_) => unreachable!(),
        }
    }
}
