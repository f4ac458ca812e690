//! Values that are given to what is pending.

ghost use Rattle.std.specs.Prelude.{◌≡◌, ◌∷◌, ◌<◌, ◌+◌, IfOk, IfErr, OnOk};
ghost use Rattle.fisca_model.specs.Seen.{value_seen};
ghost use Rattle.fisca_ops.specs.Ended.{IsMoving};
ghost use Rattle.fisca_machine.specs.Running.{rest, waiting, resume, Told, top, waits};
ghost use Rattle.fisca_machine.specs.Weights.{load, stack_weight};

use crate::context::Context;
use crate::found::applied;
use crate::machine::{Control, Machine, Step};
use crate::pending::{At, Kept, Operation, Pending};
use fisca_ir::Node;
use fisca_model::Value;
use fisca_ops::{Share, cast, share_of, unary};
use fisca_symbols::DeclaredType;

impl<'a> Machine<'a> {
    /// The value is the left operand.
    pub(crate) fn operand(
        &mut self,
        context: &Context<'_, '_, '_>,
        operation: Operation,
        right: &'a Node,
        at: At,
        value: Value,
    ) -> Result<Control<'a>, Step>
        ensures same { IfOk result (λ k. resume context.now self.new k ≡ (top context.now self.old.locals.now self.old.frame (Pending.Right operation right.entry at ∷ self.old.stack) self.old.kept (value_seen value))) }
        ensures waits { OnOk result (waiting context.now self.new ≡ (waits context.now self.old.locals.now self.old.frame (Pending.Right operation right.entry at ∷ self.old.stack) self.old.kept)) }
        ensures lighter { IfOk result (λ k. load context.now self.new k < stack_weight context.now self.old.locals.now self.old.frame (Pending.Right operation right.entry at ∷ self.old.stack) self.old.kept) }
        ensures stop { IfErr result (λ s. Told s (top context.now self.old.locals.now self.old.frame (Pending.Right operation right.entry at ∷ self.old.stack) self.old.kept (value_seen value)) (rest context.now self.new) (waits context.now self.old.locals.now self.old.frame (Pending.Right operation right.entry at ∷ self.old.stack) self.old.kept) (waiting context.now self.new)) }
    {
        let Ok(()) = self.put(Pending::Apply(operation)) else {
            return Err(Step::Memory);
        };
        let Ok(()) = self.keep(Kept::Value(value)) else {
            return Err(Step::Memory);
        };
        Ok(Control::Eval(right, at))
    }

    /// The value is the right operand.
    pub(crate) fn apply(
        &mut self,
        context: &Context<'_, '_, '_>,
        operation: Operation,
        value: Value,
    ) -> Result<Control<'a>, Step>
        requires moving { IsMoving (top context.now self.old.locals.now self.old.frame (Pending.Apply operation ∷ self.old.stack) self.old.kept (value_seen value)) }
        ensures same { IfOk result (λ k. resume context.now self.new k ≡ (top context.now self.old.locals.now self.old.frame (Pending.Apply operation ∷ self.old.stack) self.old.kept (value_seen value))) }
        ensures waits { OnOk result (waiting context.now self.new ≡ (waits context.now self.old.locals.now self.old.frame (Pending.Apply operation ∷ self.old.stack) self.old.kept)) }
        ensures lighter { IfOk result (λ k. load context.now self.new k < stack_weight context.now self.old.locals.now self.old.frame (Pending.Apply operation ∷ self.old.stack) self.old.kept) }
        ensures stop { IfErr result (λ s. Told s (top context.now self.old.locals.now self.old.frame (Pending.Apply operation ∷ self.old.stack) self.old.kept (value_seen value)) (rest context.now self.new) (waits context.now self.old.locals.now self.old.frame (Pending.Apply operation ∷ self.old.stack) self.old.kept) (waiting context.now self.new)) }
    {
        match self.kept.pop() {
            Some(Kept::Value(left)) => {
                let outcome = applied(operation, left, value);
                self.ends(context, outcome)
            }
            None | Some(Kept::Day(_)) | Some(Kept::Sum(_)) | Some(Kept::Frame(_)) => unreachable!(),
        }
    }

    /// The value chooses between two nodes.
    pub(crate) fn branch(
        &mut self,
        context: &Context<'_, '_, '_>,
        left: &'a Node,
        right: &'a Node,
        at: At,
        value: Value,
    ) -> Result<Control<'a>, Step>
        requires moving { IsMoving (top context.now self.old.locals.now self.old.frame (Pending.Choose left right at ∷ self.old.stack) self.old.kept (value_seen value)) }
        ensures same { IfOk result (λ k. resume context.now self.new k ≡ (top context.now self.old.locals.now self.old.frame (Pending.Choose left.entry right.entry at ∷ self.old.stack) self.old.kept (value_seen value))) }
        ensures waits { OnOk result (waiting context.now self.new ≡ (waits context.now self.old.locals.now self.old.frame (Pending.Choose left.entry right.entry at ∷ self.old.stack) self.old.kept)) }
        ensures lighter { IfOk result (λ k. load context.now self.new k < stack_weight context.now self.old.locals.now self.old.frame (Pending.Choose left.entry right.entry at ∷ self.old.stack) self.old.kept) }
        ensures stop { IfErr result (λ s. Told s (top context.now self.old.locals.now self.old.frame (Pending.Choose left.entry right.entry at ∷ self.old.stack) self.old.kept (value_seen value)) (rest context.now self.new) (waits context.now self.old.locals.now self.old.frame (Pending.Choose left.entry right.entry at ∷ self.old.stack) self.old.kept) (waiting context.now self.new)) }
    {
        match value {
            Value::Bool(true) => Ok(Control::Eval(left, at)),
            Value::Bool(false) => Ok(Control::Eval(right, at)),
            Value::Number(_) | Value::Member(_) => unreachable!(),
        }
    }

    /// The value is the result of the formula on top.
    pub(crate) fn done(
        &mut self,
        context: &Context<'_, '_, '_>,
        locals: &'a [Node],
        declared: DeclaredType,
        value: Value,
    ) -> Result<Control<'a>, Step>
        requires moving { IsMoving (top context.now self.old.locals.now self.old.frame (Pending.Return locals declared ∷ self.old.stack) self.old.kept (value_seen value)) }
        ensures same { IfOk result (λ k. resume context.now self.new k ≡ (top context.now self.old.locals.now self.old.frame (Pending.Return locals.entry declared ∷ self.old.stack) self.old.kept (value_seen value))) }
        ensures waits { OnOk result (waiting context.now self.new ≡ (waits context.now self.old.locals.now self.old.frame (Pending.Return locals.entry declared ∷ self.old.stack) self.old.kept)) }
        ensures lighter { IfOk result (λ k. load context.now self.new k < stack_weight context.now self.old.locals.now self.old.frame (Pending.Return locals.entry declared ∷ self.old.stack) self.old.kept) }
        ensures stop { IfErr result (λ s. Told s (top context.now self.old.locals.now self.old.frame (Pending.Return locals.entry declared ∷ self.old.stack) self.old.kept (value_seen value)) (rest context.now self.new) (waits context.now self.old.locals.now self.old.frame (Pending.Return locals.entry declared ∷ self.old.stack) self.old.kept) (waiting context.now self.new)) }
    {
        match self.kept.pop() {
            Some(Kept::Frame(frame)) => match cast(declared, value) {
                Ok(value) => {
                    self.locals = locals;
                    self.frame = frame;
                    Err(Step::Done(value))
                }
                Err(fault) => Err(Step::Failed(fault)),
            },
            None | Some(Kept::Value(_)) | Some(Kept::Day(_)) | Some(Kept::Sum(_)) => unreachable!(),
        }
    }

    /// Gives the value to what is pending.
    pub(crate) fn ascend(&mut self, context: &Context<'_, '_, '_>) -> Result<Control<'a>, Step>
        requires moving { IsMoving (rest context.now self.old (value_seen self.old.value)) }
        ensures same { IfOk result (λ k. resume context.now self.new k ≡ (rest context.now self.old (value_seen self.old.value))) }
        ensures waits { OnOk result (waiting context.now self.new ≡ (waiting context.now self.old)) }
        ensures lighter { IfOk result (λ k. load context.now self.new k < stack_weight context.now self.old.locals.now self.old.frame self.old.stack self.old.kept) }
        ensures stop { IfErr result (λ s. Told s (rest context.now self.old (value_seen self.old.value)) (rest context.now self.new) (waiting context.now self.old) (waiting context.now self.new)) }
    {
        let value = self.value;
        match self.stack.pop() {
            None => unreachable!(),
            Some(Pending::Right(operation, right, at)) => self.operand(
                context, operation, right, at, value,
            ),
            Some(Pending::Apply(operation)) => self.apply(context, operation, value),
            Some(Pending::Unary(operation)) => {
                let outcome = unary(operation, value);
                self.ends(context, outcome)
            }
            Some(Pending::Choose(left, right, at)) => self.branch(context, left, right, at, value),
            Some(Pending::Turn(total, x, next, at)) => self.turned(
                context, total, x, next, at, value,
            ),
            Some(Pending::First(total, x, next, at)) => self.firstly(
                context, total, x, next, at, value,
            ),
            Some(Pending::Part(variable, member, unit, next)) => self.parted(
                context, variable, member, unit, next, value,
            ),
            Some(Pending::Share(share)) => {
                let outcome = share_of(share, value);
                self.ends(context, outcome)
            }
            Some(Pending::Index(x, next, chosen, at)) => self.indexed(
                context, x, next, chosen, at, value,
            ),
            Some(Pending::Scale(x)) => self.scaled(context, x, value),
            Some(Pending::Return(locals, declared)) => self.done(context, locals, declared, value),
        }
    }
}
