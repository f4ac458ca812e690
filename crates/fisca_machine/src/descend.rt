//! Nodes that are begun.

ghost use Rattle.std.specs.Prelude.{◌≡◌, ◌∷◌, ◌<◌, ◌+◌, IfOk, IfErr, None, OnOk, option_map, length};
ghost use Rattle.fisca_typing.specs.Meaning.{chosen};
ghost use Rattle.fisca_typing.specs.Questions.{counted as counts, group_at as group_meant, person_of as person_meant};
ghost use Rattle.fisca_groups.specs.Grouped.{grouped};
ghost use Rattle.fisca_ops.specs.Persons.{persons_from};
ghost use Rattle.fisca_ops.specs.Ended.{IsMoving, ended};
ghost use Rattle.fisca_machine.specs.Running.{before, rest, waiting, resume, Told, saying, says_below, point, top};
ghost use Rattle.fisca_machine.specs.Steps.Running.{applied};
ghost use Rattle.fisca_machine.specs.Weights.{load, stack_weight, weighing, weight_below};
ghost use Rattle.fisca_machine.specs.Context.{tables, groups};

use crate::context::Context;
use crate::found::{date_part, local_at};
use crate::machine::{Control, Machine, Step};
use crate::pending::{At, Frame, Operation, Pending};
use fisca_ir::{Node, Pair};
use fisca_members::Members;
use fisca_model::{RolePlace, Value};
use fisca_ops::{OperationFault, count_of, counted, group_of, has, role_of};

/// The role that is wanted, where one is.
fn role_wanted(role: &Option<Box<RolePlace>>) -> Option<RolePlace>
    ensures { result ≡ option_map (λ b. b.value) role.now }
{
    match role {
        None => None,
        Some(role) => Some(**role),
    }
}

/// The person whose role is meant: one of the group's persons where their values are taken, else the frame's own member.
fn person_of(frame: &Frame, at: At) -> u32
    ensures { result ≡ person_meant (point frame.now at) }
{
    match at.person {
        Some(person) => person,
        None => frame.member,
    }
}

/// The group of an entity whose persons are meant: the frame's own member where it is one, else the group of that person.
fn group_at(members: &Members, frame: &Frame, entity: usize) -> u32
    ensures { result ≡ group_meant (grouped members.now) (point frame.now (record { person = None; visible = 0 })) entity }
{
    if frame.entity == entity {
        frame.member
    } else {
        group_of(members, entity, frame.member)
    }
}

/// The number of the persons of a group who have a role.
fn count_from(
    members: &Members,
    entity: usize,
    group: u32,
    role: Option<RolePlace>,
) -> Result<Value, OperationFault>
    ensures { ended result ≡ counts (length (persons_from (grouped members.now) entity group role 0)) }
{
    counted(count_of(members, entity, group, role))
}

impl<'a> Machine<'a> {
    /// A value or a fault is there at once.
    pub(crate) fn ends(
        &mut self,
        context: &Context<'_, '_, '_>,
        outcome: Result<Value, OperationFault>,
    ) -> Result<Control<'a>, Step>
        ensures same { IfOk result (λ k. resume context.now self.new k ≡ (before (ended outcome) (rest context.now self.old))) }
        ensures waits { OnOk result (waiting context.now self.new ≡ (waiting context.now self.old)) }
        ensures lighter { IfOk result (λ k. load context.now self.new k < 1 + stack_weight context.now self.old.locals.now self.old.frame self.old.stack self.old.kept) }
        ensures stop { IfErr result (λ s. Told s (before (ended outcome) (rest context.now self.old)) (rest context.now self.new) (waiting context.now self.old) (waiting context.now self.new)) }
    {
        match outcome {
            Ok(value) => {
                self.value = value;
                Ok(Control::Give)
            }
            Err(fault) => Err(Step::Failed(fault)),
        }
    }

    /// Begins with the operand of what is pending then.
    pub(crate) fn one(
        &mut self,
        context: &Context<'_, '_, '_>,
        pending: Pending<'a>,
        operand: &'a Node,
        at: At,
    ) -> Result<Control<'a>, Step>
        ensures same { IfOk result (λ k. resume context.now self.new k ≡ (saying context.now self.old.locals.now self.old.frame operand.now at (top context.now self.old.locals.now self.old.frame (pending.entry ∷ self.old.stack) self.old.kept))) }
        ensures pending { OnOk result (self.new ≡ record self.old { stack = pending.entry ∷ self.old.stack }) }
        ensures operand { IfOk result (λ k. k ≡ Control.Eval operand.entry at) }
        ensures stop { IfErr result (λ s. s ≡ Step.Memory) }
    {
        let Ok(()) = self.put(pending) else {
            return Err(Step::Memory);
        };
        Ok(Control::Eval(operand, at))
    }

    /// Begins with the left one of two operands.
    pub(crate) fn two(
        &mut self,
        context: &Context<'_, '_, '_>,
        operation: Operation,
        pair: &'a Pair,
        at: At,
    ) -> Result<Control<'a>, Step>
        ensures same { IfOk result (λ k. resume context.now self.new k ≡ (saying context.now self.old.locals.now self.old.frame pair.now.left at (λ v. saying context.now self.old.locals.now self.old.frame pair.now.right at (λ y. before (applied operation v y) (rest context.now self.old))))) }
        ensures waits { OnOk result (waiting context.now self.new ≡ (waiting context.now self.old)) }
        ensures lighter { IfOk result (λ k. load context.now self.new k < weighing context.now self.old.locals.now self.old.frame pair.now.left at + (weighing context.now self.old.locals.now self.old.frame pair.now.right at + 3) + stack_weight context.now self.old.locals.now self.old.frame self.old.stack self.old.kept) }
        ensures stop { IfErr result (λ s. Told s (saying context.now self.old.locals.now self.old.frame pair.now.left at (λ v. saying context.now self.old.locals.now self.old.frame pair.now.right at (λ y. before (applied operation v y) (rest context.now self.old)))) (rest context.now self.new) (waiting context.now self.old) (waiting context.now self.new)) }
    {
        let Ok(()) = self.put(Pending::Right(operation, &pair.right, at)) else {
            return Err(Step::Memory);
        };
        Ok(Control::Eval(&pair.left, at))
    }

    /// Begins with a condition.
    pub(crate) fn choose(
        &mut self,
        context: &Context<'_, '_, '_>,
        condition: &'a Node,
        pair: &'a Pair,
        at: At,
    ) -> Result<Control<'a>, Step>
        ensures same { IfOk result (λ k. resume context.now self.new k ≡ (saying context.now self.old.locals.now self.old.frame condition.now at (λ v. chosen v (saying context.now self.old.locals.now self.old.frame pair.now.left at (rest context.now self.old)) (saying context.now self.old.locals.now self.old.frame pair.now.right at (rest context.now self.old))))) }
        ensures waits { OnOk result (waiting context.now self.new ≡ (waiting context.now self.old)) }
        ensures lighter { IfOk result (λ k. load context.now self.new k < weighing context.now self.old.locals.now self.old.frame condition.now at + (weighing context.now self.old.locals.now self.old.frame pair.now.left at + weighing context.now self.old.locals.now self.old.frame pair.now.right at + 2) + stack_weight context.now self.old.locals.now self.old.frame self.old.stack self.old.kept) }
        ensures stop { IfErr result (λ s. Told s (saying context.now self.old.locals.now self.old.frame condition.now at (λ v. chosen v (saying context.now self.old.locals.now self.old.frame pair.now.left at (rest context.now self.old)) (saying context.now self.old.locals.now self.old.frame pair.now.right at (rest context.now self.old)))) (rest context.now self.new) (waiting context.now self.old) (waiting context.now self.new)) }
    {
        let Ok(()) = self.put(Pending::Choose(&pair.left, &pair.right, at)) else {
            return Err(Step::Memory);
        };
        Ok(Control::Eval(condition, at))
    }

    /// Begins with a local, which sees those before it.
    pub(crate) fn local(
        &mut self,
        context: &Context<'_, '_, '_>,
        place: usize,
        at: At,
    ) -> Result<Control<'a>, Step>
        requires moving { IsMoving (says_below (tables context.now) (groups context.now) self.old.locals.now at.visible place (point self.old.frame at) (rest context.now self.old)) }
        ensures same { IfOk result (λ k. resume context.now self.new k ≡ (says_below (tables context.now) (groups context.now) self.old.locals.now at.visible place (point self.old.frame at) (rest context.now self.old))) }
        ensures waits { OnOk result (waiting context.now self.new ≡ (waiting context.now self.old)) }
        ensures lighter { IfOk result (λ k. load context.now self.new k < 1 + weight_below (groups context.now) self.old.frame self.old.locals.now at.visible place + stack_weight context.now self.old.locals.now self.old.frame self.old.stack self.old.kept) }
        ensures stop { IfErr result (λ s. Told s (says_below (tables context.now) (groups context.now) self.old.locals.now at.visible place (point self.old.frame at) (rest context.now self.old)) (rest context.now self.new) (waiting context.now self.old) (waiting context.now self.new)) }
    {
        if place >= at.visible {
            unreachable!()
        }
        match local_at(self.locals, place) {
            None => unreachable!(),
            Some(local) => Ok(Control::Eval(
                local,
                At {
                    person: at.person,
                    visible: place,
                },
            )),
        }
    }

    /// Begins to work a node out.
    pub(crate) fn descend(
        &mut self,
        context: &Context<'_, '_, '_>,
        node: &'a Node,
        at: At,
    ) -> Result<Control<'a>, Step>
        requires moving { IsMoving (saying context.now self.old.locals.now self.old.frame node.now at (rest context.now self.old)) }
        ensures same { IfOk result (λ k. resume context.now self.new k ≡ (saying context.now self.old.locals.now self.old.frame node.now at (rest context.now self.old))) }
        ensures waits { OnOk result (waiting context.now self.new ≡ (waiting context.now self.old)) }
        ensures lighter { IfOk result (λ k. load context.now self.new k < load context.now self.old (Control.Eval node.entry at)) }
        ensures stop { IfErr result (λ s. Told s (saying context.now self.old.locals.now self.old.frame node.now at (rest context.now self.old)) (rest context.now self.new) (waiting context.now self.old) (waiting context.now self.new)) }
    {
        match node {
            Node::Literal(number) => self.ends(context, Ok(Value::Number(*number))),
            Node::Truth(truth) => self.ends(context, Ok(Value::Bool(*truth))),
            Node::Member(_, place) => self.ends(context, Ok(Value::Member(*place))),
            Node::Local(place) => self.local(context, *place, at),
            Node::DatePart(part, moves) => {
                let outcome = date_part(*part, moves.as_slice(), self.frame.period);
                self.ends(context, outcome)
            }
            Node::Ask(ask) => self.ask(context, ask, at),
            Node::HasRole(entity, role) => {
                let person = person_of(&self.frame, at);
                let held = has(**role, role_of(context.members, *entity, person));
                self.ends(context, Ok(Value::Bool(held)))
            }
            Node::Count(entity, role) => {
                let role = role_wanted(role);
                let group = group_at(context.members, &self.frame, *entity);
                let outcome = count_from(context.members, *entity, group, role);
                self.ends(context, outcome)
            }
            Node::Total(total, x) => self.total(context, *total, x, at),
            Node::Unary(operation, operand) => {
                self.one(context, Pending::Unary(*operation), operand, at)
            }
            Node::Arithmetic(kind, pair) => {
                self.two(context, Operation::Arithmetic(*kind), pair, at)
            }
            Node::Logic(kind, pair) => self.two(context, Operation::Logic(*kind), pair, at),
            Node::Comparison(kind, pair) => {
                self.two(context, Operation::Comparison(*kind), pair, at)
            }
            Node::Same(pair) => self.two(context, Operation::Same, pair, at),
            Node::Choose(condition, pair) => self.choose(context, condition, pair, at),
            Node::Parameter(x) => self.parameter(context, x, at),
            Node::ScaleSum(x) => self.scale(context, x, at),
        }
    }
}
