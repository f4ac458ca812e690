//! Nodes, one after another.

ghost use Rattle.std.specs.Prelude.{◌≡◌, ◌≢◌};
ghost use Rattle.fisca_typing.specs.Answers.{unary_of};
ghost use Rattle.fisca_ir.specs.declared.node.Node.TheVariants as held;
ghost use Rattle.fisca_machine.specs.Context.{groups};
ghost use Rattle.fisca_machine.specs.Weights.{weighing, weight_below};
ghost use Rattle.fisca_ops.specs.Casts.{cast as cast_of};
ghost use Rattle.fisca_simulation.specs.Followers.{applied_to, locals_at, point_of, tells, tells_all};
ghost use Rattle.fisca_simulation.specs.NotedFormulas.{of_two};
ghost use Rattle.fisca_simulation.specs.Noted.{behind, stuck, unread};
ghost use Rattle.fisca_simulation.specs.Played.{Moves, Plays, played};

use crate::follower::{Answering, Follower};
use crate::found::{Operation, applied, count_from, date_part, group_at, person_of, role_wanted};
use crate::note::{Halted, ended};
use crate::notes::Notes;
use fisca_ir::{Node, Pair};
use fisca_machine::At;
use fisca_model::Value;
use fisca_ops::{cast, has, role_of, truth_of, unary};
use fisca_symbols::DeclaredType;
use fisca_typing::Unary;

/// The two nodes that a choice chooses from.
fn sides<'r>(pair: &'r Pair) -> (&'r Node, &'r Node)
    ensures left { result.0.now ≡ pair.now.left }
    ensures right { result.1.now ≡ pair.now.right }
{
    (&pair.left, &pair.right)
}

impl<'t, 'r, 's, 'a, A: Answering> Follower<'t, 'r, 's, 'a, A> {
    /// A formula that returns this, of a variable of this type: its value, and what it asks for and reads on the way, in order, up to its end.
    /// `Fault` where it has no value, `Unanswered` where the key that it asks for last has none, and `Memory` only where memory was refused.
    pub fn follow(
        &self,
        returned: &Node,
        declared: DeclaredType,
        notes: &mut Notes,
    ) -> Result<Value, Halted>
        requires moving { Moves (A.answers self.now.answers.now) (behind (tells_all self.now returned.now) (λ x. unread (cast_of declared x))) }
        ensures { Plays result notes.old notes.new (played (A.answers self.now.answers.now) (behind (tells_all self.now returned.now) (λ x. unread (cast_of declared x)))) }
    {
        let at = At {
            person: None,
            visible: self.locals.len(),
        };
        let value = self.node(returned, at, notes)?;
        ended(cast(declared, value))
    }

    /// A node. A loop, since a `select` has one choice in the next for each of its conditions: they need no stack.
    #[cycle(follow)]
    pub(crate) fn node(&self, node: &Node, at: At, notes: &mut Notes) -> Result<Value, Halted>
        requires moving { Moves (A.answers self.now.answers.now) (tells self.now node.now at) }
        ensures { Plays result notes.old notes.new (played (A.answers self.now.answers.now) (tells self.now node.now at)) }
    {
        let mut here = node;
        'choices: loop {
            let Node::Choose(condition, pair) = here else {
                return self.plain(here, at, notes);
            };
            let value = self.node(condition, at, notes)?;
            let (left, right) = sides(pair);
            if truth_of(value) {
                return self.node(left, at, notes);
            }
            here = right;
        }
    }

    /// The node of a local, and where it is worked out: a local sees those before it.
    fn local(&self, place: usize, at: At) -> (&'r Node, At)
        requires seen { locals_at self.now at place (point_of self.now at) ≢ stuck }
        ensures told { tells self.now result.0.now result.1 ≡ locals_at self.now at place (point_of self.now at) }
        ensures weight { weighing self.now.context self.now.locals.now self.now.frame result.0.now result.1 ≡ weight_below (groups self.now.context) self.now.frame self.now.locals.now at.visible place }
    {
        if place >= at.visible {
            unreachable!()
        }
        match self.locals.get(place) {
            None => unreachable!(),
            Some(local) => {
                let here = At {
                    person: at.person,
                    visible: place,
                };
                (local, here)
            }
        }
    }

    /// A value of one.
    #[cycle(follow)]
    fn one(
        &self,
        operation: Unary,
        operand: &Node,
        at: At,
        notes: &mut Notes,
    ) -> Result<Value, Halted>
        requires moving { Moves (A.answers self.now.answers.now) (behind (tells self.now operand.now at) (λ x. unread (unary_of operation x))) }
        ensures { Plays result notes.old notes.new (played (A.answers self.now.answers.now) (behind (tells self.now operand.now at) (λ x. unread (unary_of operation x)))) }
    {
        let value = self.node(operand, at, notes)?;
        ended(unary(operation, value))
    }

    /// What is made of two.
    #[cycle(follow)]
    fn two(
        &self,
        operation: Operation,
        pair: &Pair,
        at: At,
        notes: &mut Notes,
    ) -> Result<Value, Halted>
        requires moving { Moves (A.answers self.now.answers.now) (of_two (applied_to operation) (tells self.now pair.now.left at) (tells self.now pair.now.right at)) }
        ensures { Plays result notes.old notes.new (played (A.answers self.now.answers.now) (of_two (applied_to operation) (tells self.now pair.now.left at) (tells self.now pair.now.right at))) }
    {
        let left = self.node(&pair.left, at, notes)?;
        let right = self.node(&pair.right, at, notes)?;
        ended(applied(operation, left, right))
    }

    /// A node that is no choice.
    #[cycle(follow)]
    fn plain(&self, node: &Node, at: At, notes: &mut Notes) -> Result<Value, Halted>
        requires moving { Moves (A.answers self.now.answers.now) (tells self.now node.now at) }
        requires other { (condition : _) (pair : _) → node.now ≢ held.Choose condition pair }
        ensures { Plays result notes.old notes.new (played (A.answers self.now.answers.now) (tells self.now node.now at)) }
    {
        let members = self.context.members;
        match node {
            Node::Literal(number) => Ok(Value::Number(*number)),
            Node::Truth(truth) => Ok(Value::Bool(*truth)),
            Node::Member(_, place) => Ok(Value::Member(*place)),
            Node::Local(place) => {
                let (local, here) = self.local(*place, at);
                self.node(local, here, notes)
            }
            Node::DatePart(part, moves) => {
                ended(date_part(*part, moves.as_slice(), self.frame.period))
            }
            Node::Ask(ask) => self.ask(ask, at, notes),
            Node::HasRole(entity, role) => {
                let person = person_of(&self.frame, at);
                Ok(Value::Bool(has(**role, role_of(members, *entity, person))))
            }
            Node::Count(entity, role) => {
                let group = group_at(members, &self.frame, *entity);
                ended(count_from(members, *entity, group, role_wanted(role)))
            }
            Node::Total(total, x) => self.total(*total, x, at, notes),
            Node::Parameter(x) => self.parameter(x, at, notes),
            Node::ScaleSum(x) => self.scale(x, at, notes),
            Node::Unary(operation, operand) => self.one(*operation, operand, at, notes),
            Node::Arithmetic(kind, pair) => {
                self.two(Operation::Arithmetic(*kind), pair, at, notes)
            }
            Node::Logic(kind, pair) => self.two(Operation::Logic(*kind), pair, at, notes),
            Node::Comparison(kind, pair) => {
                self.two(Operation::Comparison(*kind), pair, at, notes)
            }
            Node::Same(pair) => self.two(Operation::Same, pair, at, notes),
            Node::Choose(_, _) => unreachable!(),
        }
    }
}
