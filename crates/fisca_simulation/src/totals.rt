//! Totals over the persons of a group, one after another.

ghost use Rattle.std.specs.Prelude.{List};
ghost use Rattle.fisca_typing.specs.Meaning.{at_person};
ghost use Rattle.fisca_machine.specs.Context.{groups};
ghost use Rattle.fisca_model.specs.Groups.{persons_at};
ghost use Rattle.fisca_model.specs.Seen.{value_seen};
ghost use Rattle.fisca_ops.specs.Persons.{persons_from};
ghost use Rattle.fisca_ops.specs.Totals.{step_of};
ghost use Rattle.fisca_simulation.specs.Followers.{point_of, tells_for};
ghost use Rattle.fisca_simulation.specs.NotedFormulas.{from_first, in_turn, total_over};
ghost use Rattle.fisca_simulation.specs.Played.{Moves, Plays, played};

use crate::follower::{Answering, Follower};
use crate::note::{Halted, ended};
use crate::notes::Notes;
use fisca_ir::Totalled;
use fisca_machine::At;
use fisca_model::Value;
use fisca_ops::{OperationFault, beginning, next_person, number_of, stepped};
use fisca_typing::Total;

impl<'t, 'r, 's, 'a, A: Answering> Follower<'t, 'r, 's, 'a, A> {
    /// A total with the persons from a place on.
    #[cycle(follow)]
    fn turn(
        &self,
        total: Total,
        x: &Totalled,
        next: usize,
        sum: Value,
        at: At,
        notes: &mut Notes,
    ) -> Result<Value, Halted>
        requires moving { Moves (A.answers self.now.answers.now) (in_turn (step_of total) (tells_for self.now x.now.values at) (persons_from (groups self.now.context) self.now.frame.entity self.now.frame.member x.now.role next) (value_seen sum)) }
        ensures { Plays result notes.old notes.new (played (A.answers self.now.answers.now) (in_turn (step_of total) (tells_for self.now x.now.values at) (persons_from (groups self.now.context) self.now.frame.entity self.now.frame.member x.now.role next) (value_seen sum))) }
    {
        let (entity, group) = (self.frame.entity, self.frame.member);
        let mut sum = sum;
        let mut next = next;
        'persons: while let Some((person, after)) = next_person(
            self.context.members,
            entity,
            group,
            x.role,
            next,
        ) {
            let here = At {
                person: Some(person),
                visible: at.visible,
            };
            let value = self.node(&x.values, here, notes)?;
            sum = ended(stepped(total, sum, value))?;
            next = after;
        }
        Ok(sum)
    }

    /// The lowest or the highest. `NoMember` of nobody.
    #[cycle(follow)]
    fn first(&self, total: Total, x: &Totalled, at: At, notes: &mut Notes) -> Result<Value, Halted>
        requires moving { Moves (A.answers self.now.answers.now) (from_first (step_of total) (tells_for self.now x.now.values at) (persons_from (groups self.now.context) self.now.frame.entity self.now.frame.member x.now.role 0)) }
        ensures { Plays result notes.old notes.new (played (A.answers self.now.answers.now) (from_first (step_of total) (tells_for self.now x.now.values at) (persons_from (groups self.now.context) self.now.frame.entity self.now.frame.member x.now.role 0))) }
    {
        let (entity, group) = (self.frame.entity, self.frame.member);
        match next_person(self.context.members, entity, group, x.role, 0) {
            None => Err(Halted::Fault(OperationFault::NoMember)),
            Some((person, after)) => {
                let here = At {
                    person: Some(person),
                    visible: at.visible,
                };
                let value = self.node(&x.values, here, notes)?;
                let number = Value::Number(number_of(value));
                self.turn(total, x, after, number, at, notes)
            }
        }
    }

    /// A total.
    #[cycle(follow)]
    pub(crate) fn total(
        &self,
        total: Total,
        x: &Totalled,
        at: At,
        notes: &mut Notes,
    ) -> Result<Value, Halted>
        requires moving { Moves (A.answers self.now.answers.now) (total_over total (tells_for self.now x.now.values at) (persons_at (groups self.now.context) (point_of self.now at) x.now.role)) }
        ensures { Plays result notes.old notes.new (played (A.answers self.now.answers.now) (total_over total (tells_for self.now x.now.values at) (persons_at (groups self.now.context) (point_of self.now at) x.now.role))) }
    {
        match beginning(total) {
            None => self.first(total, x, at, notes),
            Some(sum) => self.turn(total, x, 0, sum, at, notes),
        }
    }
}
