//! What nodes ask for.

ghost use Rattle.std.specs.Prelude.{Some};
ghost use Rattle.fisca_typing.specs.Questions as questions;
ghost use Rattle.fisca_key_semantics.specs.Dialogues.{asks, gives};
ghost use Rattle.fisca_machine.specs.Context.{groups};
ghost use Rattle.fisca_model.specs.Seen.{key_seen};
ghost use Rattle.fisca_num.specs.Number.{zero_number};
ghost use Rattle.fisca_ops.specs.Ended.{asked as key_asked};
ghost use Rattle.fisca_time.specs.Period.{subs};
ghost use Rattle.fisca_simulation.specs.Followers.{asks_at, point_of};
ghost use Rattle.fisca_simulation.specs.Noted.{unread};
ghost use Rattle.fisca_simulation.specs.Played.{Moves, Plays, played};

use crate::follower::{Answering, Follower};
use crate::found::{type_of, variable_at};
use crate::note::{Halted, Note, ended};
use crate::notes::Notes;
use fisca_ir::Ask;
use fisca_machine::At;
use fisca_model::{Key, RolePlace, Value, ValueType};
use fisca_num::Fraction;
use fisca_ops::{
    OperationFault, arithmetic, default_by, group_of, has_no_parts, moved_all, next_part,
    next_person, plain_key, share_of, year_part,
};
use fisca_time::{Period, Unit};
use fisca_typing::{Arithmetic, Asking, Whom};

impl<'t, 'r, 's, 'a, A: Answering> Follower<'t, 'r, 's, 'a, A> {
    /// The value of a key, which is noted. `Unanswered` where it has none.
    pub(crate) fn asked(&self, key: Key, notes: &mut Notes) -> Result<Value, Halted>
        ensures { Plays result notes.old notes.new (played (A.answers self.now.answers.now) (unread (asks (key_seen key) gives))) }
    {
        notes.push(Note::Asked(key))?;
        match self.answers.answer(&key) {
            Some(value) => Ok(value),
            None => Err(Halted::Unanswered),
        }
    }

    /// The same, where there is a key.
    fn asked_or(&self, key: Result<Key, OperationFault>, notes: &mut Notes) -> Result<Value, Halted>
        ensures { Plays result notes.old notes.new (played (A.answers self.now.answers.now) (unread (key_asked key gives))) }
    {
        match key {
            Ok(key) => self.asked(key, notes),
            Err(fault) => Err(Halted::Fault(fault)),
        }
    }

    /// The sum over the parts of a period, one after another.
    fn sum(
        &self,
        variable: usize,
        unit: Unit,
        member: u32,
        period: Period,
        notes: &mut Notes,
    ) -> Result<Value, Halted>
        requires moving { Moves (A.answers self.now.answers.now) (unread (questions.ask_all variable member (subs period unit) zero_number)) }
        ensures { Plays result notes.old notes.new (played (A.answers self.now.answers.now) (unread (questions.ask_all variable member (subs period unit) zero_number))) }
    {
        let mut sum = Value::Number(Fraction::zero());
        let mut next = 0u32;
        'parts: while let Some(part) = next_part(unit, period, next) {
            let key = Key {
                variable,
                member,
                period: part,
            };
            let value = self.asked(key, notes)?;
            sum = ended(arithmetic(Arithmetic::Add, sum, value))?;
            match next.checked_add(1) {
                Some(after) => next = after,
                None => return Err(Halted::Memory),
            }
        }
        Ok(sum)
    }

    /// The sum over the parts of a period. `PeriodMismatch` where it has no such parts.
    fn add_up(
        &self,
        variable: usize,
        unit: Unit,
        member: u32,
        period: Period,
        notes: &mut Notes,
    ) -> Result<Value, Halted>
        requires moving { Moves (A.answers self.now.answers.now) (unread (questions.ask_sum variable unit member period)) }
        ensures { Plays result notes.old notes.new (played (A.answers self.now.answers.now) (unread (questions.ask_sum variable unit member period))) }
    {
        if has_no_parts(unit, period) {
            return Err(Halted::Fault(OperationFault::PeriodMismatch(Key {
                variable,
                member,
                period,
            })));
        }
        self.sum(variable, unit, member, period, notes)
    }

    /// A part of the value of the year in which a period starts.
    fn divide(
        &self,
        variable: usize,
        unit: Unit,
        member: u32,
        period: Period,
        notes: &mut Notes,
    ) -> Result<Value, Halted>
        requires moving { Moves (A.answers self.now.answers.now) (unread (questions.ask_part variable unit member period)) }
        ensures { Plays result notes.old notes.new (played (A.answers self.now.answers.now) (unread (questions.ask_part variable unit member period))) }
    {
        match year_part(variable, unit, member, period) {
            Ok(part) => {
                let value = self.asked(part.key, notes)?;
                ended(share_of(part.share, value))
            }
            Err(fault) => Err(Halted::Fault(fault)),
        }
    }

    /// The value of a member for a variable at a period.
    fn ask_by(
        &self,
        asking: Asking,
        variable: usize,
        unit: Unit,
        member: u32,
        period: Period,
        notes: &mut Notes,
    ) -> Result<Value, Halted>
        requires moving { Moves (A.answers self.now.answers.now) (unread (questions.ask_by asking variable unit member period)) }
        ensures { Plays result notes.old notes.new (played (A.answers self.now.answers.now) (unread (questions.ask_by asking variable unit member period))) }
    {
        match asking {
            Asking::Plain => self.asked_or(plain_key(variable, unit, member, period), notes),
            Asking::Add => self.add_up(variable, unit, member, period, notes),
            Asking::Divide => self.divide(variable, unit, member, period, notes),
        }
    }

    /// The value of the first person who has a role, where one has it.
    fn ask_holder(
        &self,
        role: RolePlace,
        asking: Asking,
        variable: usize,
        unit: Unit,
        value_type: ValueType,
        period: Period,
        at: At,
        notes: &mut Notes,
    ) -> Result<Value, Halted>
        requires moving { Moves (A.answers self.now.answers.now) (unread (questions.ask_of (groups self.now.context) (point_of self.now at) (Whom.Holder role) asking variable unit value_type period)) }
        ensures { Plays result notes.old notes.new (played (A.answers self.now.answers.now) (unread (questions.ask_of (groups self.now.context) (point_of self.now at) (Whom.Holder role) asking variable unit value_type period))) }
    {
        let _at = at;
        let (entity, group) = (self.frame.entity, self.frame.member);
        match next_person(self.context.members, entity, group, Some(role), 0) {
            Some((person, _)) => self.ask_by(asking, variable, unit, person, period, notes),
            None => Ok(default_by(asking, value_type)),
        }
    }

    /// The value of whom a node means.
    fn ask_of(
        &self,
        whom: Whom,
        asking: Asking,
        variable: usize,
        unit: Unit,
        value_type: ValueType,
        period: Period,
        at: At,
        notes: &mut Notes,
    ) -> Result<Value, Halted>
        requires moving { Moves (A.answers self.now.answers.now) (unread (questions.ask_of (groups self.now.context) (point_of self.now at) whom asking variable unit value_type period)) }
        ensures { Plays result notes.old notes.new (played (A.answers self.now.answers.now) (unread (questions.ask_of (groups self.now.context) (point_of self.now at) whom asking variable unit value_type period))) }
    {
        match whom {
            Whom::Own => self.ask_by(asking, variable, unit, self.frame.member, period, notes),
            Whom::Group(entity) => {
                let group = group_of(self.context.members, entity, self.frame.member);
                self.ask_by(asking, variable, unit, group, period, notes)
            }
            Whom::Person => match at.person {
                Some(person) => self.ask_by(asking, variable, unit, person, period, notes),
                None => unreachable!(),
            },
            Whom::Holder(role) => {
                self.ask_holder(role, asking, variable, unit, value_type, period, at, notes)
            }
        }
    }

    /// The value of a variable at a period.
    fn ask_known(
        &self,
        ask: &Ask,
        period: Period,
        at: At,
        notes: &mut Notes,
    ) -> Result<Value, Halted>
        requires moving { Moves (A.answers self.now.answers.now) (unread (asks_at self.now ask.now at period)) }
        ensures { Plays result notes.old notes.new (played (A.answers self.now.answers.now) (unread (asks_at self.now ask.now at period))) }
    {
        let Some(variable) = variable_at(self.context.tables, ask.variable) else {
            unreachable!()
        };
        let Some(value_type) = type_of(variable.value_type) else {
            unreachable!()
        };
        let unit = variable.definition_period;
        self.ask_of(
            ask.whom,
            ask.asking,
            ask.variable,
            unit,
            value_type,
            period,
            at,
            notes,
        )
    }

    /// The value of a variable at the period that moves lead to. `PeriodOutOfRange` where one leaves the calendar.
    pub(crate) fn ask(&self, ask: &Ask, at: At, notes: &mut Notes) -> Result<Value, Halted>
        requires moving { Moves (A.answers self.now.answers.now) (unread (questions.at_period ask.now.moves.items self.now.frame.period (asks_at self.now ask.now at))) }
        ensures { Plays result notes.old notes.new (played (A.answers self.now.answers.now) (unread (questions.at_period ask.now.moves.items self.now.frame.period (asks_at self.now ask.now at)))) }
    {
        match moved_all(ask.moves.as_slice(), self.frame.period) {
            Ok(period) => self.ask_known(ask, period, at, notes),
            Err(_) => Err(Halted::Fault(OperationFault::PeriodOutOfRange)),
        }
    }
}
