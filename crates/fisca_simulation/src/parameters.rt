//! Parameters and scales.

ghost use Rattle.std.specs.Prelude.{◌≡◌, ◌+◌, ◌*◌, ⊤, MatchOption, slice_get};
ghost use Rattle.fisca_machine.specs.Context.{tables};
ghost use Rattle.fisca_machine.specs.Running.{from, parametric};
ghost use Rattle.fisca_model.specs.Seen.{value_seen};
ghost use Rattle.fisca_simulation.specs.Followers.{chooses, tells};
ghost use Rattle.fisca_simulation.specs.NotedFormulas.{at_start, parameter_at as parameter_noted, scale_at};
ghost use Rattle.fisca_simulation.specs.Noted.{behind};
ghost use Rattle.fisca_simulation.specs.Played.{Moves, Plays, played};

use crate::follower::{Answering, Follower};
use crate::found::{choice_at, day_at, place_at};
use crate::note::{Halted, Note, Reading, ended};
use crate::notes::Notes;
use fisca_ir::{Parameter, ScaleSum};
use fisca_machine::At;
use fisca_model::Value;
use fisca_ops::{member_of, number_of, parameter_at, scale_sum_at};
use fisca_time::Instant;

/// Which parameter is chosen by one member more; none where the place has no number.
fn chosen_behind(chosen: usize, size: usize, member: usize) -> Option<usize>
    ensures { MatchOption result ⊤ (λ i. i ≡ chosen * size + member) }
{
    chosen.checked_mul(size)?.checked_add(member)
}

impl<'t, 'r, 's, 'a, A: Answering> Follower<'t, 'r, 's, 'a, A> {
    /// The parameter that was chosen, which is noted.
    fn read(
        &self,
        x: &Parameter,
        chosen: usize,
        day: Instant,
        notes: &mut Notes,
    ) -> Result<Value, Halted>
        requires moving { Moves (A.answers self.now.answers.now) (parameter_noted (tables self.now.context) (slice_get (parametric x.now).places chosen) day) }
        ensures { Plays result notes.old notes.new (played (A.answers self.now.answers.now) (parameter_noted (tables self.now.context) (slice_get (parametric x.now).places chosen) day)) }
    {
        let Some(place) = place_at(x, chosen) else {
            unreachable!()
        };
        notes.push(Note::Read(Reading {
            place,
            day,
            base: None,
        }))?;
        ended(parameter_at(&self.context.tables.parameters, place, day))
    }

    /// The parameter that the members from a place on choose, behind those before.
    #[cycle(follow)]
    fn index(
        &self,
        x: &Parameter,
        next: usize,
        chosen: usize,
        day: Instant,
        at: At,
        notes: &mut Notes,
    ) -> Result<Value, Halted>
        requires moving { Moves (A.answers self.now.answers.now) (chooses self.now (from next (parametric x.now).indices) chosen at (λ i. parameter_noted (tables self.now.context) (slice_get (parametric x.now).places i) day)) }
        ensures { Plays result notes.old notes.new (played (A.answers self.now.answers.now) (chooses self.now (from next (parametric x.now).indices) chosen at (λ i. parameter_noted (tables self.now.context) (slice_get (parametric x.now).places i) day))) }
    {
        match choice_at(x, next) {
            None => self.read(x, chosen, day, notes),
            Some(choice) => {
                let value = self.node(choice.member, at, notes)?;
                match chosen_behind(chosen, choice.size, member_of(value)) {
                    None => Err(Halted::Memory),
                    Some(chosen) => self.index(x, choice.next, chosen, day, at, notes),
                }
            }
        }
    }

    /// A parameter. `PeriodOutOfRange` where a move leaves the calendar, and of eternity.
    #[cycle(follow)]
    pub(crate) fn parameter(
        &self,
        x: &Parameter,
        at: At,
        notes: &mut Notes,
    ) -> Result<Value, Halted>
        requires moving { Moves (A.answers self.now.answers.now) (at_start (parametric x.now).moves self.now.frame.period (λ day. chooses self.now (parametric x.now).indices 0 at (λ i. parameter_noted (tables self.now.context) (slice_get (parametric x.now).places i) day))) }
        ensures { Plays result notes.old notes.new (played (A.answers self.now.answers.now) (at_start (parametric x.now).moves self.now.frame.period (λ day. chooses self.now (parametric x.now).indices 0 at (λ i. parameter_noted (tables self.now.context) (slice_get (parametric x.now).places i) day)))) }
    {
        match day_at(x.moves.as_slice(), self.frame.period) {
            Ok(day) => self.index(x, 0, 0, day, at, notes),
            Err(fault) => Err(Halted::Fault(fault)),
        }
    }

    /// The sum of a scale for the base that a value is, which is noted.
    fn sum_for(
        &self,
        x: &ScaleSum,
        day: Instant,
        value: Value,
        notes: &mut Notes,
    ) -> Result<Value, Halted>
        requires moving { Moves (A.answers self.now.answers.now) (scale_at (tables self.now.context) x.now.place day (value_seen value)) }
        ensures { Plays result notes.old notes.new (played (A.answers self.now.answers.now) (scale_at (tables self.now.context) x.now.place day (value_seen value))) }
    {
        let base = number_of(value);
        notes.push(Note::Read(Reading {
            place: x.place,
            day,
            base: Some(base),
        }))?;
        ended(scale_sum_at(&self.context.tables.parameters, x.place, day, base))
    }

    /// The sum of a scale. `PeriodOutOfRange` where a move leaves the calendar, and of eternity.
    #[cycle(follow)]
    pub(crate) fn scale(&self, x: &ScaleSum, at: At, notes: &mut Notes) -> Result<Value, Halted>
        requires moving { Moves (A.answers self.now.answers.now) (at_start x.now.moves.items self.now.frame.period (λ day. behind (tells self.now x.now.base at) (scale_at (tables self.now.context) x.now.place day))) }
        ensures { Plays result notes.old notes.new (played (A.answers self.now.answers.now) (at_start x.now.moves.items self.now.frame.period (λ day. behind (tells self.now x.now.base at) (scale_at (tables self.now.context) x.now.place day)))) }
    {
        match day_at(x.moves.as_slice(), self.frame.period) {
            Ok(day) => {
                let value = self.node(&x.base, at, notes)?;
                self.sum_for(x, day, value, notes)
            }
            Err(fault) => Err(Halted::Fault(fault)),
        }
    }
}
