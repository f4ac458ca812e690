//! Keys, each with what its formula needs below it.

ghost use Rattle.std.specs.Prelude.{◌≡◌, ◌≤◌, ◌<◌, ◌-◌, ◌==◌, ◌∷◌, [], List, None, Some, IfErr, IfOk, OnOk, option_map, string_bytes};
ghost use Rattle.std.specs.Io.KnownBytes.{Appends};
ghost use Rattle.fisca_check.specs.Formulas.{formula_view};
ghost use Rattle.fisca_explain.specs.Below.{answers_by};
ghost use Rattle.fisca_explain.specs.Columns.{levels_of};
ghost use Rattle.fisca_explain.specs.Ends.{is_wanting, is_write};
ghost use Rattle.fisca_explain.specs.Explained.{of_key, of_reading};
ghost use Rattle.fisca_explain.specs.Followed.{HasJust};
ghost use Rattle.fisca_explain.specs.Needs.{by_formula};
ghost use Rattle.fisca_explain.specs.Says.{written};
ghost use Rattle.fisca_explain.specs.Walks.{CanWalk, IsWritten, form_in, notes_told_in, simulation_in, told_in};
ghost use Rattle.fisca_explanation.specs.Explanations.{Reason, above};
ghost use Rattle.fisca_model.specs.Seen.{key_seen, value_seen};
ghost use Rattle.fisca_model.specs.Values as meaning;
ghost use Rattle.fisca_simulation.specs.Simulations.{formula_of, sources, variable_of};
ghost use Rattle.fisca_simulation.specs.Views.{simulation as simulation_view};
ghost use Rattle.fisca_writer.specs.Sink.{CountsFailure};

use crate::below::Below;
use crate::cells::write_cells;
use crate::keys::Followed;
use crate::line::Line;
use crate::lines::line_of_key;
use crate::origin::{Origin, origin_of};
use crate::reading::line_of_reading;
use crate::text::write_text;
use crate::view::View;
use fisca_check::TypedFormula;
use fisca_evaluator::Recall;
use fisca_machine::{Context, Frame};
use fisca_model::{EvalFault, Key, Value};
use fisca_simulation::{Answering, Follower, Halted, Note, Notes, Reading, Simulation};
use fisca_situations::Situation;
use fisca_symbols::Variable;
use fisca_writer::{RowSink, hand_over};
use std::alloc::{AllocError, Global};

/// How many keys are asked for below one another at most.
const MOST_KEYS: usize = 100;

/// The bytes of memory that a line has at first; one that is longer takes more.
const LINE_ROOM: usize = 256;

/// Why lines end.
#[derive(Clone, Copy, Debug, PartialEq, Eq)]
pub(crate) enum LinesFault {
    /// The sink failed.
    Write,
    /// Memory was refused.
    Memory,
}

impl From<AllocError> for LinesFault {
    ghost use Rattle.std.specs.Prelude.{◌≡◌};
    ghost use Rattle.fisca_explain.specs.declared.walk.LinesFault.TheVariants.{Memory};

    ghost from_gives = { λ _ fault. fault ≡ Memory };

    fn from(_error: AllocError) -> LinesFault {
        LinesFault::Memory
    }
}

/// Whether a formula ended for want of memory.
fn wants_memory(end: &Result<Value, Halted>) -> bool
    ensures { result ≡ is_wanting end.now }
{
    match end {
        Ok(_) | Err(Halted::Fault(_)) | Err(Halted::Unanswered) => false,
        Err(Halted::Memory) => true,
    }
}

/// What the formula of a key of this variable needs, in order, up to its end, where keys below it have these values.
fn notes_in<'r, R: Recall>(
    alloc: Global,
    below: &Below<'r, '_, '_, R>,
    variable: &Variable<'_>,
    key: &Key,
    formula: &'r TypedFormula,
) -> Result<Notes, LinesFault>
    requires walk { CanWalk (R.find below.now.recall.now) (simulation_view below.now.simulation) }
    requires variable { variable_of (simulation_view below.now.simulation).rules (key_seen key.now) ≡ Some variable.now }
    requires formula { formula_of (simulation_view below.now.simulation).rules (simulation_view below.now.simulation).neutral variable.now (key_seen key.now) ≡ Some (formula_view formula.now) }
    ensures notes { IfOk result (λ notes. notes ≡ by_formula (simulation_view below.now.simulation) (answers_by (sources (simulation_view below.now.simulation)) (R.find below.now.recall.now) below.now.left) variable.now (key_seen key.now) (Some (formula_view formula.now))) }
    ensures fault { IfErr result (λ fault. fault ≡ LinesFault.Memory) }
{
    let mut notes = Notes::new(alloc);
    let locals = formula.values.as_slice();
    let follower = Follower {
        context: Context {
            tables: &below.simulation.rules.tables,
            members: &below.simulation.situation.members,
        },
        answers: below,
        locals,
        frame: Frame {
            entity: variable.entity,
            member: key.member,
            period: key.period,
        },
    };
    let end = follower.follow(&formula.result, variable.value_type, &mut notes);
    if wants_memory(&end) {
        return Err(LinesFault::Memory);
    }
    Ok(notes)
}

/// A column that is explained: what explanations are made of, the situation, what is remembered of it, and why the column has no value; for want of
/// memory where it has one.
#[derive(Drop)]
pub(crate) struct Walk<'e, 's, 'q, 'f, 'r, R> {
    /// What explanations are made of.
    pub(crate) view: &'e View<'s, 'q, 'f, 'r>,
    /// The situation.
    pub(crate) situation: &'e Situation,
    /// What is remembered.
    pub(crate) recall: &'e R,
    /// Why the column has no value.
    pub(crate) fault: EvalFault,
}

impl<'e, 's, 'q, 'f, 'r, R: Recall> Walk<'e, 's, 'q, 'f, 'r, R> {
    /// The text of a line.
    fn text_of(&self, line: &Line) -> Result<String, AllocError>
        ensures { IfOk result (λ text. string_bytes text ≡ written (form_in self.now) line.now) }
    {
        let mut text = String::with_capacity(self.view.alloc, LINE_ROOM)?;
        match self.view.form {
            None => {
                write_text(line, &mut text)?;
                Ok(text)
            }
            Some(form) => {
                write_cells(form, line, &mut text)?;
                Ok(text)
            }
        }
    }

    /// Writes a line.
    fn write<S: RowSink>(&self, line: &Line, sink: &mut S) -> Result<(), LinesFault>
        ensures ok { OnOk result (Appends (S.taken sink.old) (S.taken sink.new) (written (form_in self.now) line.now)) }
        ensures failures { CountsFailure (is_write result) (S.failures sink.old) (S.failures sink.new) }
    {
        let text = self.text_of(line)?;
        match hand_over(sink, text.as_bytes()) {
            Ok(()) => Ok(()),
            Err(_) => Err(LinesFault::Write),
        }
    }

    /// The values of keys below so many others.
    fn below(&self, depth: usize) -> Below<'r, 'f, 'e, R>
        ensures left { result.left ≡ 100 - depth }
        ensures simulation { simulation_view result.simulation ≡ simulation_in self.now }
        ensures recall { result.recall.now ≡ self.now.recall.now }
    {
        Below {
            simulation: Simulation {
                rules: self.view.rules,
                situation: self.situation,
                neutral: &[],
            },
            recall: self.recall,
            left: MOST_KEYS.saturating_sub(depth),
        }
    }

    /// Whether the formulas of keys below so many others are not followed.
    fn is_cut(&self, depth: usize) -> bool
        ensures { result ≡ (levels_of self.now.view.now.depth - depth == 0) }
    {
        match self.view.depth {
            Some(most) => depth as u64 >= most || depth >= MOST_KEYS,
            None => depth >= MOST_KEYS,
        }
    }

    /// Writes the line of a key, without what it comes from where it was explained above.
    fn write_key<S: RowSink>(
        &self,
        depth: usize,
        key: &Key,
        value: Option<Value>,
        origin: Option<Origin<'_, '_>>,
        sink: &mut S,
    ) -> Result<(), LinesFault>
        ensures line { OnOk result ((reason : Reason) → (reason ≡ above → origin.entry ≡ None) → IsWritten self.now (of_key depth (key_seen key.now) (option_map value_seen value) reason ∷ []) (S.taken sink.old) (S.taken sink.new)) }
        ensures failures { CountsFailure (is_write result) (S.failures sink.old) (S.failures sink.new) }
    {
        let answer = match value {
            Some(value) => Ok(value),
            None => Err(self.fault),
        };
        let line = line_of_key(self.view, self.situation, depth, key, answer, origin)?;
        self.write(&line, sink)
    }

    /// Writes the line of what a formula read.
    fn write_reading<S: RowSink>(
        &self,
        depth: usize,
        reading: &Reading,
        sink: &mut S,
    ) -> Result<(), LinesFault>
        ensures line { OnOk result (IsWritten self.now (of_reading depth reading.now ∷ []) (S.taken sink.old) (S.taken sink.new)) }
        ensures failures { CountsFailure (is_write result) (S.failures sink.old) (S.failures sink.new) }
    {
        let line = line_of_reading(self.view, depth, reading)?;
        self.write(&line, sink)
    }

    /// Explains a key below so many others: its line, and where its formula was not followed before, what that needs, in order.
    #[cycle(explain)]
    pub(crate) fn explain<S: RowSink>(
        &self,
        depth: usize,
        key: &Key,
        followed: &mut Followed,
        sink: &mut S,
    ) -> Result<(), LinesFault>
        requires walk { CanWalk (R.find self.now.recall.now) (simulation_in self.now) }
        ensures lines { OnOk result ((before : List meaning.Key) → HasJust before followed.old
            → IsWritten self.now (told_in (R.find self.now.recall.now) self.now depth before (key_seen key.now)).entries (S.taken sink.old) (S.taken sink.new)
            × HasJust (told_in (R.find self.now.recall.now) self.now depth before (key_seen key.now)).followed followed.new) }
        ensures failures { CountsFailure (is_write result) (S.failures sink.old) (S.failures sink.new) }
    {
        let below = self.below(depth);
        let origin = origin_of(&below.simulation, key);
        let value = below.answer(key);
        let Origin::Formula(variable, formula) = origin else {
            return self.write_key(depth, key, value, Some(origin), sink);
        };
        if followed.has(key) {
            return self.write_key(depth, key, value, None, sink);
        }
        self.write_key(depth, key, value, Some(origin), sink)?;
        if self.is_cut(depth) {
            return Ok(());
        }
        followed.add(*key)?;
        let under = self.below(depth + 1);
        let notes = notes_in(self.view.alloc, &under, variable, key, formula)?;
        self.explain_notes(depth + 1, notes.as_slice(), followed, sink)
    }

    /// Explains what a formula needs, in order.
    #[cycle(explain)]
    fn explain_notes<S: RowSink>(
        &self,
        depth: usize,
        notes: &[Note],
        followed: &mut Followed,
        sink: &mut S,
    ) -> Result<(), LinesFault>
        requires walk { CanWalk (R.find self.now.recall.now) (simulation_in self.now) }
        requires depth { depth ≤ 100 }
        ensures lines { OnOk result ((before : List meaning.Key) → HasJust before followed.old
            → IsWritten self.now (notes_told_in (R.find self.now.recall.now) self.now depth before notes.now).entries (S.taken sink.old) (S.taken sink.new)
            × HasJust (notes_told_in (R.find self.now.recall.now) self.now depth before notes.now).followed followed.new) }
        ensures failures { CountsFailure (is_write result) (S.failures sink.old) (S.failures sink.new) }
    {
        'notes: for note in notes {
            match note {
                Note::Asked(key) => self.explain(depth, key, followed, sink)?,
                Note::Read(reading) => self.write_reading(depth, reading, sink)?,
            }
        }
        Ok(())
    }
}
