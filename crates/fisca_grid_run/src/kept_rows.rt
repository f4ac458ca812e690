//! The rows of a run file in one situation, whose values are kept from position to position.

ghost use Rattle.std.specs.Prelude.{◌≡◌, ◌<◌, ◌++◌, ◌||◌, ⊤, List, [], Some, option_map, string_bytes};
ghost use Rattle.fisca_situations.specs.Asked.{HaveAsked};
ghost use Rattle.fisca_simulation.specs.Told.{told_in};
ghost use Rattle.fisca_writer.specs.Came.{IsStep};
ghost use Rattle.fisca_writer.specs.Row.{IsWorkedOut};
ghost use Rattle.fisca_evaluator.specs.Asked.{HasRefused, HasWorked};
ghost use Rattle.fisca_evaluator.specs.Evaluators.{IsMemoryOf, marks_in, simulation_of};
ghost use Rattle.fisca_rows.specs.Asked.{keys_asked, keys_met};
ghost use Rattle.fisca_rows.specs.Met as spec;
ghost use Rattle.fisca_rows.specs.FormedLines.{asked_row_in};
ghost use Rattle.fisca_rows.specs.Going.{columns_if_met, going_row, keys_styled, lacks_by, lacks_in};
ghost use Rattle.fisca_grid_run.specs.Begun.{file_in};
ghost use Rattle.fisca_grid_run.specs.Kept.{IsRunFile, IsSituated};
ghost use Rattle.fisca_grid_run.specs.Runs.{positions, run_row};
ghost use Rattle.fisca_grid.specs.Grid.{size_of};
ghost use Rattle.fisca_inputs.specs.declared.given.Given.{Given};
ghost use Rattle.fisca_run_file.specs.Steps.Positions.{moved_by};
ghost use Rattle.fisca_symbols.specs.Known.{tables as known};

use crate::turning::turn_slots;
use fisca_evaluator::{Evaluator, Recall};
use fisca_forms::LineForm;
use fisca_inputs::Given;
use fisca_model::EvalFault;
use fisca_num::Fraction;
use fisca_rows::{
    Asked, RowStyle, all_met, is_unmet, met_or_fault, write_going_line, write_line_in,
};
use fisca_rules::RuleSet;
use fisca_run_file::RunRequest;
use fisca_situations::{Answers, Slot};
use fisca_symbols::Tables;
use fisca_writer::{GroupLengths, RowFault, Rows, Selection};
use std::alloc::Global;

/// A run file under a rule set, and an evaluator whose situation is that of the position that was worked out last or, before there is one, that with
/// which the run begins.
#[derive(Drop)]
pub(crate) struct KeptRows<'a, 'b, 'r, 't, R> {
    /// What grows.
    pub(crate) alloc: Global,
    /// The rule set.
    pub(crate) rules: &'a RuleSet<'t>,
    /// What the file requests.
    pub(crate) request: &'a RunRequest,
    /// How the rows are written.
    pub(crate) style: &'b RowStyle<'a>,
    /// Whether a row had a word in the place of a value.
    pub(crate) lacks: bool,
    /// What its axes move.
    pub(crate) slots: &'a [Slot],
    /// What answers the values of keys.
    pub(crate) evaluator: &'a mut Evaluator<'r, 't, R>,
    /// The position that was worked out last.
    pub(crate) here: Option<u64>,
    /// What is filled at each position.
    pub(crate) room: &'b mut Room,
}

/// Room that is taken again at each position.
#[derive(Drop)]
pub(crate) struct Room {
    /// For the values of the axes.
    steps: Vec<Fraction>,
    /// For the inputs that the axes move.
    moved: Vec<Given>,
}

impl Room {
    /// None as yet.
    pub(crate) fn new(alloc: Global) -> Room {
        Room {
            steps: Vec::new(alloc),
            moved: Vec::new(alloc),
        }
    }
}

impl<'a, 'b, 'r, 't, R: Recall> Rows for KeptRows<'a, 'b, 'r, 't, R> {
    ghost use Rattle.std.specs.Prelude.{◌≡◌, ◌||◌};
    ghost use Rattle.fisca_grid.specs.Grid.{counts_of};
    ghost use Rattle.fisca_evaluator.specs.Evaluators.{marks_in, simulation_of};
    ghost use Rattle.fisca_grid_run.specs.Begun.{file_in};
    ghost use Rattle.fisca_grid_run.specs.Kept.{IsKept};
    ghost use Rattle.fisca_grid_run.specs.Remembered.{IsPassed, IsRefused};
    ghost use Rattle.fisca_grid_run.specs.Runs.{lacks_at, run_row};

    type Fault = EvalFault;

    ghost row_at = { λ r. run_row r.rules.now r.style.now (file_in (simulation_of r.evaluator.now) r.request.now) };

    ghost counts = { λ r. counts_of r.request.now.axes };

    ghost here = { λ r. r.here };

    ghost worked = { λ r position s. (s.rules.now ≡ r.rules.now) × (s.request.now ≡ r.request.now) × (s.slots.now ≡ r.slots.now) × (s.evaluator.ghost_name ≡ r.evaluator.ghost_name) × ((simulation_of s.evaluator.now).situation.members ≡ (simulation_of r.evaluator.now).situation.members) × (s.style.now ≡ r.style.now) × IsPassed R.find r.rules.now r.style.now (file_in (simulation_of r.evaluator.now) r.request.now) r.evaluator.now position s.evaluator.now × (s.lacks ≡ (r.lacks || lacks_at r.rules.now r.style.now (file_in (simulation_of r.evaluator.now) r.request.now) position)) };

    ghost refused = { λ r _ s. (s.rules.now ≡ r.rules.now) × (s.request.now ≡ r.request.now) × (s.slots.now ≡ r.slots.now) × (s.evaluator.ghost_name ≡ r.evaluator.ghost_name) × ((simulation_of s.evaluator.now).situation.members ≡ (simulation_of r.evaluator.now).situation.members) × (s.style.now ≡ r.style.now) × IsRefused R.find r.evaluator.now s.evaluator.now };

    ghost ready = { λ r. IsKept r.rules.now (file_in (simulation_of r.evaluator.now) r.request.now) r.slots.now r.here (marks_in r.evaluator.now) (simulation_of r.evaluator.now) (R.find r.evaluator.now.store.recall) r.evaluator.now.store.counts.free };

    fn groups(&self) -> GroupLengths {
        self.request.axes.groups()
    }

    fn work_out(
        &mut self,
        position: u64,
        turned: u32,
        line: &mut String,
    ) -> Result<Selection, RowFault<EvalFault>> {
        self.here = Some(position);
        let (alloc, rules, request, slots) = (self.alloc, self.rules, self.request, self.slots);
        let style = *self.style;
        turn_slots(self.evaluator, &request.axes, slots, position, turned);
        write_row_at(
            alloc,
            rules,
            request,
            style,
            self.evaluator,
            position,
            &mut self.lacks,
            self.room,
            line,
        )
    }
}

/// Works out the row at a position, in the situation there. Nothing is worked out but the keys for which the row asks, in order, each once, and the
/// values of the axes where all conditions hold.
fn write_row_at<R: Recall>(
    alloc: Global,
    rules: &RuleSet<'_>,
    request: &RunRequest,
    style: RowStyle<'_>,
    evaluator: &mut Evaluator<'_, '_, R>,
    position: u64,
    lacks: &mut bool,
    room: &mut Room,
    line: &mut String,
) -> Result<Selection, RowFault<EvalFault>>
    requires accepted { IsRunFile rules.now (file_in (simulation_of evaluator.old) request.now) }
    requires position { position < positions (file_in (simulation_of evaluator.old) request.now) }
    requires situated { IsSituated rules.now (file_in (simulation_of evaluator.old) request.now) (Some position) (simulation_of evaluator.old) }
    requires memory { IsMemoryOf (marks_in evaluator.old) (simulation_of evaluator.old) (R.find evaluator.old.store.recall) evaluator.old.store.counts.free }
    requires line { string_bytes line.old ≡ [] }
    ensures row { IsWorkedOut (run_row rules.now style.entry (file_in (simulation_of evaluator.old) request.now) position) result (string_bytes line.new) }
    ensures asked { HaveAsked (HasWorked R.find) (HasRefused R.find) (keys_styled style.entry (told_in (simulation_of evaluator.old)) request.now.conditions request.now.columns) evaluator.old evaluator.new result }
    ensures lacks { IsStep (lacks.new ≡ (lacks.old || lacks_in style.entry (told_in (simulation_of evaluator.old)) request.now.conditions request.now.columns)) ⊤ result }
    ensures memory { IsMemoryOf (marks_in evaluator.new) (simulation_of evaluator.new) (R.find evaluator.new.store.recall) evaluator.new.store.counts.free }
{
    let tables = &rules.tables;
    match style {
        RowStyle::Plain => {
            write_met_row(
                alloc, tables, request, None, evaluator, position, room, line,
            )
        }
        RowStyle::Formed(form) => {
            let form = Some(form);
            write_met_row(
                alloc, tables, request, form, evaluator, position, room, line,
            )
        }
        RowStyle::Going(form) => write_told_row(
            alloc, tables, request, form, evaluator, position, lacks, room, line,
        ),
    }
}

/// Works out the row at a position, in a form where one is given.
#[inline(always)]
fn write_met_row<A: Answers<Fault = EvalFault>>(
    alloc: Global,
    tables: &Tables<'_>,
    request: &RunRequest,
    form: Option<&LineForm>,
    answers: &mut A,
    position: u64,
    room: &mut Room,
    line: &mut String,
) -> Result<Selection, RowFault<EvalFault>>
    requires ready { A.ready answers.old }
    requires position { position < size_of request.now.axes }
    requires line { string_bytes line.old ≡ [] }
    ensures row { (moved : List Given) → moved_by tables.now request.now.axes request.now.moved position ≡ Some moved → IsWorkedOut (asked_row_in (option_map (λ form. form.now) form.entry) (known tables.now) (A.answer answers.old) request.now.conditions request.now.columns position moved) result (string_bytes line.new) }
    ensures asked { HaveAsked A.worked A.refused (keys_asked (A.answer answers.old) request.now.conditions request.now.columns) answers.old answers.new result }
    ensures ready { A.ready answers.new }
{
    if !all_met(answers, request.conditions.as_slice())? {
        return Ok(Selection::Dropped);
    }
    let (steps, moved) = (&mut room.steps, &mut room.moved);
    match request.moved_into(tables, position, steps, moved) {
        Ok(()) => {
            let asked = Asked {
                position,
                moved: room.moved.as_slice(),
                conditions: request.conditions.as_slice(),
                columns: request.columns.as_slice(),
            };
            write_line_in(alloc, tables, form, &asked, answers, line)
        }
        Err(_) => Err(RowFault::Memory),
    }
}

/// Works out the row at a position of a run that goes on.
fn write_told_row<A: Answers<Fault = EvalFault>>(
    alloc: Global,
    tables: &Tables<'_>,
    request: &RunRequest,
    form: &LineForm,
    answers: &mut A,
    position: u64,
    lacks: &mut bool,
    room: &mut Room,
    line: &mut String,
) -> Result<Selection, RowFault<EvalFault>>
    requires ready { A.ready answers.old }
    requires position { position < size_of request.now.axes }
    requires line { string_bytes line.old ≡ [] }
    ensures row { (moved : List Given) → moved_by tables.now request.now.axes request.now.moved position ≡ Some moved → IsWorkedOut (going_row form.now (known tables.now) (A.answer answers.old) request.now.conditions request.now.columns position moved) result (string_bytes line.new) }
    ensures asked { HaveAsked A.worked A.refused (keys_met (A.answer answers.old) request.now.conditions ++ columns_if_met (spec.all_met (A.answer answers.old) request.now.conditions) request.now.columns) answers.old answers.new result }
    ensures lacks { IsStep (lacks.new ≡ (lacks.old || lacks_by (spec.all_met (A.answer answers.old) request.now.conditions) (A.answer answers.old) request.now.columns)) ⊤ result }
    ensures ready { A.ready answers.new }
{
    let Ok(met) = met_or_fault(answers, request.conditions.as_slice()) else {
        return Err(RowFault::Memory);
    };
    if is_unmet(&met) {
        return Ok(Selection::Dropped);
    }
    let (steps, moved) = (&mut room.steps, &mut room.moved);
    match request.moved_into(tables, position, steps, moved) {
        Ok(()) => {
            let asked = Asked {
                position,
                moved: room.moved.as_slice(),
                conditions: request.conditions.as_slice(),
                columns: request.columns.as_slice(),
            };
            write_going_line(alloc, tables, form, &asked, met, answers, lacks, line)
        }
        Err(_) => Err(RowFault::Memory),
    }
}
