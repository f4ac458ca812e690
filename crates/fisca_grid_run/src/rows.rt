//! The rows of a run file, each in a situation of its own: those of `run_anew`.

ghost use Rattle.std.specs.Prelude.{◌≡◌, [], Some, Ok, string_bytes};
ghost use Rattle.fisca_writer.specs.Row.{IsWorkedOut};
ghost use Rattle.fisca_simulation.specs.Told.{IsReady};
ghost use Rattle.fisca_grid_run.specs.Kept.{IsRunFile};
ghost use Rattle.fisca_rows.specs.Going.{going_row, styled_row};
ghost use Rattle.fisca_grid_run.specs.Runs.{row_in, simulation_in};
ghost use Rattle.fisca_symbols.specs.Known.{tables as known};
ghost use Rattle.fisca_run_file.specs.Positions.{moved_at, situation_with};
ghost use Rattle.fisca_run_file.specs.Views.{file_with};
ghost use Rattle.fisca_situations.specs.Steps.Views.{situation as situation_view};

use fisca_evaluator::{Evaluator, IndexRecall};
use fisca_forms::LineForm;
use fisca_inputs::{Given, SituationKind};
use fisca_members::Members;
use fisca_model::EvalFault;
use fisca_rows::{Asked, RowStyle, met_or_fault, write_going_line, write_row};
use fisca_rules::RuleSet;
use fisca_run_file::RunRequest;
use fisca_situations::{Answers, Situation};
use fisca_symbols::Tables;
use fisca_writer::{GroupLengths, RowFault, Rows, Selection};
use std::alloc::Global;

/// What a run file requests under a rule set, and its members.
#[derive(Drop)]
pub(crate) struct RunRows<'a, 't> {
    /// What grows.
    pub(crate) alloc: Global,
    /// The rule set.
    pub(crate) rules: &'a RuleSet<'t>,
    /// What the file requests.
    pub(crate) request: &'a RunRequest,
    /// How the rows are written.
    pub(crate) style: RowStyle<'a>,
    /// Its members. The evaluator of each position gives them back.
    pub(crate) members: Option<Members>,
    /// The position that was worked out last.
    pub(crate) here: Option<u64>,
}

impl<'a, 't> Rows for RunRows<'a, 't> {
    ghost use Rattle.std.specs.Prelude.{⊤, ◌≡◌, true, is_some};
    ghost use Rattle.fisca_grid.specs.Grid.{counts_of};
    ghost use Rattle.fisca_grid_run.specs.Begun.{file_of};
    ghost use Rattle.fisca_grid_run.specs.Kept.{IsRunFile};
    ghost use Rattle.fisca_grid_run.specs.Runs.{run_row};

    type Fault = EvalFault;

    ghost row_at = { λ r. run_row r.rules.now r.style (file_of r.members r.request.now) };

    ghost counts = { λ r. counts_of r.request.now.axes };

    ghost here = { λ r. r.here };

    // no value is remembered from position to position
    ghost worked = { λ _ _ _. ⊤ };

    ghost refused = { λ _ _ _. ⊤ };

    ghost ready = { λ r. IsRunFile r.rules.now (file_of r.members r.request.now) × (is_some r.members ≡ true) };

    fn groups(&self) -> GroupLengths {
        self.request.axes.groups()
    }

    fn work_out(
        &mut self,
        position: u64,
        _turned: u32,
        line: &mut String,
    ) -> Result<Selection, RowFault<EvalFault>> {
        self.here = Some(position);
        let (alloc, rules, request, style) = (self.alloc, self.rules, self.request, self.style);
        let Ok(moved) = request.moved_at(alloc, &rules.tables, position) else {
            return Err(RowFault::Memory);
        };
        match self.members.take() {
            Some(members) => {
                let moved = moved.as_slice();
                let (row, members) = work_out_with(
                    alloc, rules, request, style, members, position, moved, line,
                );
                self.members = Some(members);
                row
            }
            None => unreachable!(),
        }
    }
}

/// Works out the row at a position, where axes move these inputs, and gives the members back.
fn work_out_with(
    alloc: Global,
    rules: &RuleSet<'_>,
    request: &RunRequest,
    style: RowStyle<'_>,
    members: Members,
    position: u64,
    moved: &[Given],
    line: &mut String,
) -> (Result<Selection, RowFault<EvalFault>>, Members)
    requires accepted { IsRunFile rules.now (file_with members request.now) }
    requires moved { moved_at rules.now.tables (file_with members request.now) position ≡ Some moved.now }
    requires line { string_bytes line.old ≡ [] }
    ensures row { IsWorkedOut (row_in rules.now style.entry (file_with members request.now) position moved.now (situation_with rules.now.tables (file_with members request.now) moved.now)) result.0 (string_bytes line.new) }
    ensures members { result.1 ≡ members }
{
    match request.inputs_with(alloc, &rules.tables, &members, moved) {
        Ok(inputs) => {
            let situation = Situation { members, inputs };
            work_out_in(
                alloc, rules, request, style, position, moved, situation, line,
            )
        }
        Err(fault) if fault.kind == SituationKind::Memory => (Err(RowFault::Memory), members),
        Err(_) => (Ok(Selection::Dropped), members),
    }
}

/// Works out the row at a position in its situation, and gives the members back.
fn work_out_in(
    alloc: Global,
    rules: &RuleSet<'_>,
    request: &RunRequest,
    style: RowStyle<'_>,
    position: u64,
    moved: &[Given],
    situation: Situation,
    line: &mut String,
) -> (Result<Selection, RowFault<EvalFault>>, Members)
    requires ready { IsReady (simulation_in rules.now (file_with (situation_view situation).members request.now) (situation_view situation)) }
    requires line { string_bytes line.old ≡ [] }
    ensures row { IsWorkedOut (row_in rules.now style.entry (file_with (situation_view situation).members request.now) position moved.now (Ok (situation_view situation))) result.0 (string_bytes line.new) }
    ensures members { result.1 ≡ (situation_view situation).members }
{
    let recall = IndexRecall::new(alloc);
    let neutral = request.neutral.as_slice();
    let mut evaluator = Evaluator::new(alloc, rules, neutral, &[], situation, recall);
    let asked = Asked {
        position,
        moved,
        conditions: request.conditions.as_slice(),
        columns: request.columns.as_slice(),
    };
    let row = write_styled(alloc, &rules.tables, style, &asked, &mut evaluator, line);
    let Situation { members, inputs: _ } = evaluator.into_situation();
    (row, members)
}

/// Works out the row of a position in a style.
fn write_styled<A: Answers<Fault = EvalFault>>(
    alloc: Global,
    tables: &Tables<'_>,
    style: RowStyle<'_>,
    asked: &Asked<'_>,
    answers: &mut A,
    line: &mut String,
) -> Result<Selection, RowFault<EvalFault>>
    requires ready { A.ready answers.old }
    requires line { string_bytes line.old ≡ [] }
    ensures row { IsWorkedOut (styled_row style.entry (known tables.now) (A.answer answers.old) asked.now.conditions.now asked.now.columns.now asked.now.position asked.now.moved.now) result (string_bytes line.new) }
    ensures ready { A.ready answers.new }
    ensures same_answers { A.answer answers.new ≡ A.answer answers.old }
    ensures same_members { A.members answers.new ≡ A.members answers.old }
{
    match style {
        RowStyle::Plain => write_row(alloc, tables, None, asked, answers, line),
        RowStyle::Formed(form) => write_row(alloc, tables, Some(form), asked, answers, line),
        RowStyle::Going(form) => write_going(alloc, tables, form, asked, answers, line),
    }
}

/// Works out the row of a position of a run that goes on.
fn write_going<A: Answers<Fault = EvalFault>>(
    alloc: Global,
    tables: &Tables<'_>,
    form: &LineForm,
    asked: &Asked<'_>,
    answers: &mut A,
    line: &mut String,
) -> Result<Selection, RowFault<EvalFault>>
    requires ready { A.ready answers.old }
    requires line { string_bytes line.old ≡ [] }
    ensures row { IsWorkedOut (going_row form.now (known tables.now) (A.answer answers.old) asked.now.conditions.now asked.now.columns.now asked.now.position asked.now.moved.now) result (string_bytes line.new) }
    ensures ready { A.ready answers.new }
    ensures same_answers { A.answer answers.new ≡ A.answer answers.old }
    ensures same_members { A.members answers.new ≡ A.members answers.old }
{
    let mut lacks = false;
    match met_or_fault(answers, asked.conditions) {
        Ok(met) => write_going_line(alloc, tables, form, asked, met, answers, &mut lacks, line),
        Err(_) => Err(RowFault::Memory),
    }
}
