//! A run in one situation, whose values are kept from position to position.

ghost use Rattle.std.specs.Prelude.{◌≡◌, ◌↔◌, None, IsErrOf};
ghost use Rattle.fisca_writer.specs.Ranges.{IsBeyond};
ghost use Rattle.fisca_writer.specs.Run.{IsRun, is_write};
ghost use Rattle.fisca_writer.specs.Sink.{CountsFailure};
ghost use Rattle.fisca_evaluator.specs.Evaluators.{marks_in, simulation_of};
ghost use Rattle.fisca_grid_run.specs.Begun.{file_in};
ghost use Rattle.fisca_grid_run.specs.Kept.{IsKept};
ghost use Rattle.fisca_grid_run.specs.Remembered.{HasEnded};
ghost use Rattle.fisca_grid_run.specs.Ends.{HasLacked};
ghost use Rattle.fisca_grid_run.specs.Runs.{positions, run_row};

use crate::kept_rows::{KeptRows, Room};
use fisca_evaluator::{Evaluator, Recall};
use fisca_model::EvalFault;
use fisca_rows::RowStyle;
use fisca_rules::RuleSet;
use fisca_run_file::RunRequest;
use fisca_situations::Slot;
use fisca_writer::{Limit, RowSink, RunEnd, RunFault, write_lines};
use std::alloc::Global;

/// Writes the lines of rows whose values are kept. The rows hold the evaluator all along, so that what it is then is known where they were made.
fn write_kept<R: Recall, S: RowSink>(
    alloc: Global,
    rows: &mut KeptRows<'_, '_, '_, '_, R>,
    from: u64,
    limit: Limit,
    sink: &mut S,
) -> Result<RunEnd, RunFault<EvalFault>>
    requires { IsKept rows.old.rules.now (file_in (simulation_of rows.old.evaluator.now) rows.old.request.now) rows.old.slots.now rows.old.here (marks_in rows.old.evaluator.now) (simulation_of rows.old.evaluator.now) (R.find rows.old.evaluator.now.store.recall) rows.old.evaluator.now.store.counts.free }
    ensures run { IsRun (run_row rows.old.rules.now rows.old.style.now (file_in (simulation_of rows.old.evaluator.now) rows.old.request.now)) (positions (file_in (simulation_of rows.old.evaluator.now) rows.old.request.now)) from limit (S.taken sink.old) (S.taken sink.new) result }
    ensures bad_position { IsErrOf result RunFault.BadPosition ↔ IsBeyond (positions (file_in (simulation_of rows.old.evaluator.now) rows.old.request.now)) from limit }
    ensures failures { CountsFailure (is_write result) (S.failures sink.old) (S.failures sink.new) }
    ensures ended { HasEnded R.find rows.old.rules.now rows.old.style.now (file_in (simulation_of rows.old.evaluator.now) rows.old.request.now) from rows.old.evaluator.now rows.new.evaluator.now result }
    ensures lacks { HasLacked rows.old.rules.now rows.old.style.now (file_in (simulation_of rows.old.evaluator.now) rows.old.request.now) from rows.old.lacks rows.new.lacks result }
    ensures same_reference { rows.new.evaluator.ghost_name ≡ rows.old.evaluator.ghost_name }
    ensures same_members { (simulation_of rows.new.evaluator.now).situation.members ≡ (simulation_of rows.old.evaluator.now).situation.members }
    ensures ready { IsKept rows.old.rules.now (file_in (simulation_of rows.old.evaluator.now) rows.old.request.now) rows.old.slots.now None (marks_in rows.new.evaluator.now) (simulation_of rows.new.evaluator.now) (R.find rows.new.evaluator.now.store.recall) rows.new.evaluator.now.store.counts.free }
{
    write_lines(alloc, rows, from, limit, sink)
}

/// Writes the lines that a run file requests under a rule set into a sink, as [`run_grid`](crate::run_grid) does, by an evaluator that is handed in.
/// Its situation is that of the file, where the axes have the values with which the file was read, or those at any position; the slots are
/// those of the file, and the evaluator has each slot's wheel among those of its variable. No evaluator is made: before the first position every
/// slot is turned, and before each later one those of the wheels that turn there, by which what reads one of these is forgotten.
///
/// It answers as `run_grid` does, but for the counts, which the evaluator tells. Of the keys that read none of the evaluator's wheels none is
/// forgotten, and no count is lowered. Unless it answers `Memory`, those of which something is remembered then are the old ones and, of the work for
/// the keys for which the rows up to the one that ended the run asked, those that read no wheel; and no value was lost. What is remembered of other
/// keys is true, and no more is said of it. The evaluator can be handed in again. This project's own rule.
pub fn run_with<'a, 't, R: Recall, S: RowSink>(
    alloc: Global,
    rules: &'a RuleSet<'t>,
    evaluator: &'a mut Evaluator<'_, 't, R>,
    slots: &'a [Slot],
    request: &'a RunRequest,
    style: RowStyle<'a>,
    lacks: &mut bool,
    from: u64,
    limit: Limit,
    sink: &mut S,
) -> Result<RunEnd, RunFault<EvalFault>>
    requires { IsKept rules.now (file_in (simulation_of evaluator.old) request.now) slots.now None (marks_in evaluator.old) (simulation_of evaluator.old) (R.find evaluator.old.store.recall) evaluator.old.store.counts.free }
    ensures run { IsRun (run_row rules.now style.entry (file_in (simulation_of evaluator.old) request.now)) (positions (file_in (simulation_of evaluator.old) request.now)) from limit (S.taken sink.old) (S.taken sink.new) result }
    ensures bad_position { IsErrOf result RunFault.BadPosition ↔ IsBeyond (positions (file_in (simulation_of evaluator.old) request.now)) from limit }
    ensures failures { CountsFailure (is_write result) (S.failures sink.old) (S.failures sink.new) }
    ensures ended { HasEnded R.find rules.now style.entry (file_in (simulation_of evaluator.old) request.now) from evaluator.old evaluator.new result }
    ensures lacks { HasLacked rules.now style.entry (file_in (simulation_of evaluator.old) request.now) from lacks.old lacks.new result }
    ensures same_members { (simulation_of evaluator.new).situation.members ≡ (simulation_of evaluator.old).situation.members }
    ensures ready { IsKept rules.now (file_in (simulation_of evaluator.old) request.now) slots.now None (marks_in evaluator.new) (simulation_of evaluator.new) (R.find evaluator.new.store.recall) evaluator.new.store.counts.free }
{
    let mut room = Room::new(alloc);
    let mut rows = KeptRows {
        alloc,
        rules,
        request,
        style: &style,
        lacks: *lacks,
        slots,
        evaluator,
        here: None,
        room: &mut room,
    };
    let end = write_kept(alloc, &mut rows, from, limit, sink);
    let found = rows.lacks;
    *lacks = found;
    end
}
