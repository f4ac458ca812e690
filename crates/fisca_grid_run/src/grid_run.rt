//! The run over the grid of a run file.

ghost use Rattle.std.specs.Prelude.{◌≡◌, ◌≢◌, ◌<◌, ◌↔◌, IfOk, IfSome, IfNone, IsErrOf, Some};
ghost use Rattle.fisca_writer.specs.Ranges.{IsBeyond, IsInside, stop_of as stop_in};
ghost use Rattle.fisca_writer.specs.Run.{IsRun, is_write};
ghost use Rattle.fisca_writer.specs.Sink.{CountsFailure};
ghost use Rattle.fisca_grid_run.specs.Ends.{HasLacked, IsAtOnce, end_of, stop_of};
ghost use Rattle.fisca_grid_run.specs.Begun.{IsBegun};
ghost use Rattle.fisca_grid_run.specs.Kept.{IsRunFile};
ghost use Rattle.fisca_grid_run.specs.Remembered.{AreCounts};
ghost use Rattle.fisca_grid_run.specs.Runs.{positions, run_row};
ghost use Rattle.fisca_run_file.specs.Positions.{IsBeginning};
ghost use Rattle.fisca_run_file.specs.Views.{run_file as run_file_view, run_start as run_start_view};
ghost use Rattle.fisca_situations.specs.Steps.Views.{situation as situation_view};

use crate::beginning::evaluator_of;
use crate::kept::run_with;
use crate::rows::RunRows;
use fisca_evaluator::{Counts, IndexRecall};
use fisca_model::EvalFault;
use fisca_rows::RowStyle;
use fisca_rules::RuleSet;
use fisca_run_file::{RunFile, RunStart};
use fisca_situations::Situation;
use fisca_writer::{Limit, RowSink, RunEnd, RunFault, write_lines};
use std::alloc::Global;

/// How a run ends for which no row is worked out, if it is one: there is no position from its start on, or its limit lets it have none.
fn ended_at_once(size: u64, from: u64, limit: Limit) -> Option<RunEnd>
    requires { IsInside size from limit }
    ensures some { IfSome result (λ end. IsAtOnce size from limit end) }
    ensures none { IfNone result ((from < stop_in size limit) × (limit.rows ≢ Some 0)) }
{
    if from == size {
        return Some(RunEnd::End);
    }
    if limit.to.unwrap_or(size) <= from {
        return Some(RunEnd::More(from));
    }
    match limit.rows {
        Some(0) => Some(RunEnd::More(from)),
        Some(_) | None => None,
    }
}

/// How a run ends, with these counts where nothing stopped it.
fn with_counts(
    end: Result<RunEnd, RunFault<EvalFault>>,
    counts: Counts,
) -> Result<(RunEnd, Counts), RunFault<EvalFault>>
    ensures end { end_of result ≡ end }
    ensures bad_position { IsErrOf result RunFault.BadPosition ↔ IsErrOf end RunFault.BadPosition }
    ensures write { is_write result ≡ is_write end }
    ensures counts { IfOk result (λ ended. ended.1 ≡ counts) }
{
    match end {
        Ok(end) => Ok((end, counts)),
        Err(fault) => Err(fault),
    }
}

/// Writes the lines of a run from what it begins with, and gives the situation back, where the axes have the values of the last position.
pub(crate) fn run_from<S: RowSink>(
    alloc: Global,
    rules: &RuleSet<'_>,
    begun: RunStart,
    style: RowStyle<'_>,
    lacks: &mut bool,
    from: u64,
    limit: Limit,
    sink: &mut S,
) -> (Situation, Result<(RunEnd, Counts), RunFault<EvalFault>>)
    requires { IsBegun rules.now (run_start_view begun) begun }
    ensures run { IsRun (run_row rules.now style.entry (run_start_view begun)) (positions (run_start_view begun)) from limit (S.taken sink.old) (S.taken sink.new) (end_of result.1) }
    ensures bad_position { IsErrOf result.1 RunFault.BadPosition ↔ IsBeyond (positions (run_start_view begun)) from limit }
    ensures failures { CountsFailure (is_write result.1) (S.failures sink.old) (S.failures sink.new) }
    ensures counts { IfOk result.1 (λ ended. AreCounts rules.now style.entry (run_start_view begun) from (stop_of (run_start_view begun) ended.0) ended.1) }
    ensures lacks { HasLacked rules.now style.entry (run_start_view begun) from lacks.old lacks.new (end_of result.1) }
    ensures members { (situation_view result.0).members ≡ (run_start_view begun).members }
{
    let RunStart {
        situation,
        slots,
        wheels,
        request,
    } = begun;
    let recall = IndexRecall::new(alloc);
    let (slots, wheels) = (slots.as_slice(), wheels.as_slice());
    let mut evaluator = evaluator_of(alloc, rules, &request, slots, wheels, situation, recall);
    let end = run_with(
        alloc,
        rules,
        &mut evaluator,
        slots,
        &request,
        style,
        lacks,
        from,
        limit,
        sink,
    );
    let counts = evaluator.counts();
    (evaluator.into_situation(), with_counts(end, counts))
}

/// Writes the lines of a run file under a rule set into a sink: those of the positions of its grid from `from` on at which all conditions hold, in
/// order, up to a limit of lines or before a position. A line has the number of its position, the values of the axes and those of the columns, with tabs between
/// them, and a line feed, or these as cells of the form that is given. One situation goes from position to position, and one evaluator remembers what
/// formulas gave: a value is forgotten where an axis moves that its work reads, and else worked out once in the run. Each line is worked out
/// whole before any of it is handed over.
///
/// It answers how the run ends, at the last position or where it can be continued (the first position that was not worked out), and counts: `free` is the number of different keys of the work
/// at the positions of the run that read no variable of an axis, `lost` is 0, and `bound` counts the values that read one, as often as they were
/// worked out; of `bound` the contract says nothing. Else:
///
/// - `BadPosition` exactly where `from` or the position before which it is to end is above the number of positions.
/// - `Eval` exactly where a condition or a column that is worked out has no value before the limit is reached: the first such position and
///   its fault. The sink has the lines before it.
/// - `Write` only where the sink failed in this call: it has the lines before the position, and a proper beginning of the line there.
/// - `Memory` only where memory was refused, at the position: the sink has the lines before it.
///
/// This project's own rule.
pub fn run_grid<S: RowSink>(
    alloc: Global,
    rules: &RuleSet<'_>,
    run: RunFile,
    style: RowStyle<'_>,
    lacks: &mut bool,
    from: u64,
    limit: Limit,
    sink: &mut S,
) -> Result<(RunEnd, Counts), RunFault<EvalFault>>
    requires accepted { IsRunFile rules.now (run_file_view run) }
    requires begins { IsBeginning rules.now.tables (run_file_view run) (situation_view run.situation) }
    ensures run { IsRun (run_row rules.now style.entry (run_file_view run)) (positions (run_file_view run)) from limit (S.taken sink.old) (S.taken sink.new) (end_of result) }
    ensures bad_position { IsErrOf result RunFault.BadPosition ↔ IsBeyond (positions (run_file_view run)) from limit }
    ensures failures { CountsFailure (is_write result) (S.failures sink.old) (S.failures sink.new) }
    ensures lacks { HasLacked rules.now style.entry (run_file_view run) from lacks.old lacks.new (end_of result) }
    ensures counts { IfOk result (λ ended. AreCounts rules.now style.entry (run_file_view run) from (stop_of (run_file_view run) ended.0) ended.1) }
{
    let size = run.request.axes.size();
    if from > size || limit.to.unwrap_or(size) > size {
        return Err(RunFault::BadPosition);
    }
    if let Some(end) = ended_at_once(size, from, limit) {
        return Ok((end, Counts::new()));
    }
    match run.start(alloc, &rules.tables) {
        Ok(begun) => {
            let (_situation, answer) = run_from(
                alloc, rules, begun, style, lacks, from, limit, sink,
            );
            answer
        }
        Err(_) => Err(RunFault::Memory { position: from }),
    }
}

/// The same lines as those of [`run_grid`], and the same answers but for want of memory, where each position has a situation and an evaluator of its
/// own, which begins with nothing: the run as it is defined, for tests. This project's own rule.
pub fn run_anew<S: RowSink>(
    alloc: Global,
    rules: &RuleSet<'_>,
    run: RunFile,
    style: RowStyle<'_>,
    from: u64,
    limit: Limit,
    sink: &mut S,
) -> Result<RunEnd, RunFault<EvalFault>>
    requires { IsRunFile rules.now (run_file_view run) }
    ensures run { IsRun (run_row rules.now style.entry (run_file_view run)) (positions (run_file_view run)) from limit (S.taken sink.old) (S.taken sink.new) result }
    ensures bad_position { IsErrOf result RunFault.BadPosition ↔ IsBeyond (positions (run_file_view run)) from limit }
    ensures failures { CountsFailure (is_write result) (S.failures sink.old) (S.failures sink.new) }
{
    let RunFile { situation, request } = run;
    let Situation { members, inputs: _ } = situation;
    let mut rows = RunRows {
        alloc,
        rules,
        request: &request,
        style,
        members: Some(members),
        here: None,
    };
    write_lines(alloc, &mut rows, from, limit, sink)
}
