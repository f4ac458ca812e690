//! `fisca axes`: the values of axes that meet a condition.

ghost use Rattle.std.specs.Prelude.{◌≡◌, ◌≢◌, ℕ, map, option_map, IfOk, IfErr, Ok, Err, Some, None, string_bytes};
ghost use Rattle.fisca_grid.specs.Grid.{axes_fault, groups_of, size_of};
ghost use Rattle.fisca_grid.specs.NamedAxes.{specs_of};
ghost use Rattle.fisca_grid.specs.Steps.NamedAxes.{name_of, own_groups};
ghost use Rattle.fisca_writer.specs.Run.{IsRun, is_write as is_write_of_run};
ghost use Rattle.fisca_writer.specs.Sink.{CountsFailure};
ghost use Rattle.fisca_commands.specs.AxesRun.{axes_of_words, axes_row_in, axes_within_limits, named_fault, axes_names, optional_filter, IsAxesAnswer, IsAxesRun};
ghost use Rattle.fisca_grid_run.specs.Forms.{asked_names, shown_form};
ghost use Rattle.fisca_rule_files.specs.Refusal.{is_write};

use fisca_command_line::{RunOptions, TableForm};
use fisca_forms::LineForm;
use fisca_grid::{
    Axes, AxesFault, AxisRows, AxisSpec, Filter, axis_names, has_twins, own_groups, read_axes,
    read_filter,
};
use fisca_grid_run::{begin_table, is_asked};
use fisca_rule_files::Refusal;
use fisca_writer::{Limit, RowSink, RunEnd, RunFault, write_lines};
use std::alloc::{AllocError, Global};
use std::convert::Infallible;

/// The condition that a text states of one of the axes that the words describe, if a text is given.
fn read_keep(words: &[String], keep: Option<&str>) -> Result<Option<Filter>, Refusal>
    ensures { result ≡ optional_filter (map name_of (map (λ word. string_bytes word) words.now)) (option_map (λ text. text.now) keep.entry) }
{
    match keep {
        None => Ok(None),
        Some(text) => match read_filter(words, text) {
            Some(filter) => Ok(Some(filter)),
            None => Err(Refusal::BadCondition),
        },
    }
}

/// The grid of the axes that the words describe, each a group of its own.
fn build(alloc: Global, words: &[String], specs: &[AxisSpec]) -> Result<Axes, Refusal>
    ensures ok { IfOk result (λ axes. (axes ≡ groups_of specs.now (own_groups specs.now)) × (named_fault (map name_of (map (λ word. string_bytes word) words.now)) (axes_fault specs.now (own_groups specs.now)) ≡ None)) }
    ensures err { IfErr result (λ refusal. refusal ≢ Refusal.Memory → (fault : AxesFault) × (named_fault (map name_of (map (λ word. string_bytes word) words.now)) (axes_fault specs.now (own_groups specs.now)) ≡ Some fault) × (refusal ≡ Refusal.Axes fault)) }
{
    let lengths = own_groups(alloc, specs)?;
    match Axes::build(alloc, specs, lengths.as_slice()) {
        Ok(_) if has_twins(words) => Err(Refusal::Axes(AxesFault::AxisOverlap)),
        Ok(axes) => Ok(axes),
        Err(AxesFault::Memory) => Err(Refusal::Memory),
        Err(fault) => Err(Refusal::Axes(fault)),
    }
}

/// The rows of these axes, which the words describe, with a condition.
fn limit_rows(
    alloc: Global,
    words: &[String],
    specs: &[AxisSpec],
    keep: Option<&str>,
) -> Result<AxisRows, Refusal>
    requires { specs_of (map (λ word. string_bytes word) words.now) ≡ Some specs.now }
    ensures ok { IfOk result (λ rows. axes_within_limits (map name_of (map (λ word. string_bytes word) words.now)) specs.now (named_fault (map name_of (map (λ word. string_bytes word) words.now)) (axes_fault specs.now (own_groups specs.now))) (option_map (λ text. text.now) keep.entry) ≡ Ok (record { axes = rows.axes; keep = rows.keep })) }
    ensures err { IfErr result (λ refusal. refusal ≢ Refusal.Memory → axes_within_limits (map name_of (map (λ word. string_bytes word) words.now)) specs.now (named_fault (map name_of (map (λ word. string_bytes word) words.now)) (axes_fault specs.now (own_groups specs.now))) (option_map (λ text. text.now) keep.entry) ≡ Err refusal) }
{
    let axes = build(alloc, words, specs)?;
    let keep = read_keep(words, keep)?;
    Ok(AxisRows::new(alloc, axes, keep))
}

/// The rows that the words and a condition ask for.
fn read_words(alloc: Global, words: &[String], keep: Option<&str>) -> Result<AxisRows, Refusal>
    ensures ok { IfOk result (λ rows. axes_of_words (map (λ word. string_bytes word) words.now) (option_map (λ text. text.now) keep.entry) ≡ Ok (record { axes = rows.axes; keep = rows.keep })) }
    ensures err { IfErr result (λ refusal. refusal ≢ Refusal.Memory → axes_of_words (map (λ word. string_bytes word) words.now) (option_map (λ text. text.now) keep.entry) ≡ Err refusal) }
{
    match read_axes(alloc, words)? {
        Some(specs) => limit_rows(alloc, words, specs.as_slice(), keep),
        None => Err(Refusal::BadWord),
    }
}

/// Writes the lines of `fisca axes`: over the range of positions that the options say, in order, one line for each position where the
/// axis of the condition meets it, up to the limit of lines, and answers how the run ends: `End` where no position is left, or `More` with the
/// position from which a further run writes exactly the remaining lines. A line is the position, then for each axis a tab
/// and its value, and a line feed, or these as cells of the form that is asked for; where it is asked for, a line with the names of the
/// cells comes first.
///
/// A word is `NAME=MIN..MAX/COUNT`, an axis that is a group of its own, and the first turns fastest; a condition is NAME, one of `>= <= == != > <` and a decimal literal. The first
/// refusal in this order is told, and nothing is written before the run:
///
/// - `BadWord` where a word has not that form.
/// - `Axes` with the fault of the axes, as of [`Axes::build`]: `NoAxes` where there is no word, `TooLarge` for more than 16;
///   then with `AxisOverlap` where two axes have one name.
/// - `BadCondition` where the text states no condition on one of the axes.
/// - `Run` with `BadPosition` where the range begins or is to end above the number of positions.
/// - `Write` only where the sink failed in this call: it has a proper beginning of the line of the names.
/// - `Run` with `Write` only where the sink failed in this call: it has the lines before the position that is named, and
///   a proper beginning of the line there.
/// - `Run` with `Memory`, or `Memory`, only where memory was refused.
///
/// This project's own rule.
pub fn axes_words<S: RowSink>(
    alloc: Global,
    words: &[String],
    keep: Option<&str>,
    options: &RunOptions,
    sink: &mut S,
) -> Result<RunEnd, Refusal>
    ensures answer { IsAxesAnswer (map (λ word. string_bytes word) words.now) (option_map (λ text. text.now) keep.entry) options.now (S.taken sink.old) (S.taken sink.new) result }
    ensures failures { CountsFailure (is_write result) (S.failures sink.old) (S.failures sink.new) }
{
    let axis_rows = read_words(alloc, words, keep)?;
    let size = axis_rows.axes.size();
    let (start, range, rows) = (options.range, options.range, options.rows);
    let from = start.start(size);
    let limit = range.limit(size, rows);
    if !limit.is_inside(size, from) {
        return Err(Refusal::Run(RunFault::BadPosition));
    }
    let (named, asked) = (options.form, options.form);
    let names = names_of(alloc, named, words)?;
    let form = begin_table(alloc, asked, names, sink)?;
    write_axes(alloc, axis_rows, form, from, limit, sink)
}

/// The names of the cells, where a form is asked for.
fn names_of(alloc: Global, form: TableForm, words: &[String]) -> Result<Vec<String>, AllocError>
    ensures { IfOk result (λ names. map (λ name. string_bytes name) names.items ≡ asked_names form (axes_names (map (λ word. string_bytes word) words.now))) }
{
    let mut names = Vec::new(alloc);
    if !is_asked(form) {
        return Ok(names);
    }
    names.push(String::from_str(alloc, "position")?)?;
    axis_names(alloc, names, words)
}

/// Writes the lines of the rows of axes in a form.
fn write_axes<S: RowSink>(
    alloc: Global,
    rows: AxisRows,
    form: LineForm,
    from: u64,
    limit: Limit,
    sink: &mut S,
) -> Result<RunEnd, Refusal>
    ensures answer { IsAxesRun (record { axes = rows.axes; keep = rows.keep }) (shown_form form) from limit (S.taken sink.old) (S.taken sink.new) result }
    ensures failures { CountsFailure (is_write result) (S.failures sink.old) (S.failures sink.new) }
{
    match run_rows(alloc, rows, form, from, limit, sink) {
        Ok(end) => Ok(end),
        Err(fault) => Err(Refusal::from(fault)),
    }
}

/// Runs over the rows of axes in a form.
fn run_rows<S: RowSink>(
    alloc: Global,
    rows: AxisRows,
    form: LineForm,
    from: u64,
    limit: Limit,
    sink: &mut S,
) -> Result<RunEnd, RunFault<Infallible>>
    ensures run { IsRun (axes_row_in (shown_form form) (record { axes = rows.axes; keep = rows.keep })) (size_of rows.axes) from limit (S.taken sink.old) (S.taken sink.new) result }
    ensures failures { CountsFailure (is_write_of_run result) (S.failures sink.old) (S.failures sink.new) }
{
    if form.is_plain() {
        let mut rows = rows;
        return write_lines(alloc, &mut rows, from, limit, sink);
    }
    let mut rows = rows.in_form(alloc, form);
    write_lines(alloc, &mut rows, from, limit, sink)
}
