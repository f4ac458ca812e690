//! `fisca run`: the lines of a run file over its grid.

ghost use Rattle.std.specs.Prelude.{◌≡◌, [], IfOk, IfErr, Ok, Some, map, string_bytes};
ghost use Rattle.fisca_grid_run.specs.Begun.{HasBegun, IsBegun};
ghost use Rattle.fisca_grid_run.specs.Run.{IsCounted, IsEndedIn, IsLinesTold, IsNamedFor, IsRunAnswer, IsStyleOf, IsRunToldBy, IsStopTold, RefusesNames, RefusesRunText, RefusesRunTree, SaysRun};
ghost use Rattle.fisca_writer.specs.Sink.{CountsFailure};
ghost use Rattle.fisca_rule_files.specs.Refusal.{is_write};
ghost use Rattle.fisca_grid_run.specs.Ends.{HasLacked, end_of, stop_of};
ghost use Rattle.fisca_grid_run.specs.Remembered.{AreCounts};
ghost use Rattle.fisca_run_file.specs.RunFiles.{run_file_of};
ghost use Rattle.fisca_run_file.specs.Positions.{IsBeginning};
ghost use Rattle.fisca_run_file.specs.Views.{run_file as run_file_view, run_start as run_start_view};
ghost use Rattle.fisca_situations.specs.Steps.Views.{situation as situation_view};
ghost use Rattle.fisca_yaml.specs.Grouping.{document};
ghost use Rattle.fisca_yaml.specs.Node.{Node};
ghost use Rattle.fisca_yaml.specs.Views.{node};

use super::forms::{begin_table, is_asked};
use super::grid_run::run_from;
use super::text::read_tree;
use super::told_keys::unanswered;
use fisca_columns::RunFileKind;
use fisca_command_line::{RunOptions, TableForm};
use fisca_evaluator::Counts;
use fisca_forms::LineForm;
use fisca_model::EvalFault;
use fisca_params::SourceFile;
use fisca_rows::RowStyle;
use fisca_rule_files::{Refusal, rules_of};
use fisca_rules::RuleSet;
use fisca_run_file::{RunFile, RunStart, cell_names};
use fisca_simulation::rule_sets_are_safe;
use fisca_situations::Situation;
use fisca_writer::{Limit, RowSink, RunEnd, RunFault};
use fisca_yaml::Tree;
use std::alloc::Global;

/// The run file that a tree says under a rule set. `RunFile` exactly where it says none, with the line and the kind of its first fault; `Memory` only
/// where memory was refused.
pub fn read_run(alloc: Global, rules: &RuleSet<'_>, tree: &Tree<'_>) -> Result<RunFile, Refusal>
    ensures ok { IfOk result (λ run. run_file_of rules.now.tables (node tree.now) ≡ Ok (run_file_view run)) }
    ensures begins { IfOk result (λ run. IsBeginning rules.now.tables (run_file_view run) (situation_view run.situation)) }
    ensures err { IfErr result (RefusesRunTree rules.now (node tree.now)) }
{
    match RunFile::read(alloc, &rules.tables, tree) {
        Ok(run) => Ok(run),
        Err(fault) if fault.kind == RunFileKind::Memory => Err(Refusal::Memory),
        Err(fault) => Err(Refusal::RunFile(fault)),
    }
}

/// The names of the cells of a run's lines, where a form is asked for.
fn names_of(alloc: Global, form: TableForm, tree: &Tree<'_>) -> Result<Vec<String>, Refusal>
    ensures ok { IfOk result (λ names. IsNamedFor form (node tree.now) (map (λ name. string_bytes name) names.items)) }
    ensures err { IfErr result (RefusesNames (node tree.now)) }
{
    if !is_asked(form) {
        return Ok(Vec::new(alloc));
    }
    match cell_names(alloc, tree) {
        Ok(names) => Ok(names),
        Err(fault) if fault.kind == RunFileKind::Memory => Err(Refusal::Memory),
        Err(fault) => Err(Refusal::RunFile(fault)),
    }
}

/// What a run of the file that a text says under a rule set begins with, and the names of its cells, where a form is asked for.
fn begin_run(
    alloc: Global,
    rules: &RuleSet<'_>,
    form: TableForm,
    text: &str,
) -> Result<(RunStart, Vec<String>), Refusal>
    ensures says { IfOk result (λ begun. SaysRun rules.now text.now (run_start_view begun.0)) }
    ensures begins { IfOk result (λ begun. HasBegun rules.now (run_start_view begun.0) begun.0) }
    ensures names { IfOk result (λ begun. (n : Node) × (document text.now ≡ Some n) × IsNamedFor form n (map (λ name. string_bytes name) begun.1.items)) }
    ensures err { IfErr result (RefusesRunText rules.now text.now) }
{
    let tree = read_tree(alloc, text)?;
    let run = read_run(alloc, rules, &tree)?;
    let names = names_of(alloc, form, &tree)?;
    match run.start(alloc, &rules.tables) {
        Ok(begun) => Ok((begun, names)),
        Err(_) => Err(Refusal::Memory),
    }
}

/// The refusal of a run that this fault stopped, with the text of the key that a fault of an evaluation is told of.
fn tell_stop(
    alloc: Global,
    rules: &RuleSet<'_>,
    situation: &Situation,
    fault: RunFault<EvalFault>,
) -> Refusal
    ensures { IsStopTold rules.now (situation_view situation.now).members fault result }
{
    match fault {
        RunFault::BadPosition => Refusal::Run(RunFault::BadPosition),
        RunFault::Eval { position, fault } => match unanswered(alloc, rules, situation, &fault) {
            Ok(fault) => Refusal::Run(RunFault::Eval { position, fault }),
            Err(_) => Refusal::Run(RunFault::Memory { position }),
        },
        RunFault::Write { position } => Refusal::Run(RunFault::Write { position }),
        RunFault::Memory { position } => Refusal::Run(RunFault::Memory { position }),
    }
}

/// How rows are written in a form, in a run that goes on where a key has no value or that does not.
fn style_of<'a>(form: &'a LineForm, keeps_going: bool) -> RowStyle<'a>
    ensures { IsStyleOf form.now keeps_going result }
{
    if keeps_going {
        RowStyle::Going(form)
    } else if form.is_plain() {
        RowStyle::Plain
    } else {
        RowStyle::Formed(form)
    }
}

/// Writes the lines of a run file under a rule set in a style, and answers how the run ends and how many formulas gave values.
fn write_run<S: RowSink>(
    alloc: Global,
    rules: &RuleSet<'_>,
    begun: RunStart,
    style: RowStyle<'_>,
    lacks: &mut bool,
    from: u64,
    limit: Limit,
    sink: &mut S,
) -> Result<(RunEnd, Counts), Refusal>
    requires { IsBegun rules.now (run_start_view begun) begun }
    ensures answer { IsLinesTold (record { rules = rules.now; run = run_start_view begun; names = [] }) style.entry from limit (S.taken sink.old) (S.taken sink.new) (end_of result) }
    ensures failures { CountsFailure (is_write result) (S.failures sink.old) (S.failures sink.new) }
    ensures lacks { HasLacked rules.now style.entry (run_start_view begun) from lacks.old lacks.new (end_of result) }
    ensures counts { IfOk result (λ ended. AreCounts rules.now style.entry (run_start_view begun) from (stop_of (run_start_view begun) ended.0) ended.1) }
{
    let (situation, answer) = run_from(alloc, rules, begun, style, lacks, from, limit, sink);
    match answer {
        Ok(ended) => Ok(ended),
        Err(fault) => Err(tell_stop(alloc, rules, &situation, fault)),
    }
}

/// Writes what the options ask for of a run file under a rule set: the line of the names, where they ask for it, and the lines of the range.
fn write_range<S: RowSink>(
    alloc: Global,
    rules: &RuleSet<'_>,
    begun: RunStart,
    names: Vec<String>,
    options: &RunOptions,
    lacks: &mut bool,
    sink: &mut S,
) -> Result<(RunEnd, Counts), Refusal>
    requires { IsBegun rules.now (run_start_view begun) begun }
    ensures answer { IsRunToldBy (record { rules = rules.now; run = run_start_view begun; names = map (λ name. string_bytes name) names.items }) options.now (S.taken sink.old) (S.taken sink.new) (end_of result) }
    ensures failures { CountsFailure (is_write result) (S.failures sink.old) (S.failures sink.new) }
    ensures ended { IfOk result (λ ended. IsEndedIn (record { rules = rules.now; run = run_start_view begun; names = map (λ name. string_bytes name) names.items }) options.now (S.taken sink.old) (S.taken sink.new) lacks.old lacks.new ended.0 ended.1) }
{
    let size = begun.request.axes.size();
    let (start, range, rows) = (options.range, options.range, options.rows);
    let from = start.start(size);
    let limit = range.limit(size, rows);
    if !limit.is_inside(size, from) {
        return Err(Refusal::Run(RunFault::BadPosition));
    }
    let asked = options.form;
    let form = begin_table(alloc, asked, names, sink)?;
    let style = style_of(&form, options.keeps_going);
    write_run(alloc, rules, begun, style, lacks, from, limit, sink)
}

/// Writes the lines of a run file under a rule set: over the range of the positions of its grid that the options say, in order, one line for each
/// position at which all conditions of the filter hold, up to the limit of lines, and answers how the run ends: `End` where no position of the grid
/// is left, or `More` with the position from which a further run writes exactly the remaining lines. A line is the position, the values of the axes and those of the columns, with tabs between them, and a line
/// feed, or these as cells of the form that is asked for; where it is asked for, a line with the names of the cells comes first. The text is a map of `axes`, and perhaps `period`, `input`, `filter`, `columns` and `neutralize`, as of [`RunFile::read`].
///
/// A run that is to keep going is not ended by a key without a value: the plain word of the fault stands in the cell of its column, or that of a
/// condition in the cell of the first column, where the others are empty; `lacks` is set where such a word stands in a line.
///
/// Beside the end it answers counts of the whole run: `free` is the number of different keys whose formulas give values in the work at the positions
/// of the run, and which read no variable of an axis; `lost` is 0. `bound` counts the values that read one, once for each time that one was worked
/// out; of it the contract says nothing.
///
/// The first refusal in this order is told, and nothing is written before the run:
///
/// - `TooManyFiles`, `Params` and `Formula` as of `check_rules`: the files make no rule set.
/// - `Yaml` exactly where the text has no tree, with the line and the kind that `fisca_yaml::read` tells.
/// - `RunFile` exactly where the tree is no run file under the rule set, with the line and the kind of its first fault.
/// - `Run` with `BadPosition` where the range begins or is to end above the number of positions.
/// - `Run` with `Eval` exactly where a condition or a column that is worked out has no value before the limit is reached: the first such position,
///   its fault, and the text of the key that the fault names, with single spaces. The sink has the lines before it.
/// - `Write` only where the sink failed in this call: it has a proper beginning of the line of the names.
/// - `Run` with `Write` only where the sink failed in this call: it has the lines before the position that is named, and a proper beginning of the
///   line there.
/// - `Run` with `Memory`, or `Memory`, only where memory was refused: the sink has the lines before the position.
///
/// The values are those of OpenFisca's rules by exact fractions; the file and the lines are this project's own.
pub fn run_rules<S: RowSink>(
    alloc: Global,
    files: &[SourceFile],
    text: &str,
    options: &RunOptions,
    lacks: &mut bool,
    sink: &mut S,
) -> Result<(RunEnd, Counts), Refusal>
    ensures answer { IsRunAnswer files.now text.now options.now (S.taken sink.old) (S.taken sink.new) (end_of result) }
    ensures failures { CountsFailure (is_write result) (S.failures sink.old) (S.failures sink.new) }
    ensures counts { IfOk result (λ ended. IsCounted files.now text.now options.now (S.taken sink.old) (S.taken sink.new) lacks.old lacks.new ended.0 ended.1) }
{
    let rules = rules_of(alloc, files)?;
    let form = options.form;
    let begun = begin_run(alloc, &rules, form, text)?;
    let (begun, names) = begun;
    rule_sets_are_safe();
    write_range(alloc, &rules, begun, names, options, lacks, sink)
}
