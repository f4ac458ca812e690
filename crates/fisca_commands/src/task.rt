//! The running of what a command line asks for.

ghost use Rattle.std.specs.Prelude.{◌≡◌, [], ◌==◌, ◌&&◌, is_ok, map, option_map, string_bytes};
ghost use Rattle.fisca_writer.specs.Sink.{CountsFailure};
ghost use Rattle.fisca_commands.specs.Ending.{IsAnswered, IsAxesEnding, IsCalcEnding, IsCheckEnding, IsExplainEnding, IsGridEnding, IsJudged, IsListEnding, IsRunEnding, IsSizeEnding, IsTaskEnding, IsTestEnding};
ghost use Rattle.fisca_grid_run.specs.Ends.{end_of};
ghost use Rattle.fisca_grid_run.specs.Forms.{is_table};
ghost use Rattle.fisca_rule_files.specs.Refusal.{paths_of};

use super::axes::axes_words;
use super::calc::calc_rules;
use super::explain::{ExplainOptions, explain_rules};
use super::list::list_rules;
use super::size::size_rules;
use super::test::test_rules;
use fisca_command_line::{RunOptions, TableForm, Task};
use fisca_evaluator::Counts;
use fisca_folder::ToldPath;
use fisca_grid_run::{is_table, run_rules};
use fisca_params::SourceFile;
use fisca_rule_files::{Ending, Refusal, check_rules};
use fisca_test_file::Verdict;
use fisca_writer::{RowSink, RunEnd, write_end};
use std::alloc::Global;

/// Runs a task, and answers how it ended: the exit status, and the line for standard error where the task was refused or
/// failed. `files` are those of the task's folders, in any order, and none where it names no folder, and `told_paths` says how their paths are told; `text` is
/// that of the file that the task names, and no one's where it names none. What the task prints goes to the sink.
///
/// - `check`: what [`check_rules`] writes of the files.
/// - `calc`: what [`calc_rules`] writes of the files and the text. A refusal of the text is told with the path of its file.
/// - `run`: the lines of [`run_rules`], and after a run that nothing stopped its last line, as by [`write_end`]; where the lines are a table, by
///   their first line or their form, the last line is told on standard error. The status is 4 where the run
///   was to keep going and a word stands in the place of a value. A refusal of the text is told with
///   the path of its file.
/// - `size`: what [`size_rules`] writes of the files and the text. A refusal of the text is told with the path of its file.
/// - `list`: what [`list_rules`] writes of the files.
/// - `explain`: what [`explain_rules`] writes of the files and the text. A refusal of the text is told with the path of its file.
/// - `axes`: the lines of [`axes_words`], and after a run that nothing stopped its last line, as by [`write_end`].
///
/// A refusal ends with its own status and line, and one whose line finds no memory with those for want of memory, but a
/// failed write is told without memory: the status is 5 exactly where the sink failed. This project's own rule.
pub fn run_task<S: RowSink>(
    alloc: Global,
    task: &Task<'_>,
    files: &[SourceFile],
    told_paths: &[ToldPath],
    text: &str,
    sink: &mut S,
) -> Ending
    ensures ending { IsTaskEnding task.now files.now told_paths.now text.now (S.taken sink.old) (S.taken sink.new) result }
    ensures failures { CountsFailure (result.status == 5) (S.failures sink.old) (S.failures sink.new) }
{
    match task {
        Task::Check { rules: _ } => run_check(alloc, files, told_paths, sink),
        Task::Calc {
            rules: _,
            file,
            form,
        } => run_calc(alloc, files, told_paths, file, text, *form, sink),
        Task::Run {
            rules: _,
            file,
            options,
        } => run_file(alloc, files, told_paths, file, text, options, sink),
        Task::Size { rules: _, file } => run_size(alloc, files, told_paths, file, text, sink),
        Task::List { rules: _, form } => run_list(alloc, files, told_paths, *form, sink),
        Task::Explain {
            rules: _,
            file,
            columns,
            depth,
            format,
        } => {
            let options = ExplainOptions {
                columns: columns.as_slice(),
                depth: *depth,
                format: *format,
            };
            run_explain(alloc, files, told_paths, file, text, &options, sink)
        }
        Task::Axes {
            words,
            keep,
            options,
        } => run_axes(alloc, words.as_slice(), *keep, options, sink),
    }
}

/// Checks files, and answers how that ended.
fn run_check<S: RowSink>(
    alloc: Global,
    files: &[SourceFile],
    told_paths: &[ToldPath],
    sink: &mut S,
) -> Ending
    ensures ending { IsCheckEnding files.now (paths_of [] told_paths.now) (S.taken sink.old) (S.taken sink.new) result }
    ensures failures { CountsFailure (result.status == 5) (S.failures sink.old) (S.failures sink.new) }
{
    let answer = check_rules(alloc, files, sink);
    ending_of(alloc, answer, "", told_paths)
}

/// Works out the columns of a file of this text, and answers how that ended.
fn run_calc<S: RowSink>(
    alloc: Global,
    files: &[SourceFile],
    told_paths: &[ToldPath],
    path: &str,
    text: &str,
    form: TableForm,
    sink: &mut S,
) -> Ending
    ensures ending { IsCalcEnding files.now (paths_of path.now told_paths.now) text.now form (S.taken sink.old) (S.taken sink.new) result }
    ensures failures { CountsFailure (result.status == 5) (S.failures sink.old) (S.failures sink.new) }
{
    let answer = calc_rules(alloc, files, text, form, sink);
    ending_of(alloc, answer, path, told_paths)
}

/// Works out the tests of a file of this path and this text, those whose names have the text `name`, if there is one, and answers how that ended: what
/// [`test_rules`] writes of the files and the text, with the status 1 where a test failed. A refusal of the text is told with the path of its file. This
/// project's own rule.
pub fn run_test<S: RowSink>(
    alloc: Global,
    files: &[SourceFile],
    told_paths: &[ToldPath],
    path: &str,
    text: &str,
    name: Option<&str>,
    sink: &mut S,
) -> Ending
    ensures ending { IsTestEnding files.now (paths_of path.now told_paths.now) text.now (option_map (λ text. text.now) name.entry) (S.taken sink.old) (S.taken sink.new) result }
    ensures failures { CountsFailure (result.status == 5) (S.failures sink.old) (S.failures sink.new) }
{
    let answer = test_rules(alloc, files, text, name, sink);
    judged_of(alloc, answer, path, told_paths)
}

/// How tests end.
pub(crate) fn judged_of(
    alloc: Global,
    answer: Result<Verdict, Refusal>,
    path: &str,
    told_paths: &[ToldPath],
) -> Ending
    ensures { IsJudged (paths_of path.now told_paths.now) answer result }
{
    match answer {
        Ok(verdict) => Ending::judged(verdict),
        Err(refusal) => Ending::refused(alloc, &refusal, path, told_paths),
    }
}

/// How a command ends that writes no last line.
fn ending_of(
    alloc: Global,
    answer: Result<(), Refusal>,
    path: &str,
    told_paths: &[ToldPath],
) -> Ending
    ensures { IsAnswered (paths_of path.now told_paths.now) answer result }
{
    match answer {
        Ok(()) => Ending::done(),
        Err(refusal) => Ending::refused(alloc, &refusal, path, told_paths),
    }
}

/// Writes the lines of a run file of this text, and answers how that ended.
fn run_file<S: RowSink>(
    alloc: Global,
    files: &[SourceFile],
    told_paths: &[ToldPath],
    path: &str,
    text: &str,
    options: &RunOptions,
    sink: &mut S,
) -> Ending
    ensures ending { IsGridEnding files.now (paths_of path.now told_paths.now) text.now options.now (S.taken sink.old) (S.taken sink.new) result }
    ensures failures { CountsFailure (result.status == 5) (S.failures sink.old) (S.failures sink.new) }
{
    let mut lacks = false;
    let answer = run_rules(alloc, files, text, options, &mut lacks, sink);
    let (end, form) = (without_counts(answer), options.form);
    end_run(alloc, end, lacks, path, told_paths, form, sink)
}

/// Tells the number of positions of a run file of this text, and answers how that ended.
fn run_size<S: RowSink>(
    alloc: Global,
    files: &[SourceFile],
    told_paths: &[ToldPath],
    path: &str,
    text: &str,
    sink: &mut S,
) -> Ending
    ensures ending { IsSizeEnding files.now (paths_of path.now told_paths.now) text.now (S.taken sink.old) (S.taken sink.new) result }
    ensures failures { CountsFailure (result.status == 5) (S.failures sink.old) (S.failures sink.new) }
{
    let answer = size_rules(alloc, files, text, sink);
    ending_of(alloc, answer, path, told_paths)
}

/// Lists the variables of files, and answers how that ended.
fn run_list<S: RowSink>(
    alloc: Global,
    files: &[SourceFile],
    told_paths: &[ToldPath],
    form: TableForm,
    sink: &mut S,
) -> Ending
    ensures ending { IsListEnding files.now (paths_of [] told_paths.now) form (S.taken sink.old) (S.taken sink.new) result }
    ensures failures { CountsFailure (result.status == 5) (S.failures sink.old) (S.failures sink.new) }
{
    let answer = list_rules(alloc, files, form, sink);
    ending_of(alloc, answer, "", told_paths)
}

/// Explains columns of a file of this path and this text, and answers how that ended.
fn run_explain<S: RowSink>(
    alloc: Global,
    files: &[SourceFile],
    told_paths: &[ToldPath],
    path: &str,
    text: &str,
    options: &ExplainOptions<'_>,
    sink: &mut S,
) -> Ending
    ensures ending { IsExplainEnding files.now (paths_of path.now told_paths.now) text.now (map (λ word. string_bytes word) options.now.columns.now) options.now.depth options.now.format (S.taken sink.old) (S.taken sink.new) result }
    ensures failures { CountsFailure (result.status == 5) (S.failures sink.old) (S.failures sink.new) }
{
    let answer = explain_rules(alloc, files, text, options, sink);
    ending_of(alloc, answer, path, told_paths)
}

/// How a run ends, without its counts.
fn without_counts(answer: Result<(RunEnd, Counts), Refusal>) -> Result<RunEnd, Refusal>
    ensures { result ≡ end_of answer }
{
    match answer {
        Ok((end, _)) => Ok(end),
        Err(refusal) => Err(refusal),
    }
}

/// Lists the values of axes, and answers how that ended.
fn run_axes<S: RowSink>(
    alloc: Global,
    words: &[String],
    keep: Option<&str>,
    options: &RunOptions,
    sink: &mut S,
) -> Ending
    ensures ending { IsAxesEnding (map (λ word. string_bytes word) words.now) (option_map (λ text. text.now) keep.entry) options.now (S.taken sink.old) (S.taken sink.new) result }
    ensures failures { CountsFailure (result.status == 5) (S.failures sink.old) (S.failures sink.new) }
{
    let answer = axes_words(alloc, words, keep, options, sink);
    let form = options.form;
    end_run(alloc, answer, false, "", &[], form, sink)
}

/// Writes the last line of a run that nothing stopped, or tells it behind a table, and answers how the run ended; the status says whether a word
/// stands in the place of a value.
fn end_run<S: RowSink>(
    alloc: Global,
    answer: Result<RunEnd, Refusal>,
    lacks: bool,
    path: &str,
    told_paths: &[ToldPath],
    form: TableForm,
    sink: &mut S,
) -> Ending
    ensures ending { IsRunEnding (paths_of path.now told_paths.now) lacks (is_table form) answer (S.taken sink.old) (S.taken sink.new) result }
    ensures failures { CountsFailure (is_ok answer && (result.status == 5)) (S.failures sink.old) (S.failures sink.new) }
{
    match answer {
        Ok(end) if is_table(form) => Ending::ended(alloc, end, lacks),
        Ok(end) => match write_end(end, sink) {
            Ok(()) => Ending::run(lacks),
            Err(_) => Ending::refused(alloc, &Refusal::Write, path, told_paths),
        },
        Err(refusal) => Ending::refused(alloc, &refusal, path, told_paths),
    }
}
