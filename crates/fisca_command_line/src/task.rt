//! What a command line asks for, read by `clap`.

ghost use Rattle.std.specs.Prelude.{◌≡◌, IfOk, map, string_bytes};
ghost use Rattle.clap.specs.Matches.{found_of};
ghost use Rattle.clap.specs.Walk.{rows_of};
ghost use Rattle.clap.specs.Simple.{subcommand_of};
ghost use Rattle.clap.specs.Kinds.{FailsBy};
ghost use Rattle.fisca_command_line.specs.CommandLine.{fisca_app};
ghost use Rattle.fisca_command_line.specs.Misuse.{explain_misuse, misuse_kinds, options_misuse, usage_fault};
ghost use Rattle.fisca_command_line.specs.Work.{AreFolders, IsAxesTask, IsCalcTask, IsCalcWork, IsCheckTask, IsExplainTask, IsLinesTask, IsListTask, IsRunTask, IsSizeTask, IsTask, IsTestsTask, IsWorkOf};

use crate::asked::{
    depth_in, explain_format_in, explain_misuse_in, flag, form_in, misuse_in, options, text_at,
    text_in,
};
use crate::options::{RunOptions, TableForm};
use crate::subcommands::{
    axes_command, calc_command, command, explain_command, list_command, run_command,
};
use clap::{ArgMatches, Error};
use fisca_forms::Format;
use std::alloc::{AllocError, Global};

/// What a command line asks for.
#[derive(Debug, Drop)]
pub enum Task<'a> {
    /// `check`: check the rule files of folders.
    Check {
        rules: RuleFolders<'a>,
    },
    /// `calc`: work out the columns of a file under the rule files of folders.
    Calc {
        rules: RuleFolders<'a>,
        file: &'a str,
        form: TableForm,
    },
    /// `run`: write the lines of a run file under the rule files of folders.
    Run {
        rules: RuleFolders<'a>,
        file: &'a str,
        options: RunOptions,
    },
    /// `size`: write the number of positions of a run file under the rule files of folders.
    Size {
        rules: RuleFolders<'a>,
        file: &'a str,
    },
    /// `list`: list the variables of the rule files of folders.
    List {
        rules: RuleFolders<'a>,
        form: TableForm,
    },
    /// `explain`: tell how the values of columns of a file come about under the rule files of folders.
    Explain {
        rules: RuleFolders<'a>,
        file: &'a str,
        columns: Vec<String>,
        depth: Option<u64>,
        format: Option<Format>,
    },
    /// `axes`: list the values of axes.
    Axes {
        words: Vec<String>,
        keep: Option<&'a str>,
        options: RunOptions,
    },
}

/// What the words ask for.
#[derive(Debug, Drop)]
pub enum Work<'a> {
    /// A task over the files of a folder and the text of a file.
    Task(Task<'a>),
    /// A task over each line of a file.
    Lines(LinesTask<'a>),
    /// `test`.
    Tests(TestsTask<'a>),
}

/// The folders of a rule set: its own, and those of the reforms that are laid over it, in order.
#[derive(Debug, Drop)]
pub struct RuleFolders<'a> {
    /// The rule set's own folder.
    pub rules: &'a str,
    /// The folders of the reforms.
    pub reforms: Vec<String>,
}

/// `test`: work out the tests of files and folders under the rule files of folders.
#[derive(Debug, Drop)]
pub struct TestsTask<'a> {
    /// The folders of the rule files.
    pub rules: RuleFolders<'a>,
    /// The files and folders of the tests.
    pub paths: Vec<String>,
    /// What the names of the tests that are run have, if not all are.
    pub name: Option<&'a str>,
}

/// `calc --lines`: work out the columns of many files, one in each line of a file, under the rule files of a folder.
#[derive(Debug, Drop)]
pub struct LinesTask<'a> {
    /// The folders of the rule files.
    pub rules: RuleFolders<'a>,
    /// The file of the lines.
    pub file: &'a str,
    /// The form of the lines that are written.
    pub form: TableForm,
}

/// Copies of texts.
fn copies(alloc: Global, texts: &[&str]) -> Result<Vec<String>, AllocError>
    ensures { IfOk result (λ copies. map (λ copy. string_bytes copy) copies.items ≡ map (λ text. text.now) texts.now) }
{
    let mut copies = Vec::new(alloc);
    for text in texts {
        copies.push(String::from_str(alloc, text)?)?;
    }
    Ok(copies)
}

/// The folders of the rule files.
fn folders<'a>(alloc: Global, matches: &ArgMatches<'a>) -> Result<RuleFolders<'a>, AllocError>
    ensures { IfOk result (λ folders. AreFolders (rows_of (found_of matches.now)) folders) }
{
    Ok(RuleFolders {
        rules: text_at(matches, "RULES"),
        reforms: copies(alloc, matches.get_strs("reform").unwrap_or(&[]))?,
    })
}

/// The task of `axes`.
fn axes_task<'a>(alloc: Global, matches: &ArgMatches<'a>) -> Result<Task<'a>, AllocError>
    ensures { IfOk result (λ task. IsAxesTask (rows_of (found_of matches.now)) task) }
{
    Ok(Task::Axes {
        words: copies(alloc, matches.get_strs("AXIS").unwrap_or(&[]))?,
        keep: text_in(matches, "keep"),
        options: options(matches),
    })
}

/// The task of `check`.
fn check_task<'a>(alloc: Global, matches: &ArgMatches<'a>) -> Result<Task<'a>, AllocError>
    ensures { IfOk result (λ task. IsCheckTask (rows_of (found_of matches.now)) task) }
{
    let rules = folders(alloc, matches)?;
    Ok(Task::Check { rules })
}

/// The task of `calc`.
fn calc_task<'a>(alloc: Global, matches: &ArgMatches<'a>) -> Result<Task<'a>, AllocError>
    ensures { IfOk result (λ task. IsCalcTask (rows_of (found_of matches.now)) task) }
{
    Ok(Task::Calc {
        rules: folders(alloc, matches)?,
        file: text_at(matches, "FILE"),
        form: form_in(matches),
    })
}

/// The task over tests of `test`.
fn tests_task<'a>(alloc: Global, matches: &ArgMatches<'a>) -> Result<TestsTask<'a>, AllocError>
    ensures { IfOk result (λ task. IsTestsTask (rows_of (found_of matches.now)) task) }
{
    Ok(TestsTask {
        rules: folders(alloc, matches)?,
        paths: copies(alloc, matches.get_strs("TESTS").unwrap_or(&[]))?,
        name: text_in(matches, "name"),
    })
}

/// The task of `run`.
fn run_task<'a>(alloc: Global, matches: &ArgMatches<'a>) -> Result<Task<'a>, AllocError>
    ensures { IfOk result (λ task. IsRunTask (rows_of (found_of matches.now)) task) }
{
    let rules = folders(alloc, matches)?;
    let file = text_at(matches, "FILE");
    Ok(Task::Run {
        rules,
        file,
        options: options(matches),
    })
}

/// The task of `size`.
fn size_task<'a>(alloc: Global, matches: &ArgMatches<'a>) -> Result<Task<'a>, AllocError>
    ensures { IfOk result (λ task. IsSizeTask (rows_of (found_of matches.now)) task) }
{
    let (rules, file) = (folders(alloc, matches)?, text_at(matches, "FILE"));
    Ok(Task::Size { rules, file })
}

/// The task of `list`.
fn list_task<'a>(alloc: Global, matches: &ArgMatches<'a>) -> Result<Task<'a>, AllocError>
    ensures { IfOk result (λ task. IsListTask (rows_of (found_of matches.now)) task) }
{
    Ok(Task::List {
        rules: folders(alloc, matches)?,
        form: form_in(matches),
    })
}

/// The task of `explain`.
fn explain_task<'a>(alloc: Global, matches: &ArgMatches<'a>) -> Result<Task<'a>, AllocError>
    ensures { IfOk result (λ task. IsExplainTask (rows_of (found_of matches.now)) task) }
{
    let (rules, file) = (folders(alloc, matches)?, text_at(matches, "FILE"));
    Ok(Task::Explain {
        rules,
        file,
        columns: copies(alloc, matches.get_strs("COLUMN").unwrap_or(&[]))?,
        depth: depth_in(matches),
        format: explain_format_in(matches),
    })
}

/// The task over lines of `calc`.
fn lines_task<'a>(alloc: Global, matches: &ArgMatches<'a>) -> Result<LinesTask<'a>, AllocError>
    ensures { IfOk result (λ task. IsLinesTask (rows_of (found_of matches.now)) task) }
{
    let (rules, file) = (folders(alloc, matches)?, text_at(matches, "FILE"));
    Ok(LinesTask {
        rules,
        file,
        form: form_in(matches),
    })
}

/// The work of `calc`, or why its options mean nothing.
fn used_calc<'a>(alloc: Global, matches: &ArgMatches<'a>) -> Result<Work<'a>, Error>
    ensures work { IfOk result (λ work. IsCalcWork (rows_of (found_of matches.now)) work) }
    ensures fault { FailsBy (misuse_kinds (options_misuse (rows_of (found_of matches.now)))) result }
{
    match misuse_in(matches) {
        Some(misuse) => Err(misuse.error(calc_command(alloc)?, "fisca calc")),
        None => Ok(calc_work(alloc, matches)?),
    }
}

/// The work of `calc`: over lines where `--lines` is set.
fn calc_work<'a>(alloc: Global, matches: &ArgMatches<'a>) -> Result<Work<'a>, AllocError>
    ensures { IfOk result (λ work. IsCalcWork (rows_of (found_of matches.now)) work) }
{
    if flag(matches, "lines") {
        Ok(Work::Lines(lines_task(alloc, matches)?))
    } else {
        Ok(Work::Task(calc_task(alloc, matches)?))
    }
}

/// The task of `run`, or why its options mean nothing.
fn used_run<'a>(alloc: Global, matches: &ArgMatches<'a>) -> Result<Work<'a>, Error>
    ensures work { IfOk result (IsTask (IsRunTask (rows_of (found_of matches.now)))) }
    ensures fault { FailsBy (misuse_kinds (options_misuse (rows_of (found_of matches.now)))) result }
{
    match misuse_in(matches) {
        Some(misuse) => Err(misuse.error(run_command(alloc)?, "fisca run")),
        None => Ok(Work::Task(run_task(alloc, matches)?)),
    }
}

/// The task of `list`, or why its options mean nothing.
fn used_list<'a>(alloc: Global, matches: &ArgMatches<'a>) -> Result<Work<'a>, Error>
    ensures work { IfOk result (IsTask (IsListTask (rows_of (found_of matches.now)))) }
    ensures fault { FailsBy (misuse_kinds (options_misuse (rows_of (found_of matches.now)))) result }
{
    match misuse_in(matches) {
        Some(misuse) => Err(misuse.error(list_command(alloc)?, "fisca list")),
        None => Ok(Work::Task(list_task(alloc, matches)?)),
    }
}

/// The task of `explain`, or why its options mean nothing.
fn used_explain<'a>(alloc: Global, matches: &ArgMatches<'a>) -> Result<Work<'a>, Error>
    ensures work { IfOk result (IsTask (IsExplainTask (rows_of (found_of matches.now)))) }
    ensures fault { FailsBy (misuse_kinds (explain_misuse (rows_of (found_of matches.now)))) result }
{
    match explain_misuse_in(matches) {
        Some(misuse) => Err(misuse.error(explain_command(alloc)?, "fisca explain")),
        None => Ok(Work::Task(explain_task(alloc, matches)?)),
    }
}

/// The task of `axes`, or why its options mean nothing.
fn used_axes<'a>(alloc: Global, matches: &ArgMatches<'a>) -> Result<Work<'a>, Error>
    ensures work { IfOk result (IsTask (IsAxesTask (rows_of (found_of matches.now)))) }
    ensures fault { FailsBy (misuse_kinds (options_misuse (rows_of (found_of matches.now)))) result }
{
    match misuse_in(matches) {
        Some(misuse) => Err(misuse.error(axes_command(alloc)?, "fisca axes")),
        None => Ok(Work::Task(axes_task(alloc, matches)?)),
    }
}

/// The work that the words ask for, of which the first is the program's own name: what `clap` finds in them by its own
/// definition of matches, for the options above. An error has the kind of that definition's fault, or of the first misuse of
/// options that it finds nothing wrong with, or memory was refused;
/// a request for help or for the version is one whose exit code is 0. Which options give which part of the work, and which mean nothing together,
/// is this project's own rule.
pub fn read_task<'a>(alloc: Global, words: &'a [String]) -> Result<Work<'a>, Error>
    ensures work { IfOk result (λ work. IsWorkOf (subcommand_of fisca_app (map (λ word. string_bytes word) words.entry.now)) work) }
    ensures fault { FailsBy (usage_fault (map (λ word. string_bytes word) words.entry.now)) result }
{
    let matches = command(alloc)?.try_get_matches_from(words)?;
    match matches.subcommand() {
        Some(("check", inner)) => Ok(Work::Task(check_task(alloc, inner)?)),
        Some(("calc", inner)) => used_calc(alloc, inner),
        Some(("test", inner)) => Ok(Work::Tests(tests_task(alloc, inner)?)),
        Some(("run", inner)) => used_run(alloc, inner),
        Some(("size", inner)) => Ok(Work::Task(size_task(alloc, inner)?)),
        Some(("list", inner)) => used_list(alloc, inner),
        Some(("explain", inner)) => used_explain(alloc, inner),
        Some(("axes", inner)) => used_axes(alloc, inner),
        Some(_) => unreachable!(),
        None => unreachable!(),
    }
}
