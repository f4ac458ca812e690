//! `fisca test` over several files: the report on each below its path, and one count of all.

ghost use Rattle.std.specs.Prelude.{◌==◌, option_map};
ghost use Rattle.fisca_commands.specs.ManyTests.{AreFilesTested, IsFileTested, IsTestsEnding, IsTotalTold, is_failed};
ghost use Rattle.fisca_commands.specs.Steps.ManyTests.{AreTestsReady};
ghost use Rattle.fisca_rule_files.specs.Refusal.{is_write};
ghost use Rattle.fisca_run.specs.Counted.{no_tests};
ghost use Rattle.fisca_writer.specs.Sink.{CountsFailure};

use super::task::judged_of;
use super::test::test_text;
use fisca_folder::ToldPath;
use fisca_params::SourceFile;
use fisca_rule_files::{Ending, Refusal, rules_of};
use fisca_rules::RuleSet;
use fisca_run::{added, counts_line, path_line};
use fisca_simulation::{inputs_fit, rule_sets_are_safe};
use fisca_test_file::{Verdict, situations_are_read};
use fisca_writer::{RowSink, hand_over};
use std::alloc::Global;

/// Writes a line with the path of a file, and below it the report on its tests.
fn test_file<S: RowSink>(
    alloc: Global,
    rules: &RuleSet<'_>,
    file: &SourceFile,
    name: Option<&str>,
    sink: &mut S,
) -> Result<Verdict, Refusal>
    requires { AreTestsReady rules.now }
    ensures answer { IsFileTested rules.now (option_map (λ text. text.now) name.entry) file.now (S.taken sink.old) (S.taken sink.new) result }
    ensures failures { CountsFailure (is_write result) (S.failures sink.old) (S.failures sink.new) }
{
    let line = path_line(alloc, file.path())?;
    match hand_over(sink, line.as_bytes()) {
        Ok(()) => test_text(alloc, rules, file.text(), name, sink),
        Err(_) => Err(Refusal::Write),
    }
}

/// Writes the reports on the tests of files, one after another, up to the first that is refused, and answers the counts of all, or how that ends.
fn test_files<S: RowSink>(
    alloc: Global,
    rules: &RuleSet<'_>,
    told_paths: &[ToldPath],
    tests: &[SourceFile],
    name: Option<&str>,
    sink: &mut S,
) -> Result<Verdict, Ending>
    requires { AreTestsReady rules.now }
    ensures answer { AreFilesTested rules.now told_paths.now (option_map (λ text. text.now) name.entry) tests.now no_tests (S.taken sink.old) (S.taken sink.new) result }
    ensures failures { CountsFailure (is_failed result) (S.failures sink.old) (S.failures sink.new) }
{
    let mut total = Verdict {
        passed: 0,
        failed: 0,
    };
    for file in tests {
        match test_file(alloc, rules, file, name, sink) {
            Ok(verdict) => total = added(total, verdict),
            Err(refusal) => {
                return Err(Ending::refused(alloc, &refusal, file.path(), told_paths));
            }
        }
    }
    Ok(total)
}

/// Writes the last line of the reports on several files.
fn write_total<S: RowSink>(alloc: Global, total: Verdict, sink: &mut S) -> Result<Verdict, Refusal>
    ensures answer { IsTotalTold total (S.taken sink.old) (S.taken sink.new) result }
    ensures failures { CountsFailure (is_write result) (S.failures sink.old) (S.failures sink.new) }
{
    let line = counts_line(alloc, total)?;
    match hand_over(sink, line.as_bytes()) {
        Ok(()) => Ok(total),
        Err(_) => Err(Refusal::Write),
    }
}

/// Works out the tests of files under a rule set, one file after another, and answers how that ended, as [`run_test`](crate::run_test) does of one. Above the report on
/// each file, which is as that of [`test_rules`](crate::test_rules), stands a line with its path; behind the last one a line with the counts of all, as below
/// each. The rule files are read once.
///
/// The first file that is refused is told with its path, and ends it: below that path nothing is written, and no file behind it is looked at. A refusal of the
/// rule files, a failed writing and want of memory end it, too. This project's own rule.
pub fn run_tests<S: RowSink>(
    alloc: Global,
    files: &[SourceFile],
    told_paths: &[ToldPath],
    tests: &[SourceFile],
    name: Option<&str>,
    sink: &mut S,
) -> Ending
    ensures ending { IsTestsEnding files.now told_paths.now tests.now (option_map (λ text. text.now) name.entry) (S.taken sink.old) (S.taken sink.new) result }
    ensures failures { CountsFailure (result.status == 5) (S.failures sink.old) (S.failures sink.new) }
{
    let rules = match rules_of(alloc, files) {
        Ok(rules) => rules,
        Err(refusal) => return Ending::refused(alloc, &refusal, "", told_paths),
    };
    rule_sets_are_safe();
    inputs_fit();
    situations_are_read();
    match test_files(alloc, &rules, told_paths, tests, name, sink) {
        Ok(total) => {
            let answer = write_total(alloc, total, sink);
            judged_of(alloc, answer, "", &[])
        }
        Err(ending) => ending,
    }
}
