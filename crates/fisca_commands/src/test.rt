//! `fisca test`: the verdicts of the tests of a file.

ghost use Rattle.std.specs.Prelude.{option_map};
ghost use Rattle.fisca_commands.specs.ManyTests.{IsTextTested};
ghost use Rattle.fisca_commands.specs.Steps.ManyTests.{AreTestsReady};
ghost use Rattle.fisca_commands.specs.Test.{IsTest, IsTreeTested};
ghost use Rattle.fisca_writer.specs.Sink.{CountsFailure};
ghost use Rattle.fisca_rule_files.specs.Refusal.{is_write};
ghost use Rattle.fisca_yaml.specs.Views.{node};

use fisca_evaluator::{Evaluator, IndexRecall};
use fisca_grid_run::read_tree;
use fisca_params::SourceFile;
use fisca_rule_files::{Refusal, rules_of};
use fisca_rules::RuleSet;
use fisca_run::named;
use fisca_simulation::{inputs_fit, rule_sets_are_safe};
use fisca_situations::Situation;
use fisca_test_file::{
    ReportFault, SimulationBuilder, TestKind, Verdict, report_on, situations_are_read,
};
use fisca_writer::RowSink;
use fisca_yaml::Tree;
use std::alloc::{AllocError, Global};

/// A rule set as what answers keys in the situations of tests: for each an evaluator that remembers.
#[derive(Drop)]
struct EvaluatorBuilder<'r, 't> {
    rules: &'r RuleSet<'t>,
}

impl<'r, 't> SimulationBuilder<Evaluator<'r, 't, IndexRecall>> for EvaluatorBuilder<'r, 't> {
    ghost use Rattle.fisca_commands.specs.Test.{simulation_in};
    ghost use Rattle.fisca_simulation.specs.Told.{IsReady, told_in};

    ghost answer_in = { λ r s. told_in (simulation_in r.rules.now s) };

    ghost fits = { λ r s. IsReady (simulation_in r.rules.now s) };

    fn answers(
        &self,
        alloc: Global,
        situation: Situation,
    ) -> Result<Evaluator<'r, 't, IndexRecall>, AllocError> {
        let recall = IndexRecall::new(alloc);
        Ok(Evaluator::new(alloc, self.rules, &[], &[], situation, recall))
    }

    fn remembered(&self, answers: &Evaluator<'r, 't, IndexRecall>) -> u64 {
        answers.counts().free()
    }
}

/// Hands over the report on the tests that a tree says under a rule set, and answers its verdict.
#[tactic(auto, using(crate::proofs::Tested::ok_tested, crate::proofs::Tested::write_tested, crate::proofs::Tested::memory_tested, crate::proofs::Tested::fault_tested))]
fn report_of<S: RowSink>(
    alloc: Global,
    rules: &RuleSet<'_>,
    tree: &Tree<'_>,
    sink: &mut S,
) -> Result<Verdict, Refusal>
    requires { AreTestsReady rules.now }
    ensures answer { IsTreeTested rules.now (node tree.now) (S.taken sink.old) (S.taken sink.new) result }
    ensures failures { CountsFailure (is_write result) (S.failures sink.old) (S.failures sink.new) }
{
    let builder = EvaluatorBuilder { rules };
    match report_on(alloc, &rules.tables, tree, &builder, sink) {
        Ok(verdict) => Ok(verdict),
        Err(ReportFault::Write) => Err(Refusal::Write),
        Err(ReportFault::Tests(fault)) if fault.kind == TestKind::Memory => Err(Refusal::Memory),
        Err(ReportFault::Tests(fault)) => Err(Refusal::Tests(fault)),
    }
}

/// Works out the tests that a text says under a rule set, those whose names have this text, if there is one, and answers their verdict.
pub(crate) fn test_text<S: RowSink>(
    alloc: Global,
    rules: &RuleSet<'_>,
    text: &str,
    name: Option<&str>,
    sink: &mut S,
) -> Result<Verdict, Refusal>
    requires { AreTestsReady rules.now }
    ensures answer { IsTextTested rules.now text.now (option_map (λ text. text.now) name.entry) (S.taken sink.old) (S.taken sink.new) result }
    ensures failures { CountsFailure (is_write result) (S.failures sink.old) (S.failures sink.new) }
{
    let tree = read_tree(alloc, text)?;
    let tree = named(alloc, tree, name);
    report_of(alloc, rules, &tree, sink)
}

/// Works out the tests of a file under a rule set, in order, and writes for each `ok` or `failed` and its name, below a test that failed a line
/// for each output that did, and last how many passed and failed; these are answered. The text is a test or a list of tests, as of [`report_on`]. With a
/// text of names only the tests are read and worked out whose names have it; what is one test of another name says none then.
///
/// The first refusal in this order is told, and nothing is written before all tests are read:
///
/// - `TooManyFiles`, `Params` and `Formula` as of `check_rules`: the files make no rule set.
/// - `Yaml` exactly where the text has no tree, with the line and the kind that `fisca_yaml::read` tells.
/// - `Tests` exactly where the tree, of which the tests of other names are left out, is no such file under the rule set, with the line and the kind of its
///   first fault.
/// - `Write` only where the sink failed in this call: it has a proper beginning of the report.
/// - `Memory` only where memory was refused: nothing is written, or a proper beginning of the report.
///
/// The values are those of OpenFisca's rules by exact fractions, the tests those of its YAML tests; the report is this project's own.
pub fn test_rules<S: RowSink>(
    alloc: Global,
    files: &[SourceFile],
    text: &str,
    name: Option<&str>,
    sink: &mut S,
) -> Result<Verdict, Refusal>
    ensures answer { IsTest files.now text.now (option_map (λ text. text.now) name.entry) (S.taken sink.old) (S.taken sink.new) result }
    ensures failures { CountsFailure (is_write result) (S.failures sink.old) (S.failures sink.new) }
{
    let rules = rules_of(alloc, files)?;
    rule_sets_are_safe();
    inputs_fit();
    situations_are_read();
    test_text(alloc, &rules, text, name, sink)
}
