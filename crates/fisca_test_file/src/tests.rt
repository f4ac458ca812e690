//! Files of tests.

ghost use Rattle.std.specs.Prelude.{◌≡◌, ℕ, [], Ok, IfOk, IfErr};
ghost use Rattle.fisca_symbols.specs.Known.{tables as known};
ghost use Rattle.fisca_writer.specs.Run.{AppendsPart};
ghost use Rattle.fisca_writer.specs.Sink.{CountsFailure};
ghost use Rattle.fisca_test_file.specs.Handing.{AppendsSome, AreHanded, IsHanded, IsReport, IsReported, IsStopped, is_write};
ghost use Rattle.fisca_test_file.specs.Outcomes.{Fails};
ghost use Rattle.fisca_test_file.specs.Report.{report_text, test_context_of, tests_text};
ghost use Rattle.fisca_test_file.specs.Tests as spec;
ghost use Rattle.fisca_test_file.specs.Steps.Tests as steps;
ghost use Rattle.fisca_test_file.specs.declared.fault.TestFault.{TestFault};
ghost use Rattle.fisca_yaml.specs.Node.{Node};
ghost use Rattle.fisca_yaml.specs.Views.{node, items_view};

use crate::all::Verdict;
use crate::checking::check_tests;
use crate::draft::Draft;
use crate::handing::{hand, hand_counts, hand_test};
use crate::key_fault::KeyFault;
use crate::renewal::TestPlace;
use crate::report_fault::ReportFault;
use crate::simulation_builder::SimulationBuilder;
use fisca_situations::Answers;
use fisca_symbols::Tables;
use fisca_writer::RowSink;
use fisca_yaml::{Item, Tree};
use std::alloc::Global;

/// Reads and works out the tests of the items of a list, one after another, and hands over what is told of each. How many passed and failed.
fn hand_items<
    F: KeyFault + Drop,
    A: Answers<Fault = F> + Drop,
    M: SimulationBuilder<A>,
    S: RowSink,
>(
    alloc: Global,
    tables: &Tables<'_>,
    items: &[Item<'_>],
    builder: &M,
    sink: &mut S,
) -> Result<Verdict, ReportFault>
    requires { (line : ℕ) (n : Node) (t : spec.Test) → steps.test_of tables.now line n ≡ Ok t → M.fits builder.now t.situation }
    ensures told { IfOk result (AreHanded (test_context_of (known tables.now) (M.answer_in builder.now) F.fault_name F.fault_key) (steps.tests_from tables.now [] (items_view items.now)) (S.taken sink.old) (S.taken sink.new)) }
    ensures stopped { IfErr result (IsStopped (steps.tests_from tables.now [] (items_view items.now)) (λ ts. AppendsSome (tests_text (test_context_of (known tables.now) (M.answer_in builder.now) F.fault_name F.fault_key) 1 ts) (S.taken sink.old) (S.taken sink.new))) }
    ensures failures { CountsFailure (is_write result) (S.failures sink.old) (S.failures sink.new) }
{
    // there are as many numbers as items
    let _count = items.len();
    let mut verdict = Verdict {
        passed: 0,
        failed: 0,
    };
    for item in items {
        let place = TestPlace {
            line: item.line,
            tree: &item.value,
        };
        let number = verdict.passed + verdict.failed + 1;
        let passed = hand_test(alloc, tables, place, builder, number, sink)?;
        verdict = verdict.with(passed);
    }
    Ok(verdict)
}

/// The same of the only test of a file.
fn hand_only<F: KeyFault + Drop, A: Answers<Fault = F> + Drop, M: SimulationBuilder<A>, S: RowSink>(
    alloc: Global,
    tables: &Tables<'_>,
    tree: &Tree<'_>,
    builder: &M,
    sink: &mut S,
) -> Result<Verdict, ReportFault>
    requires { (line : ℕ) (n : Node) (t : spec.Test) → steps.test_of tables.now line n ≡ Ok t → M.fits builder.now t.situation }
    ensures told { IfOk result (AreHanded (test_context_of (known tables.now) (M.answer_in builder.now) F.fault_name F.fault_key) (steps.only_test tables.now (node tree.now)) (S.taken sink.old) (S.taken sink.new)) }
    ensures stopped { IfErr result (IsStopped (steps.only_test tables.now (node tree.now)) (λ ts. AppendsSome (tests_text (test_context_of (known tables.now) (M.answer_in builder.now) F.fault_name F.fault_key) 1 ts) (S.taken sink.old) (S.taken sink.new))) }
    ensures failures { CountsFailure (is_write result) (S.failures sink.old) (S.failures sink.new) }
{
    let none = Verdict {
        passed: 0,
        failed: 0,
    };
    let place = TestPlace { line: 1, tree };
    let passed = hand_test(alloc, tables, place, builder, 1, sink)?;
    Ok(none.with(passed))
}

/// The same of all tests of a file.
#[tactic(auto, unfolding(crate::specs::Steps::Tests::tests_of))]
fn hand_tests<
    F: KeyFault + Drop,
    A: Answers<Fault = F> + Drop,
    M: SimulationBuilder<A>,
    S: RowSink,
>(
    alloc: Global,
    tables: &Tables<'_>,
    tree: &Tree<'_>,
    builder: &M,
    sink: &mut S,
) -> Result<Verdict, ReportFault>
    requires { (line : ℕ) (n : Node) (t : spec.Test) → steps.test_of tables.now line n ≡ Ok t → M.fits builder.now t.situation }
    ensures told { IfOk result (AreHanded (test_context_of (known tables.now) (M.answer_in builder.now) F.fault_name F.fault_key) (steps.tests_of tables.now (node tree.now)) (S.taken sink.old) (S.taken sink.new)) }
    ensures stopped { IfErr result (IsStopped (steps.tests_of tables.now (node tree.now)) (λ ts. AppendsSome (tests_text (test_context_of (known tables.now) (M.answer_in builder.now) F.fault_name F.fault_key) 1 ts) (S.taken sink.old) (S.taken sink.new))) }
    ensures failures { CountsFailure (is_write result) (S.failures sink.old) (S.failures sink.new) }
{
    match tree {
        Tree::List(items) => hand_items(alloc, tables, items.as_slice(), builder, sink),
        Tree::Null | Tree::Scalar { .. } | Tree::Map(_) => {
            hand_only(alloc, tables, tree, builder, sink)
        }
    }
}

/// Reads and works out all tests of a file, and hands the report over as it is made.
#[tactic(auto, using(crate::proofs::Stopped::all_handed, crate::proofs::Stopped::stopped_before, crate::proofs::Stopped::stopped_in_counts))]
fn hand_report<
    F: KeyFault + Drop,
    A: Answers<Fault = F> + Drop,
    M: SimulationBuilder<A>,
    S: RowSink,
>(
    alloc: Global,
    tables: &Tables<'_>,
    tree: &Tree<'_>,
    builder: &M,
    sink: &mut S,
) -> Result<Verdict, ReportFault>
    requires { (line : ℕ) (n : Node) (t : spec.Test) → steps.test_of tables.now line n ≡ Ok t → M.fits builder.now t.situation }
    ensures told { IfOk result (IsHanded (test_context_of (known tables.now) (M.answer_in builder.now) F.fault_name F.fault_key) (steps.tests_of tables.now (node tree.now)) (S.taken sink.old) (S.taken sink.new)) }
    ensures stopped { IfErr result (IsStopped (steps.tests_of tables.now (node tree.now)) (λ ts. AppendsPart (report_text (test_context_of (known tables.now) (M.answer_in builder.now) F.fault_name F.fault_key) ts) (S.taken sink.old) (S.taken sink.new))) }
    ensures failures { CountsFailure (is_write result) (S.failures sink.old) (S.failures sink.new) }
{
    let verdict = hand_tests(alloc, tables, tree, builder, sink)?;
    hand_counts(alloc, verdict.passed, verdict.failed, sink)?;
    Ok(verdict)
}

/// Reads all tests of a file for their faults, and then each again, and hands the report over as it is made.
#[tactic(auto, using(crate::proofs::Stopped::long_reported))]
fn report_at_length<
    F: KeyFault + Drop,
    A: Answers<Fault = F> + Drop,
    M: SimulationBuilder<A>,
    S: RowSink,
>(
    alloc: Global,
    tables: &Tables<'_>,
    tree: &Tree<'_>,
    builder: &M,
    sink: &mut S,
) -> Result<Verdict, ReportFault>
    requires { (line : ℕ) (n : Node) (t : spec.Test) → steps.test_of tables.now line n ≡ Ok t → M.fits builder.now t.situation }
    ensures report { IsReported (test_context_of (known tables.now) (M.answer_in builder.now) F.fault_name F.fault_key) (steps.tests_of tables.now (node tree.now)) (S.taken sink.old) (S.taken sink.new) result }
    ensures failures { CountsFailure (is_write result) (S.failures sink.old) (S.failures sink.new) }
{
    check_tests(alloc, tables, tree)?;
    hand_report(alloc, tables, tree, builder, sink)
}

/// The whole report with its verdict, where it is not long.
fn draft_of<F: KeyFault + Drop, A: Answers<Fault = F> + Drop, M: SimulationBuilder<A>>(
    alloc: Global,
    tables: &Tables<'_>,
    tree: &Tree<'_>,
    builder: &M,
) -> Result<(Draft, Verdict), ReportFault>
    requires { (line : ℕ) (n : Node) (t : spec.Test) → steps.test_of tables.now line n ≡ Ok t → M.fits builder.now t.situation }
    ensures told { IfOk result (λ d. IsReport (test_context_of (known tables.now) (M.answer_in builder.now) F.fault_name F.fault_key) (steps.tests_of tables.now (node tree.now)) d.1 d.0.taken.items) }
    ensures fault { IfErr result (λ f. (fault : TestFault) → f ≡ ReportFault.Tests fault → Fails (steps.tests_of tables.now (node tree.now)) fault) }
{
    let mut draft = Draft::new(alloc);
    let verdict = hand_report(alloc, tables, tree, builder, &mut draft)?;
    Ok((draft, verdict))
}

/// Reads and works out the tests that a file says: a test, or a list of tests. A test is a map of `output`, which it has to have, and perhaps `name`, `description`
/// (a scalar each), `keywords` (one or a list of them), `only_variables` and `ignore_variables` (the same: names of the variables whose outputs alone are compared, or are not), `period`, `input`, `absolute_error_margin` and `relative_error_margin` (numbers from 0 up). The
/// values of `input` and `output` without a period are of `period`; without an `input` there is one person of whom nothing is said. Each test is worked out
/// once it is read, and then dropped. A report of at most 1 MiB is handed over once all tests are worked out; for a longer one all tests are read for
/// their faults first, and then each is read and worked out again, and its lines are handed over as they are made. How many tests passed and failed is answered.
///
/// Else the first fault, test by test, and nothing is handed over. `BadTest` of the first key that is unknown or has anything else, and `UseReform` of `reforms` or `extensions`, at its line; of a test without
/// `output`, at its first line; and of what is no map, at the line of its scalar or its item (1 for a whole file). Then that of the situation, as
/// `Situation::read` tells; then `BadOutput`, as `read_outputs` tells. `Memory`, at line 0, comes only where a growth was refused: nothing is handed over
/// then, or a proper beginning of the report; so it is where `Write` tells that the sink failed. (OpenFisca's tests in YAML; the report and the order of
/// faults are this project's own.)
#[tactic(auto, using(crate::proofs::Stopped::draft_reported, crate::proofs::Stopped::draft_broken))]
pub fn report_on<
    F: KeyFault + Drop,
    A: Answers<Fault = F> + Drop,
    M: SimulationBuilder<A>,
    S: RowSink,
>(
    alloc: Global,
    tables: &Tables<'_>,
    tree: &Tree<'_>,
    builder: &M,
    sink: &mut S,
) -> Result<Verdict, ReportFault>
    requires { (line : ℕ) (n : Node) (t : spec.Test) → steps.test_of tables.now line n ≡ Ok t → M.fits builder.now t.situation }
    ensures report { IsReported (test_context_of (known tables.now) (M.answer_in builder.now) F.fault_name F.fault_key) (steps.tests_of tables.now (node tree.now)) (S.taken sink.old) (S.taken sink.new) result }
    ensures failures { CountsFailure (is_write result) (S.failures sink.old) (S.failures sink.new) }
{
    match draft_of(alloc, tables, tree, builder) {
        Ok((draft, verdict)) => {
            hand(draft.bytes(), sink)?;
            Ok(verdict)
        }
        Err(ReportFault::Tests(fault)) => Err(ReportFault::Tests(fault)),
        Err(ReportFault::Write) => report_at_length(alloc, tables, tree, builder, sink),
    }
}
