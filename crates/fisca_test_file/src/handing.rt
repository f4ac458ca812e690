//! A report that is handed over as it is made.

ghost use Rattle.std.specs.Prelude.{◌≡◌, ◌++◌, map, option_map, IfOk, IfErr, OnOk, OnErr, Ok, Err};
ghost use Rattle.std.specs.List.{flat_map, range_with_len};
ghost use Rattle.std.specs.Io.KnownBytes.{Appends};
ghost use Rattle.fisca_expected.specs.Views.{expected_outputs, output_of};
ghost use Rattle.fisca_symbols.specs.Known.{tables as known};
ghost use Rattle.fisca_writer.specs.Run.{AppendsPart};
ghost use Rattle.fisca_writer.specs.Sink.{CountsFailure};
ghost use Rattle.fisca_test_file.specs.Handing.{AppendsSome, AreAnswersOf, IsCut, IsStopped, IsTestHanded, is_write};
ghost use Rattle.fisca_test_file.specs.Report as spec;
ghost use Rattle.fisca_test_file.specs.Tests.{Test as Seen};
ghost use Rattle.fisca_test_file.specs.Steps.Tests.{test_of as test_spec};
ghost use Rattle.fisca_yaml.specs.Views.{node};

use crate::key_fault::KeyFault;
use crate::margins::Margins;
use crate::passing::all_pass;
use crate::renewal::{TestPlace, renew_before};
use crate::report::{write_counts, write_head, write_output};
use crate::report_fault::ReportFault;
use crate::simulation_builder::SimulationBuilder;
use crate::test::{Test, test_of};
use fisca_expected::{ExpectedMembers, ExpectedOutput};
use fisca_model::{Key, Value};
use fisca_situations::Answers;
use fisca_symbols::Tables;
use fisca_writer::{RowSink, hand_over};
use std::alloc::Global;

/// Hands a piece over.
pub(crate) fn hand<S: RowSink>(piece: &[u8], sink: &mut S) -> Result<(), ReportFault>
    ensures all { OnOk result (Appends (S.taken sink.old) (S.taken sink.new) piece.now) }
    ensures part { OnErr result (AppendsPart piece.now (S.taken sink.old) (S.taken sink.new)) }
    ensures cut { IfErr result (λ f. f ≡ ReportFault.Write) }
    ensures failures { CountsFailure (is_write result) (S.failures sink.old) (S.failures sink.new) }
{
    match hand_over(sink, piece) {
        Ok(()) => Ok(()),
        Err(_) => Err(ReportFault::Write),
    }
}

/// Works an output out, with answers that are made anew first where they remember much, and hands its line over where it failed.
#[tactic(auto, using(crate::proofs::Handed::none_yet, crate::proofs::Handed::from_part))]
fn hand_output<
    F: KeyFault + Drop,
    A: Answers<Fault = F> + Drop,
    M: SimulationBuilder<A>,
    S: RowSink,
>(
    alloc: Global,
    tables: &Tables<'_>,
    place: TestPlace<'_, '_>,
    builder: &M,
    margins: &Margins,
    output: &(Key, Value),
    asked: &mut u64,
    answers: &mut A,
    sink: &mut S,
) -> Result<(), ReportFault>
    requires answers { AreAnswersOf (M.answer_in builder.now) (M.fits builder.now) tables.now place.line (node place.tree.now) (A.answer answers.old) (A.members answers.old) }
    requires ready { A.ready answers.old }
    ensures all { OnOk result (Appends (S.taken sink.old) (S.taken sink.new) (spec.output_line (spec.test_context (known tables.now) (A.members answers.old) (A.answer answers.old) F.fault_name F.fault_key) margins.now output.now)) }
    ensures part { OnErr result (AppendsSome (spec.output_line (spec.test_context (known tables.now) (A.members answers.old) (A.answer answers.old) F.fault_name F.fault_key) margins.now output.now) (S.taken sink.old) (S.taken sink.new)) }
    ensures cut { IfErr result IsCut }
    ensures failures { CountsFailure (is_write result) (S.failures sink.old) (S.failures sink.new) }
    ensures ready { A.ready answers.new }
    ensures same_answers { A.answer answers.new ≡ A.answer answers.old }
    ensures same_members { A.members answers.new ≡ A.members answers.old }
{
    renew_before(alloc, tables, place, builder, asked, answers)?;
    let mut text = String::new(alloc);
    write_output(alloc, tables, margins, output, answers, &mut text)?;
    hand(text.as_bytes(), sink)
}

/// The same of what is expected of each of so many members: each line is handed over by itself, so that none waits for another.
fn hand_each<F: KeyFault + Drop, A: Answers<Fault = F> + Drop, M: SimulationBuilder<A>, S: RowSink>(
    alloc: Global,
    tables: &Tables<'_>,
    place: TestPlace<'_, '_>,
    builder: &M,
    margins: &Margins,
    expected: &ExpectedOutput,
    count: u32,
    asked: &mut u64,
    answers: &mut A,
    sink: &mut S,
) -> Result<(), ReportFault>
    requires answers { AreAnswersOf (M.answer_in builder.now) (M.fits builder.now) tables.now place.line (node place.tree.now) (A.answer answers.old) (A.members answers.old) }
    requires ready { A.ready answers.old }
    ensures all { OnOk result (Appends (S.taken sink.old) (S.taken sink.new) (spec.output_lines (spec.test_context (known tables.now) (A.members answers.old) (A.answer answers.old) F.fault_name F.fault_key) margins.now (map (output_of expected.now) (range_with_len 0 count)))) }
    ensures part { OnErr result (AppendsSome (spec.output_lines (spec.test_context (known tables.now) (A.members answers.old) (A.answer answers.old) F.fault_name F.fault_key) margins.now (map (output_of expected.now) (range_with_len 0 count))) (S.taken sink.old) (S.taken sink.new)) }
    ensures cut { IfErr result IsCut }
    ensures failures { CountsFailure (is_write result) (S.failures sink.old) (S.failures sink.new) }
    ensures ready { A.ready answers.new }
    ensures same_answers { A.answer answers.new ≡ A.answer answers.old }
    ensures same_members { A.members answers.new ≡ A.members answers.old }
{
    for member in 0..count {
        let output = expected.of_member(member);
        hand_output(
            alloc, tables, place, builder, margins, &output, asked, answers, sink,
        )?;
    }
    Ok(())
}

/// Works out what is expected of members, and hands over the lines of outputs that failed.
#[tactic(auto, using(crate::proofs::OutputLines::line_alone))]
fn hand_expected<
    F: KeyFault + Drop,
    A: Answers<Fault = F> + Drop,
    M: SimulationBuilder<A>,
    S: RowSink,
>(
    alloc: Global,
    tables: &Tables<'_>,
    place: TestPlace<'_, '_>,
    builder: &M,
    margins: &Margins,
    expected: &ExpectedOutput,
    asked: &mut u64,
    answers: &mut A,
    sink: &mut S,
) -> Result<(), ReportFault>
    requires answers { AreAnswersOf (M.answer_in builder.now) (M.fits builder.now) tables.now place.line (node place.tree.now) (A.answer answers.old) (A.members answers.old) }
    requires ready { A.ready answers.old }
    ensures all { OnOk result (Appends (S.taken sink.old) (S.taken sink.new) (spec.output_lines (spec.test_context (known tables.now) (A.members answers.old) (A.answer answers.old) F.fault_name F.fault_key) margins.now (expected_outputs expected.now))) }
    ensures part { OnErr result (AppendsSome (spec.output_lines (spec.test_context (known tables.now) (A.members answers.old) (A.answer answers.old) F.fault_name F.fault_key) margins.now (expected_outputs expected.now)) (S.taken sink.old) (S.taken sink.new)) }
    ensures cut { IfErr result IsCut }
    ensures failures { CountsFailure (is_write result) (S.failures sink.old) (S.failures sink.new) }
    ensures ready { A.ready answers.new }
    ensures same_answers { A.answer answers.new ≡ A.answer answers.old }
    ensures same_members { A.members answers.new ≡ A.members answers.old }
{
    match expected.whom {
        ExpectedMembers::Each(count) => {
            hand_each(
                alloc, tables, place, builder, margins, expected, count, asked, answers, sink,
            )
        }
        ExpectedMembers::One(member) => {
            let output = expected.of_member(member);
            hand_output(
                alloc, tables, place, builder, margins, &output, asked, answers, sink,
            )
        }
    }
}

/// Works out what is expected, in order, and hands over the lines of outputs that failed.
fn hand_lines<
    F: KeyFault + Drop,
    A: Answers<Fault = F> + Drop,
    M: SimulationBuilder<A>,
    S: RowSink,
>(
    alloc: Global,
    tables: &Tables<'_>,
    place: TestPlace<'_, '_>,
    builder: &M,
    margins: &Margins,
    outputs: &[ExpectedOutput],
    answers: &mut A,
    sink: &mut S,
) -> Result<(), ReportFault>
    requires answers { AreAnswersOf (M.answer_in builder.now) (M.fits builder.now) tables.now place.line (node place.tree.now) (A.answer answers.old) (A.members answers.old) }
    requires ready { A.ready answers.old }
    ensures all { OnOk result (Appends (S.taken sink.old) (S.taken sink.new) (spec.output_lines (spec.test_context (known tables.now) (A.members answers.old) (A.answer answers.old) F.fault_name F.fault_key) margins.now (flat_map expected_outputs outputs.now))) }
    ensures part { OnErr result (AppendsSome (spec.output_lines (spec.test_context (known tables.now) (A.members answers.old) (A.answer answers.old) F.fault_name F.fault_key) margins.now (flat_map expected_outputs outputs.now)) (S.taken sink.old) (S.taken sink.new)) }
    ensures cut { IfErr result IsCut }
    ensures failures { CountsFailure (is_write result) (S.failures sink.old) (S.failures sink.new) }
{
    let mut asked = 0u64;
    for expected in outputs {
        hand_expected(
            alloc, tables, place, builder, margins, expected, &mut asked, answers, sink,
        )?;
    }
    Ok(())
}

/// Hands over the first line of a test.
#[tactic(auto, using(crate::proofs::Handed::none_yet, crate::proofs::Handed::from_part))]
fn hand_head<S: RowSink>(
    alloc: Global,
    passed: bool,
    number: u64,
    name: Option<&str>,
    sink: &mut S,
) -> Result<(), ReportFault>
    ensures all { OnOk result (Appends (S.taken sink.old) (S.taken sink.new) (spec.head_line passed number (option_map (λ t. t.now) name.entry))) }
    ensures part { OnErr result (AppendsSome (spec.head_line passed number (option_map (λ t. t.now) name.entry)) (S.taken sink.old) (S.taken sink.new)) }
    ensures cut { IfErr result IsCut }
    ensures failures { CountsFailure (is_write result) (S.failures sink.old) (S.failures sink.new) }
{
    let mut text = String::new(alloc);
    write_head(passed, number, name, &mut text)?;
    hand(text.as_bytes(), sink)
}

/// Hands over the last line of a report.
#[tactic(auto, using(crate::proofs::Stopped::nothing_of_counts))]
pub(crate) fn hand_counts<S: RowSink>(
    alloc: Global,
    passed: u64,
    failed: u64,
    sink: &mut S,
) -> Result<(), ReportFault>
    ensures all { OnOk result (Appends (S.taken sink.old) (S.taken sink.new) (spec.counts_text passed failed)) }
    ensures part { OnErr result (AppendsPart (spec.counts_text passed failed) (S.taken sink.old) (S.taken sink.new)) }
    ensures cut { IfErr result IsCut }
    ensures failures { CountsFailure (is_write result) (S.failures sink.old) (S.failures sink.new) }
{
    let mut text = String::new(alloc);
    write_counts(passed, failed, &mut text)?;
    hand(text.as_bytes(), sink)
}

/// Hands over what is told of a test with these answers: `ok` and its name where all its outputs pass, else `failed` and its name, and a line for each
/// output that failed, with its key and why. A test without a name is `test` and its number. Whether it passed.
#[tactic(auto, using(crate::proofs::Handed::none_yet, crate::proofs::VerdictTexts::all_passed))]
fn hand_verdict<
    F: KeyFault + Drop,
    A: Answers<Fault = F> + Drop,
    M: SimulationBuilder<A>,
    S: RowSink,
>(
    alloc: Global,
    tables: &Tables<'_>,
    place: TestPlace<'_, '_>,
    builder: &M,
    number: u64,
    name: Option<&str>,
    margins: &Margins,
    outputs: &[ExpectedOutput],
    answers: &mut A,
    sink: &mut S,
) -> Result<bool, ReportFault>
    requires answers { AreAnswersOf (M.answer_in builder.now) (M.fits builder.now) tables.now place.line (node place.tree.now) (A.answer answers.old) (A.members answers.old) }
    requires ready { A.ready answers.old }
    ensures passed { IfOk result (λ b. b ≡ spec.passes (spec.test_context (known tables.now) (A.members answers.old) (A.answer answers.old) F.fault_name F.fault_key) margins.now (flat_map expected_outputs outputs.now)) }
    ensures all { OnOk result (Appends (S.taken sink.old) (S.taken sink.new) (spec.verdict_text (spec.test_context (known tables.now) (A.members answers.old) (A.answer answers.old) F.fault_name F.fault_key) number (option_map (λ t. t.now) name.entry) margins.now (flat_map expected_outputs outputs.now))) }
    ensures part { OnErr result (AppendsSome (spec.verdict_text (spec.test_context (known tables.now) (A.members answers.old) (A.answer answers.old) F.fault_name F.fault_key) number (option_map (λ t. t.now) name.entry) margins.now (flat_map expected_outputs outputs.now)) (S.taken sink.old) (S.taken sink.new)) }
    ensures cut { IfErr result IsCut }
    ensures failures { CountsFailure (is_write result) (S.failures sink.old) (S.failures sink.new) }
{
    let passed = all_pass(alloc, tables, place, builder, margins, outputs, answers)?;
    hand_head(alloc, passed, number, name, sink)?;
    if !passed {
        hand_lines(
            alloc, tables, place, builder, margins, outputs, answers, sink,
        )?;
    }
    Ok(passed)
}

/// Reads a test, works it out, and hands over what is told of it, as the one of this number. Whether it passed.
#[tactic(auto, using(crate::proofs::Handed::none_yet))]
pub(crate) fn hand_test<
    F: KeyFault + Drop,
    A: Answers<Fault = F> + Drop,
    M: SimulationBuilder<A>,
    S: RowSink,
>(
    alloc: Global,
    tables: &Tables<'_>,
    place: TestPlace<'_, '_>,
    builder: &M,
    number: u64,
    sink: &mut S,
) -> Result<bool, ReportFault>
    requires { (t : Seen) → test_spec tables.now place.line (node place.tree.now) ≡ Ok t → M.fits builder.now t.situation }
    ensures told { IfOk result (λ b. IsTestHanded (spec.test_context_of (known tables.now) (M.answer_in builder.now) F.fault_name F.fault_key) (test_spec tables.now place.entry.line (node place.entry.tree.now)) number (S.taken sink.old) (S.taken sink.new) b) }
    ensures stopped { IfErr result (IsStopped (test_spec tables.now place.entry.line (node place.entry.tree.now)) (λ t. AppendsSome (spec.test_text (spec.test_context_of (known tables.now) (M.answer_in builder.now) F.fault_name F.fault_key) number t) (S.taken sink.old) (S.taken sink.new))) }
    ensures failures { CountsFailure (is_write result) (S.failures sink.old) (S.failures sink.new) }
{
    let test = test_of(alloc, tables, place.line, place.tree)?;
    let Test {
        name,
        situation,
        margins,
        outputs,
    } = test;
    let mut answers = builder.answers(alloc, situation)?;
    hand_verdict(
        alloc,
        tables,
        place,
        builder,
        number,
        name,
        &margins,
        outputs.as_slice(),
        &mut answers,
        sink,
    )
}
