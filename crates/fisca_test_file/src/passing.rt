//! Whether what a test expects comes out.

ghost use Rattle.std.specs.Prelude.{◌≡◌, map, IfOk};
ghost use Rattle.std.specs.List.{flat_map, range_with_len};
ghost use Rattle.fisca_expected.specs.Views.{expected_outputs, output_of};
ghost use Rattle.fisca_symbols.specs.Known.{tables as known};
ghost use Rattle.fisca_test_file.specs.Handing.{AreAnswersOf};
ghost use Rattle.fisca_test_file.specs.Report as spec;
ghost use Rattle.fisca_yaml.specs.Views.{node};

use crate::key_fault::KeyFault;
use crate::margins::Margins;
use crate::renewal::{TestPlace, renew_before};
use crate::report::outcome_at;
use crate::simulation_builder::SimulationBuilder;
use fisca_expected::{ExpectedMembers, ExpectedOutput};
use fisca_model::{Key, Value};
use fisca_situations::Answers;
use fisca_symbols::Tables;
use std::alloc::{AllocError, Global};

/// Works an output out, with answers that are made anew first where they remember much. Whether it passed.
fn output_passes<F: KeyFault + Drop, A: Answers<Fault = F> + Drop, M: SimulationBuilder<A>>(
    alloc: Global,
    tables: &Tables<'_>,
    place: TestPlace<'_, '_>,
    builder: &M,
    margins: &Margins,
    output: &(Key, Value),
    asked: &mut u64,
    answers: &mut A,
) -> Result<bool, AllocError>
    requires answers { AreAnswersOf (M.answer_in builder.now) (M.fits builder.now) tables.now place.line (node place.tree.now) (A.answer answers.old) (A.members answers.old) }
    requires ready { A.ready answers.old }
    ensures passed { IfOk result (λ b. b ≡ spec.output_passes (spec.test_context (known tables.now) (A.members answers.old) (A.answer answers.old) F.fault_name F.fault_key) margins.now output.now) }
    ensures ready { A.ready answers.new }
    ensures same_answers { A.answer answers.new ≡ A.answer answers.old }
    ensures same_members { A.members answers.new ≡ A.members answers.old }
{
    renew_before(alloc, tables, place, builder, asked, answers)?;
    let outcome = outcome_at(*margins, output, answers)?;
    Ok(outcome.is_passed())
}

/// Works out what is expected of each of so many members, up to the first that does not pass. Whether all pass.
fn each_passes<F: KeyFault + Drop, A: Answers<Fault = F> + Drop, M: SimulationBuilder<A>>(
    alloc: Global,
    tables: &Tables<'_>,
    place: TestPlace<'_, '_>,
    builder: &M,
    margins: &Margins,
    expected: &ExpectedOutput,
    count: u32,
    asked: &mut u64,
    answers: &mut A,
) -> Result<bool, AllocError>
    requires answers { AreAnswersOf (M.answer_in builder.now) (M.fits builder.now) tables.now place.line (node place.tree.now) (A.answer answers.old) (A.members answers.old) }
    requires ready { A.ready answers.old }
    ensures passed { IfOk result (λ b. b ≡ spec.passes (spec.test_context (known tables.now) (A.members answers.old) (A.answer answers.old) F.fault_name F.fault_key) margins.now (map (output_of expected.now) (range_with_len 0 count))) }
    ensures ready { A.ready answers.new }
    ensures same_answers { A.answer answers.new ≡ A.answer answers.old }
    ensures same_members { A.members answers.new ≡ A.members answers.old }
{
    for member in 0..count {
        let output = expected.of_member(member);
        let passed = output_passes(
            alloc, tables, place, builder, margins, &output, asked, answers,
        )?;
        if !passed {
            return Ok(false);
        }
    }
    Ok(true)
}

/// The same of what is expected of members.
#[tactic(auto, using(crate::proofs::OutputLines::pass_alone))]
fn expected_passes<F: KeyFault + Drop, A: Answers<Fault = F> + Drop, M: SimulationBuilder<A>>(
    alloc: Global,
    tables: &Tables<'_>,
    place: TestPlace<'_, '_>,
    builder: &M,
    margins: &Margins,
    expected: &ExpectedOutput,
    asked: &mut u64,
    answers: &mut A,
) -> Result<bool, AllocError>
    requires answers { AreAnswersOf (M.answer_in builder.now) (M.fits builder.now) tables.now place.line (node place.tree.now) (A.answer answers.old) (A.members answers.old) }
    requires ready { A.ready answers.old }
    ensures passed { IfOk result (λ b. b ≡ spec.passes (spec.test_context (known tables.now) (A.members answers.old) (A.answer answers.old) F.fault_name F.fault_key) margins.now (expected_outputs expected.now)) }
    ensures ready { A.ready answers.new }
    ensures same_answers { A.answer answers.new ≡ A.answer answers.old }
    ensures same_members { A.members answers.new ≡ A.members answers.old }
{
    match expected.whom {
        ExpectedMembers::Each(count) => {
            each_passes(
                alloc, tables, place, builder, margins, expected, count, asked, answers,
            )
        }
        ExpectedMembers::One(member) => {
            let output = expected.of_member(member);
            output_passes(
                alloc, tables, place, builder, margins, &output, asked, answers,
            )
        }
    }
}

/// Works out what is expected, in order, up to the first that does not pass. Whether all pass.
pub(crate) fn all_pass<F: KeyFault + Drop, A: Answers<Fault = F> + Drop, M: SimulationBuilder<A>>(
    alloc: Global,
    tables: &Tables<'_>,
    place: TestPlace<'_, '_>,
    builder: &M,
    margins: &Margins,
    outputs: &[ExpectedOutput],
    answers: &mut A,
) -> Result<bool, AllocError>
    requires answers { AreAnswersOf (M.answer_in builder.now) (M.fits builder.now) tables.now place.line (node place.tree.now) (A.answer answers.old) (A.members answers.old) }
    requires ready { A.ready answers.old }
    ensures passed { IfOk result (λ b. b ≡ spec.passes (spec.test_context (known tables.now) (A.members answers.old) (A.answer answers.old) F.fault_name F.fault_key) margins.now (flat_map expected_outputs outputs.now)) }
    ensures ready { A.ready answers.new }
    ensures same_answers { A.answer answers.new ≡ A.answer answers.old }
    ensures same_members { A.members answers.new ≡ A.members answers.old }
{
    let mut asked = 0u64;
    for expected in outputs {
        let passed = expected_passes(
            alloc, tables, place, builder, margins, expected, &mut asked, answers,
        )?;
        if !passed {
            return Ok(false);
        }
    }
    Ok(true)
}
