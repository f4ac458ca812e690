//! Tests.

ghost use Rattle.std.specs.Prelude.{◌≡◌, option_map};
ghost use Rattle.fisca_expected.specs.Steps.Reading.{outputs_of};
ghost use Rattle.fisca_situations.specs.Steps.Situations.{situation_of};
ghost use Rattle.fisca_situations.specs.Steps.Views.{situation as situation_view};
ghost use Rattle.fisca_test_file.specs.Faults.{outputs_told, situation_told};
ghost use Rattle.fisca_test_file.specs.Outcomes.{Tells};
ghost use Rattle.fisca_test_file.specs.Steps.Tests as spec;
ghost use Rattle.fisca_test_file.specs.Views.{test as test_view};
ghost use Rattle.fisca_yaml.specs.Views.{node};

use crate::fault::{TestFault, output_fault, situation_fault};
use crate::keys::{check_shape, first_line};
use crate::margins::{Margins, margins_in};
use fisca_columns::default_in;
use fisca_expected::{Outputs, read_outputs};
use fisca_situations::Situation;
use fisca_symbols::Tables;
use fisca_time::Period;
use fisca_yaml::Tree;
use std::alloc::Global;

/// A test of a rule set.
#[derive(Drop)]
pub struct Test<'t> {
    /// The name, if it has one.
    pub name: Option<&'t str>,
    /// The situation.
    pub situation: Situation,
    /// How far values may be off.
    pub margins: Margins,
    /// The values that are expected.
    pub outputs: Outputs,
}

/// The situation of an input, whose key stands on `line`.
fn situation_at(
    alloc: Global,
    tables: &Tables<'_>,
    default: Option<Period>,
    line: usize,
    tree: &Tree<'_>,
) -> Result<Situation, TestFault>
    ensures { Tells situation_view (situation_told (situation_of tables.now default line (node tree.now))) result }
{
    match Situation::read(alloc, tables, default, line, tree) {
        Ok(situation) => Ok(situation),
        Err(fault) => Err(situation_fault(fault)),
    }
}

/// The situation of a test.
pub(crate) fn situation_in(
    alloc: Global,
    tables: &Tables<'_>,
    line: usize,
    tree: &Tree<'_>,
) -> Result<Situation, TestFault>
    ensures { Tells situation_view (spec.situation_in tables.now line (node tree.now)) result }
{
    let default = default_in(tree);
    match tree.entry("input") {
        Some(entry) => situation_at(alloc, tables, default, entry.line, &entry.value),
        None => situation_at(alloc, tables, default, first_line(line, tree), &Tree::Null),
    }
}

/// The outputs whose key stands on `line`.
fn outputs_at(
    alloc: Global,
    tables: &Tables<'_>,
    situation: &Situation,
    default: Option<Period>,
    line: usize,
    tree: &Tree<'_>,
) -> Result<Outputs, TestFault>
    ensures { Tells (λ o. o) (outputs_told (outputs_of tables.now (situation_view situation.now).members default line (node tree.now))) result }
{
    match read_outputs(alloc, tables, situation, default, line, tree) {
        Ok(outputs) => Ok(outputs),
        Err(fault) => Err(output_fault(fault)),
    }
}

/// The outputs of a test.
fn outputs_in(
    alloc: Global,
    tables: &Tables<'_>,
    situation: &Situation,
    line: usize,
    tree: &Tree<'_>,
) -> Result<Outputs, TestFault>
    ensures { Tells (λ o. o) (spec.outputs_in tables.now (situation_view situation.now).members line (node tree.now)) result }
{
    let default = default_in(tree);
    match tree.entry("output") {
        Some(entry) => outputs_at(alloc, tables, situation, default, entry.line, &entry.value),
        None => outputs_at(alloc, tables, situation, default, line, &Tree::Null),
    }
}

/// The name of a test, if it has one.
fn name_in<'t>(tree: &'t Tree<'_>) -> Option<&'t str>
    ensures { option_map (λ t. t.now) result ≡ spec.name_in (node tree.now) }
{
    let found = tree.get("name")?;
    found.as_text()
}

/// The outputs of the variables that a test compares.
fn tested_outputs(tables: &Tables<'_>, tree: &Tree<'_>, outputs: Outputs) -> Outputs
    ensures { result ≡ spec.tested_outputs tables.now (node tree.now) outputs }
{
    let only = tree.get("only_variables");
    let ignored = tree.get("ignore_variables");
    outputs.tested(tables, only, ignored)
}

/// The test with this situation.
#[tactic(auto, unfolding(crate::specs::Steps::Tests::test_by))]
fn test_by<'t>(
    alloc: Global,
    tables: &Tables<'_>,
    line: usize,
    tree: &'t Tree<'_>,
    situation: Situation,
) -> Result<Test<'t>, TestFault>
    ensures { Tells test_view (spec.test_by tables.now line (node tree.now) (situation_view situation)) result }
{
    let outputs = outputs_in(alloc, tables, &situation, line, tree)?;
    Ok(Test {
        name: name_in(tree),
        situation,
        margins: margins_in(tree),
        outputs: tested_outputs(tables, tree, outputs),
    })
}

/// The test of an item that stands on `line`: its keys come first, then its situation, then its outputs.
#[tactic(auto, unfolding(crate::specs::Steps::Tests::test_of))]
pub(crate) fn test_of<'t>(
    alloc: Global,
    tables: &Tables<'_>,
    line: usize,
    tree: &'t Tree<'_>,
) -> Result<Test<'t>, TestFault>
    ensures { Tells test_view (spec.test_of tables.now line (node tree.now)) result }
{
    check_shape(line, tree)?;
    let situation = situation_in(alloc, tables, line, tree)?;
    test_by(alloc, tables, line, tree, situation)
}
