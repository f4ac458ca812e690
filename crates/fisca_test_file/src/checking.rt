//! Tests that are read for their faults alone.

ghost use Rattle.std.specs.Prelude.{◌≡◌, ℕ, [], List, Ok, OnOk, IfErr};
ghost use Rattle.fisca_test_file.specs.Outcomes.{Fails};
ghost use Rattle.fisca_test_file.specs.Tests as spec;
ghost use Rattle.fisca_test_file.specs.Steps.Tests as steps;
ghost use Rattle.fisca_yaml.specs.Views.{node, items_view};

use crate::fault::TestFault;
use crate::test::test_of;
use fisca_symbols::Tables;
use fisca_yaml::{Item, Tree};
use std::alloc::Global;

/// Reads the tests of the items of a list, one after another.
fn check_items(alloc: Global, tables: &Tables<'_>, items: &[Item<'_>]) -> Result<(), TestFault>
    ensures ok { OnOk result ((ts : List spec.Test) × (steps.tests_from tables.now [] (items_view items.now) ≡ Ok ts)) }
    ensures fault { IfErr result (Fails (steps.tests_from tables.now [] (items_view items.now))) }
{
    for item in items {
        let _test = test_of(alloc, tables, item.line, &item.value)?;
    }
    Ok(())
}

/// Reads the only test of a file.
fn check_only(alloc: Global, tables: &Tables<'_>, tree: &Tree<'_>) -> Result<(), TestFault>
    ensures ok { OnOk result ((ts : List spec.Test) × (steps.only_test tables.now (node tree.now) ≡ Ok ts)) }
    ensures fault { IfErr result (Fails (steps.only_test tables.now (node tree.now))) }
{
    let _test = test_of(alloc, tables, 1, tree)?;
    Ok(())
}

/// Reads the tests that a file says, and keeps none: its first fault is told.
#[tactic(auto, unfolding(crate::specs::Steps::Tests::tests_of))]
pub(crate) fn check_tests(
    alloc: Global,
    tables: &Tables<'_>,
    tree: &Tree<'_>,
) -> Result<(), TestFault>
    ensures ok { OnOk result ((ts : List spec.Test) × (steps.tests_of tables.now (node tree.now) ≡ Ok ts)) }
    ensures fault { IfErr result (Fails (steps.tests_of tables.now (node tree.now))) }
{
    match tree {
        Tree::List(items) => check_items(alloc, tables, items.as_slice()),
        Tree::Null | Tree::Scalar { .. } | Tree::Map(_) => check_only(alloc, tables, tree),
    }
}
