//! The keys of a test.

ghost use Rattle.std.specs.Prelude.{◌≡◌};
ghost use Rattle.fisca_test_file.specs.Outcomes.{Answers};
ghost use Rattle.fisca_test_file.specs.Steps.Tests as spec;
ghost use Rattle.fisca_yaml.specs.Views.{node, entries_view};

use crate::fault::{TestFault, TestKind, bad_test};
use crate::margins::margin_in;
use fisca_columns::{are_columns, period_in};
use fisca_yaml::{Entry, Tree};

/// Whether a key has what it may have.
#[tactic(auto, unfolding(crate::specs::Steps::Tests::is_margin, crate::specs::Steps::Tests::is_text))]
fn is_accepted(key: &str, tree: &Tree<'_>) -> bool
    ensures { result ≡ spec.is_accepted key.now (node tree.now) }
{
    match key {
        "output" | "input" => true,
        "period" => period_in(tree).is_some(),
        "name" | "description" => tree.as_text().is_some(),
        "absolute_error_margin" | "relative_error_margin" => margin_in(tree).is_some(),
        "keywords" | "only_variables" | "ignore_variables" => are_columns(tree),
        _ => false,
    }
}

/// Why a key is not accepted, which stands on this line.
fn key_fault(key: &str, line: usize) -> TestFault
    ensures { result ≡ record { line = line; kind = spec.kind_of_key key.now } }
{
    match key {
        "reforms" | "extensions" => TestFault {
            line,
            kind: TestKind::UseReform,
        },
        _ => bad_test(line),
    }
}

/// The first of these keys that is not accepted is told.
fn check_keys(entries: &[Entry<'_>]) -> Result<(), TestFault>
    ensures { Answers (λ _. tt) (spec.keys_checked (entries_view entries.now)) result }
{
    for entry in entries {
        if !is_accepted(entry.key.as_str(), &entry.value) {
            return Err(key_fault(entry.key.as_str(), entry.line));
        }
    }
    Ok(())
}

/// The first line of a test; of a map without keys the one that is given.
pub(crate) fn first_line(line: usize, tree: &Tree<'_>) -> usize
    ensures { result ≡ spec.first_line line (node tree.now) }
{
    tree.line().unwrap_or(line)
}

/// A test has outputs.
fn check_output(line: usize, tree: &Tree<'_>) -> Result<(), TestFault>
    ensures { Answers (λ _. tt) (spec.output_checked line (node tree.now)) result }
{
    if tree.get("output").is_some() {
        Ok(())
    } else {
        Err(bad_test(first_line(line, tree)))
    }
}

/// The shape of a test, which is a map.
pub(crate) fn check_shape(line: usize, tree: &Tree<'_>) -> Result<(), TestFault>
    ensures { Answers (λ _. tt) (spec.shape_checked line (node tree.now)) result }
{
    match tree {
        Tree::Map(entries) => {
            check_keys(entries.as_slice())?;
            check_output(line, tree)
        }
        Tree::Scalar { line, .. } => Err(bad_test(*line)),
        Tree::Null | Tree::List(_) => Err(bad_test(line)),
    }
}
