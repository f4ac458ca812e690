//! The keys of a file of `fisca calc`.

ghost use Rattle.std.specs.Prelude.{◌≡◌, []};
ghost use Rattle.fisca_columns.specs.Calc as spec;
ghost use Rattle.fisca_columns.specs.Steps.Calc as steps;
ghost use Rattle.fisca_columns.specs.Outcomes.{Answers};
ghost use Rattle.fisca_yaml.specs.Views.{node, items_view, entries_view};

use crate::fault::{RunFileFault, RunFileKind};
use fisca_time::Period;
use fisca_yaml::{Entry, Item, Tree};

/// The period that a scalar is read as, if it is one.
pub fn period_in(tree: &Tree<'_>) -> Option<Period>
    ensures { result ≡ steps.period_in (node tree.now) }
{
    let text = tree.as_text()?;
    Period::read(text).ok()
}

/// Whether all items are scalars.
fn are_scalars(items: &[Item<'_>]) -> bool
    ensures { result ≡ steps.are_scalars (items_view items.now) }
{
    for item in items {
        if item.value.as_text().is_none() {
            return false;
        }
    }
    true
}

/// Whether this is one scalar, or a list of scalars.
pub fn are_columns(tree: &Tree<'_>) -> bool
    ensures { result ≡ steps.are_columns (node tree.now) }
{
    match tree {
        Tree::Scalar { .. } => true,
        Tree::List(items) => are_scalars(items.as_slice()),
        Tree::Null | Tree::Map(_) => false,
    }
}

/// Whether a key has what it may have.
fn is_accepted(key: &str, tree: &Tree<'_>) -> bool
    ensures { result ≡ steps.is_accepted key.now (node tree.now) }
{
    match key {
        "period" => period_in(tree).is_some(),
        "input" => true,
        "columns" => are_columns(tree),
        _ => false,
    }
}

/// The first of these keys that is not accepted is told.
fn check_keys(entries: &[Entry<'_>]) -> Result<(), RunFileFault>
    ensures { Answers (λ _. []) (spec.keys_checked (entries_view entries.now)) result }
{
    for entry in entries {
        if !is_accepted(entry.key.as_str(), &entry.value) {
            return Err(RunFileFault {
                line: entry.line,
                kind: RunFileKind::BadKey,
            });
        }
    }
    Ok(())
}

/// The same of a file, which is a map.
pub(crate) fn check_file(tree: &Tree<'_>) -> Result<(), RunFileFault>
    ensures { Answers (λ _. []) (spec.file_checked (node tree.now)) result }
{
    match tree {
        Tree::Map(entries) => check_keys(entries.as_slice()),
        Tree::Null | Tree::Scalar { .. } | Tree::List(_) => Err(RunFileFault {
            line: 1,
            kind: RunFileKind::BadKey,
        }),
    }
}
