//! The keys of a run file.

ghost use Rattle.std.specs.Prelude.{◌≡◌, [], option_map};
ghost use Rattle.fisca_columns.specs.Outcomes.{Answers, Tells};
ghost use Rattle.fisca_run_file.specs.Keys as spec;
ghost use Rattle.fisca_run_file.specs.Steps.Keys as steps;
ghost use Rattle.fisca_yaml.specs.Views.{node, entries_view};

use crate::said_axes::axes_said;
use crate::said_axis::bad_key;
use fisca_columns::{RunFileFault, are_columns, period_in};
use fisca_yaml::{Entry, Tree};
use std::alloc::Global;

/// Whether a key beside `axes` has what it may have.
fn is_accepted(key: &str, tree: &Tree<'_>) -> bool
    ensures { result ≡ steps.is_accepted key.now (node tree.now) }
{
    match key {
        "period" => period_in(tree).is_some(),
        "input" => true,
        "columns" | "filter" | "neutralize" => are_columns(tree),
        _ => false,
    }
}

/// The first fault of what stands at a key is told.
fn check_key(alloc: Global, entry: &Entry<'_>) -> Result<(), RunFileFault>
    ensures { Tells (λ _. []) (spec.key_checked entry.now.key entry.now.line (node entry.now.value)) result }
{
    let key = entry.key.as_str();
    if key == "axes" {
        axes_said(alloc, entry.line, &entry.value)?;
        return Ok(());
    }
    if !is_accepted(key, &entry.value) {
        return Err(bad_key(entry.line));
    }
    Ok(())
}

/// The first fault of these keys is told.
fn check_keys(alloc: Global, entries: &[Entry<'_>]) -> Result<(), RunFileFault>
    ensures { Tells (λ _. []) (spec.keys_checked (entries_view entries.now)) result }
{
    for entry in entries {
        check_key(alloc, entry)?;
    }
    Ok(())
}

/// The fault of the first line, where nothing is found.
fn check_found(found: Option<&Tree<'_>>) -> Result<(), RunFileFault>
    ensures { Answers (λ _. []) (spec.found (option_map (λ t. node t.now) found.entry)) result }
{
    match found {
        Some(_) => Ok(()),
        None => Err(bad_key(1)),
    }
}

/// The first fault of the keys of a file, which is a map.
pub(crate) fn check_file(alloc: Global, tree: &Tree<'_>) -> Result<(), RunFileFault>
    ensures { Tells (λ _. []) (spec.file_checked (node tree.now)) result }
{
    match tree {
        Tree::Map(entries) => {
            check_keys(alloc, entries.as_slice())?;
            check_found(tree.get("axes"))
        }
        Tree::Null | Tree::Scalar { .. } | Tree::List(_) => Err(bad_key(1)),
    }
}
