//! The names of columns.

ghost use Rattle.std.specs.Prelude.{◌≡◌, ◌++◌, IfOk, map, string_bytes};
ghost use Rattle.fisca_columns.specs.Named.{column_names, item_names, tree_name};
ghost use Rattle.fisca_yaml.specs.Views.{items_view, node};

use fisca_yaml::{Item, Tree};
use std::alloc::{AllocError, Global};

/// Names, and behind them those of the columns of a file, each as the file writes it. Memory is its only error.
pub fn column_names(
    alloc: Global,
    names: Vec<String>,
    tree: &Tree<'_>,
) -> Result<Vec<String>, AllocError>
    ensures { IfOk result (λ all. map (λ name. string_bytes name) all.items ≡ map (λ name. string_bytes name) names.items ++ column_names (node tree.now)) }
{
    match tree.get("columns") {
        Some(Tree::List(items)) => with_items(alloc, names, items.as_slice()),
        Some(found) => with_name(alloc, names, found),
        None => Ok(names),
    }
}

/// The names so far and those of a list.
fn with_items(
    alloc: Global,
    names: Vec<String>,
    items: &[Item<'_>],
) -> Result<Vec<String>, AllocError>
    ensures { IfOk result (λ all. map (λ name. string_bytes name) all.items ≡ map (λ name. string_bytes name) names.items ++ item_names (items_view items.now)) }
{
    let mut all = names;
    for item in items {
        all = with_name(alloc, all, &item.value)?;
    }
    Ok(all)
}

/// The names so far and that of a scalar.
fn with_name(alloc: Global, names: Vec<String>, tree: &Tree<'_>) -> Result<Vec<String>, AllocError>
    ensures { IfOk result (λ all. map (λ name. string_bytes name) all.items ≡ map (λ name. string_bytes name) names.items ++ tree_name (node tree.now)) }
{
    let Tree::Scalar { text, .. } = tree else {
        return Ok(names);
    };
    let mut all = names;
    all.push(String::from_str(alloc, text.as_str())?)?;
    Ok(all)
}
