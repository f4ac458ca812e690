//! Which expected values are compared.

ghost use Rattle.std.specs.Prelude.{◌≡◌, option_map};
ghost use Rattle.fisca_expected.specs.Steps.Tested as spec;
ghost use Rattle.fisca_yaml.specs.Views.{node, items_view};

use fisca_symbols::Tables;
use fisca_yaml::{Item, Tree};

/// Whether this is the name of the variable at a place.
fn is_name_of(tables: &Tables<'_>, variable: usize, tree: &Tree<'_>) -> bool
    ensures { result ≡ spec.is_name_of tables.now variable (node tree.now) }
{
    match tree.as_text() {
        Some(name) => match tables.variable_named(name) {
            Some((place, _)) => place == variable,
            None => false,
        },
        None => false,
    }
}

/// Whether one of these items is the name of the variable at a place.
fn items_name(tables: &Tables<'_>, variable: usize, items: &[Item<'_>]) -> bool
    ensures { result ≡ spec.items_name tables.now variable (items_view items.now) }
{
    for item in items {
        if is_name_of(tables, variable, &item.value) {
            return true;
        }
    }
    false
}

/// Whether this is the name of the variable at a place, or a list that has it.
fn names(tables: &Tables<'_>, variable: usize, tree: &Tree<'_>) -> bool
    ensures { result ≡ spec.names tables.now variable (node tree.now) }
{
    match tree {
        Tree::Scalar { .. } => is_name_of(tables, variable, tree),
        Tree::List(items) => items_name(tables, variable, items.as_slice()),
        Tree::Null | Tree::Map(_) => false,
    }
}

/// Whether the variable at a place is one of those that alone are compared, where there are such.
fn is_among(tables: &Tables<'_>, variable: usize, only: Option<&Tree<'_>>) -> bool
    ensures { result ≡ spec.is_among tables.now variable (option_map (λ tree. node tree.now) only.entry) }
{
    match only {
        Some(tree) => names(tables, variable, tree),
        None => true,
    }
}

/// Whether the variable at a place is one of those that are not compared.
fn is_ignored(tables: &Tables<'_>, variable: usize, ignored: Option<&Tree<'_>>) -> bool
    ensures { result ≡ spec.is_ignored tables.now variable (option_map (λ tree. node tree.now) ignored.entry) }
{
    match ignored {
        Some(tree) => names(tables, variable, tree),
        None => false,
    }
}

/// Whether the values of the variable at a place are compared.
pub(crate) fn is_tested(
    tables: &Tables<'_>,
    only: Option<&Tree<'_>>,
    ignored: Option<&Tree<'_>>,
    variable: usize,
) -> bool
    ensures { result ≡ spec.is_tested tables.now (option_map (λ tree. node tree.now) only.entry) (option_map (λ tree. node tree.now) ignored.entry) variable }
{
    is_among(tables, variable, only) && !is_ignored(tables, variable, ignored)
}
