//! The variables that a run file neutralises.

ghost use Rattle.std.specs.Prelude.{◌≡◌, IfOk};
ghost use Rattle.fisca_columns.specs.Outcomes.{Tells};
ghost use Rattle.fisca_run_file.specs.Steps.Neutral as spec;
ghost use Rattle.fisca_yaml.specs.Views.{node, items_view};

use fisca_columns::{RunFileFault, RunFileKind};
use fisca_symbols::{DeclaredType, Tables};
use fisca_yaml::{Item, Tree};
use std::alloc::{AllocError, Global};

/// The place of the variable of this name that has values.
fn neutral_of(tables: &Tables<'_>, name: &str) -> Option<usize>
    ensures { result ≡ spec.neutral_of tables.now name.now }
{
    let (place, declared) = tables.variable_named(name)?;
    match declared.value_type {
        DeclaredType::Float | DeclaredType::Int | DeclaredType::Bool | DeclaredType::Enum(_) => {
            Some(place)
        }
        DeclaredType::Date | DeclaredType::Text => None,
    }
}

/// The marks so far and that of one more name.
fn with_name(
    tables: &Tables<'_>,
    marks: Vec<bool>,
    tree: &Tree<'_>,
) -> Result<Vec<bool>, RunFileFault>
    ensures { Tells (λ v. v.items) (spec.with_name tables.now marks.items (node tree.now)) result }
{
    let Tree::Scalar { text, line, .. } = tree else {
        return Ok(marks);
    };
    let Some(place) = neutral_of(tables, text.as_str()) else {
        return Err(RunFileFault {
            line: *line,
            kind: RunFileKind::BadNeutral,
        });
    };
    let mut more = marks;
    if let Some(mark) = more.get_mut(place) {
        *mark = true;
    }
    Ok(more)
}

/// The marks so far and those of a list of names.
fn with_names(
    tables: &Tables<'_>,
    marks: Vec<bool>,
    items: &[Item<'_>],
) -> Result<Vec<bool>, RunFileFault>
    ensures { Tells (λ v. v.items) (spec.with_names tables.now marks.items (items_view items.now)) result }
{
    let mut more = marks;
    for item in items {
        more = with_name(tables, more, &item.value)?;
    }
    Ok(more)
}

/// No marks.
fn no_marks(alloc: Global, tables: &Tables<'_>) -> Result<Vec<bool>, AllocError>
    ensures { IfOk result (λ v. v.items ≡ spec.no_marks tables.now) }
{
    let variables = tables.variables.as_slice();
    let mut marks = Vec::with_capacity(alloc, variables.len())?;
    for _variable in variables {
        marks.push(false)?;
    }
    Ok(marks)
}

/// The marks of the variables that one scalar or a list of scalars name.
fn marks_by(alloc: Global, tables: &Tables<'_>, tree: &Tree<'_>) -> Result<Vec<bool>, RunFileFault>
    ensures { Tells (λ v. v.items) (spec.marks_by tables.now (node tree.now)) result }
{
    let none = no_marks(alloc, tables)?;
    match tree {
        Tree::Scalar { .. } => with_name(tables, none, tree),
        Tree::List(items) => with_names(tables, none, items.as_slice()),
        Tree::Null | Tree::Map(_) => Ok(none),
    }
}

/// The marks of the variables that the file neutralises, by their places.
pub(crate) fn marks_in(
    alloc: Global,
    tables: &Tables<'_>,
    tree: &Tree<'_>,
) -> Result<Vec<bool>, RunFileFault>
    ensures { Tells (λ v. v.items) (spec.marks_in tables.now (node tree.now)) result }
{
    match tree.get("neutralize") {
        Some(found) => marks_by(alloc, tables, found),
        None => marks_by(alloc, tables, &Tree::Null),
    }
}
