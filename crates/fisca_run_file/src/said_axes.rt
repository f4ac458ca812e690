//! The axes of a run file in groups, as they are said.

ghost use Rattle.std.specs.Prelude.{◌≡◌, ◌+◌, length, IfOk};
ghost use Rattle.fisca_columns.specs.Outcomes.{Tells};
ghost use Rattle.fisca_run_file.specs.Steps.SaidAxes as spec;
ghost use Rattle.fisca_run_file.specs.Views.{said_axes as said_axes_view, said_list};
ghost use Rattle.fisca_yaml.specs.Views.{node, items_view};

use crate::said::SaidAxes;
use crate::said_axis::{SaidAxis, axis_said, bad_key};
use fisca_columns::{RunFileFault, RunFileKind};
use fisca_yaml::{Item, Tree};
use std::alloc::Global;

/// The axes so far and one more.
fn with_axis(
    alloc: Global,
    key: usize,
    axes: Vec<SaidAxis>,
    item: &Item<'_>,
) -> Result<Vec<SaidAxis>, RunFileFault>
    ensures said { Tells (λ v. said_list v.items) (spec.with_axis key (said_list axes.items) item.now.line (node item.now.value)) result }
    ensures one { IfOk result (λ v. length v.items ≡ length axes.items + 1) }
{
    let axis = axis_said(alloc, key, item.line, &item.value)?;
    let mut more = axes;
    more.push(axis)?;
    Ok(more)
}

/// The axes so far and those of a group.
fn with_axes(
    alloc: Global,
    key: usize,
    axes: Vec<SaidAxis>,
    items: &[Item<'_>],
) -> Result<Vec<SaidAxis>, RunFileFault>
    ensures said { Tells (λ v. said_list v.items) (spec.with_axes key (said_list axes.items) (items_view items.now)) result }
    ensures many { IfOk result (λ v. length v.items ≡ length axes.items + length items.now) }
{
    let mut more = axes;
    for item in items {
        more = with_axis(alloc, key, more, item)?;
    }
    Ok(more)
}

/// The groups so far and one more.
#[tactic(auto, unfolding(crate::specs::Steps::SaidAxes::with_list))]
fn with_list(
    alloc: Global,
    key: usize,
    said: SaidAxes,
    items: &[Item<'_>],
) -> Result<SaidAxes, RunFileFault>
    ensures { Tells said_axes_view (spec.with_list key (said_axes_view said) (items_view items.now)) result }
{
    let SaidAxes { axes, mut lengths } = said;
    // A list of so many items finds no memory.
    let Ok(length) = u32::try_from(items.len()) else {
        return Err(RunFileFault {
            line: 0,
            kind: RunFileKind::Memory,
        });
    };
    let axes = with_axes(alloc, key, axes, items)?;
    lengths.push(length)?;
    Ok(SaidAxes { axes, lengths })
}

/// The groups so far and one more, which is a list.
fn with_group(
    alloc: Global,
    key: usize,
    said: SaidAxes,
    tree: &Tree<'_>,
) -> Result<SaidAxes, RunFileFault>
    ensures { Tells said_axes_view (spec.with_group key (said_axes_view said) (node tree.now)) result }
{
    match tree {
        Tree::List(items) => with_list(alloc, key, said, items.as_slice()),
        Tree::Null | Tree::Scalar { .. } | Tree::Map(_) => Err(bad_key(key)),
    }
}

/// The groups so far and those of a list.
fn with_groups(
    alloc: Global,
    key: usize,
    said: SaidAxes,
    items: &[Item<'_>],
) -> Result<SaidAxes, RunFileFault>
    ensures { Tells said_axes_view (spec.with_groups key (said_axes_view said) (items_view items.now)) result }
{
    let mut more = said;
    for item in items {
        more = with_group(alloc, key, more, &item.value)?;
    }
    Ok(more)
}

/// The axes that stand at `axes`, whose key stands on this line.
pub(crate) fn axes_said(
    alloc: Global,
    key: usize,
    tree: &Tree<'_>,
) -> Result<SaidAxes, RunFileFault>
    ensures { Tells said_axes_view (spec.axes_said key (node tree.now)) result }
{
    let none = SaidAxes {
        axes: Vec::new(alloc),
        lengths: Vec::new(alloc),
    };
    match tree {
        Tree::List(items) => with_groups(alloc, key, none, items.as_slice()),
        Tree::Null | Tree::Scalar { .. } | Tree::Map(_) => Err(bad_key(key)),
    }
}
