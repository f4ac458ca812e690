//! The names of the cells of a run's lines.

ghost use Rattle.std.specs.Prelude.{◌≡◌, ◌++◌, IfOk, OnOk, map, string_bytes, codes};
ghost use Rattle.fisca_columns.specs.Outcomes.{Tells};
ghost use Rattle.fisca_run_file.specs.Named.{index_part, period_part, axis_name, names_of};
ghost use Rattle.fisca_run_file.specs.Views.{said_axis as said_axis_view, said_list};
ghost use Rattle.fisca_time.specs.PeriodText.{text_of as period_text};
ghost use Rattle.fisca_yaml.specs.Views.{node};

use crate::said_axes::axes_said;
use crate::said_axis::SaidAxis;
use fisca_columns::{RunFileFault, column_names, default_in};
use fisca_time::Period;
use fisca_yaml::Tree;
use std::alloc::{AllocError, Global};

/// The names of the cells of a run's lines: `position`, of each axis `NAME#INDEX@PERIOD` without what stands by default, and the columns as the file
/// writes them. A fault where the file says no axes, as [`RunFile::read`](crate::RunFile::read) tells it. This project's own rule.
pub fn cell_names(alloc: Global, tree: &Tree<'_>) -> Result<Vec<String>, RunFileFault>
    ensures { Tells (λ names. map (λ name. string_bytes name) names.items) (names_of (node tree.now)) result }
{
    let axes = match tree.entry("axes") {
        Some(entry) => axes_said(alloc, entry.line, &entry.value)?,
        None => axes_said(alloc, 1, &Tree::Null)?,
    };
    let mut names = Vec::new(alloc);
    names.push(String::from_str(alloc, "position")?)?;
    let names = with_axes(alloc, default_in(tree), names, axes.axes.as_slice())?;
    Ok(column_names(alloc, names, tree)?)
}

/// The names so far and those of axes.
fn with_axes(
    alloc: Global,
    default: Option<Period>,
    names: Vec<String>,
    axes: &[SaidAxis],
) -> Result<Vec<String>, AllocError>
    ensures { IfOk result (λ all. map (λ name. string_bytes name) all.items ≡ map (λ name. string_bytes name) names.items ++ map (axis_name default) (said_list axes.now)) }
{
    let mut all = names;
    for axis in axes {
        all.push(name_of(alloc, default, axis)?)?;
    }
    Ok(all)
}

/// The name of an axis.
fn name_of(alloc: Global, default: Option<Period>, axis: &SaidAxis) -> Result<String, AllocError>
    ensures { IfOk result (λ name. string_bytes name ≡ axis_name default (said_axis_view axis.now)) }
{
    let mut name = String::from_str(alloc, axis.name.as_str())?;
    write_index(axis.index, &mut name)?;
    write_period_part(alloc, default, axis.period, &mut name)?;
    Ok(name)
}

/// Appends `#` and the place of a member, but for the first.
fn write_index(index: u64, name: &mut String) -> Result<(), AllocError>
    ensures { OnOk result (string_bytes name.new ≡ string_bytes name.old ++ index_part index) }
{
    if index == 0 {
        return Ok(());
    }
    name.push('#')?;
    name.push_str(itoa::Buffer::new().format(index))
}

/// Appends `@` and a period, where there is one that is not the file's.
fn write_period_part(
    alloc: Global,
    default: Option<Period>,
    period: Option<Period>,
    name: &mut String,
) -> Result<(), AllocError>
    ensures { OnOk result (string_bytes name.new ≡ string_bytes name.old ++ period_part default period) }
{
    match period {
        Some(period) if default != Some(period) => {
            name.push('@')?;
            write_period(alloc, period, name)
        }
        _ => Ok(()),
    }
}

/// Appends a period.
fn write_period(alloc: Global, period: Period, name: &mut String) -> Result<(), AllocError>
    ensures { OnOk result (string_bytes name.new ≡ string_bytes name.old ++ period_text period) }
{
    match period.text(alloc) {
        Ok(text) => name.push_str(text.as_str()),
        Err(_) => Err(AllocError),
    }
}
