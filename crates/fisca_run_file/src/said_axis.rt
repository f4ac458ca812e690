//! An axis of a run file, as it is said.

ghost use Rattle.std.specs.Prelude.{◌≡◌, [], option_map};
ghost use Rattle.fisca_columns.specs.Outcomes.{Answers, Tells};
ghost use Rattle.fisca_run_file.specs.Steps.SaidAxes as spec;
ghost use Rattle.fisca_run_file.specs.Views.{said_axis as said_axis_view};
ghost use Rattle.fisca_yaml.specs.Views.{node, entries_view};

use fisca_columns::{RunFileFault, RunFileKind, period_in};
use fisca_grid::AxisSpec;
use fisca_num::Fraction;
use fisca_time::Period;
use fisca_yaml::{Entry, Tree};
use std::alloc::Global;

/// An axis: of which variable and member, and what steps.
#[derive(Drop)]
pub(crate) struct SaidAxis {
    /// The line of its item.
    pub(crate) line: usize,
    /// The name of the variable.
    pub(crate) name: String,
    /// The steps.
    pub(crate) spec: AxisSpec,
    /// The period, where it is not that of the file.
    pub(crate) period: Option<Period>,
    /// The place of the member.
    pub(crate) index: u64,
}

/// The whole number from 0 that a number is.
fn whole_of(number: Fraction) -> Option<u64>
    ensures { result ≡ spec.whole_of number }
{
    if number.denominator() == 1 && number.numerator() >= 0 {
        Some(number.numerator() as u64)
    } else {
        None
    }
}

/// The whole number from 0 that a scalar says.
fn whole_in(tree: &Tree<'_>) -> Option<u64>
    ensures { result ≡ spec.whole_in (node tree.now) }
{
    let number = tree.as_number()?;
    whole_of(number)
}

/// Whether a key of an axis has what it may have.
fn is_axis_key(key: &str, tree: &Tree<'_>) -> bool
    ensures { result ≡ spec.is_axis_key key.now (node tree.now) }
{
    match key {
        "name" => tree.as_text().is_some(),
        "count" | "index" => whole_in(tree).is_some(),
        "min" | "max" => tree.as_number().is_some(),
        "period" => period_in(tree).is_some(),
        _ => false,
    }
}

/// The first of these keys that is not accepted is told.
fn check_axis_keys(entries: &[Entry<'_>]) -> Result<(), RunFileFault>
    ensures { Answers (λ _. []) (spec.axis_keys_checked (entries_view entries.now)) result }
{
    for entry in entries {
        if !is_axis_key(entry.key.as_str(), &entry.value) {
            return Err(bad_key(entry.line));
        }
    }
    Ok(())
}

/// The fault of a key, or of what has another shape, on this line.
pub(crate) fn bad_key(line: usize) -> RunFileFault
    ensures { result ≡ record { line = line; kind = RunFileKind.BadKey } }
{
    RunFileFault {
        line,
        kind: RunFileKind::BadKey,
    }
}

/// The name of the variable.
fn name_in<'t>(tree: &'t Tree<'_>) -> Option<&'t str>
    ensures { option_map (λ t. t.now) result ≡ spec.name_in (node tree.now) }
{
    let found = tree.get("name")?;
    found.as_text()
}

/// The whole number from 0 at a key.
fn whole_at(tree: &Tree<'_>, key: &str) -> Option<u64>
    ensures { result ≡ spec.whole_at key.now (node tree.now) }
{
    let found = tree.get(key)?;
    whole_in(found)
}

/// The number at a key.
fn number_at(tree: &Tree<'_>, key: &str) -> Option<Fraction>
    ensures { result ≡ spec.number_at key.now (node tree.now) }
{
    let found = tree.get(key)?;
    found.as_number()
}

/// The period of the axis.
fn period_at(tree: &Tree<'_>) -> Option<Period>
    ensures { result ≡ spec.period_at (node tree.now) }
{
    let found = tree.get("period")?;
    period_in(found)
}

/// The steps of the axis.
#[tactic(auto, unfolding(crate::specs::Steps::SaidAxes::spec_said))]
fn spec_said(tree: &Tree<'_>) -> Result<AxisSpec, RunFileFault>
    ensures { Answers (λ s. s) (spec.spec_said (node tree.now)) result }
{
    let Some(count) = whole_at(tree, "count") else {
        return Err(bad_key(1));
    };
    let Some(min) = number_at(tree, "min") else {
        return Err(bad_key(1));
    };
    let Some(max) = number_at(tree, "max") else {
        return Err(bad_key(1));
    };
    Ok(AxisSpec { count, min, max })
}

/// The axis of a map whose keys are right.
#[tactic(auto, unfolding(crate::specs::Steps::SaidAxes::axis_of))]
fn axis_of(alloc: Global, line: usize, tree: &Tree<'_>) -> Result<SaidAxis, RunFileFault>
    ensures { Tells said_axis_view (spec.axis_of line (node tree.now)) result }
{
    let Some(name) = name_in(tree) else {
        return Err(bad_key(1));
    };
    let spec = spec_said(tree)?;
    Ok(SaidAxis {
        line,
        name: String::from_str(alloc, name)?,
        spec,
        period: period_at(tree),
        index: whole_at(tree, "index").unwrap_or(0),
    })
}

/// The axis of an item on this line. What is no map is told of the line of `axes`.
#[tactic(auto, unfolding(crate::specs::Steps::SaidAxes::axis_said))]
pub(crate) fn axis_said(
    alloc: Global,
    key: usize,
    line: usize,
    tree: &Tree<'_>,
) -> Result<SaidAxis, RunFileFault>
    ensures { Tells said_axis_view (spec.axis_in key line (node tree.now)) result }
{
    match tree {
        Tree::Map(entries) => {
            check_axis_keys(entries.as_slice())?;
            axis_of(alloc, line, tree)
        }
        Tree::Null | Tree::Scalar { .. } | Tree::List(_) => Err(bad_key(key)),
    }
}
