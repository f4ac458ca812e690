//! The grid that the axes of a run file make.

ghost use Rattle.std.specs.Prelude.{◌≡◌, IfOk, is_some, length, map, sum};
ghost use Rattle.fisca_columns.specs.Outcomes.{Tells};
ghost use Rattle.fisca_grid.specs.Axes.{axis_fault};
ghost use Rattle.fisca_grid.specs.Steps.Axes.{is_bound};
ghost use Rattle.fisca_grid.specs.Grid.{groups_of};
ghost use Rattle.fisca_run_file.specs.Steps.Grids as spec;
ghost use Rattle.fisca_run_file.specs.Views.{said_axes as said_axes_view, said_list};

use crate::said::SaidAxes;
use crate::said_axis::SaidAxis;
use fisca_columns::{RunFileFault, RunFileKind};
use fisca_grid::{Axes, AxesFault, AxisSpec};
use fisca_num::Fraction;
use std::alloc::{AllocError, Global};

/// The steps of the axes.
fn specs_of(alloc: Global, axes: &[SaidAxis]) -> Result<Vec<AxisSpec>, AllocError>
    ensures { IfOk result (λ v. v.items ≡ spec.specs_of (said_list axes.now)) }
{
    let mut specs = Vec::new(alloc);
    for axis in axes {
        specs.push(axis.spec)?;
    }
    Ok(specs)
}

/// Whether a bound of an axis is within the limits.
fn is_bound(bound: Fraction) -> bool
    ensures { result ≡ is_bound bound }
{
    1000 % bound.denominator() == 0
        && bound.numerator().unsigned_abs() <= 1_000_000_000 * bound.denominator()
}

/// Whether the count or a bound of an axis is outside the limits.
fn is_beyond(spec: AxisSpec) -> bool
    ensures { result ≡ is_some (axis_fault spec) }
{
    if spec.count == 0 || spec.count > 1_048_576 {
        return true;
    }
    !(is_bound(spec.min) && is_bound(spec.max))
}

/// The line of the first axis whose count or bounds are outside the limits.
fn bad_line(axes: &[SaidAxis]) -> Option<usize>
    ensures { result ≡ spec.bad_line (said_list axes.now) }
{
    for axis in axes {
        if is_beyond(axis.spec) {
            return Some(axis.line);
        }
    }
    None
}

/// The line of the first axis that has another count.
fn other_line(count: u64, axes: &[SaidAxis]) -> Option<usize>
    ensures { result ≡ spec.other_line count (said_list axes.now) }
{
    for axis in axes {
        if axis.spec.count != count {
            return Some(axis.line);
        }
    }
    None
}

/// The line of the first axis of a group that has not the count of its first.
fn differing_line(group: &[SaidAxis]) -> Option<usize>
    ensures { result ≡ spec.differing_line (said_list group.now) }
{
    match group {
        [] => None,
        [first, rest @ ..] => other_line(first.spec.count, rest),
    }
}

/// The same of groups of these lengths.
fn first_differing(axes: &[SaidAxis], lengths: &[u32]) -> Option<usize>
    requires grouped { sum lengths.now ≡ length axes.now }
    ensures { result ≡ spec.first_differing (groups_of (said_list axes.now) lengths.now) }
{
    let mut rest = axes;
    for length in lengths {
        let (group, others) = rest.split_at(*length as usize);
        if let Some(line) = differing_line(group) {
            return Some(line);
        }
        rest = others;
    }
    None
}

/// The line of a fault of the axes.
fn line_of(key: usize, said: &SaidAxes, fault: AxesFault) -> usize
    ensures { result ≡ spec.line_of key (said_axes_view said.now) fault }
{
    match fault {
        AxesFault::NoAxes
        | AxesFault::TooLarge
        | AxesFault::UnknownVariable
        | AxesFault::BadIndex
        | AxesFault::AxisOverlap
        | AxesFault::PeriodMismatch
        | AxesFault::Memory => key,
        AxesFault::CountsDiffer => {
            first_differing(said.axes.as_slice(), said.lengths.as_slice()).unwrap_or(key)
        }
        AxesFault::BadCount | AxesFault::BadBound => {
            bad_line(said.axes.as_slice()).unwrap_or(key)
        }
    }
}

/// The grid of the axes, or the first of its faults.
pub(crate) fn grid_of(alloc: Global, key: usize, said: &SaidAxes) -> Result<Axes, RunFileFault>
    ensures grid { Tells (λ a. a) (spec.grid_of key (said_axes_view said.now)) result }
    ensures grouped { IfOk result (λ a. map length a ≡ said.now.lengths.items) }
{
    let specs = specs_of(alloc, said.axes.as_slice())?;
    match Axes::build(alloc, specs.as_slice(), said.lengths.as_slice()) {
        Ok(axes) => Ok(axes),
        Err(AxesFault::Memory) => Err(RunFileFault {
            line: 0,
            kind: RunFileKind::Memory,
        }),
        Err(fault) => Err(RunFileFault {
            line: line_of(key, said, fault),
            kind: RunFileKind::Axes(fault),
        }),
    }
}
