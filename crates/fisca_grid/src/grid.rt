//! Grids of axes in groups.

ghost use Rattle.std.specs.Prelude.{◌≡◌, ◌≢◌, ◌==◌, ◌||◌, ℕ, ◌<◌, ◌≤◌, ◌^◌, ◌++◌, ◌/◌, map, length, sum, false, OnOk, IfOk, IfErr, None, Some, Ok, slice_get};
ghost use Rattle.std.specs.Option.{ForSome};
ghost use Rattle.std.specs.List.{list_any};
ghost use Rattle.fisca_num.specs.Number.{number_cmp};
ghost use Rattle.fisca_grid.specs.Axes.{first_axis_fault, step_of};
ghost use Rattle.fisca_grid.specs.Grid.{groups_of, count_of, counts_of, has_two_counts, size_of, axes_in, axes_at, leading_in, grid_fault, axes_fault};
ghost use Rattle.fisca_grid.specs.Turning.{specs_of, axes_of, placed};
ghost use Rattle.fisca_grid.specs.Steps.Turning.{turned};

use super::axes::{AxesFault, Axis, AxisSpec};
use super::turning::Turning;
use fisca_num::Fraction;
use fisca_writer::GroupLengths;
use std::alloc::{AllocError, Global};
use std::cmp::Ordering;
use std::marker::Model;

/// Whether there is no group, or a group has no axis.
fn is_none_in(groups: &[u32]) -> bool
    ensures { result ≡ ((length groups.now == 0) || list_any (λ size. size == 0) groups.now) }
{
    groups.is_empty() || groups.contains(&0)
}

/// The axes that are asked for, or the first fault of one.
fn accept_axes(alloc: Global, specs: &[AxisSpec]) -> Result<Vec<Axis>, AxesFault>
    ensures ok { IfOk result (λ axes. (specs_of axes.items ≡ specs.now) × (first_axis_fault specs.now ≡ None)) }
    ensures err { IfErr result (λ fault. fault ≢ AxesFault.Memory → first_axis_fault specs.now ≡ Some fault) }
{
    let mut axes = Vec::new(alloc);
    for spec in specs {
        axes.push(Axis::new(*spec)?)?;
    }
    Ok(axes)
}

/// The number of values of the first axis of a group.
fn first_count(group: &[AxisSpec]) -> u64
    ensures { result ≡ count_of group.now }
{
    match group {
        [] => 0,
        [axis, ..] => axis.count,
    }
}

/// Whether two axes of a group have different numbers of values.
fn has_two_counts(group: &[AxisSpec]) -> bool
    ensures { result ≡ has_two_counts group.now }
{
    let count = first_count(group);
    group.iter().any(|axis| axis.count != count)
}

/// Whether the axes of each group have the same number of values, and there are not too many axes or positions.
fn check_size(specs: &[AxisSpec], groups: &[u32]) -> Result<(), AxesFault>
    requires grouped { sum groups.now ≡ length specs.now }
    ensures ok { OnOk result (grid_fault (length specs.now) (groups_of specs.now groups.now) ≡ None) }
    ensures err { IfErr result (λ fault. grid_fault (length specs.now) (groups_of specs.now groups.now) ≡ Some fault) }
{
    let mut rest = specs;
    let mut size = 1u64;
    for length in groups {
        let (group, others) = rest.split_at(*length as usize);
        if has_two_counts(group) {
            return Err(AxesFault::CountsDiffer);
        }
        size = size.saturating_mul(first_count(group));
        rest = others;
    }
    if specs.len() > 16 || size > 1 << 32 {
        return Err(AxesFault::TooLarge);
    }
    Ok(())
}

/// The number of values of the first axis of a group.
fn shared_count(group: &[Axis]) -> u64
    ensures { result ≡ count_of (specs_of group.now) }
{
    match group {
        [] => 0,
        [axis, ..] => axis.spec.count,
    }
}

/// Appends the axes of a group, which go to the next place after so many positions.
fn push_group(turning: &mut Vec<Turning>, group: &[Axis], pace: u64) -> Result<(), AllocError>
    requires { 0 < pace }
    ensures turns { OnOk result ((position : ℕ) → map (placed position) turning.new.items ≡ map (placed position) turning.old.items ++ map (turned (position / pace)) group.now) }
    ensures axes { OnOk result (axes_of turning.new.items ≡ axes_of turning.old.items ++ specs_of group.now) }
{
    for axis in group {
        turning.push(Turning { axis: *axis, pace })?;
    }
    Ok(())
}

/// The axes in groups of these lengths, with the pace of each group, and how many places the groups have.
fn spread(
    alloc: Global,
    axes: &[Axis],
    lengths: &[u32],
) -> Result<(Vec<Turning>, GroupLengths), AllocError>
    requires grouped { sum lengths.now ≡ length axes.now }
    requires alike { list_any has_two_counts (groups_of (specs_of axes.now) lengths.now) ≡ false }
    requires some { 0 < size_of (groups_of (specs_of axes.now) lengths.now) }
    requires few { size_of (groups_of (specs_of axes.now) lengths.now) ≤ 2 ^ 32 }
    requires narrow { length lengths.now ≤ 16 }
    ensures turns { IfOk result (λ spread. (position : ℕ) → map (placed position) spread.0.items ≡ axes_at (groups_of (specs_of axes.now) lengths.now) position) }
    ensures axes { IfOk result (λ spread. axes_of spread.0.items ≡ specs_of axes.now) }
    ensures groups { IfOk result (λ spread. spread.1 ≡ counts_of (groups_of (specs_of axes.now) lengths.now)) }
{
    let mut turning = Vec::with_capacity(alloc, axes.len())?;
    let mut groups = GroupLengths::new();
    let mut rest = axes;
    for length in lengths {
        let (group, others) = rest.split_at(*length as usize);
        push_group(&mut turning, group, groups.size())?;
        groups.push(shared_count(group));
        rest = others;
    }
    Ok((turning, groups))
}

/// A grid of axes in groups. The axes of a group step together, and the first group turns fastest. Contracts see the groups
/// of what was asked for, and know that they are within the limits.
#[derive(Debug, Drop)]
pub struct Axes {
    axes: Vec<Turning>,
    lengths: Vec<u32>,
    groups: GroupLengths,
}

impl Model for Axes {
    ghost use Rattle.std.specs.Prelude.{List};
    ghost use Rattle.fisca_grid.specs.declared.axes.AxisSpec.{AxisSpec};
    ghost use Rattle.fisca_grid.specs.Grid.{groups_of};
    ghost use Rattle.fisca_grid.specs.Turning.{axes_of, IsGrid};

    ghost Value = { List (List AxisSpec) };

    ghost view = { λ a. groups_of (axes_of a.axes.items) a.lengths.items };

    ghost invariant = { λ a. IsGrid a.axes.items a.lengths.items a.groups };
}

impl Axes {
    /// The grid of these axes, in groups of these lengths.
    ///
    /// The faults in order: `NoAxes` where there is no group or a group is empty; then for each axis in order `BadCount` and
    /// `BadBound`; then `CountsDiffer`; then `TooLarge`, for more than 16 axes or 2^32 positions. `Memory` only where
    /// memory was refused.
    pub fn build(alloc: Global, specs: &[AxisSpec], groups: &[u32]) -> Result<Axes, AxesFault>
        requires grouped { sum groups.now ≡ length specs.now }
        ensures ok { IfOk result (λ axes. (axes ≡ groups_of specs.now groups.now) × (axes_fault specs.now groups.now ≡ None)) }
        ensures err { IfErr result (λ fault. fault ≢ AxesFault.Memory → axes_fault specs.now groups.now ≡ Some fault) }
    {
        if is_none_in(groups) {
            return Err(AxesFault::NoAxes);
        }
        let accepted = accept_axes(alloc, specs)?;
        check_size(specs, groups)?;
        let (axes, counts) = spread(alloc, accepted.as_slice(), groups)?;
        let mut lengths = Vec::with_capacity(alloc, groups.len())?;
        lengths.extend_from_slice(groups)?;
        Ok(Axes {
            axes,
            lengths,
            groups: counts,
        })
    }

    /// The number of positions, 1 to 2^32.
    pub fn size(&self) -> u64
        ensures { result ≡ size_of self.now }
    {
        self.groups.size()
    }

    /// The lengths of its groups, as numbers of values.
    pub fn groups(&self) -> GroupLengths
        ensures { result ≡ counts_of self.now }
    {
        self.groups.copied()
    }

    /// The number of axes in all groups, 1 to 16.
    pub fn count(&self) -> usize
        ensures { result ≡ axes_in self.now }
    {
        self.axes.len()
    }

    /// The number of axes of the first group, which turns fastest.
    pub(crate) fn leading(&self) -> usize
        ensures count { result ≡ leading_in self.now }
        ensures within { result ≤ axes_in self.now }
    {
        match self.lengths.first() {
            Some(length) => *length as usize,
            None => 0,
        }
    }

    /// The exact value of an axis at a position of the grid: `min + place * (max - min) / (count - 1)`, and `min` where the
    /// count is 1. The place is that of the axis's group, of which the first turns fastest; axes count through all groups.
    pub fn step(&self, axis: usize, position: u64) -> Fraction
        requires axis { axis < axes_in self.now }
        requires position { position < size_of self.now }
        ensures { ForSome (slice_get (axes_at self.now position) axis) (λ at. step_of at.0 at.1 ≡ Ok result) }
    {
        let turning = &self.axes[axis];
        turning.axis.value(turning.place(position))
    }

    /// How the value of an axis at a position of the grid stands to a number: as `step(axis, position).cmp(&number)`,
    /// without working out the value's lowest terms.
    pub fn compare(&self, axis: usize, position: u64, number: Fraction) -> Ordering
        requires axis { axis < axes_in self.now }
        requires position { position < size_of self.now }
        ensures { ForSome (slice_get (axes_at self.now position) axis) (λ at. IfOk (step_of at.0 at.1) (λ value. result ≡ number_cmp value number)) }
    {
        let turning = &self.axes[axis];
        turning.axis.compare(turning.place(position), number)
    }
}
