//! The rows of a grid: the values of its axes.

ghost use Rattle.std.specs.Prelude.{◌≡◌, ◌-◌, ◌<◌, ◌≤◌, ◌++◌, ◌∷◌, true, Some, OnOk, option_and_then, string_bytes, List, take, drop};
ghost use Rattle.fisca_num.specs.Number.{Number};
ghost use Rattle.fisca_num.specs.Text.{text_of};
ghost use Rattle.fisca_grid.specs.Grid.{size_of, axes_in, axes_at};
ghost use Rattle.fisca_grid.specs.AxesRow.{values_of, cells, tab, line_of, IsMetBy, IsInside, rest_of};

use super::condition::Filter;
use super::formed_rows::FormedAxisRows;
use super::grid::Axes;
use fisca_forms::LineForm;
use fisca_num::Fraction;
use fisca_writer::{GroupLengths, RowFault, Rows, Selection};
use std::alloc::{AllocError, Global};
use std::convert::Infallible;

/// The rows of a grid: a line for each position where the axis of the condition meets it. They remember the end of the last line,
/// which stays as it is while the first group alone turns.
#[derive(Debug, Drop)]
pub struct AxisRows {
    pub axes: Axes,
    pub keep: Option<Filter>,
    /// The position that was worked out last.
    here: Option<u64>,
    /// Where it is known, the cells of the axes behind the first group at that position.
    rest: String,
    is_known: bool,
    ghost inside: { IsInside keep axes },
    ghost remembered: { is_known ≡ true → option_and_then (rest_of axes) here ≡ Some (string_bytes rest) },
}

impl Rows for AxisRows {
    ghost use Rattle.std.specs.Prelude.{⊤};
    ghost use Rattle.fisca_grid.specs.Grid.{counts_of};
    ghost use Rattle.fisca_grid.specs.AxesRow.{axes_row};

    type Fault = Infallible;

    ghost row_at = { λ r. axes_row r.axes r.keep };

    ghost counts = { λ r. counts_of r.axes };

    ghost here = { λ r. r.here };

    // nothing has to be made ready
    ghost ready = { λ _. ⊤ };

    // nothing is told of what they remember
    ghost worked = { λ _ _ _. ⊤ };

    ghost refused = { λ _ _ _. ⊤ };

    fn groups(&self) -> GroupLengths {
        self.axes.groups()
    }

    fn work_out(
        &mut self,
        position: u64,
        turned: u32,
        line: &mut String,
    ) -> Result<Selection, RowFault<Infallible>> {
        self.is_known = self.is_known && turned <= 1;
        self.here = Some(position);
        if !self.is_kept(position) {
            return Ok(Selection::Dropped);
        }
        match self.write_line(position, line) {
            Ok(()) => Ok(Selection::Kept),
            Err(_) => Err(RowFault::Memory),
        }
    }
}

impl AxisRows {
    /// The rows of these axes, where the condition speaks of one of them. What they remember is kept in memory of this allocator.
    pub fn new(alloc: Global, axes: Axes, keep: Option<Filter>) -> Self
        requires { IsInside keep axes }
        ensures axes { result.axes ≡ axes }
        ensures keep { result.keep ≡ keep }
    {
        AxisRows {
            axes,
            keep,
            here: None,
            rest: String::new(alloc),
            is_known: false,
        }
    }

    /// The same rows in a form of lines.
    pub fn in_form(self, alloc: Global, form: LineForm) -> FormedAxisRows
        ensures axes { result.axes ≡ self.axes }
        ensures keep { result.keep ≡ self.keep }
        ensures form { result.form ≡ form }
    {
        let AxisRows {
            axes,
            keep,
            here: _,
            rest: _,
            is_known: _,
        } = self;
        FormedAxisRows::new(alloc, axes, keep, form)
    }

    /// Whether the value of the condition's axis meets it at a position, if there is one. The value is not worked out for that.
    fn is_kept(&self, position: u64) -> bool
        requires { position < size_of self.now.axes }
        ensures { IsMetBy self.now.keep (axes_at self.now.axes position) result }
    {
        match self.keep {
            None => true,
            Some(filter) => {
                let condition = filter.condition;
                let order = self.axes.compare(filter.axis, position, condition.constant);
                condition.comparison.is_met_by(order)
            }
        }
    }

    /// Appends the line of a position: its number, a tab and the value for each axis, and a line feed.
    fn write_line(&mut self, position: u64, line: &mut String) -> Result<(), AllocError>
        requires position { position < size_of self.old.axes }
        requires here { self.old.here ≡ Some position }
        ensures line { OnOk result ((values : List Number) × (values_of (axes_at self.old.axes position) ≡ Some values) × (string_bytes line.new ≡ string_bytes line.old ++ line_of position values)) }
        ensures axes { self.new.axes ≡ self.old.axes }
        ensures keep { self.new.keep ≡ self.old.keep }
        ensures here { self.new.here ≡ self.old.here }
    {
        self.learn(position)?;
        line.push_str(itoa::Buffer::new().format(position))?;
        write_values(&self.axes, 0, self.axes.leading(), position, line)?;
        self.write_rest(line)?;
        line.push('\n')
    }

    /// Appends the end of the line, which is nothing where the grid has one group.
    #[inline]
    fn write_rest(&self, line: &mut String) -> Result<(), AllocError>
        ensures { OnOk result (string_bytes line.new ≡ string_bytes line.old ++ string_bytes self.now.rest) }
    {
        if self.rest.is_empty() {
            return Ok(());
        }
        line.push_str(self.rest.as_str())
    }

    /// Remembers the end of the line of a position, if it is not known.
    #[inline]
    fn learn(&mut self, position: u64) -> Result<(), AllocError>
        requires position { position < size_of self.old.axes }
        requires here { self.old.here ≡ Some position }
        ensures known { OnOk result (self.new.is_known ≡ true) }
        ensures axes { self.new.axes ≡ self.old.axes }
        ensures keep { self.new.keep ≡ self.old.keep }
        ensures here { self.new.here ≡ self.old.here }
    {
        if self.is_known {
            return Ok(());
        }
        self.rest.clear();
        let (leading, count) = (self.axes.leading(), self.axes.count());
        write_values(&self.axes, leading, count, position, &mut self.rest)?;
        self.is_known = true;
        Ok(())
    }
}

/// Appends a tab and the value for each of these axes.
#[inline(always)]
fn write_values(
    axes: &Axes,
    from: usize,
    to: usize,
    position: u64,
    line: &mut String,
) -> Result<(), AllocError>
    requires position { position < size_of axes.now }
    requires order { from ≤ to }
    requires within { to ≤ axes_in axes.now }
    ensures { OnOk result ((values : List Number) × (values_of (take (to - from) (drop from (axes_at axes.now position))) ≡ Some values) × (string_bytes line.new ≡ string_bytes line.old ++ cells values)) }
{
    for axis in from..to {
        write_value(axes.step(axis, position), line)?;
    }
    Ok(())
}

/// Appends a tab and a value.
#[inline(always)]
fn write_value(value: Fraction, line: &mut String) -> Result<(), AllocError>
    ensures { OnOk result (string_bytes line.new ≡ string_bytes line.old ++ (tab ∷ text_of value)) }
{
    line.push('\t')?;
    value.write_text(line)
}
