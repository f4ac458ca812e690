//! The rows of a grid in a form of lines.

ghost use Rattle.std.specs.Prelude.{◌≡◌, ◌<◌, ◌++◌, Some, OnOk, List, string_bytes};
ghost use Rattle.fisca_forms.specs.LineForms.{cells_from};
ghost use Rattle.fisca_num.specs.Number.{Number};
ghost use Rattle.fisca_grid.specs.AxesRow.{IsInside, IsMetBy, values_of};
ghost use Rattle.fisca_grid.specs.FormedRow.{formed_line, number_cells};
ghost use Rattle.fisca_grid.specs.Grid.{axes_at, size_of};

use super::condition::Filter;
use super::grid::Axes;
use fisca_forms::LineForm;
use fisca_writer::{GroupLengths, RowFault, Rows, Selection};
use std::alloc::{AllocError, Global};
use std::convert::Infallible;

/// The rows of a grid, as [`AxisRows`](crate::AxisRows), in a form of lines.
#[derive(Debug, Drop)]
pub struct FormedAxisRows {
    pub axes: Axes,
    pub keep: Option<Filter>,
    pub form: LineForm,
    /// The position that was worked out last.
    here: Option<u64>,
    /// For the text of a number.
    room: String,
    ghost inside: { IsInside keep axes },
}

impl Rows for FormedAxisRows {
    ghost use Rattle.std.specs.Prelude.{⊤};
    ghost use Rattle.fisca_grid.specs.Grid.{counts_of};
    ghost use Rattle.fisca_grid.specs.FormedRow.{formed_row};

    type Fault = Infallible;

    ghost row_at = { λ r. formed_row r.form r.axes r.keep };

    ghost counts = { λ r. counts_of r.axes };

    ghost here = { λ r. r.here };

    ghost ready = { λ _. ⊤ };

    ghost worked = { λ _ _ _. ⊤ };

    ghost refused = { λ _ _ _. ⊤ };

    fn groups(&self) -> GroupLengths {
        self.axes.groups()
    }

    fn work_out(
        &mut self,
        position: u64,
        _turned: u32,
        line: &mut String,
    ) -> Result<Selection, RowFault<Infallible>> {
        self.here = Some(position);
        if !is_kept(&self.axes, self.keep, position) {
            return Ok(Selection::Dropped);
        }
        match self.write_line(position, line) {
            Ok(()) => Ok(Selection::Kept),
            Err(_) => Err(RowFault::Memory),
        }
    }
}

impl FormedAxisRows {
    /// The rows of these axes in this form, where the condition speaks of one of them. The text of a number takes memory of this allocator.
    pub fn new(alloc: Global, axes: Axes, keep: Option<Filter>, form: LineForm) -> Self
        requires { IsInside keep axes }
        ensures axes { result.axes ≡ axes }
        ensures keep { result.keep ≡ keep }
        ensures form { result.form ≡ form }
    {
        FormedAxisRows {
            axes,
            keep,
            form,
            here: None,
            room: String::new(alloc),
        }
    }

    /// Appends the line of a position: the cells of its number and of the value of each axis.
    fn write_line(&mut self, position: u64, line: &mut String) -> Result<(), AllocError>
        requires { position < size_of self.old.axes }
        ensures line { OnOk result ((values : List Number) × (values_of (axes_at self.old.axes position) ≡ Some values) × (string_bytes line.new ≡ string_bytes line.old ++ formed_line self.old.form position values)) }
        ensures axes { self.new.axes ≡ self.old.axes }
        ensures keep { self.new.keep ≡ self.old.keep }
        ensures form { self.new.form ≡ self.old.form }
        ensures here { self.new.here ≡ self.old.here }
    {
        let mut buffer = itoa::Buffer::new();
        self.form
            .write_cell(0, true, buffer.format(position), line)?;
        write_values(&self.axes, &self.form, position, &mut self.room, line)?;
        self.form.write_end(line)
    }
}

/// Whether the value of the condition's axis meets it at a position, if there is one.
fn is_kept(axes: &Axes, keep: Option<Filter>, position: u64) -> bool
    requires position { position < size_of axes.now }
    requires inside { IsInside keep axes.now }
    ensures { IsMetBy keep (axes_at axes.now position) result }
{
    match keep {
        None => true,
        Some(filter) => {
            let condition = filter.condition;
            let order = axes.compare(filter.axis, position, condition.constant);
            condition.comparison.is_met_by(order)
        }
    }
}

/// Appends the cells of the values of all axes at a position.
fn write_values(
    axes: &Axes,
    form: &LineForm,
    position: u64,
    room: &mut String,
    line: &mut String,
) -> Result<(), AllocError>
    requires { position < size_of axes.now }
    ensures { OnOk result ((values : List Number) × (values_of (axes_at axes.now position) ≡ Some values) × (string_bytes line.new ≡ string_bytes line.old ++ cells_from form.now.format form.now.names 1 (number_cells form.now.decimals values))) }
{
    for axis in 0..axes.count() {
        form.write_number_cell(axis + 1, axes.step(axis, position), room, line)?;
    }
    Ok(())
}
