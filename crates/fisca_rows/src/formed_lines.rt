//! The line of a position in a form.

ghost use Rattle.std.specs.Prelude.{◌≡◌, ◌≤◌, ◌^◌, ◌++◌, [], OnOk, string_bytes};
ghost use Rattle.fisca_rows.specs.Asked.{keys_written};
ghost use Rattle.fisca_rows.specs.FormedLines.{column_cells, formed_line, front_cells};
ghost use Rattle.fisca_rows.specs.Outcomes.{IsCells};
ghost use Rattle.fisca_forms.specs.LineForms.{cells_from};
ghost use Rattle.fisca_situations.specs.Asked.{HaveAsked};
ghost use Rattle.fisca_symbols.specs.Known.{tables as known};
ghost use Rattle.fisca_writer.specs.Row.{IsWorkedOut};

use crate::row::Asked;
use fisca_columns::write_value_cell;
use fisca_forms::LineForm;
use fisca_inputs::Given;
use fisca_model::Key;
use fisca_situations::Answers;
use fisca_symbols::Tables;
use fisca_writer::{RowFault, Selection};
use std::alloc::{AllocError, Global};

/// Appends the cells of the number of a position and of the inputs that axes move.
pub(crate) fn write_front_cells(
    tables: &Tables<'_>,
    form: &LineForm,
    position: u64,
    moved: &[Given],
    room: &mut String,
    line: &mut String,
) -> Result<(), AllocError>
    ensures { OnOk result (string_bytes line.new ≡ string_bytes line.old ++ cells_from form.now.format form.now.names 0 (front_cells (known tables.now) form.now.decimals position moved.now)) }
{
    let mut buffer = itoa::Buffer::new();
    form.write_cell(0, true, buffer.format(position), line)?;
    for place in 0..moved.len() {
        let given = &moved[place];
        let (variable, value) = (given.variable, given.value);
        write_value_cell(tables, form, place + 1, variable, value, room, line)?;
    }
    Ok(())
}

/// Appends the cells of columns, in order, from a place of the line on. Each column is worked out once, up to the first that has no value.
///
/// `Eval` where a column has no value: the fault of the first. `Memory` only where memory was refused.
fn write_column_cells<A: Answers>(
    tables: &Tables<'_>,
    form: &LineForm,
    first: usize,
    answers: &mut A,
    columns: &[Key],
    room: &mut String,
    line: &mut String,
) -> Result<(), RowFault<A::Fault>>
    requires ready { A.ready answers.old }
    requires first { first ≤ 2 ^ 63 }
    ensures written { IsCells form.now first (column_cells (known tables.now) form.now.decimals (A.answer answers.old) columns.now) (string_bytes line.old) (string_bytes line.new) result }
    ensures asked { HaveAsked A.worked A.refused (keys_written (A.answer answers.old) columns.now) answers.old answers.new result }
    ensures ready { A.ready answers.new }
    ensures same_answers { A.answer answers.new ≡ A.answer answers.old }
    ensures same_members { A.members answers.new ≡ A.members answers.old }
{
    let count = columns.len();
    for place in 0..count {
        let key = &columns[place];
        let variable = key.variable;
        let value = answers.value(*key)?;
        let cell = write_value_cell(tables, form, first + place, variable, value, room, line);
        if cell.is_err() {
            return Err(RowFault::Memory);
        }
    }
    Ok(())
}

/// Appends the whole line of a position in a form to an empty line. Of the conditions nothing is asked.
pub(crate) fn write_formed_line<A: Answers>(
    alloc: Global,
    tables: &Tables<'_>,
    form: &LineForm,
    asked: &Asked<'_>,
    answers: &mut A,
    line: &mut String,
) -> Result<Selection, RowFault<A::Fault>>
    requires ready { A.ready answers.old }
    requires line { string_bytes line.old ≡ [] }
    ensures written { IsWorkedOut (formed_line form.now (known tables.now) (A.answer answers.old) asked.now.columns.now asked.now.position asked.now.moved.now) result (string_bytes line.new) }
    ensures asked { HaveAsked A.worked A.refused (keys_written (A.answer answers.old) asked.now.columns.now) answers.old answers.new result }
    ensures ready { A.ready answers.new }
    ensures same_answers { A.answer answers.new ≡ A.answer answers.old }
    ensures same_members { A.members answers.new ≡ A.members answers.old }
{
    let mut room = String::new(alloc);
    let (position, moved) = (asked.position, asked.moved);
    if write_front_cells(tables, form, position, moved, &mut room, line).is_err() {
        return Err(RowFault::Memory);
    }
    let first = moved.len() + 1;
    write_column_cells(tables, form, first, answers, asked.columns, &mut room, line)?;
    match form.write_end(line) {
        Ok(()) => Ok(Selection::Kept),
        Err(_) => Err(RowFault::Memory),
    }
}
