//! Values as cells of a form of lines.

ghost use Rattle.std.specs.Prelude.{◌≡◌, ◌++◌, IfOk, OnOk, length, string_bytes};
ghost use Rattle.fisca_columns.specs.Formed.{formed_line_of, lead_cells, value_cell};
ghost use Rattle.fisca_forms.specs.Forms.{cell_in};
ghost use Rattle.fisca_forms.specs.LineForms.{before_cell, cells_from, name_at};
ghost use Rattle.fisca_situations.specs.Steps.Views.{situation as situation_view};
ghost use Rattle.fisca_symbols.specs.Known.{tables as known};

use crate::pieces::write_period;
use crate::texts::names_of;
use crate::write_value;
use fisca_forms::LineForm;
use fisca_model::{Key, Value};
use fisca_situations::Situation;
use fisca_symbols::Tables;
use std::alloc::{AllocError, Global};

/// Appends the cell of a value of the variable at a place, as the cell at a place of the line: a number exact or to so many places, and in JSON as
/// it stands where it is a numeral, as `true` and `false` are. The room is for its text.
pub fn write_value_cell(
    tables: &Tables<'_>,
    form: &LineForm,
    place: usize,
    variable: usize,
    value: Value,
    room: &mut String,
    line: &mut String,
) -> Result<(), AllocError>
    ensures { OnOk result (string_bytes line.new ≡ string_bytes line.old ++ (before_cell form.now.format place ++ cell_in form.now.format (name_at form.now.names place) (value_cell (known tables.now) form.now.decimals variable value))) }
{
    match value {
        Value::Number(number) => form.write_number_cell(place, number, room, line),
        Value::Bool(_) | Value::Member(_) => {
            room.clear();
            write_value(tables, variable, value, room)?;
            let is_bare = matches!(&value, Value::Bool(_));
            form.write_cell(place, is_bare, room.as_str(), line)
        }
    }
}

/// Appends the line of a key's value in a form: the cells of the variable, the member's name, the period and the value.
pub(crate) fn write_formed_line(
    alloc: Global,
    tables: &Tables<'_>,
    form: &LineForm,
    lead: Option<u64>,
    situation: &Situation,
    key: &Key,
    value: Value,
    line: &mut String,
) -> Result<(), AllocError>
    ensures { OnOk result (string_bytes line.new ≡ string_bytes line.old ++ formed_line_of form.now lead (known tables.now) (situation_view situation.now).members key.now value) }
{
    let (name, member) = names_of(tables, situation, key);
    let mut room = String::new(alloc);
    let first = write_lead_cell(form, lead, line)?;
    form.write_cell(first, false, name, line)?;
    form.write_cell(first + 1, false, member, line)?;
    write_period(alloc, key.period, &mut room)?;
    form.write_cell(first + 2, false, room.as_str(), line)?;
    let (at, variable) = (first + 3, key.variable);
    write_value_cell(tables, form, at, variable, value, &mut room, line)?;
    form.write_end(line)
}

/// Appends the cell of the number that leads a line, if there is one, and answers the place of the next cell.
fn write_lead_cell(
    form: &LineForm,
    lead: Option<u64>,
    line: &mut String,
) -> Result<usize, AllocError>
    ensures line { IfOk result (λ place. string_bytes line.new ≡ string_bytes line.old ++ cells_from form.now.format form.now.names 0 (lead_cells lead)) }
    ensures place { IfOk result (λ place. place ≡ length (lead_cells lead)) }
{
    match lead {
        None => Ok(0),
        Some(number) => {
            let mut buffer = itoa::Buffer::new();
            form.write_cell(0, true, buffer.format(number), line)?;
            Ok(1)
        }
    }
}
