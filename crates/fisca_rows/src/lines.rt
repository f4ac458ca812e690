//! The cells of a line.

ghost use Rattle.std.specs.Prelude.{◌≡◌, ◌++◌, [], OnOk, string_bytes};
ghost use Rattle.std.specs.Fmt.{decimal};
ghost use Rattle.fisca_situations.specs.Asked.{HaveAsked};
ghost use Rattle.fisca_rows.specs.Asked.{keys_written};
ghost use Rattle.fisca_rows.specs.Lines as spec;
ghost use Rattle.fisca_rows.specs.Outcomes.{IsWritten};
ghost use Rattle.fisca_symbols.specs.Known.{tables as known};

use fisca_columns::write_value;
use fisca_inputs::Given;
use fisca_model::{Key, Value};
use fisca_situations::Answers;
use fisca_symbols::Tables;
use fisca_writer::RowFault;
use std::alloc::AllocError;

/// Appends a tab and the value of the variable at a place.
fn write_cell(
    tables: &Tables<'_>,
    variable: usize,
    value: Value,
    line: &mut String,
) -> Result<(), AllocError>
    ensures { OnOk result (string_bytes line.new ≡ string_bytes line.old ++ spec.cell (known tables.now) variable value) }
{
    line.push('\t')?;
    write_value(tables, variable, value, line)
}

/// Appends the cells of inputs.
fn write_moved(tables: &Tables<'_>, moved: &[Given], line: &mut String) -> Result<(), AllocError>
    ensures { OnOk result (string_bytes line.new ≡ spec.with_moved (known tables.now) moved.now (string_bytes line.old)) }
{
    for given in moved {
        write_cell(tables, given.variable, given.value, line)?;
    }
    Ok(())
}

/// Appends the number of a position.
fn write_position(position: u64, line: &mut String) -> Result<(), AllocError>
    ensures { OnOk result (string_bytes line.new ≡ string_bytes line.old ++ decimal position) }
{
    line.push_str(itoa::Buffer::new().format(position))
}

/// Appends the number of a position and the cells of the inputs that axes move, to an empty line.
pub(crate) fn write_front(
    tables: &Tables<'_>,
    position: u64,
    moved: &[Given],
    line: &mut String,
) -> Result<(), AllocError>
    requires { string_bytes line.old ≡ [] }
    ensures { OnOk result (string_bytes line.new ≡ spec.front_of (known tables.now) position moved.now) }
{
    write_position(position, line)?;
    write_moved(tables, moved, line)
}

/// Appends the cells of columns, in order. Each column is worked out once, up to the first that has no value.
///
/// `Eval` where a column has no value: the fault of the first. `Memory` only where memory was refused.
pub(crate) fn write_columns<A: Answers>(
    tables: &Tables<'_>,
    answers: &mut A,
    columns: &[Key],
    line: &mut String,
) -> Result<(), RowFault<A::Fault>>
    requires { A.ready answers.old }
    ensures written { IsWritten (spec.with_columns (known tables.now) (A.answer answers.old) columns.now (string_bytes line.old)) (string_bytes line.new) result }
    ensures asked { HaveAsked A.worked A.refused (keys_written (A.answer answers.old) columns.now) answers.old answers.new result }
    ensures ready { A.ready answers.new }
    ensures same_answers { A.answer answers.new ≡ A.answer answers.old }
    ensures same_members { A.members answers.new ≡ A.members answers.old }
{
    for key in columns {
        let value = answers.value(*key)?;
        if write_cell(tables, key.variable, value, line).is_err() {
            return Err(RowFault::Memory);
        }
    }
    Ok(())
}
