//! The line of a position of a run that goes on where a key has no value.

ghost use Rattle.std.specs.Prelude.{◌≡◌, ◌+◌, ◌-◌, ◌<◌, ◌≤◌, ◌^◌, ◌++◌, ◌||◌, ◌↔◌, ⊤, false, [], IsTrue, Ok, IfOk, OnOk, OnErr, is_err, length, string_bytes};
ghost use Rattle.std.specs.List.{list_any};
ghost use Rattle.fisca_rows.specs.Asked.{keys_met};
ghost use Rattle.fisca_rows.specs.Met.{all_met};
ghost use Rattle.fisca_rows.specs.FormedLines.{front_cells};
ghost use Rattle.fisca_rows.specs.Going.{columns_if_met, empty_cells, going_row_by, lacks_by, told_cell, told_cells, word_cells};
ghost use Rattle.fisca_forms.specs.Forms.{cell_in};
ghost use Rattle.fisca_forms.specs.LineForms.{before_cell, cells_from, line_in, name_at};
ghost use Rattle.fisca_situations.specs.Asked.{Asks, AsksSome, HaveAsked};
ghost use Rattle.fisca_symbols.specs.Known.{tables as known};
ghost use Rattle.fisca_writer.specs.Came.{IsStep};
ghost use Rattle.fisca_writer.specs.Row.{IsWorkedOut};

use crate::condition::Condition;
use crate::formed_lines::write_front_cells;
use crate::met::all_met;
use crate::row::Asked;
use fisca_columns::write_value_cell;
use fisca_forms::LineForm;
use fisca_model::{EvalFault, Key, Value};
use fisca_situations::Answers;
use fisca_symbols::Tables;
use fisca_writer::{RowFault, Selection};
use std::alloc::{AllocError, Global};

/// Whether all conditions hold, or the fault of the first that has no value. The error is want of memory alone.
pub fn met_or_fault<A: Answers<Fault = EvalFault>>(
    answers: &mut A,
    conditions: &[Condition],
) -> Result<Result<bool, EvalFault>, AllocError>
    requires { A.ready answers.old }
    ensures met { IfOk result (λ met. met ≡ all_met (A.answer answers.old) conditions.now) }
    ensures all { OnOk result (Asks A.worked answers.old (keys_met (A.answer answers.old) conditions.now) answers.new) }
    ensures some { OnErr result (AsksSome A.worked A.refused answers.old (keys_met (A.answer answers.old) conditions.now) answers.new) }
    ensures ready { A.ready answers.new }
    ensures same_answers { A.answer answers.new ≡ A.answer answers.old }
    ensures same_members { A.members answers.new ≡ A.members answers.old }
{
    match all_met(answers, conditions) {
        Ok(met) => Ok(Ok(met)),
        Err(RowFault::Eval(fault)) => Ok(Err(fault)),
        Err(RowFault::Memory) => Err(AllocError),
    }
}

/// Whether a condition does not hold, before one that has no value.
pub fn is_unmet(met: &Result<bool, EvalFault>) -> bool
    ensures { IsTrue result ↔ (met.now ≡ Ok false) }
{
    matches!(met, Ok(false))
}

/// The value of a key, or the fault for which it has none; `lacks` is set where it has none. The error is want of memory alone.
fn told_value<A: Answers<Fault = EvalFault>>(
    answers: &mut A,
    key: Key,
    lacks: &mut bool,
) -> Result<Result<Value, EvalFault>, AllocError>
    requires { A.ready answers.old }
    ensures told { IfOk result (λ told. told ≡ A.answer answers.old key) }
    ensures lacks { OnOk result (lacks.new ≡ (lacks.old || is_err (A.answer answers.old key))) }
    ensures worked { OnOk result (A.worked answers.old key answers.new) }
    ensures refused { OnErr result (A.refused answers.old key answers.new) }
    ensures ready { A.ready answers.new }
    ensures same_answers { A.answer answers.new ≡ A.answer answers.old }
    ensures same_members { A.members answers.new ≡ A.members answers.old }
{
    match answers.value(key) {
        Ok(value) => Ok(Ok(value)),
        Err(RowFault::Eval(fault)) => {
            *lacks = true;
            Ok(Err(fault))
        }
        Err(RowFault::Memory) => Err(AllocError),
    }
}

/// Appends the cell of a value, or of the word of the fault for which there is none, as the cell at a place of the line.
fn write_told_cell(
    tables: &Tables<'_>,
    form: &LineForm,
    place: usize,
    variable: usize,
    told: Result<Value, EvalFault>,
    room: &mut String,
    line: &mut String,
) -> Result<(), AllocError>
    ensures { OnOk result (string_bytes line.new ≡ string_bytes line.old ++ (before_cell form.now.format place ++ cell_in form.now.format (name_at form.now.names place) (told_cell (known tables.now) form.now.decimals variable told))) }
{
    match told {
        Ok(value) => write_value_cell(tables, form, place, variable, value, room, line),
        Err(fault) => form.write_cell(place, false, fault.name(), line),
    }
}

/// Appends the cells of columns, in order, from a place of the line on. Each column is worked out once. `lacks` is set where one has no value. The
/// error is want of memory alone.
fn write_told_cells<A: Answers<Fault = EvalFault>>(
    tables: &Tables<'_>,
    form: &LineForm,
    first: usize,
    answers: &mut A,
    columns: &[Key],
    lacks: &mut bool,
    room: &mut String,
    line: &mut String,
) -> Result<(), AllocError>
    requires ready { A.ready answers.old }
    requires first { first ≤ 2 ^ 63 }
    ensures written { OnOk result (string_bytes line.new ≡ string_bytes line.old ++ cells_from form.now.format form.now.names first (told_cells (known tables.now) form.now.decimals (A.answer answers.old) columns.now)) }
    ensures lacks { OnOk result (lacks.new ≡ (lacks.old || list_any (λ k. is_err (A.answer answers.old k)) columns.now)) }
    ensures all { OnOk result (Asks A.worked answers.old columns.now answers.new) }
    ensures some { OnErr result (AsksSome A.worked A.refused answers.old columns.now answers.new) }
    ensures ready { A.ready answers.new }
    ensures same_answers { A.answer answers.new ≡ A.answer answers.old }
    ensures same_members { A.members answers.new ≡ A.members answers.old }
{
    for place in 0..columns.len() {
        let key = &columns[place];
        let variable = key.variable;
        let told = told_value(answers, *key, lacks)?;
        let at = first + place;
        write_told_cell(tables, form, at, variable, told, room, line)?;
    }
    Ok(())
}

/// Appends empty cells, from a place of the line on and before another.
fn write_empty_cells(
    form: &LineForm,
    from: usize,
    to: usize,
    line: &mut String,
) -> Result<(), AllocError>
    requires { from ≤ to }
    ensures { OnOk result (string_bytes line.new ≡ string_bytes line.old ++ cells_from form.now.format form.now.names from (empty_cells (to - from))) }
{
    for place in from..to {
        form.write_cell(place, false, "", line)?;
    }
    Ok(())
}

/// Appends a word as the first of so many cells, of which the others are empty, from a place of the line on.
fn write_word_cells(
    form: &LineForm,
    first: usize,
    count: usize,
    word: &str,
    line: &mut String,
) -> Result<(), AllocError>
    requires first { first ≤ 2 ^ 63 }
    requires count { count < 2 ^ 63 }
    ensures { OnOk result (string_bytes line.new ≡ string_bytes line.old ++ cells_from form.now.format form.now.names first (word_cells word.now count)) }
{
    if count == 0 {
        return Ok(());
    }
    form.write_cell(first, false, word, line)?;
    write_empty_cells(form, first + 1, first + count, line)
}

/// Appends the whole line of a position to an empty line, with the values of columns. `lacks` is set where one has none. The error is want of
/// memory alone.
fn write_told_line<A: Answers<Fault = EvalFault>>(
    alloc: Global,
    tables: &Tables<'_>,
    form: &LineForm,
    asked: &Asked<'_>,
    answers: &mut A,
    lacks: &mut bool,
    line: &mut String,
) -> Result<(), AllocError>
    requires ready { A.ready answers.old }
    requires line { string_bytes line.old ≡ [] }
    ensures written { OnOk result (string_bytes line.new ≡ line_in form.now (front_cells (known tables.now) form.now.decimals asked.now.position asked.now.moved.now ++ told_cells (known tables.now) form.now.decimals (A.answer answers.old) asked.now.columns.now)) }
    ensures lacks { OnOk result (lacks.new ≡ (lacks.old || list_any (λ k. is_err (A.answer answers.old k)) asked.now.columns.now)) }
    ensures all { OnOk result (Asks A.worked answers.old asked.now.columns.now answers.new) }
    ensures some { OnErr result (AsksSome A.worked A.refused answers.old asked.now.columns.now answers.new) }
    ensures ready { A.ready answers.new }
    ensures same_answers { A.answer answers.new ≡ A.answer answers.old }
    ensures same_members { A.members answers.new ≡ A.members answers.old }
{
    let mut room = String::new(alloc);
    let (position, moved, columns) = (asked.position, asked.moved, asked.columns);
    write_front_cells(tables, form, position, moved, &mut room, line)?;
    let first = moved.len() + 1;
    write_told_cells(
        tables, form, first, answers, columns, lacks, &mut room, line,
    )?;
    if form.write_end(line).is_err() {
        return Err(AllocError);
    }
    Ok(())
}

/// Appends the whole line of a position to an empty line, with the word of the fault of a condition in the first column.
fn write_word_line(
    alloc: Global,
    tables: &Tables<'_>,
    form: &LineForm,
    asked: &Asked<'_>,
    word: &str,
    line: &mut String,
) -> Result<(), AllocError>
    requires { string_bytes line.old ≡ [] }
    ensures { OnOk result (string_bytes line.new ≡ line_in form.now (front_cells (known tables.now) form.now.decimals asked.now.position asked.now.moved.now ++ word_cells word.now (length asked.now.columns.now))) }
{
    let mut room = String::new(alloc);
    let (position, moved, columns) = (asked.position, asked.moved, asked.columns);
    write_front_cells(tables, form, position, moved, &mut room, line)?;
    write_word_cells(form, moved.len() + 1, columns.len(), word, line)?;
    form.write_end(line)
}

/// Appends the whole line of a position to an empty line, by what its conditions came to: the cells of the columns, where all hold, or the word of
/// the fault of a condition in the first of them. `lacks` is set where a word stands in the place of a value. The error is want of memory alone.
pub fn write_going_line<A: Answers<Fault = EvalFault>>(
    alloc: Global,
    tables: &Tables<'_>,
    form: &LineForm,
    asked: &Asked<'_>,
    met: Result<bool, EvalFault>,
    answers: &mut A,
    lacks: &mut bool,
    line: &mut String,
) -> Result<Selection, RowFault<EvalFault>>
    requires ready { A.ready answers.old }
    requires line { string_bytes line.old ≡ [] }
    ensures written { IsWorkedOut (going_row_by met form.now (known tables.now) (A.answer answers.old) asked.now.columns.now asked.now.position asked.now.moved.now) result (string_bytes line.new) }
    ensures lacks { IsStep (lacks.new ≡ (lacks.old || lacks_by met (A.answer answers.old) asked.now.columns.now)) ⊤ result }
    ensures asked { HaveAsked A.worked A.refused (columns_if_met met asked.now.columns.now) answers.old answers.new result }
    ensures ready { A.ready answers.new }
    ensures same_answers { A.answer answers.new ≡ A.answer answers.old }
    ensures same_members { A.members answers.new ≡ A.members answers.old }
{
    match met {
        Ok(false) => Ok(Selection::Dropped),
        Ok(true) => match write_told_line(alloc, tables, form, asked, answers, lacks, line) {
            Ok(()) => Ok(Selection::Kept),
            Err(_) => Err(RowFault::Memory),
        },
        Err(fault) => {
            *lacks = true;
            match write_word_line(alloc, tables, form, asked, fault.name(), line) {
                Ok(()) => Ok(Selection::Kept),
                Err(_) => Err(RowFault::Memory),
            }
        }
    }
}
