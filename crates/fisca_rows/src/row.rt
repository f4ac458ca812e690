//! The row of a position.

ghost use Rattle.std.specs.Prelude.{◌≡◌, [], option_map, string_bytes};
ghost use Rattle.fisca_situations.specs.Asked.{HaveAsked};
ghost use Rattle.fisca_writer.specs.Row.{IsWorkedOut};
ghost use Rattle.fisca_rows.specs.Asked.{keys_asked, keys_written};
ghost use Rattle.fisca_rows.specs.FormedLines.{asked_row_in, line_row_in};
ghost use Rattle.fisca_rows.specs.Lines as spec;
ghost use Rattle.fisca_rows.specs.Outcomes.{IsWritten};
ghost use Rattle.fisca_symbols.specs.Known.{tables as known};

use crate::condition::Condition;
use crate::formed_lines::write_formed_line;
use crate::lines::{write_columns, write_front};
use crate::met::all_met;
use fisca_forms::LineForm;
use fisca_inputs::Given;
use fisca_model::Key;
use fisca_situations::Answers;
use fisca_symbols::Tables;
use fisca_writer::{RowFault, Selection};
use std::alloc::Global;

/// What a position asks for: the conditions of a filter, the keys of columns, and the inputs that axes move there.
#[derive(Clone, Copy)]
pub struct Asked<'a> {
    /// The number of the position.
    pub position: u64,
    /// The inputs, with their values.
    pub moved: &'a [Given],
    /// The conditions in order.
    pub conditions: &'a [Condition],
    /// The keys of the columns in order.
    pub columns: &'a [Key],
}

/// Appends the whole line of a position to an empty line. Of the conditions nothing is asked.
pub(crate) fn write_line<A: Answers>(
    tables: &Tables<'_>,
    asked: &Asked<'_>,
    answers: &mut A,
    line: &mut String,
) -> Result<Selection, RowFault<A::Fault>>
    requires ready { A.ready answers.old }
    requires line { string_bytes line.old ≡ [] }
    ensures written { IsWorkedOut (spec.as_row (spec.with_columns (known tables.now) (A.answer answers.old) asked.now.columns.now (spec.front_of (known tables.now) asked.now.position asked.now.moved.now))) result (string_bytes line.new) }
    ensures asked { HaveAsked A.worked A.refused (keys_written (A.answer answers.old) asked.now.columns.now) answers.old answers.new result }
    ensures ready { A.ready answers.new }
    ensures same_answers { A.answer answers.new ≡ A.answer answers.old }
    ensures same_members { A.members answers.new ≡ A.members answers.old }
{
    if write_front(tables, asked.position, asked.moved, line).is_err() {
        return Err(RowFault::Memory);
    }
    write_columns(tables, answers, asked.columns, line)?;
    match line.push('\n') {
        Ok(()) => Ok(Selection::Kept),
        Err(_) => Err(RowFault::Memory),
    }
}

/// Appends the whole line of a position to an empty line, in a form where one is given. Of the conditions nothing is asked.
#[inline(always)]
pub fn write_line_in<A: Answers>(
    alloc: Global,
    tables: &Tables<'_>,
    form: Option<&LineForm>,
    asked: &Asked<'_>,
    answers: &mut A,
    line: &mut String,
) -> Result<Selection, RowFault<A::Fault>>
    requires ready { A.ready answers.old }
    requires line { string_bytes line.old ≡ [] }
    ensures written { IsWorkedOut (line_row_in (option_map (λ form. form.now) form.entry) (known tables.now) (A.answer answers.old) asked.now.columns.now asked.now.position asked.now.moved.now) result (string_bytes line.new) }
    ensures asked { HaveAsked A.worked A.refused (keys_written (A.answer answers.old) asked.now.columns.now) answers.old answers.new result }
    ensures ready { A.ready answers.new }
    ensures same_answers { A.answer answers.new ≡ A.answer answers.old }
    ensures same_members { A.members answers.new ≡ A.members answers.old }
{
    match form {
        None => write_line(tables, asked, answers, line),
        Some(form) => write_formed_line(alloc, tables, form, asked, answers, line),
    }
}

/// Works out the row of a position. The conditions are worked out in order, each once, up to the first that does not hold; where all hold,
/// then the columns in order, each once, up to the first that has no value. Nothing else is worked out.
///
/// `Kept` where all conditions hold and each column has a value: the line then has the number of the position, the values of the inputs and those
/// of the columns, with tabs between them, and a line feed, or these as cells of the form that is given. `Dropped` where a condition does not hold. `Eval` where a key that is worked out has no
/// value: the first fault. `Memory` only where memory was refused. This project's own rule.
pub fn write_row<A: Answers>(
    alloc: Global,
    tables: &Tables<'_>,
    form: Option<&LineForm>,
    asked: &Asked<'_>,
    answers: &mut A,
    line: &mut String,
) -> Result<Selection, RowFault<A::Fault>>
    requires ready { A.ready answers.old }
    requires line { string_bytes line.old ≡ [] }
    ensures worked_out { IsWorkedOut (asked_row_in (option_map (λ form. form.now) form.entry) (known tables.now) (A.answer answers.old) asked.now.conditions.now asked.now.columns.now asked.now.position asked.now.moved.now) result (string_bytes line.new) }
    ensures asked { HaveAsked A.worked A.refused (keys_asked (A.answer answers.old) asked.now.conditions.now asked.now.columns.now) answers.old answers.new result }
    ensures ready { A.ready answers.new }
    ensures same_answers { A.answer answers.new ≡ A.answer answers.old }
    ensures same_members { A.members answers.new ≡ A.members answers.old }
{
    if !all_met(answers, asked.conditions)? {
        return Ok(Selection::Dropped);
    }
    write_line_in(alloc, tables, form, asked, answers, line)
}
