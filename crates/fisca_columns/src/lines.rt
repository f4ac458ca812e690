//! The lines of columns.

ghost use Rattle.std.specs.Prelude.{◌≡◌, ◌<◌, ◌++◌, length, option_map, OnOk, string_bytes};
ghost use Rattle.fisca_columns.specs.Formed.{column_row_in, lead_text, line_of_in};
ghost use Rattle.fisca_columns.specs.Lines.{line_of};
ghost use Rattle.fisca_writer.specs.Ranges.{no_limit};
ghost use Rattle.fisca_writer.specs.Run.{IsRun, is_write};
ghost use Rattle.fisca_writer.specs.Sink.{CountsFailure};
ghost use Rattle.fisca_situations.specs.Steps.Views.{situation as situation_view};
ghost use Rattle.fisca_symbols.specs.Known.{tables as known};

use crate::formed::write_formed_line;
use crate::{write_key, write_value};
use fisca_forms::LineForm;
use fisca_model::{Key, Value};
use fisca_situations::{Answers, Situation};
use fisca_symbols::Tables;
use fisca_writer::{
    GroupLengths, Limit, RowFault, RowSink, Rows, RunEnd, RunFault, Selection, write_lines,
};
use std::alloc::{AllocError, Global};
use std::marker::{Brand, PhantomData};

/// The members that stay the same while columns are worked out.
trait Names {
    ghost use Rattle.std.specs.Prelude.{List};
    ghost use Rattle.fisca_groups.specs.declared.entity_members.EntityMembers.{EntityMembers};

    ghost members: { List EntityMembers };
}

impl Names for Brand {
    ghost use Rattle.std.specs.Prelude.{[]};

    ghost members = { [] };
}

/// Columns as rows of one group: each has a line.
#[derive(Drop)]
struct ColumnRows<'a, 't, A: Answers + Drop, N: Names> {
    alloc: Global,
    tables: &'a Tables<'t>,
    form: Option<&'a LineForm>,
    lead: Option<u64>,
    columns: &'a [Key],
    answers: A,
    here: Option<u64>,
    of: PhantomData<N>,
    ghost same_members: { A.members answers ≡ N.members },
    ghost some: { 0 < length columns.now },
}

/// Appends the line of a key's value: the variable, the member's name, the period and the value with tabs between them, and a line feed.
fn write_line(
    alloc: Global,
    tables: &Tables<'_>,
    situation: &Situation,
    key: &Key,
    value: Value,
    line: &mut String,
) -> Result<(), AllocError>
    ensures { OnOk result (string_bytes line.new ≡ string_bytes line.old ++ line_of (known tables.now) (situation_view situation.now).members key.now value) }
{
    write_key(alloc, tables, situation, key, "\t", line)?;
    line.push('\t')?;
    write_value(tables, key.variable, value, line)?;
    line.push('\n')
}

/// Appends the number that leads a line, if there is one, and a tab.
fn write_lead(lead: Option<u64>, line: &mut String) -> Result<(), AllocError>
    ensures { OnOk result (string_bytes line.new ≡ string_bytes line.old ++ lead_text lead) }
{
    match lead {
        None => Ok(()),
        Some(number) => {
            line.push_str(itoa::Buffer::new().format(number))?;
            line.push('\t')
        }
    }
}

/// The same behind the number that leads it, if there is one, and in a form, where one is given.
fn write_line_in(
    alloc: Global,
    tables: &Tables<'_>,
    form: Option<&LineForm>,
    lead: Option<u64>,
    situation: &Situation,
    key: &Key,
    value: Value,
    line: &mut String,
) -> Result<(), AllocError>
    ensures { OnOk result (string_bytes line.new ≡ string_bytes line.old ++ line_of_in (option_map (λ form. form.now) form.entry) lead (known tables.now) (situation_view situation.now).members key.now value) }
{
    match form {
        None => {
            write_lead(lead, line)?;
            write_line(alloc, tables, situation, key, value, line)
        }
        Some(form) => write_formed_line(alloc, tables, form, lead, situation, key, value, line),
    }
}

impl<'a, 't, A: Answers + Drop, N: Names> Rows for ColumnRows<'a, 't, A, N> {
    ghost use Rattle.std.specs.Prelude.{⊤, [], ◌∷◌, length, option_map};
    ghost use Rattle.fisca_columns.specs.Formed.{column_row_in};
    ghost use Rattle.fisca_symbols.specs.Known.{tables as known};

    type Fault = A::Fault;

    ghost row_at = { λ r. column_row_in (option_map (λ form. form.now) r.form) r.lead (known r.tables.now) (A.members r.answers) (A.answer r.answers) r.columns.now };

    ghost counts = { λ r. length r.columns.now ∷ [] };

    ghost here = { λ r. r.here };

    ghost ready = { λ r. A.ready r.answers };

    // what is remembered is said by the answers alone
    ghost worked = { λ _ _ _. ⊤ };

    ghost refused = { λ _ _ _. ⊤ };

    fn groups(&self) -> GroupLengths {
        let mut groups = GroupLengths::new();
        groups.push(self.columns.len() as u64);
        groups
    }

    fn work_out(
        &mut self,
        position: u64,
        _turned: u32,
        line: &mut String,
    ) -> Result<Selection, RowFault<A::Fault>> {
        self.here = Some(position);
        let (alloc, tables, form, lead) = (self.alloc, self.tables, self.form, self.lead);
        let key = self.columns[position as usize];
        match self.answers.value(key) {
            Ok(value) => {
                let situation = self.answers.situation();
                match write_line_in(alloc, tables, form, lead, situation, &key, value, line) {
                    Ok(()) => Ok(Selection::Kept),
                    Err(_) => Err(RowFault::Memory),
                }
            }
            Err(fault) => Err(fault),
        }
    }
}

/// Writes the lines of columns, of which there are some, where the members are these.
fn write_rows<'a, 't, A: Answers + Drop, N: Names, S: RowSink>(
    alloc: Global,
    tables: &'a Tables<'t>,
    form: Option<&'a LineForm>,
    lead: Option<u64>,
    columns: &'a [Key],
    answers: A,
    sink: &mut S,
) -> (A, Result<RunEnd, RunFault<A::Fault>>)
    requires ready { A.ready answers }
    requires same_members { A.members answers ≡ N.members }
    requires some { 0 < length columns.now }
    ensures run { IsRun (column_row_in (option_map (λ form. form.now) form.entry) lead (known tables.now) (A.members answers) (A.answer answers) columns.now) (length columns.now) 0 no_limit (S.taken sink.old) (S.taken sink.new) result.1 }
    ensures failures { CountsFailure (is_write result.1) (S.failures sink.old) (S.failures sink.new) }
    ensures ready { A.ready result.0 }
    ensures members { A.members result.0 ≡ N.members }
{
    let mut rows = ColumnRows::<'a, 't, A, N> {
        alloc,
        tables,
        form,
        lead,
        columns,
        answers,
        here: None,
        of: PhantomData,
    };
    let end = write_lines(alloc, &mut rows, 0, Limit::none(), sink);
    (rows.answers, end)
}

/// Writes the lines of columns into a sink, one for each in order: `VARIABLE<TAB>MEMBER<TAB>PERIOD<TAB>VALUE`, or in the
/// form that is given, and behind the number that leads it, if there is one. Each line is worked out whole before any of
/// it is handed over. What answers the values is given back, with the members that it had, and is ready for more.
///
/// - `Eval` exactly where a column has no value: the first such column, behind the lines of those before it.
/// - `Write` only where the sink failed in this call: it has the lines before the column that is named, and a proper beginning of the line there.
/// - `Memory` only where memory was refused, at the column that is named: the sink has the lines before it.
///
/// This project's own rule.
pub fn write_columns<'a, 't, A: Answers + Drop, S: RowSink>(
    alloc: Global,
    tables: &'a Tables<'t>,
    form: Option<&'a LineForm>,
    lead: Option<u64>,
    columns: &'a [Key],
    answers: A,
    sink: &mut S,
) -> (A, Result<RunEnd, RunFault<A::Fault>>)
    requires { A.ready answers }
    ensures run { IsRun (column_row_in (option_map (λ form. form.now) form.entry) lead (known tables.now) (A.members answers) (A.answer answers) columns.now) (length columns.now) 0 no_limit (S.taken sink.old) (S.taken sink.new) result.1 }
    ensures failures { CountsFailure (is_write result.1) (S.failures sink.old) (S.failures sink.new) }
    ensures ready { A.ready result.0 }
    ensures members { A.members result.0 ≡ A.members answers }
{
    if columns.is_empty() {
        return (answers, Ok(RunEnd::End));
    }
    write_rows::<A, Brand, S>(alloc, tables, form, lead, columns, answers, sink)
}
