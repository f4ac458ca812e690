//! The forms of lines that options ask for.

ghost use Rattle.std.specs.Prelude.{◌≡◌, IfOk, IfErr, map, string_bytes};
ghost use Rattle.std.specs.Io.KnownBytes.{Appends};
ghost use Rattle.fisca_grid_run.specs.Forms.{IsHeaderRefused, header_of, is_asked, is_table, line_form_of};
ghost use Rattle.fisca_forms.specs.LineForms.{names_line};
ghost use Rattle.fisca_rule_files.specs.Refusal.{is_write};
ghost use Rattle.fisca_writer.specs.Sink.{CountsFailure};

use fisca_command_line::TableForm;
use fisca_forms::{Format, LineForm};
use fisca_rule_files::Refusal;
use fisca_writer::{RowSink, hand_over};
use std::alloc::{AllocError, Global};

/// Whether standard output is a table, so that it has no last line of a run.
pub fn is_table(form: TableForm) -> bool
    ensures { result ≡ is_table form }
{
    form.header || form.format.is_some()
}

/// Whether a form is asked for.
pub fn is_asked(form: TableForm) -> bool
    ensures { result ≡ is_asked form }
{
    is_table(form) || form.decimals.is_some()
}

/// The form of each line with cells of these names.
fn line_form(form: TableForm, names: Vec<String>) -> LineForm
    ensures { result ≡ line_form_of form (map (λ name. string_bytes name) names.items) }
{
    LineForm::new(form.format.unwrap_or(Format::Tsv), form.decimals, names)
}

/// Writes the line of the names where the options ask for one, and answers the form of the lines. `Write` only where the sink failed in this call;
/// `Memory` only where memory was refused, and then nothing is written.
pub fn begin_table<S: RowSink>(
    alloc: Global,
    form: TableForm,
    names: Vec<String>,
    sink: &mut S,
) -> Result<LineForm, Refusal>
    ensures ok { IfOk result (λ made. (made ≡ line_form_of form (map (λ name. string_bytes name) names.items)) × Appends (S.taken sink.old) (S.taken sink.new) (header_of form (map (λ name. string_bytes name) names.items))) }
    ensures err { IfErr result (λ refusal. IsHeaderRefused form (map (λ name. string_bytes name) names.items) (S.taken sink.old) (S.taken sink.new) refusal) }
    ensures failures { CountsFailure (is_write result) (S.failures sink.old) (S.failures sink.new) }
{
    let is_headed = form.header;
    let made = line_form(form, names);
    if !is_headed {
        return Ok(made);
    }
    let line = header_line(alloc, &made)?;
    match hand_over(sink, line.as_bytes()) {
        Ok(()) => Ok(made),
        Err(_) => Err(Refusal::Write),
    }
}

/// The line of the names.
fn header_line(alloc: Global, form: &LineForm) -> Result<String, AllocError>
    ensures { IfOk result (λ line. string_bytes line ≡ names_line form.now.format form.now.names) }
{
    let mut line = String::new(alloc);
    form.write_header(&mut line)?;
    Ok(line)
}
