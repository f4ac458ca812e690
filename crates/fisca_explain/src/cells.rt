//! A line of an explanation as cells of a form of lines.

ghost use Rattle.std.specs.Prelude.{◌≡◌, ◌++◌, IfOk, OnOk, map, string_bytes};
ghost use Rattle.fisca_explain.specs.LineTexts as spec;

use crate::line::{Kind, Line};
use fisca_forms::LineForm;
use std::alloc::{AllocError, Global};

/// The names of the cells.
pub fn explain_names(alloc: Global) -> Result<Vec<String>, AllocError>
    ensures { IfOk result (λ names. map (λ name. string_bytes name) names.items ≡ spec.explain_names) }
{
    let mut names = Vec::new(alloc);
    names.push(String::from_str(alloc, "depth")?)?;
    names.push(String::from_str(alloc, "kind")?)?;
    names.push(String::from_str(alloc, "name")?)?;
    names.push(String::from_str(alloc, "member")?)?;
    names.push(String::from_str(alloc, "period")?)?;
    names.push(String::from_str(alloc, "base")?)?;
    names.push(String::from_str(alloc, "value")?)?;
    names.push(String::from_str(alloc, "fault")?)?;
    names.push(String::from_str(alloc, "source")?)?;
    names.push(String::from_str(alloc, "since")?)?;
    names.push(String::from_str(alloc, "file")?)?;
    names.push(String::from_str(alloc, "line")?)?;
    names.push(String::from_str(alloc, "unit")?)?;
    names.push(String::from_str(alloc, "label")?)?;
    names.push(String::from_str(alloc, "reference")?)?;
    Ok(names)
}

/// The word of what a line is of.
fn kind_name(kind: Kind) -> &'static str
    ensures { result.now ≡ spec.kind_name kind }
{
    match kind {
        Kind::Key => "key",
        Kind::Parameter => "parameter",
        Kind::Scale => "scale",
    }
}

/// Appends the cells of what the line is of.
fn write_subject(form: &LineForm, line: &Line, out: &mut String) -> Result<(), AllocError>
    ensures { OnOk result (string_bytes out.new ≡ string_bytes out.old ++ spec.subject_cells form.now line.now) }
{
    form.write_cell(0, true, itoa::Buffer::new().format(line.depth), out)?;
    form.write_cell(1, false, kind_name(line.kind), out)?;
    form.write_cell(2, false, line.name.as_str(), out)?;
    form.write_cell(3, false, line.member.as_str(), out)?;
    form.write_cell(4, false, line.period.as_str(), out)?;
    form.write_cell(5, false, line.base.as_str(), out)
}

/// Appends the cell of the line in the file, which is a number or an empty text.
fn write_number(form: &LineForm, line: &Line, out: &mut String) -> Result<(), AllocError>
    ensures { OnOk result (string_bytes out.new ≡ string_bytes out.old ++ spec.cell_at form.now 11 (spec.number_or_none line.now.line)) }
{
    match line.line {
        Some(number) => form.write_cell(11, true, itoa::Buffer::new().format(number), out),
        None => form.write_cell(11, false, "", out),
    }
}

/// Appends the cells of the value, and of where it comes from.
fn write_answer(form: &LineForm, line: &Line, out: &mut String) -> Result<(), AllocError>
    ensures { OnOk result (string_bytes out.new ≡ string_bytes out.old ++ spec.answer_cells form.now line.now) }
{
    form.write_cell(6, line.is_bare, line.value.as_str(), out)?;
    form.write_cell(7, false, line.fault, out)?;
    form.write_cell(8, false, line.source.word(), out)?;
    form.write_cell(9, false, line.since.as_str(), out)?;
    form.write_cell(10, false, line.file.as_str(), out)?;
    write_number(form, line, out)
}

/// Appends the cells of what is told.
fn write_told(form: &LineForm, line: &Line, out: &mut String) -> Result<(), AllocError>
    ensures { OnOk result (string_bytes out.new ≡ string_bytes out.old ++ spec.told_cells form.now line.now) }
{
    form.write_cell(12, false, line.unit.as_str(), out)?;
    form.write_cell(13, false, line.label.as_str(), out)?;
    form.write_cell(14, false, line.reference.as_str(), out)
}

/// Appends the line.
pub(crate) fn write_cells(form: &LineForm, line: &Line, out: &mut String) -> Result<(), AllocError>
    ensures { OnOk result (string_bytes out.new ≡ string_bytes out.old ++ spec.cells_text form.now line.now) }
{
    write_subject(form, line, out)?;
    write_answer(form, line, out)?;
    write_told(form, line, out)?;
    form.write_end(out)
}
