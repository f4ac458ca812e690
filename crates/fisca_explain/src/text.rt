//! A line of an explanation as a text for readers.

ghost use Rattle.std.specs.Prelude.{◌≡◌, ◌++◌, OnOk, string_bytes};
ghost use Rattle.fisca_explain.specs.LineTexts as spec;

use crate::line::Line;
use std::alloc::AllocError;

/// Appends a text behind what stands before it, where there is one.
fn write_behind(before: &str, text: &str, out: &mut String) -> Result<(), AllocError>
    ensures { OnOk result (string_bytes out.new ≡ string_bytes out.old ++ spec.behind before.now text.now) }
{
    if text.is_empty() {
        return Ok(());
    }
    out.push_str(before)?;
    out.push_str(text)
}

/// Appends two spaces for each key above.
fn write_depth(depth: usize, out: &mut String) -> Result<(), AllocError>
    ensures { OnOk result (string_bytes out.new ≡ string_bytes out.old ++ spec.indentation depth) }
{
    for _level in 0..depth {
        out.push_str("  ")?;
    }
    Ok(())
}

/// Appends what is told of a name in brackets, where something is.
fn write_label(label: &str, out: &mut String) -> Result<(), AllocError>
    ensures { OnOk result (string_bytes out.new ≡ string_bytes out.old ++ spec.in_brackets label.now) }
{
    if label.is_empty() {
        return Ok(());
    }
    out.push_str(" (")?;
    out.push_str(label)?;
    out.push(')')
}

/// Appends what the line is of.
fn write_subject(line: &Line, out: &mut String) -> Result<(), AllocError>
    ensures { OnOk result (string_bytes out.new ≡ string_bytes out.old ++ spec.subject line.now) }
{
    out.push_str(line.kind.word())?;
    out.push_str(line.name.as_str())?;
    write_label(line.label.as_str(), out)?;
    write_behind(" ", line.member.as_str(), out)?;
    write_behind(line.kind.before_period(), line.period.as_str(), out)?;
    write_behind(" of ", line.base.as_str(), out)
}

/// Appends the value with its unit, or why there is none.
fn write_answer(line: &Line, out: &mut String) -> Result<(), AllocError>
    ensures { OnOk result (string_bytes out.new ≡ string_bytes out.old ++ spec.answer line.now) }
{
    if !line.fault.is_empty() {
        out.push_str(" has no value, ")?;
        return out.push_str(line.fault);
    }
    write_behind(" = ", line.value.as_str(), out)?;
    write_behind(" ", line.unit.as_str(), out)
}

/// Appends the file, and what stands before the number of a line.
fn write_file(file: &str, out: &mut String) -> Result<(), AllocError>
    ensures { OnOk result (string_bytes out.new ≡ string_bytes out.old ++ spec.before_number file.now) }
{
    if file.is_empty() {
        return out.push_str(", line ");
    }
    out.push_str(", ")?;
    out.push_str(file)?;
    out.push(':')
}

/// Appends the file and the line.
fn write_place(line: &Line, out: &mut String) -> Result<(), AllocError>
    ensures { OnOk result (string_bytes out.new ≡ string_bytes out.old ++ spec.place (string_bytes line.now.file) line.now.line) }
{
    match line.line {
        None => Ok(()),
        Some(number) => {
            write_file(line.file.as_str(), out)?;
            out.push_str(itoa::Buffer::new().format(number))
        }
    }
}

/// Appends the period of an input, or the day from which on a formula or a value is in force, but for a formula without a date.
fn write_since(line: &Line, out: &mut String) -> Result<(), AllocError>
    ensures { OnOk result (string_bytes out.new ≡ string_bytes out.old ++ spec.since line.now) }
{
    if line.since.as_str() == "0001-01-01" {
        return Ok(());
    }
    write_behind(line.source.before_since(), line.since.as_str(), out)
}

/// Appends what the value comes from.
fn write_origin(line: &Line, out: &mut String) -> Result<(), AllocError>
    ensures { OnOk result (string_bytes out.new ≡ string_bytes out.old ++ spec.origin line.now) }
{
    write_behind(": ", line.source.phrase(), out)?;
    write_since(line, out)?;
    write_place(line, out)?;
    write_behind(", ", line.reference.as_str(), out)
}

/// Appends the line.
pub(crate) fn write_text(line: &Line, out: &mut String) -> Result<(), AllocError>
    ensures { OnOk result (string_bytes out.new ≡ string_bytes out.old ++ spec.text_of line.now) }
{
    write_depth(line.depth, out)?;
    write_subject(line, out)?;
    write_answer(line, out)?;
    write_origin(line, out)?;
    out.push('\n')
}
