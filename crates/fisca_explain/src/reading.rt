//! The line of a parameter or a scale that a formula read.

ghost use Rattle.std.specs.Prelude.{◌≡◌, [], IfOk, OnOk, string_bytes};
ghost use Rattle.fisca_explain.specs.Explained.{of_reading};
ghost use Rattle.fisca_explain.specs.Lines.{KeepsReading};
ghost use Rattle.fisca_explain.specs.Says.{Names, Says};

use crate::bare::{is_bare, may_be_bare};
use crate::line::{Kind, Line, Source};
use crate::view::View;
use fisca_folder::write_shown;
use fisca_model::Value;
use fisca_ops::{OperationFault, parameter_at, scale_sum_at};
use fisca_rule_files::{ParameterPlace, entry_in_force, write_day};
use fisca_simulation::Reading;
use fisca_time::Instant;
use fisca_yaml::Tree;
use std::alloc::AllocError;

/// The text of a scalar, or of the first item of a list.
fn plain_text<'t>(tree: &'t Tree<'_>) -> Option<&'t str> {
    match tree {
        Tree::List(items) => items.first()?.value.as_text(),
        other => other.as_text(),
    }
}

/// The same, or that of what is in force on a day in a map of days.
fn text_on<'t>(tree: &'t Tree<'_>, day: Instant) -> Option<&'t str> {
    match tree {
        Tree::Map(_) => match entry_in_force(tree, day) {
            Some(found) => plain_text(&found.entry.value),
            None => None,
        },
        other => plain_text(other),
    }
}

/// What a node says under a key, or in its metadata.
fn said_of<'t>(tree: &'t Tree<'_>, name: &str, day: Instant) -> Option<&'t str> {
    let found = match tree.get(name) {
        Some(found) => found,
        None => tree.get("metadata")?.get(name)?,
    };
    text_on(found, day)
}

/// Appends a text, if there is one.
fn write_said(said: Option<&str>, text: &mut String) -> Result<(), AllocError> {
    match said {
        Some(said) => write_shown(said, text),
        None => Ok(()),
    }
}

/// Puts the value of a parameter in force, and where it stands.
fn put_value(
    place: &ParameterPlace<'_, '_>,
    day: Instant,
    line: &mut Line,
) -> Result<(), AllocError>
    ensures { OnOk result (KeepsReading line.old line.new) }
{
    if line.kind != Kind::Parameter {
        return Ok(());
    }
    let Some(found) = entry_in_force(place.tree, day) else {
        return Ok(());
    };
    line.line = Some(found.entry.line);
    write_day(found.since, &mut line.since)?;
    write_said(
        said_of(&found.entry.value, "reference", day),
        &mut line.reference,
    )
}

/// Puts where a parameter or a scale stands, and what is told of it.
fn put_place(
    place: &ParameterPlace<'_, '_>,
    day: Instant,
    line: &mut Line,
) -> Result<(), AllocError>
    ensures { OnOk result (KeepsReading line.old line.new) }
{
    write_shown(place.path.as_str(), &mut line.name)?;
    write_shown(place.file, &mut line.file)?;
    line.line = Some(place.line);
    put_value(place, day, line)?;
    write_said(said_of(place.tree, "unit", day), &mut line.unit)?;
    write_said(said_of(place.tree, "description", day), &mut line.label)?;
    if line.reference.is_empty() {
        write_said(said_of(place.tree, "reference", day), &mut line.reference)?;
    }
    Ok(())
}

/// The word of a fault of a parameter or a scale.
fn fault_name(fault: OperationFault) -> &'static str {
    match fault {
        OperationFault::TooWide => "TooWide",
        OperationFault::BadScale => "BadScale",
        OperationFault::ZeroDivisor => "ZeroDivisor",
        _ => "ParameterUndefined",
    }
}

/// Appends the text of a number or of a truth.
fn write_value(value: Value, text: &mut String) -> Result<(), AllocError> {
    match value {
        Value::Number(number) => number.write_text(text),
        Value::Bool(true) => text.push_str("true"),
        Value::Bool(false) => text.push_str("false"),
        Value::Member(_) => Ok(()),
    }
}

/// Puts the value that was read, or why there is none.
fn put_answer(answer: Result<Value, OperationFault>, line: &mut Line) -> Result<(), AllocError>
    ensures { OnOk result (KeepsReading line.old line.new) }
{
    match answer {
        Ok(value) => {
            let may_be = may_be_bare(&value);
            write_value(value, &mut line.value)?;
            line.is_bare = is_bare(may_be, line.value.as_str());
            Ok(())
        }
        Err(fault) => {
            line.fault = fault_name(fault);
            Ok(())
        }
    }
}

/// The line of what a formula read, without where that stands.
fn line_of_answer(
    view: &View<'_, '_, '_, '_>,
    depth: usize,
    reading: &Reading,
) -> Result<Line, AllocError>
    ensures { IfOk result (λ line. (line.depth ≡ depth) × (string_bytes line.period ≡ [])) }
{
    let parameters = view.rules.parameters();
    let (place, day) = (reading.place, reading.day);
    match reading.base {
        None => {
            let mut line = Line::new(view.alloc, depth, Kind::Parameter, Source::Parameter);
            put_answer(parameter_at(parameters, place, day), &mut line)?;
            Ok(line)
        }
        Some(base) => {
            let mut line = Line::new(view.alloc, depth, Kind::Scale, Source::Scale);
            base.write_text(&mut line.base)?;
            put_answer(scale_sum_at(parameters, place, day, base), &mut line)?;
            Ok(line)
        }
    }
}

/// The line of what a formula read.
pub(crate) fn line_of_reading(
    view: &View<'_, '_, '_, '_>,
    depth: usize,
    reading: &Reading,
) -> Result<Line, AllocError>
    ensures { IfOk result (λ line. (n : Names) → Says n (of_reading depth reading.now) line) }
{
    let mut line = line_of_answer(view, depth, reading)?;
    write_day(reading.day, &mut line.period)?;
    match view.parameters.find(reading.place) {
        Some(place) => {
            put_place(place, reading.day, &mut line)?;
            Ok(line)
        }
        None => Ok(line),
    }
}
