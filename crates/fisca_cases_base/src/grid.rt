//! Axes: their limits, values and positions.

use crate::fault::BaseFault;
use crate::words::{number, one, two};
use crate::written::Written;
use fisca_grid::{Axes, AxesFault, AxisSpec, GridCursor, read_axis};
use fisca_num::Fraction;
use std::alloc::Global;
use std::cmp::Ordering;

/// The answer to a case of axes: what the call of this name gives for these words.
pub fn answer(alloc: Global, operation: &str, words: &[String]) -> Result<String, BaseFault> {
    match operation {
        "no_groups" => size(alloc, Axes::build(alloc, &[], &[])),
        "empty_group" => size(alloc, Axes::build(alloc, &[], &[0])),
        "pair" => pair(alloc, words),
        _ => match words {
            [min, max, count, rest @ ..] => {
                let spec = axis(min.as_str(), max.as_str(), count.as_str())?;
                of_axis(alloc, operation, spec, rest)
            }
            _ => Err(BaseFault::Malformed),
        },
    }
}

fn axis(min: &str, max: &str, count: &str) -> Result<AxisSpec, BaseFault> {
    Ok(AxisSpec {
        count: number(count)?,
        min: Fraction::from_decimal(min)?,
        max: Fraction::from_decimal(max)?,
    })
}

/// The values at a position of three axes, of which the first two are a group.
fn pair(alloc: Global, words: &[String]) -> Result<String, BaseFault> {
    match words {
        [position, first, second, third] => {
            let specs = [
                described(first.as_str())?,
                described(second.as_str())?,
                described(third.as_str())?,
            ];
            let axes = Axes::build(alloc, &specs, &[2, 1])?;
            values(alloc, &axes, number(position.as_str())?)
        }
        _ => Err(BaseFault::Malformed),
    }
}

/// The axis that a word describes.
fn described(word: &str) -> Result<AxisSpec, BaseFault> {
    match read_axis(word) {
        Some((_, spec)) => Ok(spec),
        None => Err(BaseFault::Malformed),
    }
}

/// The values of all axes at a position.
fn values(alloc: Global, axes: &Axes, position: u64) -> Result<String, BaseFault> {
    if position >= axes.size() {
        return Err(BaseFault::Malformed);
    }
    let mut shown = Written::new(alloc);
    for axis in 0..axes.count() {
        shown.push(if axis == 0 { "" } else { " " });
        shown.push(axes.step(axis, position).text(alloc)?.as_str());
    }
    Ok(shown.finish()?)
}

/// What is asked of an axis.
fn of_axis(
    alloc: Global,
    operation: &str,
    spec: AxisSpec,
    words: &[String],
) -> Result<String, BaseFault> {
    match operation {
        "size" => size(alloc, Axes::build(alloc, &[spec], &[1])),
        "step" => step(alloc, spec, words),
        "compare" => compare(alloc, spec, words),
        "cursor" => cursor(alloc, spec, words),
        _ => Err(BaseFault::Malformed),
    }
}

fn size(alloc: Global, axes: Result<Axes, AxesFault>) -> Result<String, BaseFault> {
    let size = axes?.size();
    Ok(format!(in alloc; "{size}")?)
}

/// The value at a position.
fn step(alloc: Global, spec: AxisSpec, words: &[String]) -> Result<String, BaseFault> {
    let position = number(one(words)?)?;
    let axes = Axes::build(alloc, &[spec], &[1])?;
    if axes.count() == 0 || position >= axes.size() {
        return Err(BaseFault::Malformed);
    }
    Ok(axes.step(0, position).text(alloc)?)
}

/// How the value at a position stands to a number.
fn compare(alloc: Global, spec: AxisSpec, words: &[String]) -> Result<String, BaseFault> {
    let (position, with) = two(words)?;
    let position = number(position)?;
    let with = Fraction::from_decimal(with)?;
    let axes = Axes::build(alloc, &[spec], &[1])?;
    if axes.count() == 0 || position >= axes.size() {
        return Err(BaseFault::Malformed);
    }
    let order = match axes.compare(0, position, with) {
        Ordering::Less => "less",
        Ordering::Equal => "equal",
        Ordering::Greater => "greater",
    };
    Ok(String::from_str(alloc, order)?)
}

/// How many positions are left from a start on, which, what two further calls give, and how many are left then.
fn cursor(alloc: Global, spec: AxisSpec, words: &[String]) -> Result<String, BaseFault> {
    let from = number(one(words)?)?;
    let axes = Axes::build(alloc, &[spec], &[1])?;
    let mut cursor = GridCursor::new(&axes, from);
    let count = cursor.remaining();
    let mut shown = Written::new(alloc);
    shown.push_number(count);
    shown.push(" left:");
    for _call in 0..count.saturating_add(2) {
        push_position(&mut shown, cursor.next());
    }
    shown.push("; ");
    shown.push_number(cursor.remaining());
    shown.push(" left");
    Ok(shown.finish()?)
}

fn push_position(shown: &mut Written, found: Option<u64>) {
    shown.push(" ");
    match found {
        Some(position) => shown.push_number(position),
        None => shown.push("none"),
    }
}
