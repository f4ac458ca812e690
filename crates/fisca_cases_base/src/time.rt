//! Instants and periods.

use crate::fault::BaseFault;
use crate::words::{number, one, three, two};
use crate::written::Written;
use fisca_time::{Instant, Period, TimeFault, Unit};
use std::alloc::Global;

/// The answer to a case of periods and instants: what the call of this name gives for these words.
pub fn answer(alloc: Global, operation: &str, words: &[String]) -> Result<String, BaseFault> {
    match operation {
        "period" => shown(alloc, Period::read(one(words)?)),
        "offset" => offset(alloc, words),
        "offset_by" => offset_by(alloc, words),
        "subperiods" => subperiods(alloc, words),
        "parts" => parts(alloc, words),
        "compare" => compare(alloc, words),
        "instant" => instant(alloc, words),
        "date" => date(alloc, words),
        "earlier" => earlier(alloc, words),
        name => named(alloc, name, words),
    }
}

fn period(word: &str) -> Result<Period, BaseFault> {
    Ok(Period::read(word)?)
}

fn shown(alloc: Global, period: Result<Period, TimeFault>) -> Result<String, BaseFault> {
    Ok(period?.text(alloc)?)
}

/// The period that a move by its name gives.
fn named(alloc: Global, name: &str, words: &[String]) -> Result<String, BaseFault> {
    shown(alloc, moved(name, period(one(words)?)?)?)
}

/// A move that has a name.
fn moved(name: &str, period: Period) -> Result<Result<Period, TimeFault>, BaseFault> {
    match name {
        "this_year" => Ok(period.this_year()),
        "first_month" => Ok(period.first_month()),
        "first_day" => Ok(period.first_day()),
        "last_month" => Ok(period.last_month()),
        "last_year" => Ok(period.last_year()),
        "n_2" => Ok(period.n_2()),
        "last_3_months" => Ok(period.last_3_months()),
        _ => Err(BaseFault::Malformed),
    }
}

fn unit(word: &str) -> Result<Unit, BaseFault> {
    match word {
        "day" => Ok(Unit::Day),
        "month" => Ok(Unit::Month),
        "year" => Ok(Unit::Year),
        "eternity" => Ok(Unit::Eternity),
        _ => Err(BaseFault::Malformed),
    }
}

fn offset(alloc: Global, words: &[String]) -> Result<String, BaseFault> {
    let (text, k) = two(words)?;
    shown(alloc, period(text)?.offset(number(k)?))
}

fn offset_by(alloc: Global, words: &[String]) -> Result<String, BaseFault> {
    let (text, k, by) = three(words)?;
    shown(alloc, period(text)?.offset_by(number(k)?, unit(by)?))
}

/// How many there are, the first and the last.
fn subperiods(alloc: Global, words: &[String]) -> Result<String, BaseFault> {
    let (text, by) = two(words)?;
    let period = period(text)?;
    let unit = unit(by)?;
    let count = period.sub_count(unit)?;
    let first = period.sub(unit, 0).text(alloc)?;
    let last = period.sub(unit, count - 1).text(alloc)?;
    Ok(format!(in alloc; "{count} from {first} to {last}")?)
}

/// The unit, the start, the size, the months and the days of a period.
fn parts(alloc: Global, words: &[String]) -> Result<String, BaseFault> {
    let period = period(one(words)?)?;
    let mut shown = Written::new(alloc);
    push_unit(&mut shown, period.unit());
    push_start(&mut shown, period.start());
    push_optional(&mut shown, ", size ", period.size());
    push_optional(&mut shown, ", months ", period.months());
    push_optional(&mut shown, ", days ", period.days());
    Ok(shown.finish()?)
}

fn push_unit(shown: &mut Written, unit: Unit) {
    shown.push(match unit {
        Unit::Day => "Day",
        Unit::Month => "Month",
        Unit::Year => "Year",
        Unit::Eternity => "Eternity",
    });
}

fn push_start(shown: &mut Written, start: Option<Instant>) {
    shown.push(", start ");
    match start {
        Some(start) => push_day(shown, start),
        None => shown.push("none"),
    }
}

fn push_optional(shown: &mut Written, name: &str, number: Option<u32>) {
    shown.push(name);
    match number {
        Some(number) => shown.push_number(u64::from(number)),
        None => shown.push("none"),
    }
}

/// A year, a month and a day.
fn push_day(shown: &mut Written, instant: Instant) {
    shown.push_number(u64::from(instant.year()));
    shown.push("-");
    shown.push_number(u64::from(instant.month()));
    shown.push("-");
    shown.push_number(u64::from(instant.day()));
}

/// Whether two periods share a day, and how the first stands to the second by unit, start and size.
fn compare(alloc: Global, words: &[String]) -> Result<String, BaseFault> {
    let (left, right) = two(words)?;
    let left = period(left)?;
    let right = period(right)?;
    let shared = if left.overlaps(&right) {
        "overlapping"
    } else {
        "apart"
    };
    let order = match (left < right, left == right) {
        (true, false) => "less",
        (false, true) => "equal",
        (false, false) => "greater",
        (true, true) => "less and equal",
    };
    Ok(format!(in alloc; "{shared}, {order}")?)
}

fn day(alloc: Global, instant: Instant) -> Result<String, BaseFault> {
    let mut shown = Written::new(alloc);
    push_day(&mut shown, instant);
    Ok(shown.finish()?)
}

fn instant(alloc: Global, words: &[String]) -> Result<String, BaseFault> {
    day(alloc, Instant::read(one(words)?)?)
}

fn date(alloc: Global, words: &[String]) -> Result<String, BaseFault> {
    let (year, month, of_month) = three(words)?;
    day(
        alloc,
        Instant::new(number(year)?, number(month)?, number(of_month)?)?,
    )
}

/// Whether the first instant is before the second.
fn earlier(alloc: Global, words: &[String]) -> Result<String, BaseFault> {
    let (left, right) = two(words)?;
    let is_earlier = Instant::read(left)? < Instant::read(right)?;
    Ok(format!(in alloc; "{is_earlier}")?)
}
