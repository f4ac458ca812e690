//! Reading, writing, moving, dividing, comparing and hashing periods, on a table of periods that is gone over again
//! and again.
use crate::{Measurement, list, show};
use fisca_time::{Period, Unit};
use std::alloc::{AllocError, Global};
use std::hash::{FoldHasher, Hash, Hasher};
use std::io;
use std::rt::Clock;
use std::time::Instant;

/// How many operations one pass over the table makes.
const TABLE: u64 = 1024;

/// What operations work on: periods of all forms, and days.
#[derive(Drop)]
struct Operands {
    texts: Vec<String>,
    periods: Vec<Period>,
    day_texts: Vec<String>,
    days: Vec<Period>,
}

/// `periods OPERATION COUNT`.
pub fn run(rt: &(impl Print + Clock), alloc: Global, words: &[String]) -> io::Result<()> {
    match words {
        [operation, count] => {
            let count: u64 = count.as_str().parse().unwrap_or(0);
            match measure(rt, alloc, operation.as_str(), count / TABLE)? {
                Some(measured) => show(rt, measured),
                None => list(rt),
            }
        }
        _ => list(rt),
    }
}

/// Measures an operation, going over the table as often as `rounds` says.
fn measure(
    rt: &impl Clock,
    alloc: Global,
    operation: &str,
    rounds: u64,
) -> io::Result<Option<Measurement>> {
    let operands = operands_of(alloc)?;
    let start = Instant::now(rt)?;
    match gone_over(alloc, &operands, operation, rounds) {
        Some(checksum) => Ok(Some(Measurement {
            nanoseconds: start.elapsed(rt)?.as_nanos(),
            checksum,
        })),
        None => Ok(None),
    }
}

fn operands_of(alloc: Global) -> Result<Operands, AllocError> {
    let texts = texts_of(alloc)?;
    let periods = periods_of(alloc, texts.as_slice())?;
    let day_texts = day_texts_of(alloc)?;
    let days = periods_of(alloc, day_texts.as_slice())?;
    Ok(Operands {
        texts,
        periods,
        day_texts,
        days,
    })
}

/// The checksum of an operation.
fn gone_over(alloc: Global, operands: &Operands, operation: &str, rounds: u64) -> Option<u64> {
    let periods = operands.periods.as_slice();
    match operation {
        "read" => Some(read(operands.texts.as_slice(), rounds)),
        "text" => Some(written(alloc, periods, rounds)),
        "offset" => Some(offset(periods, rounds)),
        "named" => Some(named(periods, rounds)),
        "sub" => Some(last_months(periods, rounds)),
        "compare" => Some(compared(periods, rounds)),
        "hash" => Some(hashed(periods, rounds)),
        _ => gone_over_days(alloc, operands, operation, rounds),
    }
}

/// The checksum of an operation on days.
fn gone_over_days(alloc: Global, operands: &Operands, operation: &str, rounds: u64) -> Option<u64> {
    let (periods, days) = (operands.periods.as_slice(), operands.days.as_slice());
    match operation {
        "read_days" => Some(read(operands.day_texts.as_slice(), rounds)),
        "text_days" => Some(written(alloc, days, rounds)),
        "move_by_days" => Some(moved(days, Unit::Day, rounds)),
        "move_by_months" => Some(moved(days, Unit::Month, rounds)),
        "day_of_year" => Some(year_days(periods, rounds)),
        "overlaps" => Some(overlapping(days, periods, rounds)),
        _ => None,
    }
}

/// The next of a row of numbers that look like random ones.
fn next(state: u64) -> u64 {
    let mut x = state;
    x ^= x << 13;
    x ^= x >> 7;
    x ^= x << 17;
    x
}

/// Texts of all forms, months most often.
fn texts_of(alloc: Global) -> Result<Vec<String>, AllocError> {
    let mut texts = Vec::with_capacity(alloc, TABLE as usize)?;
    let mut state = 88_172_645_463_325_252u64;
    for _ in 0..TABLE {
        let a = next(state);
        state = next(a);
        let year = 1900 + a % 200;
        let month = 1 + state % 12;
        let size = 2 + state % 30;
        texts.push(match a % 8 {
            0 => format!(in alloc; "{year}")?,
            1 => format!(in alloc; "year:{year}-{month:02}")?,
            2 => format!(in alloc; "month:{year}-{month:02}:{size}")?,
            3 => format!(in alloc; "year:{year}:{size}")?,
            _ => format!(in alloc; "{year}-{month:02}")?,
        })?;
    }
    Ok(texts)
}

/// Texts of days, the last ones of months among them.
fn day_texts_of(alloc: Global) -> Result<Vec<String>, AllocError> {
    let mut texts = Vec::with_capacity(alloc, TABLE as usize)?;
    let mut state = 88_172_645_463_325_252u64;
    for _ in 0..TABLE {
        let a = next(state);
        state = next(a);
        let year = 1900 + a % 200;
        let (month, day) = match state % 4 {
            0 => (1 + state % 12, 1 + a % 28),
            1 => (1, 31),
            2 => (5, 31),
            _ => (10, 31),
        };
        let size = 2 + state % 30;
        texts.push(match a % 4 {
            0 => format!(in alloc; "day:{year}-{month:02}-{day:02}:{size}")?,
            _ => format!(in alloc; "{year}-{month:02}-{day:02}")?,
        })?;
    }
    Ok(texts)
}

fn periods_of(alloc: Global, texts: &[String]) -> Result<Vec<Period>, AllocError> {
    let mut periods = Vec::with_capacity(alloc, TABLE as usize)?;
    for text in texts {
        periods.push(Period::read(text.as_str()).unwrap_or(Period::ETERNITY))?;
    }
    Ok(periods)
}

/// A checksum with one more period.
fn mixed(checksum: u64, period: Period) -> u64 {
    let months = u64::from(period.months().unwrap_or(0));
    let start = match period.start() {
        Some(day) => u64::from(day.year()) * 16 + u64::from(day.month()),
        None => 0,
    };
    checksum.rotate_left(5).wrapping_add((start << 16) ^ months)
}

/// A checksum with the start of one more period.
fn mixed_start(checksum: u64, period: Period) -> u64 {
    let start = match period.start() {
        Some(day) => {
            (u64::from(day.year()) * 16 + u64::from(day.month())) * 32 + u64::from(day.day())
        }
        None => 0,
    };
    checksum.rotate_left(5).wrapping_add(start)
}

fn read(texts: &[String], rounds: u64) -> u64 {
    let mut checksum = 0;
    for _ in 0..rounds {
        for text in texts {
            if let Ok(period) = Period::read(text.as_str()) {
                checksum = mixed(checksum, period);
            }
        }
    }
    checksum
}

fn written(alloc: Global, periods: &[Period], rounds: u64) -> u64 {
    let mut checksum: u64 = 0;
    for _ in 0..rounds {
        for period in periods {
            if let Ok(text) = period.text(alloc) {
                let last = text.as_bytes().last().copied().unwrap_or(0);
                checksum = checksum
                    .rotate_left(5)
                    .wrapping_add(text.len() as u64 ^ u64::from(last));
            }
        }
    }
    checksum
}

/// Moves by -8 to 7 of the period's own unit.
fn offset(periods: &[Period], rounds: u64) -> u64 {
    let mut checksum = 0;
    for round in 0..rounds {
        let k = (round % 16) as i64 - 8;
        for period in periods {
            if let Ok(moved) = period.offset(k) {
                checksum = mixed(checksum, moved);
            }
        }
    }
    checksum
}

/// The moves that formulas name, as they are asked for in a formula.
fn named(periods: &[Period], rounds: u64) -> u64 {
    let mut checksum = 0;
    for round in 0..rounds {
        for period in periods {
            let moved = match round % 4 {
                0 => period.last_month(),
                1 => period.last_year(),
                2 => period.this_year(),
                _ => period.last_3_months(),
            };
            if let Ok(moved) = moved {
                checksum = mixed(checksum, moved);
            }
        }
    }
    checksum
}

/// The last month of each period.
fn last_months(periods: &[Period], rounds: u64) -> u64 {
    let mut checksum = 0;
    for _ in 0..rounds {
        for period in periods {
            if let Ok(count) = period.sub_count(Unit::Month) {
                checksum = mixed(checksum, period.sub(Unit::Month, count - 1));
            }
        }
    }
    checksum
}

/// Equality and order of each period and its neighbour.
fn compared(periods: &[Period], rounds: u64) -> u64 {
    let (mut equal, mut less) = (0u64, 0u64);
    let mut before = Period::ETERNITY;
    for _ in 0..rounds {
        for period in periods {
            equal = equal.wrapping_add(u64::from(*period == before));
            less = less.wrapping_add(u64::from(*period < before));
            before = *period;
        }
    }
    equal.wrapping_mul(1_000_003).wrapping_add(less)
}

fn hashed(periods: &[Period], rounds: u64) -> u64 {
    let mut checksum: u64 = 0;
    for _ in 0..rounds {
        for period in periods {
            let mut hasher = FoldHasher::default();
            period.hash(&mut hasher);
            checksum = checksum.rotate_left(5).wrapping_add(hasher.finish());
        }
    }
    checksum
}

/// Moves of days by -8 to 7 of a unit.
fn moved(days: &[Period], unit: Unit, rounds: u64) -> u64 {
    let mut checksum = 0;
    for round in 0..rounds {
        let k = (round % 16) as i64 - 8;
        for day in days {
            if let Ok(moved) = day.offset_by(k, unit) {
                checksum = mixed_start(checksum, moved);
            }
        }
    }
    checksum
}

/// A day of each period, another one in each round.
fn year_days(periods: &[Period], rounds: u64) -> u64 {
    let mut checksum = 0;
    for round in 0..rounds {
        for period in periods {
            if let Ok(count) = period.sub_count(Unit::Day) {
                let i = (round % 365) as u32;
                checksum = mixed_start(checksum, period.sub(Unit::Day, i % count));
            }
        }
    }
    checksum
}

/// How many of the days share a day with the period at the same place.
fn overlapping(days: &[Period], periods: &[Period], rounds: u64) -> u64 {
    let mut shared: u64 = 0;
    for _ in 0..rounds {
        for (day, period) in days.iter().zip(periods) {
            shared = shared.wrapping_add(u64::from(day.overlaps(period)));
        }
    }
    shared
}
