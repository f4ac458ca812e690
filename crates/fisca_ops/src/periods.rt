//! Periods of a formula: moves, starts, parts.

ghost use Rattle.std.specs.Prelude.{◌≡◌, ◌+◌, ◌<◌, ◌^◌, ℕ, [], ◌∷◌, drop, MatchOption};
ghost use Rattle.fisca_key_semantics.specs.Dialogues.{Dialogue};
ghost use Rattle.fisca_typing.specs.Questions as asking;
ghost use Rattle.fisca_model.specs.Periods as model;
ghost use Rattle.fisca_time.specs.Instant.{CivilDate};
ghost use Rattle.fisca_time.specs.Period.{subs};
ghost use Rattle.fisca_ops.specs.Ended.{ended};

use crate::fault::OperationFault;
use crate::numbers::whole;
use fisca_model::Value;
use fisca_time::{Instant, Period, TimeFault, Unit};
use fisca_typing::{DatePart, Move};

/// The period that a step leads to, as `moved` has it. `OutOfRange` for eternity, and where it would leave the calendar.
pub fn moved(step: Move, period: Period) -> Result<Period, TimeFault>
    ensures { result ≡ asking.moved step period }
{
    match step {
        Move::ThisYear => period.this_year(),
        Move::FirstMonth => period.first_month(),
        Move::FirstDay => period.first_day(),
        Move::LastMonth => period.last_month(),
        Move::LastThreeMonths => period.last_3_months(),
        Move::LastYear => period.last_year(),
        Move::TwoYearsAgo => period.n_2(),
        Move::Offset(count) => period.offset(count),
        Move::OffsetBy(count, unit) => period.offset_by(count, unit),
    }
}

/// The period that steps lead to one after another, as `moved_all` has it, or the first one's fault.
#[inline(always)]
pub fn moved_all(steps: &[Move], period: Period) -> Result<Period, TimeFault>
    ensures { result ≡ asking.moved_all steps.now period }
{
    let mut here = period;
    for step in steps {
        here = moved(*step, here)?;
    }
    Ok(here)
}

/// The day on which the period starts that steps lead to, as `at_start` goes on with it: `OutOfRange` where a step leaves the calendar, and of
/// eternity, which has no start.
pub fn start_at(steps: &[Move], period: Period) -> Result<Instant, TimeFault>
    ensures { (f : CivilDate → Dialogue) → asking.at_start steps.now period f ≡ asking.in_range result f }
{
    let here = moved_all(steps, period)?;
    match here.start() {
        Some(day) => Ok(day),
        None => Err(TimeFault::OutOfRange),
    }
}

/// A part of a day, as `part_of` has it.
pub fn part_of(part: DatePart, day: Instant) -> u16
    ensures { result ≡ asking.part_of part day }
{
    match part {
        DatePart::Year => day.year(),
        DatePart::Month => u16::from(day.month()),
        DatePart::Day => u16::from(day.day()),
    }
}

/// The number of what is counted, as `counted` has it.
pub fn counted(count: usize) -> Result<Value, OperationFault>
    requires { count < 2 ^ 63 }
    ensures { ended result ≡ asking.counted count }
{
    whole(count as i64)
}

/// The period that the key of a variable has that is asked for at a period, as `key_period` has it: of an eternal variable the eternal one.
pub fn key_period(unit: Unit, period: Period) -> Period
    ensures { result ≡ model.key_period unit period }
{
    match unit {
        Unit::Day | Unit::Month | Unit::Year => period,
        Unit::Eternity => Period::ETERNITY,
    }
}

/// Whether a period has no parts of this unit that could be added up, as `has_no_parts` has it.
pub fn has_no_parts(unit: Unit, period: Period) -> bool
    ensures { result ≡ asking.has_no_parts unit period }
{
    period.unit() < unit || unit == Unit::Eternity || period.unit() == Unit::Eternity
}

/// The part of a period by a unit at a place in order of time; none behind the last.
#[tactic(auto, using(crate::proofs::Next::next_item))]
pub fn next_part(unit: Unit, period: Period, next: u32) -> Option<Period>
    ensures { MatchOption result (drop next (subs period unit) ≡ []) (λ part. drop next (subs period unit) ≡ part ∷ drop (next + 1) (subs period unit)) }
{
    match period.sub_count(unit) {
        Ok(count) if next < count => Some(period.sub(unit, next)),
        Ok(_) | Err(_) => None,
    }
}
