//! Periods: what they cover, how they move, and into what they split.
ghost use Rattle.std.specs.Prelude.{◌≡◌, ◌≢◌, ◌<◌, ◌≤◌, ◌+◌, ◌*◌, ◌||◌, ◌↔◌, [], length, slice_get, IfSome, IfOk, IfErr, IsTrue, string_bytes, if◌then◌else◌, pos, ◌-ℤ◌};
ghost use Rattle.fisca_time.specs.Calendar.{first_day, end_day};
ghost use Rattle.fisca_time.specs.Unit.{is_month, is_year, months_in};
ghost use Rattle.fisca_time.specs.Period.{eternity, days, is_period, is_eternal, unit_of, first_of, size_of, months_of, days_of, month_start, month_of, start_day, stop_day, start_of, months_from, days_from, days_from_month, months_moved, days_moved, moved_by, later_month, day_at, month_at, year_at, this_year_of, first_month_of, first_day_of, last_month_of, last_year_of, n_2_of, last_3_months_of, subs, Overlaps};
ghost use Rattle.fisca_time.specs.Steps.Period.{is_of_months};
ghost use Rattle.fisca_time.specs.Kept.{span_of, is_kept};
ghost use Rattle.fisca_time.specs.PeriodText.{period_of_form, period_of_text, text_of, IsShortest};

use crate::form::{Form, written_period};
use crate::text::{written_days, written_months, written_years};
use crate::unit::months_in;
use crate::{Instant, TimeFault, Unit};
use std::alloc::{AllocError, Global};
use std::cmp::Ordering;
use std::hash::Hash;
use std::marker::Model;

/// The month before which no period starts, 0001-01. Months are numbered from January of year 0.
const FIRST_MONTH: u32 = 12;

/// The month after the last one of all periods, 9999-12.
const END_MONTH: u32 = 120_000;

/// The day before which no period starts, 0001-01-01, as `jiff` counts days.
const FIRST_DAY: u32 = 3_652_791;

/// The day after the last one of all periods, 9999-12-31.
const END_DAY: u32 = 7_304_850;

/// The largest size of a period.
const LARGEST_SIZE: u32 = 1_200;

/// Eternity, a size counted in months or years from the first of a month on, or a size counted in
/// days from a day on, between 0001-01-01 and 9999-12-31, as in the OpenFisca documentation.
/// Periods are equal when unit, start and size are, and ordered by unit, the smaller first, then by
/// start, then by size.
#[derive(Clone, Copy, Debug, Eq, Hash)]
pub struct Period {
    /// The unit above the start above the size: one number, in order of periods.
    key: u64,
}

/// What the key of a period is made of.
#[derive(Clone, Copy)]
struct Parts {
    unit: Unit,
    /// The number of the first month, and for days of the first day.
    first: u32,
    size: u16,
}

impl Model for Period {
    ghost use Rattle.std.specs.Prelude.{IsTrue};
    ghost use Rattle.fisca_time.specs.Period.{Span};

    ghost Value = { Span };

    ghost use Rattle.fisca_time.specs.Kept.{span_of_key, is_key, kept_of, kept_back};

    ghost view = { λ p. span_of_key p.key };

    ghost invariant = { λ p. IsTrue (is_key p.key) };

    ghost inverse = { kept_of };

    ghost inverse_ok = { kept_back };
}

#[derived]
impl Hash for Period {
    ghost use Rattle.std.proofs.Common.{ap};
    ghost use Rattle.std.specs.Hash.{u64};
    ghost use Rattle.fisca_time.specs.Kept.{same_key};

    ghost respects_eq = { λ p q same. ap u64 (same_key p q same) };
}

impl PartialEq for Period {
    ghost use Rattle.std.proofs.lemmas.Cmp.{eq_by_cmp_equiv};
    ghost use Rattle.std.specs.Cmp.{partial_equiv_from_equiv};
    ghost use Rattle.std.specs.Ordering.{eq_by_cmp};
    ghost use Rattle.fisca_time.specs.Kept.{span_total};
    ghost use Rattle.fisca_time.specs.Period.{span_cmp};

    ghost eq = { eq_by_cmp span_cmp };

    ghost laws = { partial_equiv_from_equiv (eq_by_cmp_equiv span_total) };

    fn eq(&self, other: &Period) -> bool {
        self.key == other.key
    }
}

impl Ord for Period {
    ghost use Rattle.std.proofs.Common.{rules};
    ghost use Rattle.std.specs.Cmp.Rules.{comparing};
    ghost use Rattle.fisca_time.specs.Period.{span_cmp};

    ghost cmp = { span_cmp };

    ghost total = { Prim.search (comparing, rules) };

    ghost matches_partial_cmp = { Prim.search (comparing, rules) };

    ghost matches_eq = { Prim.search (comparing, rules) };

    fn cmp(&self, other: &Period) -> Ordering {
        self.key.cmp(&other.key)
    }
}

impl PartialOrd for Period {
    ghost use Rattle.std.proofs.Common.{rules};
    ghost use Rattle.std.specs.Cmp.{partial_order_from_own_ties};
    ghost use Rattle.std.specs.Cmp.Rules.{comparing};
    ghost use Rattle.std.specs.Ordering.{as_partial_cmp};
    ghost use Rattle.fisca_time.specs.Period.{span_cmp};

    ghost partial_cmp = { as_partial_cmp span_cmp };

    ghost laws = { partial_order_from_own_ties (Prim.search (comparing, rules)) (Prim.search (comparing, rules)) };

    fn partial_cmp(&self, other: &Period) -> Option<Ordering> {
        Some(self.cmp(other))
    }
}

impl Period {
    /// All of time.
    pub const ETERNITY: Period = Period { key: 3 << 48 };

    /// The period with these parts.
    fn of(unit: Unit, first: u64, size: u16) -> Period
        requires { IsTrue (is_kept unit first size) }
        ensures { result ≡ span_of unit first size }
    {
        let unit = u64::from(unit as u8);
        Period {
            key: (unit * (1 << 32) + first) * (1 << 16) + u64::from(size),
        }
    }

    fn parts(self) -> Parts
        ensures span { span_of result.unit result.first result.size ≡ self }
        ensures kept { IsTrue (is_kept result.unit result.first result.size) }
    {
        Parts {
            unit: Unit::ranked((self.key >> 48) as u8),
            first: ((self.key >> 16) % (1 << 32)) as u32,
            size: (self.key % (1 << 16)) as u16,
        }
    }

    /// The period that a text names, in the forms of the OpenFisca documentation: `2010` is a year,
    /// `2010-04` a month, `2010-04-05` a day, `year:2010-04` the year from April 2010, `year:2010:3`
    /// three years, `month:2010-04:3` three months, `day:2010-04-05:3` three days, and `ETERNITY` or
    /// `eternity` is all of time. Years have four digits, months and days one or two, and sizes any
    /// number of them.
    ///
    /// Any other text is `BadText`. In one of these forms, a start that is no day of the calendar in
    /// the years 1 to 9999, a size outside 1 to 1,200 and a last day after 9999-12-31 are
    /// `OutOfRange`.
    pub fn read(text: &str) -> Result<Period, TimeFault>
        ensures { result ≡ period_of_text text.now }
    {
        if text == "ETERNITY" || text == "eternity" {
            return Ok(Period::ETERNITY);
        }
        match written_period(text) {
            Some(form) => Period::of_form(form),
            None => Err(TimeFault::BadText),
        }
    }

    fn of_form(form: Form) -> Result<Period, TimeFault>
        requires unit { form.unit ≢ Unit.Eternity }
        requires year { form.year < 10_000 }
        requires month { form.month < 100 }
        requires day { form.day < 100 }
        ensures { result ≡ period_of_form form }
    {
        let start = Instant::new(form.year as u16, form.month as u8, form.day as u8)?;
        if form.size < 1 || form.size > LARGEST_SIZE {
            return Err(TimeFault::OutOfRange);
        }
        let size = form.size as u16;
        if form.unit == Unit::Day {
            Period::from_day(size, i128::from(start.day_number()))
        } else {
            Period::from_month(form.unit, size, i64::from(start.month_number()))
        }
    }

    /// The shortest text that reads as this period in its own unit, with months and days in two
    /// digits: `2010`, `2010-04`, `2010-04-05`, `year:2010-04`, `year:2010:3`, `month:2010-04:3`,
    /// `day:2010-04-05:3`, `ETERNITY`. `Memory` only where none is left.
    pub fn text(self, alloc: Global) -> Result<String, TimeFault>
        ensures value { IfOk result (λ text. string_bytes text ≡ text_of self) }
        ensures reads_back { IfOk result (λ text. period_of_text (string_bytes text) ≡ Ok self) }
        ensures shortest { IfOk result (λ text. IsShortest self (string_bytes text)) }
        ensures memory { IfErr result (λ fault. fault ≡ TimeFault.Memory) }
    {
        Ok(self.formatted(alloc)?)
    }

    fn formatted(self, alloc: Global) -> Result<String, AllocError>
        ensures value { IfOk result (λ text. string_bytes text ≡ text_of self) }
        ensures period { IsTrue (is_period self) }
    {
        let Parts { unit, first, size } = self.parts();
        match unit {
            Unit::Day => written_days(alloc, Instant::of_day(first), size),
            Unit::Month => written_months(alloc, first, size),
            Unit::Year => written_years(alloc, first, size),
            Unit::Eternity => String::from_str(alloc, "ETERNITY"),
        }
    }

    /// The day on which the period starts: for months and years the first of a month. `None` for
    /// eternity.
    pub fn start(self) -> Option<Instant>
        ensures { result ≡ start_of self }
    {
        if self.is_of_months() {
            Some(Instant::first_of(self.first()))
        } else if self.key >> 48 == Unit::Day as u64 {
            Some(Instant::of_day(self.first()))
        } else {
            None
        }
    }

    /// What the size is counted in.
    pub fn unit(self) -> Unit
        ensures value { result ≡ unit_of self }
        ensures period { IsTrue (is_period self) }
    {
        self.parts().unit
    }

    /// How many of its unit the period has, 1 to 1,200. `None` for eternity.
    pub fn size(self) -> Option<u32>
        ensures value { result ≡ (if is_eternal self then None else Some (size_of self)) }
        ensures period { IsTrue (is_period self) }
    {
        let parts = self.parts();
        match parts.unit {
            Unit::Day | Unit::Month | Unit::Year => Some(u32::from(parts.size)),
            Unit::Eternity => None,
        }
    }

    /// The number of months, 1 to 14,400. `None` for days and for eternity.
    pub fn months(self) -> Option<u32>
        ensures value { result ≡ (if is_of_months self then Some (months_of self) else None) }
        ensures period { IsTrue (is_period self) }
    {
        if self.is_of_months() {
            Some(self.month_count())
        } else {
            None
        }
    }

    /// The number of the first month, and for days of the first day.
    fn first(self) -> u32
        ensures value { result ≡ first_of self }
        ensures period { IsTrue (is_period self) }
    {
        ((self.key >> 16) % (1 << 32)) as u32
    }

    /// Whether the size is counted in months or years.
    fn is_of_months(self) -> bool
        ensures { result ≡ is_of_months self }
    {
        let rank = self.key >> 48;
        rank == 1 || rank == 2
    }

    fn month_count(self) -> u32
        ensures { result ≡ months_of self }
    {
        // The months in one of its unit, by the unit's place among all: 0 where none are counted.
        const MONTHS: [u32; 4] = [0, 1, 12, 0];
        MONTHS[(self.key >> 48) as usize] * (self.key % (1 << 16)) as u32
    }

    /// The number of days, 1 to 438,291. `None` for eternity.
    pub fn days(self) -> Option<u32>
        ensures value { result ≡ (if is_eternal self then None else Some (days_of self)) }
        ensures period { IsTrue (is_period self) }
    {
        let (first, end) = self.day_range()?;
        Some(end - first)
    }

    /// The numbers of the first day and of the day after the last one. `None` for eternity.
    fn day_range(self) -> Option<(u32, u32)>
        ensures value { result ≡ (if is_eternal self then None else Some (record { 0 = start_day self; 1 = stop_day self })) }
        ensures order { IfSome result (λ range. range.0 < range.1) }
        ensures period { IsTrue (is_period self) }
    {
        match self.unit() {
            Unit::Day | Unit::Month | Unit::Year => Some((self.start_day(), self.stop_day())),
            Unit::Eternity => None,
        }
    }

    /// The number of the first day, and 0 for eternity.
    fn start_day(self) -> u32
        ensures value { result ≡ start_day self }
        ensures period { IsTrue (is_period self) }
    {
        let parts = self.parts();
        match parts.unit {
            Unit::Day => parts.first,
            Unit::Month | Unit::Year => month_start(parts.first),
            Unit::Eternity => 0,
        }
    }

    /// The number of the day after the last one, and 0 for eternity.
    fn stop_day(self) -> u32
        ensures { result ≡ stop_day self }
    {
        let parts = self.parts();
        match parts.unit {
            Unit::Day => parts.first + u32::from(parts.size),
            Unit::Month | Unit::Year => month_start(parts.first + self.month_count()),
            Unit::Eternity => 0,
        }
    }

    /// The numbers of the first month and of the month after the last one. `None` for days and for
    /// eternity.
    fn month_range(self) -> Option<(u32, u32)>
        ensures value { result ≡ (if is_of_months self then Some (record { 0 = first_of self; 1 = first_of self + months_of self }) else None) }
        ensures period { IsTrue (is_period self) }
    {
        let parts = self.parts();
        match parts.unit {
            Unit::Month | Unit::Year => Some((parts.first, parts.first + self.month_count())),
            Unit::Day | Unit::Eternity => None,
        }
    }

    /// How many subperiods by that unit there are: each period but eternity has its days, a month or
    /// year period its months, a year period its years. `NoSubperiods` for all others: years of a
    /// month period, months and years of a day period, subperiods by eternity and any of eternity.
    pub fn sub_count(self, unit: Unit) -> Result<u32, TimeFault>
        ensures count { IfOk result (λ count. (count ≡ length (subs self unit)) × (0 < count)) }
        ensures none { IfErr result (λ fault. (fault ≡ TimeFault.NoSubperiods) × (subs self unit ≡ [])) }
    {
        match self.length_in(unit) {
            0 => Err(TimeFault::NoSubperiods),
            count => Ok(count),
        }
    }

    fn length_in(self, unit: Unit) -> u32
        ensures { result ≡ length (subs self unit) }
    {
        match unit {
            Unit::Day => self.stop_day() - self.start_day(),
            // Days and eternity are not counted in months and have 0.
            Unit::Month => self.month_count(),
            Unit::Year => {
                let parts = self.parts();
                match parts.unit {
                    Unit::Year => u32::from(parts.size),
                    Unit::Day | Unit::Month | Unit::Eternity => 0,
                }
            }
            Unit::Eternity => 0,
        }
    }

    /// The subperiod by that unit at place `i` in order of time, from 0.
    pub fn sub(self, unit: Unit, i: u32) -> Period
        requires { i < length (subs self unit) }
        ensures { slice_get (subs self unit) i ≡ Some result }
    {
        match unit {
            Unit::Day => day_at(self.start_day() + i),
            Unit::Month => month_at(self.first() + i),
            Unit::Year => year_at(self.first() / 12 + i),
            Unit::Eternity => unreachable!(),
        }
    }

    /// Whether the two share a day. Eternity overlaps every period.
    pub fn overlaps(self, other: &Period) -> bool
        ensures { IsTrue result ↔ Overlaps self other.now }
    {
        // The days of two rows of months need not be worked out.
        if let (Some(ours), Some(theirs)) = (self.month_range(), other.month_range()) {
            return meet(ours, theirs);
        }
        let (Some(ours), Some(theirs)) = (self.day_range(), other.day_range()) else {
            return true;
        };
        meet(ours, theirs)
    }

    /// The number of the month in which the period starts. `OutOfRange` for eternity.
    fn start_month(self) -> Result<u32, TimeFault>
        ensures value { result ≡ (if is_eternal self then Err TimeFault.OutOfRange else Ok (month_of self)) }
        ensures from { IfOk result (λ month. 12 ≤ month) }
        ensures to { IfOk result (λ month. month < 120_000) }
    {
        if self.is_of_months() {
            Ok(self.first())
        } else if self.key >> 48 == Unit::Day as u64 {
            Ok(month_of_day(self.first()))
        } else {
            Err(TimeFault::OutOfRange)
        }
    }

    /// The calendar year of the start. `OutOfRange` for eternity.
    pub fn this_year(self) -> Result<Period, TimeFault>
        ensures { result ≡ this_year_of self }
    {
        Ok(year_at(self.start_month()? / 12))
    }

    /// The month of the start. `OutOfRange` for eternity.
    pub fn first_month(self) -> Result<Period, TimeFault>
        ensures { result ≡ first_month_of self }
    {
        Ok(month_at(self.start_month()?))
    }

    /// The day of the start. `OutOfRange` for eternity.
    pub fn first_day(self) -> Result<Period, TimeFault>
        ensures { result ≡ first_day_of self }
    {
        match self.unit() {
            Unit::Day | Unit::Month | Unit::Year => Ok(day_at(self.start_day())),
            Unit::Eternity => Err(TimeFault::OutOfRange),
        }
    }

    /// The month before that of the start. `OutOfRange` for eternity and before 0001-01.
    pub fn last_month(self) -> Result<Period, TimeFault>
        ensures { result ≡ last_month_of self }
    {
        Period::back(Unit::Month, 1, self.start_month()?, 1)
    }

    /// The calendar year before that of the start. `OutOfRange` for eternity and before 0001-01.
    pub fn last_year(self) -> Result<Period, TimeFault>
        ensures { result ≡ last_year_of self }
    {
        Period::back(Unit::Year, 1, self.start_month()? / 12 * 12, 12)
    }

    /// The second calendar year before that of the start. `OutOfRange` for eternity and before
    /// 0001-01.
    pub fn n_2(self) -> Result<Period, TimeFault>
        ensures { result ≡ n_2_of self }
    {
        Period::back(Unit::Year, 1, self.start_month()? / 12 * 12, 24)
    }

    /// The three months before that of the start. `OutOfRange` for eternity and before 0001-01.
    pub fn last_3_months(self) -> Result<Period, TimeFault>
        ensures { result ≡ last_3_months_of self }
    {
        Period::back(Unit::Month, 3, self.start_month()?, 3)
    }

    /// The period with its start moved by `k` of its own unit, back for a negative `k`, and its
    /// size kept. `OutOfRange` for eternity, and where it would leave 0001-01-01 to 9999-12-31.
    pub fn offset(self, k: i64) -> Result<Period, TimeFault>
        ensures { result ≡ moved_by k (unit_of self) self }
    {
        let Parts { unit, first, size } = self.parts();
        match unit {
            Unit::Day => Period::from_day(size, i128::from(first) + i128::from(k)),
            Unit::Month | Unit::Year => Period::months_moved(unit, size, first, k, unit),
            Unit::Eternity => Err(TimeFault::OutOfRange),
        }
    }

    /// The period with its start moved by `k` of `unit`, back for a negative `k`, and its own unit
    /// and size kept. A day that is moved by months or years keeps its place in the month or, where
    /// the month is too short, becomes its last day. `OutOfRange` for eternity, by eternity, by days
    /// of a month or year period, and where it would leave 0001-01-01 to 9999-12-31.
    pub fn offset_by(self, k: i64, unit: Unit) -> Result<Period, TimeFault>
        ensures { result ≡ moved_by k unit self }
    {
        let Parts {
            unit: own,
            first,
            size,
        } = self.parts();
        match own {
            Unit::Day => Period::days_moved(size, first, k, unit),
            Unit::Month | Unit::Year => Period::months_moved(own, size, first, k, unit),
            Unit::Eternity => Err(TimeFault::OutOfRange),
        }
    }

    fn months_moved(
        own: Unit,
        size: u16,
        first: u32,
        k: i64,
        unit: Unit,
    ) -> Result<Period, TimeFault>
        requires counted { IsTrue (is_month own || is_year own) }
        requires some { 1 ≤ size }
        requires most { size ≤ 1200 }
        requires first { first < 120_000 }
        ensures { result ≡ months_moved k unit own first size }
    {
        match unit {
            Unit::Month | Unit::Year => {
                // By more than that it leaves the calendar, and by less no sum leaves 64 bits.
                if k < -120_000 || k > 120_000 {
                    return Err(TimeFault::OutOfRange);
                }
                let first = i64::from(first) + k * i64::from(months_in(unit));
                Period::from_month(own, size, first)
            }
            Unit::Day | Unit::Eternity => Err(TimeFault::OutOfRange),
        }
    }

    fn days_moved(size: u16, first: u32, k: i64, unit: Unit) -> Result<Period, TimeFault>
        requires some { 1 ≤ size }
        requires most { size ≤ 1200 }
        requires from { first_day ≤ first }
        requires to { first < end_day }
        ensures { result ≡ days_moved k unit first size }
    {
        match unit {
            Unit::Day => Period::from_day(size, i128::from(first) + i128::from(k)),
            Unit::Month | Unit::Year => {
                let start = Instant::of_day(first);
                let month = later_month(start.month_number(), k, unit);
                Period::from_day_in_month(size, start.day(), month)
            }
            Unit::Eternity => Err(TimeFault::OutOfRange),
        }
    }

    /// The period of that unit and size that starts so many months before a month, and ends before it.
    fn back(unit: Unit, size: u16, month: u32, months: u32) -> Result<Period, TimeFault>
        requires counted { IsTrue (is_month unit || is_year unit) }
        requires some { 1 ≤ size }
        requires most { size ≤ 1200 }
        requires before { months_in unit * size ≤ months }
        requires near { months ≤ 24 }
        requires month { month < 120_000 }
        ensures { result ≡ months_from unit size (pos month -ℤ pos months) }
    {
        if month < FIRST_MONTH + months {
            return Err(TimeFault::OutOfRange);
        }
        Ok(Period::of(unit, u64::from(month) - u64::from(months), size))
    }

    /// The period of that unit and size from a month on.
    fn from_month(unit: Unit, size: u16, first: i64) -> Result<Period, TimeFault>
        requires counted { IsTrue (is_month unit || is_year unit) }
        requires some { 1 ≤ size }
        requires most { size ≤ 1200 }
        ensures { result ≡ months_from unit size first }
    {
        let months = u32::from(months_in(unit)) * u32::from(size);
        if first < i64::from(FIRST_MONTH) || first > i64::from(END_MONTH - months) {
            return Err(TimeFault::OutOfRange);
        }
        Ok(Period::of(unit, first as u64, size))
    }

    /// So many days from a day on.
    fn from_day(size: u16, first: i128) -> Result<Period, TimeFault>
        requires some { 1 ≤ size }
        requires most { size ≤ 1200 }
        ensures { result ≡ days_from size first }
    {
        if first < i128::from(FIRST_DAY) || first > i128::from(END_DAY - u32::from(size)) {
            return Err(TimeFault::OutOfRange);
        }
        Ok(Period::of(Unit::Day, first as u64, size))
    }

    /// So many days from that day of a month on, or from its last one where it is too short.
    fn from_day_in_month(size: u16, day: u8, month: i128) -> Result<Period, TimeFault>
        requires day { 1 ≤ day }
        requires some { 1 ≤ size }
        requires most { size ≤ 1200 }
        ensures { result ≡ days_from_month size day month }
    {
        if month < i128::from(FIRST_MONTH) || month >= i128::from(END_MONTH) {
            return Err(TimeFault::OutOfRange);
        }
        let start = Instant::in_month(day, month as u32);
        Period::from_day(size, i128::from(start.day_number()))
    }
}

/// Whether two rows of numbers, each from a first one to before an end, have one in common.
fn meet(ours: (u32, u32), theirs: (u32, u32)) -> bool
    ensures { IsTrue result ↔ ((ours.0 < theirs.1) × (theirs.0 < ours.1)) }
{
    ours.0 < theirs.1 && theirs.0 < ours.1
}

/// The number of a month that was moved by `k` of a unit of months.
fn later_month(month: u32, k: i64, unit: Unit) -> i128
    ensures { result ≡ later_month k unit month }
{
    i128::from(month) + i128::from(k) * i128::from(months_in(unit))
}

/// The number of the month that a day lies in. Most of what is moved by name starts with a month, so this is kept out of its way.
#[cold]
#[inline(never)]
fn month_of_day(day: u32) -> u32
    requires from { first_day ≤ day }
    requires to { day < end_day }
    ensures value { result ≡ month_of (days day 1) }
    ensures from { 12 ≤ result }
    ensures to { result < 120_000 }
{
    Instant::of_day(day).month_number()
}

/// The number of the first day of a month, and of the day after 9999-12-31 for the month after it.
fn month_start(month: u32) -> u32
    requires from { 12 ≤ month }
    requires to { month ≤ 120_000 }
    ensures { result ≡ month_start month }
{
    if month == END_MONTH {
        END_DAY
    } else {
        Instant::first_of(month).day_number()
    }
}

fn day_at(day: u32) -> Period
    requires from { first_day ≤ day }
    requires to { day < end_day }
    ensures { result ≡ day_at day }
{
    Period::of(Unit::Day, u64::from(day), 1)
}

fn month_at(month: u32) -> Period
    requires from { 12 ≤ month }
    requires to { month < 120_000 }
    ensures { result ≡ month_at month }
{
    Period::of(Unit::Month, u64::from(month), 1)
}

fn year_at(year: u32) -> Period
    requires from { 1 ≤ year }
    requires to { year < 10_000 }
    ensures { result ≡ year_at year }
{
    Period::of(Unit::Year, 12 * u64::from(year), 1)
}
