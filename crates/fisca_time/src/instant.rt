//! Days of the calendar.
ghost use Rattle.std.specs.Prelude.{◌≡◌, ◌<◌, ◌≤◌, pos, ◌≤ℤ◌, unsigned_abs, IsTrue, IfSome, option_map};
ghost use Rattle.fisca_time.specs.Calendar.{first_of_month, day_in_month, month_number, day_number, date_of, first_day, end_day};
ghost use Rattle.fisca_time.specs.Instant.{is_on_calendar, date_of_pieces, instant_if_real, instant_of_text};
ghost use Rattle.fisca_time.specs.Pieces.{pieces, dash};

use crate::TimeFault;
use crate::pieces::{numeral, split};
use jiff_core::civil::{Date, days_in_month};
use std::cmp::Ordering;
use std::marker::Model;

/// The number of the first date that `jiff` has, -9999-01-01: it counts from a year before it.
const FIRST_DATE: u32 = 366;

/// A day of the calendar, from 0001-01-01 to 9999-12-31. Instants are ordered by time.
#[derive(Clone, Copy, Debug, PartialEq, Eq, Hash)]
pub struct Instant {
    year: u16,
    month: u8,
    day: u8,
}

impl Model for Instant {
    ghost use Rattle.std.specs.Prelude.{IsTrue};
    ghost use Rattle.fisca_time.specs.Instant.{CivilDate, is_on_calendar};

    ghost Value = { CivilDate };

    ghost view = { λ i. record { year = i.year; month = i.month; day = i.day } };

    ghost invariant = { λ i. IsTrue (is_on_calendar (record { year = i.year; month = i.month; day = i.day })) };

    ghost inverse = { λ d. record { year = d.year; month = d.month; day = d.day } };
}

impl Ord for Instant {
    ghost use Rattle.std.proofs.Common.{rules};
    ghost use Rattle.std.specs.Cmp.Rules.{comparing};
    ghost use Rattle.fisca_time.specs.Instant.{date_cmp};

    ghost cmp = { date_cmp };

    ghost total = { Prim.search (comparing, rules) };

    ghost matches_partial_cmp = { Prim.search (comparing, rules) };

    ghost matches_eq = { Prim.search (comparing, rules) };

    fn cmp(&self, other: &Instant) -> Ordering {
        let month = self.month.cmp(&other.month);
        self.year
            .cmp(&other.year)
            .then(month)
            .then(self.day.cmp(&other.day))
    }
}

impl PartialOrd for Instant {
    ghost use Rattle.std.proofs.Common.{rules};
    ghost use Rattle.std.specs.Cmp.{partial_order_from_own_ties};
    ghost use Rattle.std.specs.Cmp.Rules.{comparing};
    ghost use Rattle.std.specs.Ordering.{as_partial_cmp};
    ghost use Rattle.fisca_time.specs.Instant.{date_cmp};

    ghost partial_cmp = { as_partial_cmp date_cmp };

    ghost laws = { partial_order_from_own_ties (Prim.search (comparing, rules)) (Prim.search (comparing, rules)) };

    fn partial_cmp(&self, other: &Instant) -> Option<Ordering> {
        Some(self.cmp(other))
    }
}

impl Instant {
    /// The instant that a text of the form `YYYY-MM-DD` names, as the OpenFisca documentation
    /// writes instants: four, two and two decimal digits.
    ///
    /// Any other text is `BadText`. A day that the calendar lacks, as `2015-02-29`, `2015-13-01` or
    /// any of the year 0000, is `OutOfRange`.
    pub fn read(text: &str) -> Result<Instant, TimeFault>
        ensures { result ≡ instant_of_text text.now }
    {
        match written_date(text) {
            Some((year, month, day)) => Instant::new(year as u16, month as u8, day as u8),
            None => Err(TimeFault::BadText),
        }
    }

    /// The instant with that year, month and day of the month. `OutOfRange` where the calendar lacks
    /// the day, or the year is not from 1 to 9999.
    pub fn new(year: u16, month: u8, day: u8) -> Result<Instant, TimeFault>
        ensures { result ≡ instant_if_real (Some (record { year = year; month = month; day = day })) }
    {
        let is_month = year >= 1 && year <= 9999 && month >= 1 && month <= 12;
        // no month is too short for the 28th
        if !is_month || day < 1 || day > 28 && day > days_in_month(year as i16, month) {
            return Err(TimeFault::OutOfRange);
        }
        Ok(Instant { year, month, day })
    }

    /// The first day of a month, which is numbered from January of the year 0 on.
    pub(crate) fn first_of(month: u32) -> Instant
        requires from { 12 ≤ month }
        requires to { month < 120_000 }
        ensures { result ≡ first_of_month month }
    {
        Instant {
            year: (month / 12) as u16,
            month: (month % 12 + 1) as u8,
            day: 1,
        }
    }

    /// That day of a month, or its last one where the month is too short.
    pub(crate) fn in_month(day: u8, month: u32) -> Instant
        requires some { 1 ≤ day }
        requires from { 12 ≤ month }
        requires to { month < 120_000 }
        ensures { result ≡ day_in_month day month }
    {
        let date = Date::constrain((month / 12) as i16, (month % 12 + 1) as u8, day);
        Instant::of_date(date)
    }

    /// The date of a day, which is numbered as `jiff` counts days.
    pub(crate) fn of_day(day: u32) -> Instant
        requires from { first_day ≤ day }
        requires to { day < end_day }
        ensures { result ≡ date_of day }
    {
        Instant::of_date(Date::from_days_since_min(day - FIRST_DATE))
    }

    fn of_date(date: Date) -> Instant
        requires { pos 1 ≤ℤ date.year }
        ensures value { result.year ≡ unsigned_abs date.year }
        ensures month { result.month ≡ date.month }
        ensures day { result.day ≡ date.day }
    {
        Instant {
            year: date.year as u16,
            month: date.month,
            day: date.day,
        }
    }

    /// The number of the month that the day lies in, from January of the year 0 on.
    pub(crate) fn month_number(self) -> u32
        ensures value { result ≡ month_number self }
        ensures from { 12 ≤ result }
        ensures to { result < 120_000 }
    {
        12 * u32::from(self.year) + (u32::from(self.month) - 1)
    }

    /// The number of the day, as `jiff` counts them.
    pub(crate) fn day_number(self) -> u32
        ensures value { result ≡ day_number self }
        ensures from { first_day ≤ result }
        ensures to { result < end_day }
    {
        let date = Date {
            year: self.year as i16,
            month: self.month,
            day: self.day,
        };
        date.days_since_min() + FIRST_DATE
    }

    /// The year, from 1 to 9999.
    pub fn year(self) -> u16
        ensures value { result ≡ self.year }
        ensures real { IsTrue (is_on_calendar self) }
    {
        self.year
    }

    /// The month, from 1 for January to 12.
    pub fn month(self) -> u8
        ensures value { result ≡ self.month }
        ensures real { IsTrue (is_on_calendar self) }
    {
        self.month
    }

    /// The day of the month, from 1.
    pub fn day(self) -> u8
        ensures value { result ≡ self.day }
        ensures real { IsTrue (is_on_calendar self) }
    {
        self.day
    }
}

/// The numbers of `YYYY`, `MM` and `DD` in a text of the form `YYYY-MM-DD`.
fn written_date(text: &str) -> Option<(u32, u32, u32)>
    ensures date { option_map (λ d. record { year = d.0; month = d.1; day = d.2 }) result ≡ date_of_pieces (pieces dash text.now) }
    ensures bound { IfSome result (λ d. (d.0 < 10_000) × (d.1 < 100) × (d.2 < 100)) }
{
    let (year, rest) = split(text, b'-')?;
    let (month, day) = split(rest, b'-')?;
    Some((numeral(4, year)?, numeral(2, month)?, numeral(2, day)?))
}
