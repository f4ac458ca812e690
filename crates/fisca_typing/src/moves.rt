//! What formulas do with periods.
use fisca_time::Unit;

/// A step from one period to another, as `fisca_time` has them.
#[derive(Clone, Copy, Debug, PartialEq, Eq)]
pub enum Move {
    /// The calendar year of the start.
    ThisYear,
    /// The month of the start.
    FirstMonth,
    /// The day of the start.
    FirstDay,
    /// The month before that of the start.
    LastMonth,
    /// The three months before that of the start.
    LastThreeMonths,
    /// The calendar year before that of the start.
    LastYear,
    /// The calendar year two years before that of the start.
    TwoYearsAgo,
    /// So many of the period's own unit.
    Offset(i64),
    /// So many of a unit.
    OffsetBy(i64, Unit),
}

/// A part of the day on which a period starts.
#[derive(Clone, Copy, Debug, PartialEq, Eq)]
pub enum DatePart {
    /// Its year.
    Year,
    /// Its month, from 1 to 12.
    Month,
    /// Its day in the month.
    Day,
}
