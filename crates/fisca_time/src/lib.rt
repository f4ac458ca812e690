//! Instants and periods, as the OpenFisca documentation has them.
//!
//! An `Instant` is a day of the calendar, a `Period` is eternity, a number of months or years from
//! the first of a month on, or a number of days from a day on. The calendar is `jiff`'s.
#![tactic(auto)]

mod fault;
mod form;
mod instant;
mod law;
mod period;
mod pieces;
mod text;
mod unit;

pub use fault::TimeFault;
pub use instant::Instant;
pub use law::{
    moves_go_back, numbers_give_their_dates, subperiods_by_day_are_its_days,
    texts_read_as_their_periods,
};
pub use period::Period;
pub use unit::Unit;
