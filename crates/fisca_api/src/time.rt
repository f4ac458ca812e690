//! Instants and periods.

pub use fisca_time::{Instant, Period, TimeFault, Unit};
