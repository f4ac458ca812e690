//! Values that hold from a date on, and the sums of scales.
#![tactic(auto)]

mod bracket;
mod dates;
mod fault;
mod lowest;
mod scale;
mod sorted;
mod tally;

pub use bracket::Bracket;
pub use dates::{Dated, Dates};
pub use fault::ParamFault;
pub use scale::Scale;
