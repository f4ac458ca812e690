//! The forms in which lines are written: numbers to so many places, and cells between tabs, as comma-separated values or as JSON.
#![tactic(auto)]

mod fixed;
mod fixed_law;
mod form;
mod texts;

pub use fixed::write_fixed;
pub use fixed_law::{fixed_numbers_are_near, no_zero_has_a_sign};
pub use form::{Decimals, Format, LineForm, is_numeral};
pub use texts::{write_csv, write_json};
