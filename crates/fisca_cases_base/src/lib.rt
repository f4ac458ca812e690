//! Answers to cases of numbers, days and axes, and what cases of all layers have in common: lines, words, texts and faults.
#![tactic(auto)]

mod case;
mod fault;
mod grid;
mod layers;
mod num;
mod time;
mod words;
mod written;

pub use case::Case;
pub use fault::BaseFault;
pub use layers::answer;
pub use num::fraction;
pub use words::{limit, number, one, three, two};
pub use written::Written;
