//! The words of refusals: what each means, and what to do.
#![tactic(auto)]

mod axes;
mod calc;
mod explain;
mod place;
mod rules;
mod runs;
mod situations;
mod tests;
mod values;
mod yaml;

pub use place::Place;
