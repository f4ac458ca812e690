//! The values of keys in a situation under a rule set, where what formulas gave is remembered: memories with counts, and the evaluator.
#![tactic(auto)]

mod answers;
mod counts;
mod evaluation;
mod evaluator;
mod fault;
mod index_recall;
mod known;
mod law;
mod list_recall;
mod plans;
mod played;
mod recall;
mod recalled;
mod session;
mod store;
mod turns;
mod values;
mod wheels;

pub use counts::Counts;
pub use evaluator::Evaluator;
pub use index_recall::IndexRecall;
pub use known::Known;
pub use law::{counts_rise_by_what_is_added, inputs_fit_when_turned, turned_situations_are_still};
pub use list_recall::ListRecall;
pub use recall::Recall;
pub use session::Session;
