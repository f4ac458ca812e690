//! The answer of a key, over whatever its value comes from: values within a fuel, chains of keys and cycles. Definitions and laws.
#![tactic(auto)]

mod law;

pub use law::definite_answers_stay;
