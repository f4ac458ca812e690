//! What the formulas of a rule set stand for, types, levels and resolved names, and what they mean: a dialogue of questions that ends with
//! a value or a fault. Definitions and laws, and no reader.
#![tactic(auto)]

mod asking;
mod kinds;
mod law;
mod moves;
mod operations;

pub use asking::{Asking, Whom};
pub use kinds::Level;
pub use law::{counting_to_the_limits_decides_them, never_stuck, sizes_are_of_locals_put_in};
pub use moves::{DatePart, Move};
pub use operations::{Arithmetic, Function, Logic, Method, Total, Unary, is_places};
