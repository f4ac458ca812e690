//! Vectors of exact fractions over one denominator, and operations lane by lane.
#![tactic(auto)]

mod arithmetic;
mod comparing;
mod comparison;
mod factors;
mod fractions;
mod levels;
mod loops;
mod mask;
mod moves;
mod operations;
mod products;
mod selection;
mod sides;
mod tidying;
mod vector;

pub use comparison::LaneComparison;
pub use fractions::{FractionOperation, FractionRounding, Fractions};
pub use mask::Mask;
pub use vector::Vector;
