//! The hash of what a value is of.
#![tactic(auto)]

mod hasher;

pub use hasher::KeyHasher;
