//! Tests of vectors: each public call on numbers that are worked out by hand. They stand in a crate of their own, so that a change of them
//! proves no vector again.
#![tactic(auto)]

#[cfg(test)]
mod arithmetic;
#[cfg(test)]
mod fractions;
#[cfg(test)]
mod lanes;
#[cfg(test)]
mod masks;
