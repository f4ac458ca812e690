//! Answers to cases of the layer of texts.
#![tactic(auto)]

mod expressions;
mod layers;
mod params;
mod tokens;
mod yaml;

pub use layers::answer;
