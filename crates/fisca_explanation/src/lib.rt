//! How the value of a key came about, by the questions of formulas and their answers. Definitions and laws.
#![tactic(auto)]

mod law;

pub use law::{
    each_formula_is_followed_once, faults_are_those_of_what_is_explained,
    formulas_that_are_followed_are_the_work, listed_keys_are_asked_for,
    listed_keys_have_their_values, what_stands_below_is_what_is_asked,
};
