//! The values of keys in a situation under a rule set: what each comes from, and what it is; and a formula followed once more over answers
//! that are there: how it ends, and what it asked for and read on the way, in order.
#![tactic(auto)]

mod answers;
mod asks;
mod chains;
mod evaluator;
mod fault;
mod follow;
mod follower;
mod following_laws;
mod formulas;
mod found;
mod law;
mod note;
mod notes;
mod parameters;
mod plain_evaluation;
mod simulation;
mod source_laws;
mod totals;
mod values;
mod work;

pub use chains::{first_of_chain, is_same_key, keys_lie_in_the_calendar, stands_in};
pub use evaluator::PlainEvaluator;
pub use follower::{Answering, Follower};
pub use following_laws::{
    formulas_end_as_they_are_followed, keys_that_are_noted_are_asked_for, noting_changes_nothing,
};
pub use law::{answers_are_told, inputs_fit, inputs_fit_when_neutralised, rule_sets_are_safe};
pub use note::{Halted, Note, Reading};
pub use notes::{Notes, Sequence};
pub use simulation::{Simulation, default_of, own_key};
pub use source_laws::{
    no_operand_is_of_a_wrong_type, the_formula_in_force_starts_last, values_are_of_their_types,
};
