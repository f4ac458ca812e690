//! The evaluator.

use fisca_machine::Machine;
use fisca_model::Key;
use fisca_rules::RuleSet;
use fisca_situations::Situation;

/// Works out the values of keys in a situation under a rule set. Nothing is remembered but memory that was given.
#[derive(Drop)]
pub struct PlainEvaluator<'r, 't> {
    pub(crate) rules: &'r RuleSet<'t>,
    pub(crate) neutral: &'r [bool],
    pub(crate) situation: Situation,
    pub(crate) machine: Machine<'r>,
    pub(crate) keys: Vec<Key>,
}
