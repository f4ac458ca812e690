//! The evaluator.

use crate::plans::Plans;
use crate::store::Store;
use fisca_machine::Machine;
use fisca_model::Key;
use fisca_situations::Situation;

/// Works out the values of keys in a situation under a rule set, and remembers what formulas gave.
#[derive(Drop)]
pub struct Evaluator<'r, 't, R> {
    pub(crate) plans: Plans<'r, 't>,
    pub(crate) wheels: &'r [u16],
    pub(crate) situation: Situation,
    pub(crate) machine: Machine<'r>,
    pub(crate) keys: Vec<Key>,
    pub(crate) store: Store<R>,
}
