//! The values of keys that are asked for below others, from memory.

ghost use Rattle.std.specs.Prelude.{◌≡◌, option_and_then, option_map};
ghost use Rattle.fisca_explain.specs.Below.{if_left, if_low};
ghost use Rattle.fisca_inputs.specs.Entries.{value_at};
ghost use Rattle.fisca_inputs.specs.Steps.Rules.{default_of};
ghost use Rattle.fisca_model.specs.Seen.{key_seen, value_seen};
ghost use Rattle.fisca_simulation.specs.Simulations.{variable_of};
ghost use Rattle.fisca_simulation.specs.Views.{simulation};

use crate::origin::{Origin, origin_of};
use fisca_evaluator::Recall;
use fisca_model::{Key, Value};
use fisca_simulation::{Answering, Simulation, default_of};

/// A situation under a rule set, what is remembered of its keys, and how many of them may still be asked for below one another.
#[derive(Drop)]
pub(crate) struct Below<'r, 't, 's, R> {
    /// The situation under the rule set.
    pub(crate) simulation: Simulation<'r, 't, 's>,
    /// What is remembered.
    pub(crate) recall: &'s R,
    /// How many keys may still be asked for below one another.
    pub(crate) left: usize,
}

impl<'r, 't, 's, R: Recall> Below<'r, 't, 's, R> {
    /// The value of a key that a formula works out, from memory.
    fn remembered(&self, key: &Key) -> Option<Value>
        ensures { option_map value_seen result ≡ if_low self.now.left (R.find self.now.recall.now (key_seen key.now)) }
    {
        let known = self.recall.look(key)?;
        if known.height as usize > self.left {
            return None;
        }
        Some(known.value)
    }

    /// The value of a variable where nothing else says one.
    fn default(&self, key: &Key) -> Option<Value>
        ensures { option_map value_seen result ≡ if_left self.now.left (option_and_then (λ v. option_map value_seen (default_of v.default_value)) (variable_of (simulation self.now.simulation).rules (key_seen key.now))) }
    {
        if self.left == 0 {
            return None;
        }
        default_of(self.simulation.variable(*key)?)
    }

    /// The input of a key.
    fn input(&self, key: &Key) -> Option<Value>
        ensures { option_map value_seen result ≡ if_left self.now.left (option_map value_seen (value_at (simulation self.now.simulation).situation.inputs key.now)) }
    {
        if self.left == 0 {
            return None;
        }
        self.simulation.situation.input(key)
    }
}

impl<'r, 't, 's, R: Recall> Answering for Below<'r, 't, 's, R> {
    ghost use Rattle.fisca_explain.specs.Below.{answers_by};
    ghost use Rattle.fisca_simulation.specs.Simulations.{sources};
    ghost use Rattle.fisca_simulation.specs.Views.{simulation};

    ghost answers = { λ b. answers_by (sources (simulation b.simulation)) (R.find b.recall.now) b.left };

    fn answer(&self, key: &Key) -> Option<Value> {
        match origin_of(&self.simulation, key) {
            Origin::Unfit => None,
            Origin::Input => self.input(key),
            Origin::Default => self.default(key),
            Origin::Neutral => self.default(key),
            Origin::Formula(_, _) => self.remembered(key),
        }
    }
}
