//! The values of keys in a situation that a caller keeps, with what formulas gave of these.

ghost use Rattle.std.specs.Prelude.{◌≡◌, ◌≢◌, ◌<◌, ℕ, None, Err};
ghost use Rattle.fisca_key_semantics.specs.Answers.{answer, most_keys};
ghost use Rattle.fisca_model.specs.EvalFaults.{IsAnswer};
ghost use Rattle.fisca_memo_theory.specs.Entries.{Remembered};
ghost use Rattle.fisca_memo_theory.specs.Reads.{unless_moved};
ghost use Rattle.fisca_memo_theory.specs.Work.{Grows, IsWork};
ghost use Rattle.fisca_model.specs.Seen.{key_seen};
ghost use Rattle.fisca_model.specs.Values as meaning;
ghost use Rattle.fisca_evaluator.specs.Counting.{AreLost, IsCounted};
ghost use Rattle.fisca_evaluator.specs.Counted.{no_counts};
ghost use Rattle.fisca_evaluator.specs.Evaluators.{IsMemoryOf, IsStill};
ghost use Rattle.fisca_evaluator.specs.Recalled.{marks_of};
ghost use Rattle.fisca_simulation.specs.Simulations as simulations;
ghost use Rattle.fisca_simulation.specs.Simulations.{normal_key, sources};
ghost use Rattle.fisca_simulation.specs.Sound.{InputsFit, IsSafeRules};
ghost use Rattle.fisca_simulation.specs.Views.{simulation as simulation_view};

use crate::evaluation::evaluation_of;
use crate::recalled::value_below;
use crate::store::Store;
use crate::{Counts, Recall};
use fisca_machine::Machine;
use fisca_model::{EvalFault, Key, Value};
use fisca_simulation::{Simulation, own_key};
use std::alloc::Global;

/// What formulas gave in a situation that the caller keeps, counts of it, and room to work in: an evaluator without its situation.
#[derive(Drop)]
pub struct Session<'r, R> {
    pub(crate) machine: Machine<'r>,
    pub(crate) keys: Vec<Key>,
    pub(crate) store: Store<R>,
}

impl<'r, R: Recall> Session<'r, R> {
    /// A session with this memory, which holds nothing. It has counted nothing.
    pub fn new(alloc: Global, recall: R) -> Session<'r, R>
        requires empty { (k : meaning.Key) → R.find recall k ≡ None }
        ensures memory { (marks : meaning.Key → ℕ) (m : simulations.Simulation) → IsMemoryOf marks m (R.find result.store.recall) result.store.counts.free }
        ensures recall { result.store.recall ≡ recall }
        ensures counts { result.store.counts ≡ no_counts }
    {
        Session {
            machine: Machine::new(alloc),
            keys: Vec::new(alloc),
            store: Store {
                recall,
                counts: Counts::new(),
            },
        }
    }

    /// The value of a key in this situation under its rule set, whatever is remembered, as [`Evaluator::value`](crate::Evaluator::value)
    /// answers it; the same is remembered and counted. What is remembered has to be so in this situation, for wheels of variables that are given by
    /// their places, as bits. Past the last there are none.
    pub fn value(
        &mut self,
        simulation: &Simulation<'r, '_, '_>,
        wheels: &[u16],
        key: Key,
    ) -> Result<Value, EvalFault>
        requires safe { IsSafeRules (simulation_view simulation.now).rules }
        requires fit { InputsFit (simulation_view simulation.now).rules (simulation_view simulation.now).situation }
        requires memory { IsMemoryOf (marks_of wheels.now) (simulation_view simulation.now) (R.find self.old.store.recall) self.old.store.counts.free }
        ensures answer { IsAnswer (answer (sources (simulation_view simulation.now)) (normal_key (simulation_view simulation.now).rules (key_seen key))) result }
        ensures memory { IsMemoryOf (marks_of wheels.now) (simulation_view simulation.now) (R.find self.new.store.recall) self.new.store.counts.free }
        ensures grows { Grows (R.find self.old.store.recall) (R.find self.new.store.recall) (IsWork (sources (simulation_view simulation.now)) most_keys (normal_key (simulation_view simulation.now).rules (key_seen key))) }
        ensures work { result ≢ Err EvalFault.Memory → (k : meaning.Key) → IsWork (sources (simulation_view simulation.now)) most_keys (normal_key (simulation_view simulation.now).rules (key_seen key)) k → Remembered (R.find self.new.store.recall) k }
        ensures counted { IsCounted (R.find self.old.store.recall) (R.find self.new.store.recall) self.old.store.counts self.new.store.counts }
        ensures lost { AreLost result self.old.store.counts.lost self.new.store.counts.lost }
    {
        self.machine.clear();
        self.keys.clear();
        let (situation, neutral) = (simulation.situation, simulation.neutral);
        let evaluation = evaluation_of(simulation.rules, situation, neutral, wheels);
        let own = own_key(simulation.rules, key);
        let known = value_below(
            &evaluation,
            &mut self.store,
            &mut self.machine,
            &mut self.keys,
            &own,
        )?;
        Ok(known.value)
    }

    /// A wheel turns: forgets what reads it, and nothing else, without memory. What is left is true also in each situation in which only inputs of
    /// the wheel's variables are others. The counts stay. The wheel is below 16.
    pub fn turn_wheel(&mut self, wheel: u32)
        requires wheel { wheel < 16 }
        ensures dropped { (k : meaning.Key) → R.find self.new.store.recall k ≡ unless_moved wheel (R.find self.old.store.recall k) }
        ensures counts { self.new.store.counts ≡ self.old.store.counts }
        ensures memory { (marks : meaning.Key → ℕ) (before after : simulations.Simulation) → IsStill marks wheel before after
            → IsMemoryOf marks before (R.find self.old.store.recall) self.old.store.counts.free → IsMemoryOf marks after (R.find self.new.store.recall) self.new.store.counts.free }
    {
        self.store.recall.drop_moved(wheel);
    }

    /// What is remembered.
    pub fn recall(&self) -> &R
        ensures { result.now ≡ self.now.store.recall }
    {
        &self.store.recall
    }

    /// How many formulas gave values since the session was made, by what became of these.
    pub fn counts(&self) -> Counts
        ensures { result ≡ self.now.store.counts }
    {
        self.store.counts
    }
}
