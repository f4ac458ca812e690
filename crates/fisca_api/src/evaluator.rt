//! The evaluator that owns its situation.

ghost use Rattle.std.specs.Prelude.{◌≡◌, ◌≢◌, ◌<◌, None, Err};
ghost use Rattle.fisca_api.specs.Evaluators as spec;
ghost use Rattle.fisca_api.specs.Views.{marks as marks_view, situation as situation_view};
ghost use Rattle.fisca_evaluator.specs.Counted.{no_counts};
ghost use Rattle.fisca_evaluator.specs.Counting.{AreLost, IsCounted};
ghost use Rattle.fisca_evaluator.specs.Evaluators.{AreMarked, turned_by};
ghost use Rattle.fisca_key_semantics.specs.Answers.{answer, most_keys};
ghost use Rattle.fisca_memo_theory.specs.Entries.{Remembered};
ghost use Rattle.fisca_memo_theory.specs.Reads.{unless_moved};
ghost use Rattle.fisca_memo_theory.specs.Work.{Grows, IsWork};
ghost use Rattle.fisca_model.specs.EvalFaults.{IsAnswer};
ghost use Rattle.fisca_model.specs.Seen.{key_seen};
ghost use Rattle.fisca_model.specs.Values as meaning;
ghost use Rattle.fisca_rules.specs.Views.{rule_set};
ghost use Rattle.fisca_simulation.specs.Simulations.{normal_key, sources};
ghost use Rattle.fisca_simulation.specs.Sound.{IsSafeRules};
ghost use Rattle.fisca_situations.specs.Views.{slot as slot_view};

use crate::situation::Situation;
use fisca_evaluator::{Counts, Recall, Session};
use fisca_model::{EvalFault, Key, Value};
use fisca_num::Fraction;
use fisca_rules::RuleSet;
use fisca_simulation::Simulation;
use fisca_situations::Slot;
use std::alloc::Global;

/// Works out the values of keys in a situation under a rule set, and remembers what formulas gave. The variables that the situation has marked are
/// neutralised.
#[derive(Drop)]
pub struct Evaluator<'r, 't, R> {
    pub(crate) rules: &'r RuleSet<'t>,
    pub(crate) situation: Situation,
    pub(crate) session: Session<'r, R>,
}

impl<'r, 't, R: Recall> Evaluator<'r, 't, R> {
    /// An evaluator of the keys of a situation, which was read under this rule set, with a memory that holds nothing. This project's own rule.
    pub fn new(
        alloc: Global,
        rules: &'r RuleSet<'t>,
        situation: Situation,
        recall: R,
    ) -> Evaluator<'r, 't, R>
        requires empty { (k : meaning.Key) → R.find recall k ≡ None }
        ensures simulation { spec.simulation_of result ≡ spec.simulation_in rules.now situation }
        ensures marks { spec.marks_in result ≡ marks_view situation }
        ensures ready { IsSafeRules (rule_set rules.now) → spec.Fits rules.now (situation_view situation) → spec.IsReady R.find result }
        ensures recall { result.session.store.recall ≡ recall }
        ensures counts { result.session.store.counts ≡ no_counts }
    {
        Evaluator {
            rules,
            situation,
            session: Session::new(alloc, recall),
        }
    }

    /// The value of a key, whatever is remembered: its input, else what the formula in force works out, else the variable's default. A key
    /// of an eternal variable may have any period. What formulas give on the way is remembered.
    ///
    /// - The first fault of a formula, in the order in which its operands are worked out, with the key whose formula it is;
    ///   `PeriodMismatch` with the key that is asked for at a period at which its variable has no value, or whose variable there is not.
    /// - `Cycle` or `TooDeep` where more than a hundred keys are asked for below one another, the key that is handed in among them:
    ///   `Cycle` with the first of the chain that stands again in it, else `TooDeep` with the key that is handed in.
    /// - `Memory` only where a growth was refused.
    ///
    /// After any of these what is remembered is still true, and each formula that gave a value is counted. (OpenFisca's values, by exact fractions;
    /// limits and the order of faults are this project's own.)
    pub fn value(&mut self, key: Key) -> Result<Value, EvalFault>
        requires ready { spec.IsReady R.find self.old }
        ensures answer { IsAnswer (answer (sources (spec.simulation_of self.old)) (normal_key (spec.simulation_of self.old).rules (key_seen key))) result }
        ensures same { spec.simulation_of self.new ≡ spec.simulation_of self.old }
        ensures marks { spec.marks_in self.new ≡ spec.marks_in self.old }
        ensures ready { spec.IsReady R.find self.new }
        ensures grows { Grows (R.find self.old.session.store.recall) (R.find self.new.session.store.recall) (IsWork (sources (spec.simulation_of self.old)) most_keys (normal_key (spec.simulation_of self.old).rules (key_seen key))) }
        ensures work { result ≢ Err EvalFault.Memory → (k : meaning.Key) → IsWork (sources (spec.simulation_of self.old)) most_keys (normal_key (spec.simulation_of self.old).rules (key_seen key)) k → Remembered (R.find self.new.session.store.recall) k }
        ensures counted { IsCounted (R.find self.old.session.store.recall) (R.find self.new.session.store.recall) self.old.session.store.counts self.new.session.store.counts }
        ensures lost { AreLost result self.old.session.store.counts.lost self.new.session.store.counts.lost }
    {
        let simulation = Simulation {
            rules: self.rules,
            situation: &self.situation.shared,
            neutral: self.situation.neutral.as_slice(),
        };
        let wheels = self.situation.wheels.as_slice();
        self.session.value(&simulation, wheels, key)
    }

    /// An axis takes another value: what reads its slot's wheel is forgotten, and the inputs of the slot's keys become what that value gives
    /// them. All other inputs stay, and all that is still remembered is true in the situation as it is then. It takes no memory. The counts stay. The
    /// slot is one that the situation answered, and its variable has numbers. This project's own rule.
    pub fn turn(&mut self, slot: &Slot, value: Fraction)
        requires wheel { slot.now.wheel < 16 }
        requires marked { AreMarked (spec.marks_in self.old) (slot_view slot.now) }
        ensures situation { spec.simulation_of self.new ≡ turned_by (slot_view slot.now) value (spec.simulation_of self.old) }
        ensures dropped { (k : meaning.Key) → R.find self.new.session.store.recall k ≡ unless_moved slot.now.wheel (R.find self.old.session.store.recall k) }
        ensures marks { spec.marks_in self.new ≡ spec.marks_in self.old }
        ensures counts { self.new.session.store.counts ≡ self.old.session.store.counts }
        ensures ready { spec.HasNumbers self.old.rules.now slot.now.variable → spec.IsReady R.find self.old → spec.IsReady R.find self.new }
    {
        self.session.turn_wheel(slot.wheel);
        slot.turn(&mut self.situation.shared.inputs, value);
    }

    /// The situation.
    pub fn situation(&self) -> &Situation
        ensures { result.now ≡ self.now.situation }
    {
        &self.situation
    }

    /// The rule set.
    pub fn rules(&self) -> &'r RuleSet<'t>
        ensures { result.now ≡ self.now.rules.now }
    {
        self.rules
    }

    /// What is remembered.
    pub fn recall(&self) -> &R
        ensures { result.now ≡ self.now.session.store.recall }
    {
        self.session.recall()
    }

    /// How many formulas gave values since the evaluator was made, by what became of these.
    pub fn counts(&self) -> Counts
        ensures { result ≡ self.now.session.store.counts }
    {
        self.session.counts()
    }
}
