//! What an evaluator answers, and what it remembers then.

ghost use Rattle.std.specs.Prelude.{◌≡◌, ◌≢◌, ◌<◌, None, Err};
ghost use Rattle.fisca_model.specs.EvalFaults.{IsAnswer};
ghost use Rattle.fisca_simulation.specs.Told.{IsReady};
ghost use Rattle.fisca_memo_theory.specs.Entries.{Remembered};
ghost use Rattle.fisca_memo_theory.specs.Reads.{unless_moved};
ghost use Rattle.fisca_memo_theory.specs.Work.{Grows};
ghost use Rattle.fisca_model.specs.Values as meaning;
ghost use Rattle.fisca_evaluator.specs.Counting.{AreLost, IsCounted};
ghost use Rattle.fisca_evaluator.specs.Evaluators as spec;
ghost use Rattle.fisca_evaluator.specs.Recalled.{marks_of};
ghost use Rattle.fisca_evaluator.specs.Counted.{no_counts};
ghost use Rattle.fisca_rules.specs.Views.{rule_set};
ghost use Rattle.fisca_situations.specs.Steps.Views.{situation as situation_view};
ghost use Rattle.fisca_simulation.specs.Simulations.{Simulation};
ghost use Rattle.fisca_simulation.specs.Sound.{InputsFit, IsSafeRules};

use crate::evaluation::evaluation_of;
use crate::evaluator::Evaluator;
use crate::plans::Plans;
use crate::played::value_by_plan;
use crate::recalled::value_below;
use crate::store::Store;
use crate::{Counts, Recall};
use fisca_machine::Machine;
use fisca_model::{EvalFault, Key, Value};
use fisca_rules::RuleSet;
use fisca_simulation::own_key;
use fisca_situations::Situation;
use std::alloc::Global;

impl<'r, 't, R: Recall> Evaluator<'r, 't, R> {
    /// An evaluator of the keys of a situation, which was read under this rule set, with a memory that holds nothing. The variables that
    /// have a mark, by their places, are neutralised: they have no formulas. There is none past the last mark. The wheels of variables are
    /// given by their places, as bits: those that may change inputs of the variable. Past the last there are none. This project's own rule.
    pub fn new(
        alloc: Global,
        rules: &'r RuleSet<'t>,
        neutral: &'r [bool],
        wheels: &'r [u16],
        situation: Situation,
        recall: R,
    ) -> Evaluator<'r, 't, R>
        requires empty { (k : meaning.Key) → R.find recall k ≡ None }
        ensures simulation { spec.simulation_of result ≡ record { rules = rule_set rules.now; situation = situation_view situation; neutral = neutral.now } }
        ensures wheels { spec.marks_in result ≡ marks_of wheels.now }
        ensures memory { spec.IsMemoryOf (spec.marks_in result) (spec.simulation_of result) (R.find result.store.recall) result.store.counts.free }
        ensures ready { IsReady (record { rules = rule_set rules.now; situation = situation_view situation; neutral = neutral.now }) → spec.CanAnswer (spec.marks_in result) (spec.simulation_of result) (R.find result.store.recall) result.store.counts.free }
        ensures recall { result.store.recall ≡ recall }
        ensures counts { result.store.counts ≡ no_counts }
    {
        Evaluator {
            plans: Plans::new(alloc, rules, neutral),
            wheels,
            situation,
            machine: Machine::new(alloc),
            keys: Vec::new(alloc),
            store: Store {
                recall,
                counts: Counts::new(),
            },
        }
    }

    /// The value of a key, whatever is remembered: its input, else what the formula in force works out, else the variable's default. A key
    /// of an eternal variable may have any period. What formulas give on the way is remembered, and a key of which something is
    /// remembered is not counted again; that its formula is not worked out once more is not promised (a test shows it).
    ///
    /// - The first fault of a formula, in the order in which its operands are worked out, with the key whose formula it is;
    ///   `PeriodMismatch` with the key that is asked for at a period at which its variable has no value, or whose variable there is not.
    /// - `Cycle` or `TooDeep` where more than a hundred keys are asked for below one another, the key that is handed in among them:
    ///   `Cycle` with the first of the chain that stands again in it, else `TooDeep` with the key that is handed in.
    /// - `Memory` only where a growth was refused.
    ///
    /// After any of these what is remembered is still true and tells just the wheels that its work reads, each formula that gave a value is
    /// counted, and the keys that read no wheel are as many as the count of these.
    /// (OpenFisca's values, by exact fractions; limits and the order of faults are this project's own.)
    pub fn value(&mut self, key: Key) -> Result<Value, EvalFault>
        requires safe { IsSafeRules (spec.simulation_of self.old).rules }
        requires fit { InputsFit (spec.simulation_of self.old).rules (spec.simulation_of self.old).situation }
        requires memory { spec.IsMemoryOf (spec.marks_in self.old) (spec.simulation_of self.old) (R.find self.old.store.recall) self.old.store.counts.free }
        ensures answer { IsAnswer (spec.answer_in self.old key) result }
        ensures same { spec.simulation_of self.new ≡ spec.simulation_of self.old }
        ensures wheels { spec.marks_in self.new ≡ spec.marks_in self.old }
        ensures memory { spec.IsMemoryOf (spec.marks_in self.old) (spec.simulation_of self.old) (R.find self.new.store.recall) self.new.store.counts.free }
        ensures grows { Grows (R.find self.old.store.recall) (R.find self.new.store.recall) (spec.work_in self.old key) }
        ensures work { result ≢ Err EvalFault.Memory → (k : meaning.Key) → spec.work_in self.old key k → Remembered (R.find self.new.store.recall) k }
        ensures counted { IsCounted (R.find self.old.store.recall) (R.find self.new.store.recall) self.old.store.counts self.new.store.counts }
        ensures lost { AreLost result self.old.store.counts.lost self.new.store.counts.lost }
    {
        self.machine.clear();
        self.keys.clear();
        let situation = &self.situation;
        let evaluation = evaluation_of(
            self.plans.rules,
            situation,
            self.plans.neutral,
            self.wheels,
        );
        let own = own_key(self.plans.rules, key);
        if let Some(plan) = self.plans.of(&own) {
            let known = value_by_plan(
                &evaluation,
                &mut self.store,
                &mut self.machine,
                &mut self.keys,
                plan,
                &own,
            )?;
            return Ok(known.value);
        }
        self.plans.ask(situation, &own);
        let known = value_below(
            &evaluation,
            &mut self.store,
            &mut self.machine,
            &mut self.keys,
            &own,
        )?;
        Ok(known.value)
    }

    /// A wheel turns: forgets what reads it. What is left is true also in each situation in which only inputs of the wheel's variables are
    /// others. The counts stay. The wheel is below 16. This project's own rule.
    pub fn turn_wheel(&mut self, wheel: u32)
        requires wheel { wheel < 16 }
        ensures dropped { (k : meaning.Key) → R.find self.new.store.recall k ≡ unless_moved wheel (R.find self.old.store.recall k) }
        ensures same { spec.simulation_of self.new ≡ spec.simulation_of self.old }
        ensures wheels { spec.marks_in self.new ≡ spec.marks_in self.old }
        ensures counts { self.new.store.counts ≡ self.old.store.counts }
        ensures memory { (turned : Simulation) → spec.IsStill (spec.marks_in self.old) wheel (spec.simulation_of self.old) turned
            → spec.IsMemoryOf (spec.marks_in self.old) (spec.simulation_of self.old) (R.find self.old.store.recall) self.old.store.counts.free
            → spec.IsMemoryOf (spec.marks_in self.old) turned (R.find self.new.store.recall) self.new.store.counts.free }
    {
        self.store.recall.drop_moved(wheel);
    }

    /// The situation.
    pub fn situation(&self) -> &Situation
        ensures { situation_view result.now ≡ (spec.simulation_of self.now).situation }
    {
        &self.situation
    }

    /// The rule set.
    pub fn rules(&self) -> &'r RuleSet<'t>
        ensures { rule_set result.now ≡ (spec.simulation_of self.now).rules }
    {
        self.plans.rules
    }

    /// What is remembered.
    pub fn recall(&self) -> &R
        ensures { result.now ≡ self.now.store.recall }
    {
        &self.store.recall
    }

    /// How many formulas gave values since the evaluator was made, by what became of these.
    pub fn counts(&self) -> Counts
        ensures { result ≡ self.now.store.counts }
    {
        self.store.counts
    }
}

impl<'r, 't, R: Recall + Drop> Evaluator<'r, 't, R> {
    /// The situation, given back for good.
    pub fn into_situation(self) -> Situation
        ensures { situation_view result ≡ (spec.simulation_of self.entry).situation }
    {
        self.situation
    }
}
