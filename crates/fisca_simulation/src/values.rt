//! What an evaluator answers.

ghost use Rattle.std.specs.Prelude.{◌≡◌};
ghost use Rattle.fisca_simulation.specs.Evaluators as spec;
ghost use Rattle.fisca_model.specs.EvalFaults.{IsAnswer};
ghost use Rattle.fisca_rules.specs.Views.{rule_set};
ghost use Rattle.fisca_situations.specs.Steps.Views.{situation as situation_view};
ghost use Rattle.fisca_simulation.specs.Sound.{InputsFit, IsSafeRules};

use crate::evaluator::PlainEvaluator;
use crate::own_key;
use crate::plain_evaluation::evaluation_of;
use crate::work::value_below;
use fisca_machine::Machine;
use fisca_model::{EvalFault, Key, Value};
use fisca_rules::RuleSet;
use fisca_situations::Situation;
use std::alloc::Global;

impl<'r, 't> PlainEvaluator<'r, 't> {
    /// An evaluator of the keys of a situation, which was read under this rule set. The variables that have a mark, by their places, are
    /// neutralised: they have no formulas. There is none past the last mark.
    pub fn new(
        alloc: Global,
        rules: &'r RuleSet<'t>,
        neutral: &'r [bool],
        situation: Situation,
    ) -> PlainEvaluator<'r, 't>
        ensures { spec.simulation_of result ≡ record { rules = rule_set rules.now; situation = situation_view situation; neutral = neutral.now } }
    {
        PlainEvaluator {
            rules,
            neutral,
            situation,
            machine: Machine::new(alloc),
            keys: Vec::new(alloc),
        }
    }

    /// The value of a key: its input, else what the formula in force works out, else the variable's default. A key of an eternal variable
    /// may have any period.
    ///
    /// - The first fault of a formula, in the order in which its operands are worked out, with the key whose formula it is;
    ///   `PeriodMismatch` with the key that is asked for at a period at which its variable has no value, or whose variable there is not.
    /// - `Cycle` or `TooDeep` where more than a hundred keys are asked for below one another, the key that is handed in among them:
    ///   `Cycle` with the first of the chain that stands again in it, else `TooDeep` with the key that is handed in.
    /// - `Memory` only where a growth was refused.
    ///
    /// (OpenFisca's values, by exact fractions; limits and the order of faults are this project's own.)
    pub fn value(&mut self, key: Key) -> Result<Value, EvalFault>
        requires safe { IsSafeRules (spec.simulation_of self.old).rules }
        requires fit { InputsFit (spec.simulation_of self.old).rules (spec.simulation_of self.old).situation }
        ensures answer { IsAnswer (spec.answer_in self.old key) result }
        ensures same { spec.simulation_of self.new ≡ spec.simulation_of self.old }
    {
        self.machine.clear();
        self.keys.clear();
        let situation = &self.situation;
        let evaluation = evaluation_of(self.rules, situation, self.neutral);
        let own = own_key(self.rules, key);
        value_below(&evaluation, &mut self.machine, &mut self.keys, &own)
    }

    /// The situation.
    pub fn situation(&self) -> &Situation
        ensures { situation_view result.now ≡ (spec.simulation_of self.now).situation }
    {
        &self.situation
    }

    /// The rule set.
    pub fn rules(&self) -> &'r RuleSet<'t>
        ensures { rule_set result.now ≡ (spec.simulation_of self.now).rules }
    {
        self.rules
    }
}
