//! What keys are worked out over.

ghost use Rattle.std.specs.Prelude.{◌≡◌};
ghost use Rattle.fisca_model.specs.Seen.{key_seen};
ghost use Rattle.fisca_evaluator.specs.Recalled.{marks_of};
ghost use Rattle.fisca_evaluator.specs.Evaluations as spec;
ghost use Rattle.fisca_rules.specs.Views.{rule_set};
ghost use Rattle.fisca_situations.specs.Steps.Views.{situation as situation_view};
ghost use Rattle.fisca_simulation.specs.Sound.{InputsFit, IsSafeRules};

use fisca_machine::Context;
use fisca_model::Key;
use fisca_rules::RuleSet;
use fisca_simulation::Simulation;
use fisca_situations::Situation;

/// A situation under a rule set, and what of both formulas are worked out over.
#[derive(Clone, Copy)]
pub(crate) struct Evaluation<'r, 't, 's> {
    /// The situation under the rule set.
    pub(crate) simulation: Simulation<'r, 't, 's>,
    /// The rule set's tables and the situation's members.
    pub(crate) context: Context<'t, 'r, 's>,
    /// The wheels of variables, by their places, as bits. Past the last there are none.
    pub(crate) wheels: &'s [u16],
}

/// A situation under a rule set, in which these variables are neutralised and those have wheels.
#[tactic(auto, using(fisca_simulation::proofs::KnownTables::tables_known))]
pub(crate) fn evaluation_of<'r, 't, 's>(
    rules: &'r RuleSet<'t>,
    situation: &'s Situation,
    neutral: &'s [bool],
    wheels: &'s [u16],
) -> Evaluation<'r, 't, 's>
    requires safe { IsSafeRules (rule_set rules.now) }
    requires fit { InputsFit (rule_set rules.now) (situation_view situation.now) }
    ensures evaluation { spec.IsEvaluation result }
    ensures seen { spec.seen result ≡ record { rules = rule_set rules.now; situation = situation_view situation.now; neutral = neutral.now } }
    ensures wheels { spec.marks_in result ≡ marks_of wheels.now }
{
    Evaluation {
        simulation: Simulation {
            rules,
            situation,
            neutral,
        },
        context: Context {
            tables: &rules.tables,
            members: &situation.members,
        },
        wheels,
    }
}

impl<'r, 't, 's> Evaluation<'r, 't, 's> {
    /// The wheels of a key's variable, as bits.
    pub(crate) fn wheels_of(&self, key: &Key) -> u16
        ensures { result ≡ spec.marks_in self.now (key_seen key.now) }
    {
        match self.wheels.get(key.variable) {
            Some(wheels) => *wheels,
            None => 0,
        }
    }
}
