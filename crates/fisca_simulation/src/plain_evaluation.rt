//! What keys are worked out over.

ghost use Rattle.std.specs.Prelude.{◌≡◌};
ghost use Rattle.fisca_simulation.specs.PlainEvaluations as spec;
ghost use Rattle.fisca_rules.specs.Views.{rule_set};
ghost use Rattle.fisca_situations.specs.Steps.Views.{situation as situation_view};
ghost use Rattle.fisca_simulation.specs.Sound.{InputsFit, IsSafeRules};

use crate::Simulation;
use fisca_machine::Context;
use fisca_rules::RuleSet;
use fisca_situations::Situation;

/// A situation under a rule set, and what of both formulas are worked out over.
#[derive(Clone, Copy)]
pub(crate) struct PlainEvaluation<'r, 't, 's> {
    /// The situation under the rule set.
    pub(crate) simulation: Simulation<'r, 't, 's>,
    /// The rule set's tables and the situation's members.
    pub(crate) context: Context<'t, 'r, 's>,
}

/// A situation under a rule set, in which these variables are neutralised.
#[tactic(auto, using(crate::proofs::KnownTables::tables_known))]
pub(crate) fn evaluation_of<'r, 't, 's>(
    rules: &'r RuleSet<'t>,
    situation: &'s Situation,
    neutral: &'s [bool],
) -> PlainEvaluation<'r, 't, 's>
    requires safe { IsSafeRules (rule_set rules.now) }
    requires fit { InputsFit (rule_set rules.now) (situation_view situation.now) }
    ensures evaluation { spec.IsPlainEvaluation result }
    ensures seen { spec.seen result ≡ record { rules = rule_set rules.now; situation = situation_view situation.now; neutral = neutral.now } }
{
    PlainEvaluation {
        simulation: Simulation {
            rules,
            situation,
            neutral,
        },
        context: Context {
            tables: &rules.tables,
            members: &situation.members,
        },
    }
}
