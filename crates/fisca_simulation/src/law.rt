//! Laws of what a caller of an evaluator has to know, each as the contract of a function that does nothing.

ghost use Rattle.std.specs.Prelude.{◌≡◌, ◌≢◌, ℕ, Bool, List, Option, Ok, Err};
ghost use Rattle.fisca_key_semantics.specs.Answers.{answer};
ghost use Rattle.fisca_model.specs.EvalFaults.{IsAnswer};
ghost use Rattle.fisca_simulation.specs.Told.{IsReady, told_in};
ghost use Rattle.fisca_model.specs.Seen.{key_seen};
ghost use Rattle.fisca_inputs.specs.Inputs.{without_marked};
ghost use Rattle.fisca_model.specs.declared.key.Key.{Key};
ghost use Rattle.fisca_params.specs.Tree.{TreeNode};
ghost use Rattle.fisca_rules.specs.Rules.{Rules};
ghost use Rattle.fisca_rules.specs.Steps.Rules.{rules_of};
ghost use Rattle.fisca_rules.specs.Views.{rule_set};
ghost use Rattle.fisca_rules.specs.declared.rule_set.RuleSet.{RuleSet};
ghost use Rattle.fisca_situations.specs.Situations.{Situation};
ghost use Rattle.fisca_situations.specs.Steps.Situations.{situation_of};
ghost use Rattle.fisca_simulation.specs.Simulations.{Simulation, normal_key, sources};
ghost use Rattle.fisca_simulation.specs.Sound.{InputsFit, IsSafeRules};
ghost use Rattle.fisca_ast.specs.Modules.{Statement};
ghost use Rattle.fisca_time.specs.Period.{Span};
ghost use Rattle.fisca_yaml.specs.Node.{Node};

use crate::no_operand_is_of_a_wrong_type;
use fisca_model::EvalFault;
use fisca_rules::{
    days_and_texts_have_no_formulas, defaults_are_of_their_types, rule_sets_are_never_stuck,
};

/// Law: an accepted rule set is safe: none of its formulas is ever stuck, each default is of its variable's type, and days and texts have no
/// formulas.
pub fn rule_sets_are_safe()
    ensures { (nodes : List TreeNode) (modules : List (List Statement)) (r : Rules) → rules_of nodes modules ≡ Ok r → IsSafeRules r }
{
    rule_sets_are_never_stuck();
    defaults_are_of_their_types();
    days_and_texts_have_no_formulas()
}

/// Law: each input of a situation that was read under a safe rule set is of its variable's type.
pub fn inputs_fit()
    ensures { (rules : RuleSet) → IsSafeRules (rule_set rules) → (default : Option Span) (line : ℕ) (n : Node) (s : Situation) → situation_of rules.tables default line n ≡ Ok s → InputsFit (rule_set rules) s }
{}

/// Law: so are the inputs that are left where variables are neutralised.
pub fn inputs_fit_when_neutralised()
    ensures { (r : Rules) (marks : List Bool) (s left : Situation) → InputsFit r s → left.inputs ≡ without_marked marks s.inputs → InputsFit r left }
{}

/// Law: what an evaluator is said to answer is the answer of the key, and never want of memory.
pub fn answers_are_told()
    ensures answer { (m : Simulation) → IsReady m → (key : Key) → IsAnswer (answer (sources m) (normal_key m.rules (key_seen key))) (told_in m key) }
    ensures fault { (m : Simulation) → IsReady m → (key : Key) → told_in m key ≢ Err EvalFault.Memory }
{
    no_operand_is_of_a_wrong_type()
}
