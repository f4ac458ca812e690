//! Laws of rule sets.

ghost use Rattle.std.specs.Prelude.{◌≡◌, List, Ok};
ghost use Rattle.fisca_params.specs.Tree.{TreeNode};
ghost use Rattle.fisca_rules.specs.Rules.{Rules};
ghost use Rattle.fisca_rules.specs.Steps.Rules.{rules_of};
ghost use Rattle.fisca_rules.specs.Safety.{AreNeverStuck, DaysAndTextsHaveNoFormulas, DefaultsFit};
ghost use Rattle.fisca_ast.specs.Modules.{Statement};

use fisca_typing::never_stuck;

/// No formula of an accepted rule set is ever stuck: as long as its questions are answered by values of the variables' types, it meets no
/// operand of another type, no name that stands for nothing and no member that is not there, and gives a value of its type or tells a
/// fault.
pub fn rule_sets_are_never_stuck()
    ensures { (nodes : List TreeNode) (modules : List (List Statement)) (r : Rules) → rules_of nodes modules ≡ Ok r → AreNeverStuck r }
{
    never_stuck()
}

/// The default of each variable of an accepted rule set is of the variable's type: a whole number of 32 bits for an `int`, and for an Enum a
/// member that it has.
pub fn defaults_are_of_their_types()
    ensures { (nodes : List TreeNode) (modules : List (List Statement)) (r : Rules) → rules_of nodes modules ≡ Ok r → DefaultsFit r }
{}

/// Each variable of an accepted rule set has its formulas beside it, and days and texts have none.
pub fn days_and_texts_have_no_formulas()
    ensures { (nodes : List TreeNode) (modules : List (List Statement)) (r : Rules) → rules_of nodes modules ≡ Ok r → DaysAndTextsHaveNoFormulas r }
{}
