//! Laws of the files of commands.

ghost use Rattle.std.specs.Prelude.{◌≡◌, Ok};
ghost use Rattle.fisca_columns.specs.Calc.{Calc, calc_of};
ghost use Rattle.fisca_simulation.specs.Sound.{InputsFit, IsSafeRules};
ghost use Rattle.fisca_rules.specs.Views.{rule_set};
ghost use Rattle.fisca_rules.specs.declared.rule_set.RuleSet.{RuleSet};
ghost use Rattle.fisca_yaml.specs.Node.{Node};

/// Law: each input of a file of `fisca calc` that was read under a safe rule set is of its variable's type.
pub fn calc_inputs_fit()
    ensures { (rules : RuleSet) → IsSafeRules (rule_set rules) → (n : Node) (c : Calc) → calc_of rules.tables n ≡ Ok c → InputsFit (rule_set rules) c.situation }
{}
