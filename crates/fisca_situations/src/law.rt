//! Laws of situations, each as the contract of a function that does nothing.

ghost use Rattle.std.specs.Prelude.{◌≡◌, ℕ, map, Option, Some, Ok};
ghost use Rattle.fisca_inputs.specs.Entries.{value_at};
ghost use Rattle.fisca_inputs.specs.Rules.{rule_of};
ghost use Rattle.fisca_model.specs.Seen.{value_seen};
ghost use Rattle.fisca_inputs.specs.Typed.{DefaultsTyped, IsValueOf};
ghost use Rattle.fisca_model.specs.declared.value.Value.{Value};
ghost use Rattle.fisca_model.specs.declared.key.Key.{Key};
ghost use Rattle.fisca_situations.specs.Situations.{Situation};
ghost use Rattle.fisca_situations.specs.Steps.Situations.{situation_of};
ghost use Rattle.fisca_symbols.specs.Known.{tables as known};
ghost use Rattle.fisca_symbols.specs.declared.tables.Tables.{Tables};
ghost use Rattle.fisca_time.specs.Period.{Span};
ghost use Rattle.fisca_yaml.specs.Node.{Node};

/// Law: each input of a situation that was read is a value of its variable's type, after sharing and beside other members' inputs too:
/// a number for a number, a bool for a bool, and a member that the variable's Enum has. It holds where the variables' defaults are of their
/// types, as those of a rule set are.
pub fn inputs_are_of_their_types()
    ensures { (c : Tables) (default : Option Span) (line : ℕ) (n : Node) (s : Situation) → DefaultsTyped (known c) (map rule_of c.variables)
        → situation_of c default line n ≡ Ok s → (k : Key) (w : Value) → value_at s.inputs k ≡ Some w → IsValueOf (known c) k.variable (value_seen w) }
{}
