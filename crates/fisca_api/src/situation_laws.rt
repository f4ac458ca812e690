//! The law of situations with an axis put in that is turned.

ghost use Rattle.std.specs.Prelude.{◌≡◌, [], ◌∷◌, ℕ, true, Some, Ok};
ghost use Rattle.std.specs.List.{list_any};
ghost use Rattle.fisca_api.specs.Axes.{HasParts};
ghost use Rattle.fisca_api.specs.OfGiven.{IsOfGiven, axis_value, turned_to};
ghost use Rattle.fisca_api.specs.Situations.{Moved, Situation, situation_at, with_axis};
ghost use Rattle.fisca_inputs.specs.Entries.{same_key, value_at};
ghost use Rattle.fisca_model.specs.declared.key.Key.{Key};
ghost use Rattle.fisca_model.specs.declared.value.Value.TheVariants as v;
ghost use Rattle.fisca_num.specs.Number.{Number};
ghost use Rattle.fisca_rules.specs.Views.{rule_set};
ghost use Rattle.fisca_rules.specs.declared.rule_set.RuleSet.{RuleSet};
ghost use Rattle.fisca_simulation.specs.Sound.{IsSafeRules};
ghost use Rattle.fisca_situations.specs.Steps.Slots.{keys_of};
ghost use Rattle.fisca_symbols.specs.declared.tables.Tables.{Tables};
ghost use Rattle.fisca_time.specs.Period.{is_period};

/// Law: where `Situation::axis` puts an axis into a situation whose inputs are those that are given, they still are; each key of its slot has a number under
/// a safe rule set; and where the slot is turned to a value, the inputs are those of the situation in which `Situation::at` gives the variable that value,
/// cut for its type.
pub fn turning_gives_values()
    ensures shared { (c : Tables) (s : Situation) (wheel : ℕ) (k : Key) (m : Moved) → IsOfGiven c s → is_period k.period ≡ true → with_axis c s wheel k ≡ Ok m → IsOfGiven c m.situation }
    ensures numbers { (rules : RuleSet) → IsSafeRules (rule_set rules) → (s : Situation) (wheel : ℕ) (k : Key) (m : Moved) → IsOfGiven rules.tables s → is_period k.period ≡ true
        → with_axis rules.tables s wheel k ≡ Ok m → (key : Key) → list_any (same_key key) (keys_of m.slot) ≡ true → (n : Number) × (value_at m.situation.shared.inputs key ≡ Some (v.Number n)) }
    ensures turned { (c : Tables) (s : Situation) (wheel : ℕ) (k : Key) (m : Moved) → IsOfGiven c s → is_period k.period ≡ true → with_axis c s wheel k ≡ Ok m
        → (value : Number) → HasParts value → situation_at c m.situation (axis_value k value ∷ []) ≡ Ok (turned_to c m k value) }
{}
