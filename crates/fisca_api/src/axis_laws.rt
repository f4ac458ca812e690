//! Laws of situations with axes put in, by `Situation::axis` and `Slot::turn`.

ghost use Rattle.std.specs.Prelude.{◌≡◌, ℕ, List, Bool, Some, Ok, Option, true};
ghost use Rattle.std.specs.List.{list_any};
ghost use Rattle.fisca_groups.specs.declared.entity_members.EntityMembers.{EntityMembers};
ghost use Rattle.fisca_inputs.specs.Entries.{Entries, same_key, value_at};
ghost use Rattle.fisca_inputs.specs.declared.given.Given.{Given};
ghost use Rattle.fisca_model.specs.declared.key.Key.{Key};
ghost use Rattle.fisca_model.specs.declared.value.Value.TheVariants as v;
ghost use Rattle.fisca_num.specs.Number.{Number};
ghost use Rattle.fisca_api.specs.Axes.{AreGiven, HasParts, HasPeriod, IsMoved, input_with};
ghost use Rattle.fisca_rules.specs.Views.{rule_set};
ghost use Rattle.fisca_rules.specs.declared.rule_set.RuleSet.{RuleSet};
ghost use Rattle.fisca_simulation.specs.Sound.{InputsFit, IsSafeRules};
ghost use Rattle.fisca_situations.specs.Axes.{Moving, with_axis};
ghost use Rattle.fisca_situations.specs.Situations.{Situation};
ghost use Rattle.fisca_situations.specs.Steps.Axes.{moved, put_in, shared_anew};
ghost use Rattle.fisca_situations.specs.Steps.Cuts.{cut_for};
ghost use Rattle.fisca_situations.specs.Steps.Situations.{reading_of};
ghost use Rattle.fisca_situations.specs.Steps.Slots.{keys_of, slot_of, turned};
ghost use Rattle.fisca_situations.specs.declared.reading.Reading.{Reading};
ghost use Rattle.fisca_symbols.specs.declared.tables.Tables.{Tables};
ghost use Rattle.fisca_symbols.specs.declared.variable.Variable.{Variable};
ghost use Rattle.fisca_time.specs.Period.{Span, is_period};
ghost use Rattle.fisca_yaml.specs.Node.{Node};

/// Law: what `reading_of` reads is given: each input for a period, and no two of one variable, member and period.
pub fn inputs_are_given()
    ensures { (c : Tables) (default : Option Span) (line : ℕ) (n : Node) (r : Reading) → HasPeriod default → reading_of c default line n ≡ Ok r → AreGiven c r.given }
{}

/// Law: where `Situation::axis` puts an axis in, its input is given beside the others, with the value 0; it moves just that input, and the inputs are
/// those that are given then, shared anew. The inputs of axes that were put in before stay where they are.
pub fn axes_are_put_in()
    ensures given { (c : Tables) (neutral : List Bool) (s : Situation) (gs : List Given) (wheel : ℕ) (k : Key) (m : Moving) → AreGiven c gs
        → is_period k.period ≡ true → with_axis c neutral s gs wheel k ≡ Ok m → AreGiven c m.given }
    ensures moved { (c : Tables) (neutral : List Bool) (s : Situation) (gs : List Given) (wheel : ℕ) (k : Key) (m : Moving) → AreGiven c gs
        → is_period k.period ≡ true → with_axis c neutral s gs wheel k ≡ Ok m
        → (x : Variable) × IsMoved c m.given x k × (m.slot ≡ slot_of c neutral wheel (moved x k)) }
    ensures shared { (c : Tables) (neutral : List Bool) (s : Situation) (gs : List Given) (wheel : ℕ) (k : Key) (m : Moving)
        → with_axis c neutral s gs wheel k ≡ Ok m → (m.situation.members ≡ s.members) × (shared_anew c neutral s.members m.given ≡ Ok m.situation.inputs) }
    ensures others { (c : Tables) (neutral : List Bool) (s : Situation) (gs : List Given) (wheel : ℕ) (k : Key) (m : Moving) → AreGiven c gs
        → is_period k.period ≡ true → with_axis c neutral s gs wheel k ≡ Ok m → (x : Variable) (other : Key) → IsMoved c gs x other → IsMoved c m.given x other }
{}

/// Law: where inputs are shared among which that of an axis is, and the axis's slot is turned to a value, these become what the inputs are where that
/// input has the value, cut for the variable's type, shared anew. So it is with one axis after another, each turned to a value of its own.
pub fn turning_shares_anew()
    ensures shared { (c : Tables) (neutral : List Bool) (ms : List EntityMembers) (gs : List Given) (es : Entries) (wheel : ℕ) (x : Variable) (k : Key) (value : Number)
        → AreGiven c gs → IsMoved c gs x k → HasParts value → shared_anew c neutral ms gs ≡ Ok es
        → shared_anew c neutral ms (put_in gs (input_with x k (cut_for x.value_type value))) ≡ Ok (turned (slot_of c neutral wheel (moved x k)) value es) }
    ensures given { (c : Tables) (gs : List Given) (x : Variable) (k : Key) (value : Number) → AreGiven c gs → IsMoved c gs x k
        → AreGiven c (put_in gs (input_with x k value)) }
    ensures moved { (c : Tables) (gs : List Given) (x y : Variable) (k other : Key) (value : Number) → AreGiven c gs → IsMoved c gs x k → IsMoved c gs y other
        → IsMoved c (put_in gs (input_with x k value)) y other }
{}

/// Law: in a situation whose inputs are given and shared, under a safe rule set, each key of an axis's slot has a number.
pub fn slots_have_numbers()
    ensures { (rules : RuleSet) → IsSafeRules (rule_set rules) → (neutral : List Bool) (ms : List EntityMembers) (gs : List Given) (es : Entries) (wheel : ℕ) (x : Variable) (k : Key)
        → AreGiven rules.tables gs → IsMoved rules.tables gs x k → shared_anew rules.tables neutral ms gs ≡ Ok es
        → (key : Key) → list_any (same_key key) (keys_of (slot_of rules.tables neutral wheel (moved x k))) ≡ true
        → (n : Number) × (value_at es key ≡ Some (v.Number n)) }
{}

/// Law: under a safe rule set each input of a situation is of its variable's type, where these are inputs that are given, shared: so an evaluator may be
/// asked there, with axes put in and turned.
pub fn with_axes_inputs_fit()
    ensures { (rules : RuleSet) → IsSafeRules (rule_set rules) → (neutral : List Bool) (s : Situation) (gs : List Given) → AreGiven rules.tables gs
        → shared_anew rules.tables neutral s.members gs ≡ Ok s.inputs → InputsFit (rule_set rules) s }
{}
