//! Laws of inputs for eternity.

ghost use Rattle.std.specs.Prelude.{◌≡◌, ℕ, List, Bool, Option, Some, Ok, slice_get, true, false};
ghost use Rattle.fisca_groups.specs.declared.entity_members.EntityMembers.{EntityMembers};
ghost use Rattle.fisca_inputs.specs.Entries.{Entries, value_at};
ghost use Rattle.fisca_inputs.specs.declared.given.Given.{Given};
ghost use Rattle.fisca_model.specs.Periods.{is_eternity};
ghost use Rattle.fisca_model.specs.declared.key.Key.{Key};
ghost use Rattle.fisca_api.specs.Axes.{AreGiven};
ghost use Rattle.fisca_api.specs.Eternal.{eternal_key, input_at, overlaps_another};
ghost use Rattle.fisca_situations.specs.Situations.{Situation};
ghost use Rattle.fisca_situations.specs.Steps.Axes.{shared_anew};
ghost use Rattle.fisca_situations.specs.Steps.Situations.{situation_of};
ghost use Rattle.fisca_symbols.specs.declared.tables.Tables.{Tables};
ghost use Rattle.fisca_symbols.specs.declared.variable.Variable.{Variable};
ghost use Rattle.fisca_time.specs.Period.{Span};
ghost use Rattle.fisca_yaml.specs.Node.{Node};

/// Law: in a situation that was read, an eternal variable has for whatever period its input for eternity, and no other: what stands at a key, or else at
/// eternity, is that. A variable that is not eternal has no input for eternity, so that this is what stands at the key.
pub fn eternal_inputs_stand_at_each_period()
    ensures eternal { (c : Tables) (default : Option Span) (line : ℕ) (n : Node) (s : Situation) → situation_of c default line n ≡ Ok s → (k : Key) (x : Variable)
        → slice_get c.variables k.variable ≡ Some x → is_eternity x.definition_period ≡ true → input_at s.inputs k ≡ value_at s.inputs (eternal_key k) }
    ensures other { (c : Tables) (default : Option Span) (line : ℕ) (n : Node) (s : Situation) → situation_of c default line n ≡ Ok s → (k : Key) (x : Variable)
        → slice_get c.variables k.variable ≡ Some x → is_eternity x.definition_period ≡ false → input_at s.inputs k ≡ value_at s.inputs k }
{}

/// Law: so it is where inputs are shared anew, as with axes put in and turned.
pub fn eternal_inputs_stand_when_shared_anew()
    ensures eternal { (c : Tables) (neutral : List Bool) (ms : List EntityMembers) (gs : List Given) (es : Entries) → shared_anew c neutral ms gs ≡ Ok es → (k : Key) (x : Variable)
        → slice_get c.variables k.variable ≡ Some x → is_eternity x.definition_period ≡ true → input_at es k ≡ value_at es (eternal_key k) }
    ensures other { (c : Tables) (neutral : List Bool) (ms : List EntityMembers) (gs : List Given) (es : Entries) → shared_anew c neutral ms gs ≡ Ok es → (k : Key) (x : Variable)
        → slice_get c.variables k.variable ≡ Some x → is_eternity x.definition_period ≡ false → input_at es k ≡ value_at es k }
{}

/// Law: no input of an eternal variable is for another period that shares a day with whatever one.
pub fn eternal_inputs_never_overlap()
    ensures { (c : Tables) (gs : List Given) → AreGiven c gs → (variable : ℕ) (x : Variable) → slice_get c.variables variable ≡ Some x → is_eternity x.definition_period ≡ true
        → (member : ℕ) (period : Span) → overlaps_another gs variable member period ≡ false }
{}
