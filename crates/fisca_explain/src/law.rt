//! Laws of explanations, each as the contract of a function that does nothing.

ghost use Rattle.std.specs.Prelude.{◌≡◌, ◌-◌, ℕ, [], List, Ok};
ghost use Rattle.fisca_explain.specs.Below.{answers_by};
ghost use Rattle.fisca_explain.specs.Explained.{explained};
ghost use Rattle.fisca_explain.specs.KeyLines.{AreNeeds, of_entries, of_lines};
ghost use Rattle.fisca_explanation.specs.Explanations.{explanation};
ghost use Rattle.fisca_simulation.specs.Followed.{value_or_none};
ghost use Rattle.fisca_simulation.specs.declared.note.Note.{Note};
ghost use Rattle.fisca_key_semantics.specs.Answers.{Sources, most_keys, value_within};
ghost use Rattle.fisca_memo_theory.specs.Entries.{Entries, Remembered};
ghost use Rattle.fisca_memo_theory.specs.Memory.{HasFormula, IsTrueMemory};
ghost use Rattle.fisca_model.specs.Values.{Key, Value};

/// Law: where no level is cut, the keys that are told are those of the explanation, in its order, each as deep and for the same reason: so they have the values
/// of the rules, stand below what asks for them, and each formula of the work is followed once.
pub fn keys_that_are_told_are_those_of_the_explanation()
    ensures { (src : Sources) (N : ℕ → Key → List Note) → AreNeeds src N → (key : Key)
        → of_entries (explained src (λ depth k. value_or_none (value_within src (most_keys - depth) k)) N most_keys 0 [] key).entries ≡ of_lines (explanation src key) }
{}

/// Law: what memory answers of a key below others is its value there, where what is remembered is true and has the key's own value, if it has one.
pub fn answers_from_memory_are_those_of_the_rules()
    ensures { (src : Sources) (entries : Entries) → IsTrueMemory src entries → (left : ℕ) (k : Key)
        → ((v : Value) → value_within src left k ≡ Ok v → HasFormula src k → Remembered entries k) → answers_by src entries left k ≡ value_or_none (value_within src left k) }
{}
