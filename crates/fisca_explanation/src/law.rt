//! Laws of explanations, each as the contract of a function that does nothing.

ghost use Rattle.std.specs.Prelude.{◌≡◌, ◌↔◌, ◌++◌, [], ◌∷◌, false, suc, ℕ, List, length, Ok, Err};
ghost use Rattle.fisca_explanation.specs.Explanations.{Line, explanation, explanation_within};
ghost use Rattle.fisca_explanation.specs.Listed.{Among, keys_at, worked_keys};
ghost use Rattle.fisca_key_semantics.specs.Answers.{Sources, answer, formula, most_keys, value_within};
ghost use Rattle.fisca_key_semantics.specs.Chains.{IsPath, asked};
ghost use Rattle.fisca_key_semantics.specs.Inquiry.{Inquiry};
ghost use Rattle.fisca_key_semantics.specs.Keys.{In, has};
ghost use Rattle.fisca_memo_theory.specs.Added.{AreDifferent};
ghost use Rattle.fisca_memo_theory.specs.Work.{IsWork};
ghost use Rattle.fisca_model.specs.Causes.{Fault};
ghost use Rattle.fisca_model.specs.Values.{Key, Value};

/// Law: a value that is listed of a key is the one that the rules define for it.
pub fn listed_keys_have_their_values()
    ensures { (src : Sources) (key : Key) (line : Line) (v : Value) → Among line (explanation src key) → line.answer ≡ Ok v → answer src line.key ≡ Ok v }
{}

/// Law: a fault that is listed is that of the key that is explained.
pub fn faults_are_those_of_what_is_explained()
    ensures { (src : Sources) (key : Key) (line : Line) (f : Fault) → Among line (explanation src key) → line.answer ≡ Err f → answer src key ≡ Err f }
{}

/// Law: each key that is listed is asked for by the one that it stands below, and so on up to the key that is explained.
pub fn listed_keys_are_asked_for()
    ensures { (src : Sources) (key : Key) (line : Line) → Among line (explanation src key) → IsPath src (line.path ++ line.key ∷ []) }
{}

/// Law: what stands directly below a key whose formula was not followed before is exactly what its formula asks for there, in order.
pub fn what_stands_below_is_what_is_asked()
    ensures { (src : Sources) (n : ℕ) (path before : List Key) (key : Key) (d : Inquiry) → src key ≡ formula d → has before key ≡ false
        → keys_at (suc (length path)) (explanation_within src (suc n) path before key).lines ≡ asked (value_within src n) d }
{}

/// Law: no formula is followed twice.
pub fn each_formula_is_followed_once()
    ensures { (src : Sources) (key : Key) → AreDifferent (worked_keys (explanation src key)) }
{}

/// Law: the formulas that are followed for a key that has a value are just its work.
pub fn formulas_that_are_followed_are_the_work()
    ensures { (src : Sources) (key k : Key) (v : Value) → answer src key ≡ Ok v → In k (worked_keys (explanation src key)) ↔ IsWork src most_keys key k }
{}
