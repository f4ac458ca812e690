//! Laws of answers.

ghost use Rattle.std.specs.Prelude.{◌≡◌, ℕ, ◌≤◌};
ghost use Rattle.fisca_key_semantics.specs.Answers.{Sources, value_within};
ghost use Rattle.fisca_key_semantics.specs.Chains.{IsDefinite};
ghost use Rattle.fisca_model.specs.Values.{Key};

/// A value or a fault that some fuel is enough for stays with any greater one.
#[tactic(auto, using(crate::proofs::Fuel::stays))]
pub fn definite_answers_stay()
    ensures { (src : Sources) (n m : ℕ) (k : Key) → n ≤ m → IsDefinite (value_within src n k) → value_within src m k ≡ value_within src n k }
{}
