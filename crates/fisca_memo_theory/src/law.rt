//! Laws of heights, works and reads, each as the contract of a function that does nothing.

ghost use Rattle.std.specs.Prelude.{◌≡◌, ◌↔◌, ℕ, ◌<◌, ◌≤◌, List, Ok};
ghost use Rattle.fisca_key_semantics.specs.Answers.{Sources, value_within};
ghost use Rattle.fisca_key_semantics.specs.Chains.{AsksFor, IsDefinite, IsHeight, PathFrom};
ghost use Rattle.fisca_key_semantics.specs.Keys.{In};
ghost use Rattle.fisca_memo_theory.specs.Entries.{Entries};
ghost use Rattle.fisca_memo_theory.specs.Memory.{HasFormula, IsTrueMemory};
ghost use Rattle.fisca_memo_theory.specs.Reads.{AreReads, Moves, ReadsAt, unless_moved};
ghost use Rattle.fisca_memo_theory.specs.Work.{IsWork};
ghost use Rattle.fisca_model.specs.Values.{Key, Value};

/// Law: a key that has a value or a fault within some fuel has a height.
#[tactic(auto, using(crate::proofs::Heights::height_of))]
pub fn definite_keys_have_heights()
    ensures { (src : Sources) (n : ℕ) (k : Key) → IsDefinite (value_within src n k) → (h : ℕ) × IsHeight src k h }
{}

/// Law: a value of some height is the key's value within each fuel from that height on, and within no less.
#[tactic(auto, using(crate::proofs::Laws::value_from_height))]
pub fn values_stand_from_their_heights()
    ensures { (src : Sources) (k : Key) (h : ℕ) (v : Value) → IsHeight src k h → value_within src h k ≡ Ok v → (n : ℕ) → (value_within src n k ≡ Ok v) ↔ (h ≤ n) }
{}

/// Law: heights fall from a key to those that it asks for.
pub fn heights_fall()
    ensures { (src : Sources) (k j : Key) (h i : ℕ) → AsksFor src k j → IsHeight src k h → IsHeight src j i → i < h }
{}

/// Law: a key that comes again in a chain from itself has neither a value nor a fault, whatever the fuel.
#[tactic(auto, using(crate::proofs::Laws::never_of_itself))]
pub fn keys_that_need_themselves_have_no_answer()
    ensures { (src : Sources) (k : Key) (ks : List Key) → PathFrom src k ks → In k ks → (n : ℕ) → IsDefinite (value_within src n k) → ⊥ }
{}

/// Law: a key whose formula gives a value within a fuel is of its own work.
#[tactic(auto, using(crate::proofs::Laws::work_of_itself))]
pub fn keys_are_of_their_own_work()
    ensures { (src : Sources) (n : ℕ) (k : Key) (v : Value) → HasFormula src k → value_within src n k ≡ Ok v → IsWork src n k k }
{}

/// Law: each key of a work has a formula, which gives a value within the fuel.
#[tactic(auto, using(crate::proofs::Laws::work_is_worked_out))]
pub fn work_is_worked_out()
    ensures { (src : Sources) (n : ℕ) (key k : Key) → IsWork src n key k → HasFormula src k × ((v : Value) × (value_within src n k ≡ Ok v)) }
{}

/// Law: what the work of a key reads is the same within any two fuels that give it a value or a fault.
#[tactic(auto, using(crate::proofs::Laws::reads_any_fuel))]
pub fn reads_are_those_of_any_fuel()
    ensures { (src : Sources) (marks : Key → ℕ) (wheel n m : ℕ) (k : Key) → IsDefinite (value_within src n k) → IsDefinite (value_within src m k) → ReadsAt (Moves marks wheel) src n k ↔ ReadsAt (Moves marks wheel) src m k }
{}

/// Law: where a wheel turns, and what the values of keys without its mark come from stays, a true memory is true afterwards without the
/// entries that read the wheel, and what these read stays.
pub fn turned_memory_is_true()
    ensures truth { (marks : Key → ℕ) (wheel : ℕ) (old new : Sources) (before after : Entries) → ((k : Key) → (Moves marks wheel k → ⊥) → new k ≡ old k)
        → ((k : Key) → after k ≡ unless_moved wheel (before k)) → IsTrueMemory old before → AreReads marks old before → IsTrueMemory new after }
    ensures reads { (marks : Key → ℕ) (wheel : ℕ) (old new : Sources) (before after : Entries) → ((k : Key) → (Moves marks wheel k → ⊥) → new k ≡ old k)
        → ((k : Key) → after k ≡ unless_moved wheel (before k)) → IsTrueMemory old before → AreReads marks old before → AreReads marks new after }
{}
