//! Where tests are worked out.

use fisca_situations::{Answers, Situation};
use std::alloc::{AllocError, Global};

/// What answers keys in the situations of tests, as a rule set does with an evaluator for each.
pub trait SimulationBuilder<A: Answers> {
    ghost use Rattle.std.specs.Prelude.{◌≡◌, IfOk, Result};
    ghost use Rattle.fisca_model.specs.declared.value.Value.{Value};
    ghost use Rattle.fisca_model.specs.declared.key.Key.{Key};
    ghost use Rattle.fisca_situations.specs.Situations.{Situation as Seen};
    ghost use Rattle.fisca_situations.specs.Steps.Views.{situation as situation_view};

    // the answer of a key in a situation
    ghost answer_in: { Self → Seen → Key → Result Value A.Fault };

    // what has to hold of a situation before keys are asked for in it
    ghost fits: { Self → Seen → Type 0 };

    /// What answers keys in a situation, with its members. `AllocError` only where memory was refused.
    fn answers(&self, alloc: Global, situation: Situation) -> Result<A, AllocError>
        requires fits { fits self.now (situation_view situation) }
        ensures ready { IfOk result (λ a. A.ready a) }
        ensures answers { IfOk result (λ a. A.answer a ≡ answer_in self.now (situation_view situation)) }
        ensures members { IfOk result (λ a. A.members a ≡ (situation_view situation).members) };

    /// How many values these answers remember. It decides when they are made anew, and nothing that is told.
    fn remembered(&self, answers: &A) -> u64;
}
