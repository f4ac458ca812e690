//! Keys, each once.

ghost use Rattle.std.specs.Prelude.{◌≡◌, ◌∷◌, ◌++◌, [], List, OnOk};
ghost use Rattle.fisca_explain.specs.Followed.{HasJust};
ghost use Rattle.fisca_key_semantics.specs.Keys.{has};
ghost use Rattle.fisca_model.specs.Seen.{key_seen};
ghost use Rattle.fisca_model.specs.Values as meaning;

use fisca_evaluator::{IndexRecall, Known, Recall};
use fisca_model::{Key, Value};
use std::alloc::{AllocError, Global};

/// The keys whose formulas were followed: a memory that has something of each.
#[derive(Drop)]
pub(crate) struct Followed {
    keys: IndexRecall,
}

impl Followed {
    /// None.
    pub(crate) fn new(alloc: Global) -> Followed
        ensures { HasJust [] result }
    {
        Followed {
            keys: IndexRecall::new(alloc),
        }
    }

    /// Whether the formula of the key was followed.
    pub(crate) fn has(&self, key: &Key) -> bool
        ensures { (before : List meaning.Key) → HasJust before self.now → result ≡ has before (key_seen key.now) }
    {
        self.keys.look(key).is_some()
    }

    /// The formula of the key is followed.
    pub(crate) fn add(&mut self, key: Key) -> Result<(), AllocError>
        ensures { OnOk result ((before : List meaning.Key) → HasJust before self.old → HasJust (before ++ key_seen key ∷ []) self.new) }
    {
        let known = Known {
            value: Value::Bool(true),
            height: 0,
            reads: 0,
        };
        self.keys.keep(key, known)
    }
}
