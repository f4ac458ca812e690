//! What memories of values have in common.

use crate::known::Known;
use fisca_model::Key;
use std::alloc::AllocError;

/// A memory of values: a finite map from keys to what is known of them.
pub trait Recall {
    ghost use Rattle.std.specs.Prelude.{◌≡◌, ◌<◌, Option, OnOk, OnErr, option_map};
    ghost use Rattle.fisca_memo_theory.specs.Entries.{Entry, with_entry};
    ghost use Rattle.fisca_memo_theory.specs.Reads.{unless_moved};
    ghost use Rattle.fisca_model.specs.Seen.{key_seen};
    ghost use Rattle.fisca_model.specs.Values as meaning;
    ghost use Rattle.fisca_evaluator.specs.Found.{entry_seen};

    // what is remembered of a key
    ghost find: { Self → meaning.Key → Option Entry };

    /// What is remembered of the key, without memory.
    fn look(&self, key: &Key) -> Option<Known>
        ensures { option_map entry_seen result ≡ find self.now (key_seen key.now) };

    /// Remembers this of the key, in place of what was remembered of it, and nothing else. Where a growth was refused nothing is changed.
    fn keep(&mut self, key: Key, known: Known) -> Result<(), AllocError>
        ensures ok { OnOk result ((k : meaning.Key) → find self.new k ≡ with_entry (find self.old) (key_seen key) (entry_seen known) k) }
        ensures err { OnErr result ((k : meaning.Key) → find self.new k ≡ find self.old k) };

    /// Forgets what reads the wheel, and nothing else, without memory. A wheel is a group of axes that turn together.
    fn drop_moved(&mut self, wheel: u32)
        requires { wheel < 16 }
        ensures { (k : meaning.Key) → find self.new k ≡ unless_moved wheel (find self.old k) };
}
