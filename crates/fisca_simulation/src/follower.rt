//! What follows a formula.

use fisca_ir::Node;
use fisca_machine::{Context, Frame};
use fisca_model::{Key, Value};

/// What answers the keys that formulas ask for.
pub trait Answering {
    ghost use Rattle.std.specs.Prelude.{◌≡◌, Option, option_map};
    ghost use Rattle.fisca_model.specs.Seen.{key_seen, value_seen};
    ghost use Rattle.fisca_model.specs.Values as meaning;

    // the value of a key, where it has one
    ghost answers: { Self → meaning.Key → Option meaning.Value };

    /// The value of the key, where it has one, without memory.
    fn answer(&self, key: &Key) -> Option<Value>
        ensures { option_map value_seen result ≡ answers self.now (key_seen key.now) };
}

/// A formula that is followed: what it is worked out over, what answers it, its locals, and for whom it is worked out.
#[derive(Drop)]
pub struct Follower<'t, 'r, 's, 'a, A> {
    /// The rule set's tables and the situation's members.
    pub context: Context<'t, 'r, 's>,
    /// What answers the keys that it asks for.
    pub answers: &'a A,
    /// Its locals.
    pub locals: &'r [Node],
    /// For whom it is worked out.
    pub frame: Frame,
}
