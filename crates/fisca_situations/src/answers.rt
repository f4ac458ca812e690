//! What answers the values of keys.

use crate::situation::Situation;
use fisca_model::{Key, Value};
use fisca_writer::RowFault;

/// What answers the values of keys in a situation.
///
/// To answer may change what is remembered, but never what a key's answer is.
pub trait Answers {
    ghost use Rattle.std.specs.Prelude.{◌≡◌, List, Result};
    ghost use Rattle.fisca_situations.specs.Asked.{IsStep};
    ghost use Rattle.fisca_situations.specs.Answered.{IsAnswer};
    ghost use Rattle.fisca_model.specs.declared.value.Value.{Value};
    ghost use Rattle.fisca_model.specs.declared.key.Key.{Key};
    ghost use Rattle.fisca_groups.specs.declared.entity_members.EntityMembers.{EntityMembers};
    ghost use Rattle.fisca_situations.specs.Steps.Views.{situation as situation_view};

    /// The type of the faults of keys.
    type Fault;

    // the value of a key, or why it has none
    ghost answer: { Self → Key → Result Value Self.Fault };

    // the members of each entity
    ghost members: { Self → List EntityMembers };

    // what has to hold before a key is asked for
    ghost ready: { Self → Type 0 };

    // a key was asked for, and its value was worked out, or that it has none, between one state and another
    ghost worked: { Self → Key → Self → Type 0 };

    // memory was refused meanwhile
    ghost refused: { Self → Key → Self → Type 0 };

    /// The value of a key. `Eval` where it has none, and `Memory` only where memory was refused.
    fn value(&mut self, key: Key) -> Result<Value, RowFault<Self::Fault>>
        requires ready { ready self.old }
        ensures answered { IsAnswer (answer self.old key) result }
        ensures step { IsStep (worked self.old key self.new) (refused self.old key self.new) result }
        ensures ready { ready self.new }
        ensures same_answers { answer self.new ≡ answer self.old }
        ensures same_members { members self.new ≡ members self.old };

    /// The situation.
    fn situation(&self) -> &Situation
        ensures { (situation_view result.now).members ≡ members self.now };
}
