//! Notes in the order in which they came.

use crate::note::{Halted, Note};
use std::alloc::Global;
use std::marker::Model;

/// Items in the order in which they came, seen as a list.
#[derive(Drop)]
pub struct Sequence<T> {
    items: Vec<T>,
}

/// Notes in the order in which they came.
pub type Notes = Sequence<Note>;

impl<T> Model for Sequence<T> {
    ghost use Rattle.std.specs.Prelude.{List};

    ghost Value = { List T };

    ghost view = { λ s. s.items.items };
}

impl<T: Drop> Sequence<T> {
    ghost use Rattle.std.specs.Prelude.{◌≡◌, ◌++◌, ◌∷◌, [], OnOk, IfErr};

    /// None.
    pub fn new(alloc: Global) -> Self
        ensures { result ≡ [] }
    {
        Sequence {
            items: Vec::new(alloc),
        }
    }

    /// One more. `Memory` where a growth was refused.
    pub(crate) fn push(&mut self, item: T) -> Result<(), Halted>
        ensures ok { OnOk result (self.new ≡ self.old ++ item ∷ []) }
        ensures err { IfErr result (λ e. e ≡ Halted.Memory) }
    {
        match self.items.push(item) {
            Ok(()) => Ok(()),
            Err(_) => Err(Halted::Memory),
        }
    }

    /// All of them.
    pub fn as_slice(&self) -> &[T]
        ensures { result.now ≡ self.now }
    {
        self.items.as_slice()
    }
}
