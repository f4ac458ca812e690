//! A sink that fails.

ghost use Rattle.std.specs.Prelude.{Some};

use fisca_writer::{RowSink, SinkFault};
use std::alloc::Global;

/// Takes pieces of a few bytes while it has room, and then fails at each call: by an error, or by taking nothing.
#[derive(Drop)]
pub struct Narrow {
    held: Vec<u8>,
    piece: usize,
    room: usize,
    takes_nothing: bool,
    failed: u64,
}

impl Narrow {
    /// An empty sink that has room for so many bytes, and takes at most a piece of them a call. Where it has none, it takes nothing, or gives an error.
    pub fn new(alloc: Global, takes_nothing: bool, piece: usize, room: usize) -> Narrow {
        Narrow {
            held: Vec::new(alloc),
            piece,
            room,
            takes_nothing,
            failed: 0,
        }
    }

    /// All bytes taken, in order.
    pub fn bytes(&self) -> &[u8] {
        self.held.as_slice()
    }

    /// How often it failed.
    pub fn failures(&self) -> u64 {
        self.failed
    }
}

impl RowSink for Narrow {
    ghost taken = { λ s. Some s.held.items };

    ghost failures = { λ s. s.failed };

    fn take(&mut self, bytes: &[u8]) -> Result<usize, SinkFault> {
        let count = self.piece.min(self.room).min(bytes.len());
        if count == 0 && !bytes.is_empty() {
            self.failed = self.failed.saturating_add(1);
            return if self.takes_nothing {
                Ok(0)
            } else {
                Err(SinkFault::Write)
            };
        }
        match self.held.extend_from_slice(&bytes[..count]) {
            Ok(()) => {
                self.room -= count;
                Ok(count)
            }
            Err(_) => {
                self.failed = self.failed.saturating_add(1);
                Err(SinkFault::Memory)
            }
        }
    }
}
