//! A sink in memory.

ghost use Rattle.std.specs.Prelude.{◌≡◌, [], Some};

use super::sink::{FailureCount, RowSink, SinkFault};
use std::alloc::Global;
use std::marker::Model;

/// Keeps the bytes in memory. It fails only where memory is refused, and then takes nothing.
#[derive(Drop)]
pub struct MemorySink {
    taken: Vec<u8>,
    failed: FailureCount,
}

impl Model for MemorySink {
    ghost use Rattle.fisca_writer.specs.Sink.{Held};

    ghost Value = { Held };

    ghost view = { λ s. record { bytes = s.taken.items; failures = s.failed } };
}

impl MemorySink {
    /// A sink that holds nothing. What it takes later is kept in memory of this allocator.
    pub fn new(alloc: Global) -> Self
        ensures bytes { result.bytes ≡ [] }
        ensures failures { result.failures ≡ 0 }
    {
        MemorySink {
            taken: Vec::new(alloc),
            failed: FailureCount::new(),
        }
    }

    /// All bytes taken, in order.
    pub fn bytes(&self) -> &[u8]
        ensures { result.now ≡ self.now.bytes }
    {
        self.taken.as_slice()
    }

    /// How often it failed, at most `u64::MAX`.
    pub fn failures(&self) -> u64
        ensures { result ≡ self.now.failures }
    {
        self.failed.get()
    }
}

impl RowSink for MemorySink {
    ghost taken = { λ s. Some s.bytes };

    ghost failures = { λ s. s.failures };

    fn take(&mut self, bytes: &[u8]) -> Result<usize, SinkFault> {
        match self.taken.extend_from_slice(bytes) {
            Ok(()) => Ok(bytes.len()),
            Err(_) => {
                self.failed = self.failed.one_more();
                Err(SinkFault::Memory)
            }
        }
    }
}
