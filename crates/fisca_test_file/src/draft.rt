//! A report that is not long.

ghost use Rattle.std.specs.Prelude.{◌≡◌, [], Some};
ghost use Rattle.fisca_writer.specs.Steps.Sink.{one_more};

use fisca_writer::{RowSink, SinkFault};
use std::alloc::Global;

/// The most bytes of a report that is handed over once all tests are worked out.
const MOST_BYTES: usize = 1 << 20;

/// Keeps a report in memory. It fails where memory is refused, or the report grows too long, and then takes nothing.
#[derive(Drop)]
pub(crate) struct Draft {
    taken: Vec<u8>,
    failed: u64,
}

impl Draft {
    /// One without a byte.
    pub(crate) fn new(alloc: Global) -> Draft
        ensures { result.taken.items ≡ [] }
    {
        Draft {
            taken: Vec::new(alloc),
            failed: 0,
        }
    }

    /// The bytes so far.
    pub(crate) fn bytes(&self) -> &[u8]
        ensures { result.now ≡ self.now.taken.items }
    {
        self.taken.as_slice()
    }

    /// One failure more.
    fn fail(&mut self)
        ensures taken { self.new.taken ≡ self.old.taken }
        ensures failed { self.new.failed ≡ one_more self.old.failed }
    {
        self.failed = self.failed.saturating_add(1);
    }
}

impl RowSink for Draft {
    ghost taken = { λ s. Some s.taken.items };

    ghost failures = { λ s. s.failed };

    fn take(&mut self, bytes: &[u8]) -> Result<usize, SinkFault> {
        if bytes.len() > MOST_BYTES.saturating_sub(self.taken.as_slice().len()) {
            self.fail();
            return Err(SinkFault::Write);
        }
        match self.taken.extend_from_slice(bytes) {
            Ok(()) => Ok(bytes.len()),
            Err(_) => {
                self.fail();
                Err(SinkFault::Memory)
            }
        }
    }
}
