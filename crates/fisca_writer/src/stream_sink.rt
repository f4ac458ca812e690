//! A sink before a writer.

ghost use Rattle.std.specs.Prelude.{◌≡◌, ◌≤◌, length, take, IfSome, MatchOption, is_ok, cond};
ghost use Rattle.std.specs.Io.KnownBytes.{Appends, Keeps};
ghost use Rattle.fisca_writer.specs.Steps.Sink.{one_more};

use super::sink::{FailureCount, RowSink, SinkFault};
use std::io::{ErrorKind, Write};

/// Passes the bytes on to a writer. It tells its bytes where the writer does.
#[derive(Drop)]
pub struct StreamSink<W: Write> {
    writer: W,
    failed: FailureCount,
}

impl<W: Write> StreamSink<W> {
    /// A sink before a writer.
    pub fn new(writer: W) -> Self
        ensures taken { ⟦<StreamSink<W> as RowSink>⟧.taken result ≡ W.contents writer }
        ensures failures { ⟦<StreamSink<W> as RowSink>⟧.failures result ≡ 0 }
    {
        StreamSink {
            writer,
            failed: FailureCount::new(),
        }
    }

    /// The writer behind it.
    pub fn writer(&self) -> &W
        ensures { W.contents result.now ≡ ⟦<StreamSink<W> as RowSink>⟧.taken self.now }
    {
        &self.writer
    }

    /// Gives the writer back.
    pub fn into_writer(self) -> W
        ensures { W.contents result ≡ ⟦<StreamSink<W> as RowSink>⟧.taken self }
    {
        let StreamSink { writer, failed: _ } = self;
        writer
    }

    /// How often it failed, at most `u64::MAX`.
    pub fn failures(&self) -> u64
        ensures { result ≡ ⟦<StreamSink<W> as RowSink>⟧.failures self.now }
    {
        self.failed.get()
    }

    /// Has the writer pass on what it keeps in a buffer. An error is counted as a failure.
    pub fn flush(&mut self) -> Result<(), SinkFault>
        ensures bytes { Keeps (⟦<StreamSink<W> as RowSink>⟧.taken self.old) (⟦<StreamSink<W> as RowSink>⟧.taken self.new) }
        ensures failures { ⟦<StreamSink<W> as RowSink>⟧.failures self.new ≡ cond (is_ok result) (⟦<StreamSink<W> as RowSink>⟧.failures self.old) (one_more (⟦<StreamSink<W> as RowSink>⟧.failures self.old)) }
    {
        match self.writer.flush() {
            Ok(()) => Ok(()),
            Err(_) => {
                self.failed = self.failed.one_more();
                Err(SinkFault::Write)
            }
        }
    }
}

impl<W: Write> RowSink for StreamSink<W> {
    ghost taken = { λ s. W.contents s.writer };

    ghost failures = { λ s. s.failed };

    fn take(&mut self, bytes: &[u8]) -> Result<usize, SinkFault> {
        match write_uninterrupted(&mut self.writer, bytes) {
            Some(0) if !bytes.is_empty() => {
                self.failed = self.failed.one_more();
                Ok(0)
            }
            Some(taken) => Ok(taken),
            None => {
                self.failed = self.failed.one_more();
                Err(SinkFault::Write)
            }
        }
    }
}

/// Writes a piece, and tries again where the writer was interrupted. Answers how many bytes were
/// taken, or nothing where the writer failed.
#[tactic(auto, using(crate::proofs::Grown::kept_then_kept, crate::proofs::Grown::kept_then_grown))]
fn write_uninterrupted<W: Write>(writer: &mut W, piece: &[u8]) -> Option<usize>
    ensures within { IfSome result (λ taken. taken ≤ length piece.now) }
    ensures bytes { MatchOption result (Keeps (W.contents writer.old) (W.contents writer.new)) (λ taken. Appends (W.contents writer.old) (W.contents writer.new) (take taken piece.now)) }
{
    for _ in 0..u64::MAX {
        match writer.write(piece) {
            Ok(taken) => return Some(taken),
            Err(error) if error.kind() == ErrorKind::Interrupted => {}
            Err(_) => return None,
        }
    }
    None
}
