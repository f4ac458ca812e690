//! What takes the bytes of a run.

ghost use Rattle.std.specs.Prelude.{◌≡◌, ℕ, OnOk, OnErr, is_err};
ghost use Rattle.std.specs.Io.KnownBytes.{Appends};
ghost use Rattle.fisca_writer.specs.Sink.{CountsFailure};
ghost use Rattle.fisca_writer.specs.Steps.Sink.{one_more};
ghost use Rattle.fisca_writer.specs.Fault.{sink_number};
ghost use Rattle.fisca_writer.specs.Run.{AppendsPart};

use std::marker::Model;
use thiserror::Error;

/// Why a sink took nothing.
#[derive(Clone, Copy, Debug, PartialEq, Eq, Error)]
pub enum SinkFault {
    /// The writer behind it failed.
    #[error("Write")]
    Write = 1,
    /// Memory was refused.
    #[error("Memory")]
    Memory = 2,
}

impl SinkFault {
    /// The number of the fault, 1 or 2.
    pub fn number(self) -> u8
        ensures { result ≡ sink_number self }
    {
        match self {
            SinkFault::Write => 1,
            SinkFault::Memory => 2,
        }
    }
}

/// Takes the bytes of a run, and counts its failures.
///
/// A failure is an error, or that nothing was taken of a piece that is not empty. The count stops at
/// `u64::MAX`. What has been handed to a sink may still wait in a buffer behind it: a program that
/// buffers its output calls [`StreamSink::flush`] when the run is over, and a failure of that call is
/// the program's to tell, like a failed write. This project's own rule.
pub trait RowSink {
    ghost use Rattle.std.specs.Prelude.{◌≡◌, ℕ, ◌≤◌, List, Option, IfOk, length};
    ghost use Rattle.std.specs.Io.KnownBytes.{WriteAppends};
    ghost use Rattle.fisca_writer.specs.Sink.{failures_after};

    // the bytes taken, `None` where the sink does not tell
    ghost taken: { Self → Option (List ℕ) };

    // the count of failures
    ghost failures: { Self → ℕ };

    /// Takes a piece, or a beginning of it, and answers how many bytes it took. At an error it took
    /// none.
    fn take(&mut self, bytes: &[u8]) -> Result<usize, SinkFault>
        ensures within { IfOk result (λ n. n ≤ length bytes.now) }
        ensures bytes { WriteAppends (taken self.old) (taken self.new) result bytes.now }
        ensures counted { failures self.new ≡ failures_after (failures self.old) result bytes.now };
}

/// A count of failures, which stops at `u64::MAX`.
#[derive(Clone, Copy, Debug)]
pub(crate) struct FailureCount {
    count: u64,
}

impl Model for FailureCount {
    ghost use Rattle.std.specs.Prelude.{ℕ};

    ghost Value = { ℕ };

    ghost view = { λ c. c.count };

    ghost inverse = { λ n. record { count = n } };
}

impl FailureCount {
    /// No failure so far.
    pub(crate) fn new() -> Self
        ensures { result ≡ 0 }
    {
        FailureCount { count: 0 }
    }

    /// The count as a number.
    pub(crate) fn get(self) -> u64
        ensures { result ≡ self }
    {
        self.count
    }

    /// The count after one more failure.
    pub(crate) fn one_more(self) -> Self
        ensures { result ≡ one_more self }
    {
        FailureCount {
            count: self.count.saturating_add(1),
        }
    }
}

/// Hands over a piece until all of it is taken or one failure happened.
pub fn hand_over<S: RowSink>(sink: &mut S, piece: &[u8]) -> Result<(), SinkFault>
    ensures all { OnOk result (Appends (S.taken sink.old) (S.taken sink.new) piece.now) }
    ensures part { OnErr result (AppendsPart piece.now (S.taken sink.old) (S.taken sink.new)) }
    ensures failures { CountsFailure (is_err result) (S.failures sink.old) (S.failures sink.new) }
{
    let mut rest = piece;
    while !rest.is_empty() {
        let taken = sink.take(rest)?;
        if taken == 0 {
            return Err(SinkFault::Write);
        }
        rest = &rest[taken..];
    }
    Ok(())
}
