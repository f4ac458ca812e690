//! Lines that tell of files and counts.

ghost use Rattle.std.specs.Prelude.{◌≡◌, IfOk, OnOk, OnErr, is_err, string_bytes};
ghost use Rattle.std.specs.Io.KnownBytes.{Appends};
ghost use Rattle.fisca_run.specs.Counted as spec;
ghost use Rattle.fisca_writer.specs.Run.{AppendsPart};
ghost use Rattle.fisca_writer.specs.Sink.{CountsFailure};

use fisca_folder::write_shown;
use fisca_test_file::Verdict;
use fisca_writer::{RowSink, SinkFault, hand_over};
use std::alloc::{AllocError, Global};

/// The line above the report on the tests of a file: its path, as [`write_shown`] shows it. Memory is its only error. This project's own rule.
pub fn path_line(alloc: Global, path: &str) -> Result<String, AllocError>
    ensures { IfOk result (λ line. string_bytes line ≡ spec.path_line path.now) }
{
    let mut line = String::new(alloc);
    write_shown(path, &mut line)?;
    line.push('\n')?;
    Ok(line)
}

/// The counts of the tests of some files, and of one more, as far as 64 bits count. This project's own rule.
pub fn added(total: Verdict, verdict: Verdict) -> Verdict
    ensures { result ≡ spec.added total verdict }
{
    Verdict {
        passed: total.passed.saturating_add(verdict.passed),
        failed: total.failed.saturating_add(verdict.failed),
    }
}

/// The line of counts of tests, `passed P, failed F`. Memory is its only error. This project's own rule.
pub fn counts_line(alloc: Global, total: Verdict) -> Result<String, AllocError>
    ensures { IfOk result (λ line. string_bytes line ≡ spec.counts_line total) }
{
    let mut line = String::from_str(alloc, "passed ")?;
    line.push_str(itoa::Buffer::new().format(total.passed))?;
    line.push_str(", failed ")?;
    line.push_str(itoa::Buffer::new().format(total.failed))?;
    line.push('\n')?;
    Ok(line)
}

/// Writes a number of positions and a line feed. It takes no memory.
pub fn write_size<S: RowSink>(size: u64, sink: &mut S) -> Result<(), SinkFault>
    ensures all { OnOk result (Appends (S.taken sink.old) (S.taken sink.new) (spec.size_line size)) }
    ensures part { OnErr result (AppendsPart (spec.size_line size) (S.taken sink.old) (S.taken sink.new)) }
    ensures failures { CountsFailure (is_err result) (S.failures sink.old) (S.failures sink.new) }
{
    hand_over(sink, itoa::Buffer::new().format(size).as_bytes())?;
    hand_over(sink, b"\n")
}
