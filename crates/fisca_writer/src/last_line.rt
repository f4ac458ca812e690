//! The line that tells how a run ended.

ghost use Rattle.std.specs.Prelude.{◌++◌, is_err, codes, OnOk, OnErr};
ghost use Rattle.std.specs.Fmt.{decimal};
ghost use Rattle.std.specs.Io.KnownBytes.{Appends};
ghost use Rattle.fisca_writer.specs.Run.{AppendsPart};
ghost use Rattle.fisca_writer.specs.Sink.{CountsFailure};
ghost use Rattle.fisca_writer.specs.LastLine.{last_line};

use crate::fault::RunEnd;
use crate::sink::{RowSink, SinkFault, hand_over};

/// Writes how a run ended: `end`, or `more` and the position from which a further run writes the remaining lines. It
/// takes no memory.
///
/// `Write` only where the sink failed in this call: it has a proper beginning of the line. This project's own rule.
pub fn write_end<S: RowSink>(end: RunEnd, sink: &mut S) -> Result<(), SinkFault>
    ensures all { OnOk result (Appends (S.taken sink.old) (S.taken sink.new) (last_line end)) }
    ensures part { OnErr result (AppendsPart (last_line end) (S.taken sink.old) (S.taken sink.new)) }
    ensures failures { CountsFailure (is_err result) (S.failures sink.old) (S.failures sink.new) }
{
    match end {
        RunEnd::End => hand_over(sink, b"end\n"),
        RunEnd::More(position) => {
            hand_over(sink, b"more ")?;
            write_rest(position, sink)
        }
    }
}

/// Writes a position and a line feed.
fn write_rest<S: RowSink>(position: u64, sink: &mut S) -> Result<(), SinkFault>
    ensures all { OnOk result (Appends (S.taken sink.old) (S.taken sink.new) (decimal position ++ codes "\n")) }
    ensures part { OnErr result (AppendsPart (decimal position ++ codes "\n") (S.taken sink.old) (S.taken sink.new)) }
    ensures failures { CountsFailure (is_err result) (S.failures sink.old) (S.failures sink.new) }
{
    hand_over(sink, itoa::Buffer::new().format(position).as_bytes())?;
    hand_over(sink, b"\n")
}
