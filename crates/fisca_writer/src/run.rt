//! Writing the lines of a run.

ghost use Rattle.std.specs.Prelude.{◌≡◌, ◌≢◌, ℕ, ◌-◌, ◌<◌, ◌↔◌, Some, option_map, IsErrOf};
ghost use Rattle.fisca_writer.specs.Came.{HasCome, IsRowStep};
ghost use Rattle.fisca_writer.specs.Odometer.{product_of, IsNear};
ghost use Rattle.fisca_writer.specs.Ranges.{IsBeyond};
ghost use Rattle.fisca_writer.specs.Run.{IsRun, IsRowWritten, is_write};
ghost use Rattle.fisca_writer.specs.Sink.{CountsFailure};

use super::fault::{RowFault, RunEnd, RunFault};
use super::limit::Limit;
use super::odometer::Odometer;
use super::rows::{Rows, Selection};
use super::sink::{RowSink, hand_over};
use std::alloc::Global;

/// Writes the lines of the positions from `from` on into a sink, in order, up to a limit of lines or
/// before a position, and answers how the run ends: `More` with the first position that was not worked
/// out, or `End` where none is left in the grid. Each line is worked out whole before any of it is handed
/// over, each position's row once, in order, up to the one that ends the run. The only memory that it
/// takes of its own is the buffer of one line, and after a failure it offers nothing more to the sink.
///
/// - `BadPosition` exactly where `from` or the position before which it is to end is above the size.
/// - `Eval` exactly where the first fault from `from` on comes before the limit is reached.
/// - `Write` only where the sink failed in this call.
/// - `Memory` only where memory was refused.
pub fn write_lines<R: Rows, S: RowSink>(
    alloc: Global,
    rows: &mut R,
    from: u64,
    limit: Limit,
    sink: &mut S,
) -> Result<RunEnd, RunFault<R::Fault>>
    requires { R.ready rows.old }
    ensures run { IsRun (R.row_at rows.old) (product_of (R.counts rows.old)) from limit (S.taken sink.old) (S.taken sink.new) result }
    ensures bad_position { IsErrOf result RunFault.BadPosition ↔ IsBeyond (product_of (R.counts rows.old)) from limit }
    ensures failures { CountsFailure (is_write result) (S.failures sink.old) (S.failures sink.new) }
    ensures came { HasCome R.worked R.refused (product_of (R.counts rows.old)) from rows.old rows.new result }
    ensures ready { R.ready rows.new }
    ensures same_row { R.row_at rows.new ≡ R.row_at rows.old }
    ensures same_counts { R.counts rows.new ≡ R.counts rows.old }
{
    let groups = rows.groups();
    let size = groups.size();
    let stop = limit.to.unwrap_or(size);
    if from > size || stop > size {
        return Err(RunFault::BadPosition);
    }
    let mut line = String::new(alloc);
    let mut left = limit.rows;
    let mut odometer = Odometer::new(groups, from);
    while let Some(position) = odometer.next() {
        if position >= stop || left == Some(0) {
            return Ok(RunEnd::More(position));
        }
        match write_row(rows, position, odometer.turned(), &mut line, sink)? {
            Selection::Kept => left = one_less(left),
            Selection::Dropped => {}
        }
    }
    Ok(RunEnd::End)
}

/// The limit that one line leaves.
fn one_less(limit: Option<u64>) -> Option<u64>
    requires { limit ≢ Some 0 }
    ensures { result ≡ option_map (λ lines. lines - 1) limit }
{
    limit.map(|lines| lines - 1)
}

/// Works out the row at a position, and hands over its line if it has one.
fn write_row<R: Rows, S: RowSink>(
    rows: &mut R,
    position: u64,
    turned: u32,
    line: &mut String,
    sink: &mut S,
) -> Result<Selection, RunFault<R::Fault>>
    requires ready { R.ready rows.old }
    requires position { position < product_of (R.counts rows.old) }
    requires turned { IsNear (R.counts rows.old) (R.here rows.old) position turned }
    ensures written { IsRowWritten (R.row_at rows.old position) position (S.taken sink.old) (S.taken sink.new) result }
    ensures failures { CountsFailure (is_write result) (S.failures sink.old) (S.failures sink.new) }
    ensures step { IsRowStep (R.worked rows.old position rows.new) (R.refused rows.old position rows.new) result }
    ensures here { R.here rows.new ≡ Some position }
    ensures ready { R.ready rows.new }
    ensures same_row { R.row_at rows.new ≡ R.row_at rows.old }
    ensures same_counts { R.counts rows.new ≡ R.counts rows.old }
{
    line.clear();
    match rows.work_out(position, turned, line) {
        Ok(Selection::Dropped) => Ok(Selection::Dropped),
        Ok(Selection::Kept) => match hand_over(sink, line.as_bytes()) {
            Ok(()) => Ok(Selection::Kept),
            Err(_) => Err(RunFault::Write { position }),
        },
        Err(RowFault::Eval(fault)) => Err(RunFault::Eval { position, fault }),
        Err(RowFault::Memory) => Err(RunFault::Memory { position }),
    }
}
