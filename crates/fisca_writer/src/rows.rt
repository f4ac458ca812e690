//! What stands at the positions of a grid.

ghost use Rattle.std.specs.Prelude.{◌≡◌, ℕ, ◌<◌, [], string_bytes};

use super::fault::RowFault;
use super::groups::GroupLengths;

/// Whether a position has a line.
#[derive(Clone, Copy, Debug, PartialEq, Eq)]
pub enum Selection {
    /// It has one.
    Kept,
    /// It has none.
    Dropped,
}

/// The rows of a grid: for each position nothing, a line or a fault.
///
/// Working out a row may change what the rows remember, but never what a row is.
pub trait Rows {
    ghost use Rattle.std.specs.Prelude.{◌≡◌, ℕ, ◌<◌, List, [], Option, Some, string_bytes};
    ghost use Rattle.fisca_writer.specs.Came.{IsStep};
    ghost use Rattle.fisca_writer.specs.Odometer.{product_of, IsNear};
    ghost use Rattle.fisca_writer.specs.Row.{Row, IsWorkedOut};

    /// The type of the faults of rows.
    type Fault;

    // what stands at a position
    ghost row_at: { Self → ℕ → Row Self.Fault };

    // the lengths of the grid's groups
    ghost counts: { Self → List ℕ };

    // the position where the rows stand: the one whose row was worked out last
    ghost here: { Self → Option ℕ };

    // what has to hold of them before a row is worked out
    ghost ready: { Self → Type 0 };

    // the row at a position was worked out, between one state of the rows and another
    ghost worked: { Self → ℕ → Self → Type 0 };

    // memory was refused meanwhile
    ghost refused: { Self → ℕ → Self → Type 0 };

    /// The groups of the grid.
    fn groups(&self) -> GroupLengths
        ensures { result ≡ counts self.now };

    /// Works out the row at a position, where only the first `turned` groups may have other places than
    /// at the position where the rows stand. `Kept` where it has a line, whose text, with its line feed,
    /// then is in the buffer; `Dropped` where it has none; `Eval` where it is a fault. `Memory` only
    /// where memory was refused.
    fn work_out(
        &mut self,
        position: u64,
        turned: u32,
        line: &mut String,
    ) -> Result<Selection, RowFault<Self::Fault>>
        requires ready { ready self.old }
        requires position { position < product_of (counts self.old) }
        requires turned { IsNear (counts self.old) (here self.old) position turned }
        requires line { string_bytes line.old ≡ [] }
        ensures worked_out { IsWorkedOut (row_at self.old position) result (string_bytes line.new) }
        ensures step { IsStep (worked self.old position self.new) (refused self.old position self.new) result }
        ensures here { here self.new ≡ Some position }
        ensures ready { ready self.new }
        ensures same_row { row_at self.new ≡ row_at self.old }
        ensures same_counts { counts self.new ≡ counts self.old };
}
