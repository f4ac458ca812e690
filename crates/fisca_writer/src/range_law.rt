//! Laws of ranges and parts, whatever stands at the positions of a grid.

ghost use Rattle.std.specs.Prelude.{◌≡◌, ℕ, ◌+◌, ◌<◌, ◌≤◌, Option, None};
ghost use Rattle.fisca_writer.specs.Lines.{AtEnd, FaultAt, continued_from, lines, run_end};
ghost use Rattle.fisca_writer.specs.Parts.{share_of};
ghost use Rattle.fisca_writer.specs.Ranges.{AreJoined, before, lines_of_parts, range_end, range_lines, stop_of};
ghost use Rattle.fisca_writer.specs.Row.{Row};
ghost use Rattle.fisca_writer.specs.declared.limit.Limit.{Limit};

/// The lines from one position to another and those from there to a third are those from the first to the third, with the same end; where a fault
/// stands before the second, the run to the third stops there as well, with the same lines.
pub fn ranges_join<F>()
    ensures joined { (row : ℕ → Row F) (size from between : ℕ) (to : Option ℕ) → from ≤ between → between ≤ stop_of size (record { to = to; rows = None }) → stop_of size (record { to = to; rows = None }) ≤ size
        → range_end row size from (before between) ≡ continued_from size between → AreJoined row size from between (record { to = to; rows = None }) }
    ensures stopped { (row : ℕ → Row F) (size from between position : ℕ) (to : Option ℕ) (x : F) → from ≤ between → between ≤ stop_of size (record { to = to; rows = None }) → stop_of size (record { to = to; rows = None }) ≤ size
        → range_end row size from (before between) ≡ FaultAt position x
        → (range_lines row size from (record { to = to; rows = None }) ≡ range_lines row size from (before between)) × (range_end row size from (record { to = to; rows = None }) ≡ FaultAt position x) }
{}

/// The first of so many parts begins at the first position, each further one where the one before it ends, and the last ends behind the last
/// position.
pub fn parts_follow()
    ensures first { (size count : ℕ) → 0 < count → share_of size count 0 ≡ 0 }
    ensures last { (size count : ℕ) → 0 < count → share_of size count count ≡ size }
    ensures rising { (size count parts : ℕ) → 0 < count → share_of size count parts ≤ share_of size count (parts + 1) }
{}

/// The lines of all parts, one part after another, are the lines of the run, where no position is a fault.
pub fn parts_are_the_run<F>()
    ensures { (row : ℕ → Row F) (size count : ℕ) → 0 < count → run_end row size 0 None ≡ AtEnd → lines_of_parts row size count count ≡ lines row size 0 None }
{}
