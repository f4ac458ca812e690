//! Laws of the lines of a run, whatever stands at the positions of its grid.

ghost use Rattle.std.specs.Prelude.{◌≡◌, ℕ, ◌<◌, ◌≤◌, Option, None, map, All};
ghost use Rattle.std.specs.List.Sorted.{IsStrictlyIncreasing};
ghost use Rattle.fisca_writer.specs.Row.{Row, Fault};
ghost use Rattle.fisca_writer.specs.Lines.{lines, AtEnd, MoreFrom, FaultAt};
ghost use Rattle.fisca_writer.specs.Continued.{IsContinued};
ghost use Rattle.fisca_writer.specs.Ranges.{range_end, range_lines, stop_of};
ghost use Rattle.fisca_writer.specs.declared.limit.Limit.{Limit};

/// A run that answers a position continues from there with exactly the remaining lines, and to the
/// same end; where it answers that it is at its end, no line remains; where it stops at a fault, the
/// fault stands at its position, and no line remains before it.
pub fn runs_continue<F>()
    ensures more { (row : ℕ → Row F) (size from position : ℕ) (limit : Limit) → stop_of size limit ≤ size → range_end row size from limit ≡ MoreFrom position → IsContinued row size from limit position }
    ensures ended { (row : ℕ → Row F) (size from : ℕ) (limit : Limit) → stop_of size limit ≤ size → range_end row size from limit ≡ AtEnd → lines row size from None ≡ range_lines row size from limit }
    ensures faulted { (row : ℕ → Row F) (size from position : ℕ) (limit : Limit) (x : F) → stop_of size limit ≤ size → range_end row size from limit ≡ FaultAt position x → (row position ≡ Fault x) × (lines row size from None ≡ range_lines row size from limit) }
{}

/// The positions of the lines of a run rise strictly, and are positions of the grid from the start on.
pub fn positions_rise<F>()
    ensures rising { (row : ℕ → Row F) (size from : ℕ) (limit : Option ℕ) → IsStrictlyIncreasing (map (λ line. line.0) (lines row size from limit)) }
    ensures within { (row : ℕ → Row F) (size from : ℕ) (limit : Option ℕ) → All (λ line. (from ≤ line.0) × (line.0 < size)) (lines row size from limit) }
{}
