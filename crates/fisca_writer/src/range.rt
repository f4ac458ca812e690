//! The positions of a grid that are asked for.

ghost use Rattle.std.specs.Prelude.{◌≡◌};
ghost use Rattle.fisca_writer.specs.Ranges.{limit_in, range_start};

use super::limit::Limit;
use super::part::Part;

/// Which positions of a grid are asked for. This project's own rule.
#[derive(Clone, Copy, Debug)]
pub enum Range {
    /// Those from a position on, and before another where one is given.
    Between { from: u64, to: Option<u64> },
    /// Those of a part.
    Part(Part),
}

impl Range {
    /// Where it begins in a grid of so many positions.
    pub fn start(self, size: u64) -> u64
        ensures { result ≡ range_start size self }
    {
        match self {
            Range::Between { from, to: _ } => from,
            Range::Part(part) => part.start(size),
        }
    }

    /// The limit of a run over it in a grid of so many positions, with this limit of lines.
    pub fn limit(self, size: u64, rows: Option<u64>) -> Limit
        ensures { result ≡ limit_in size self rows }
    {
        let to = match self {
            Range::Between { from: _, to } => to,
            Range::Part(part) => Some(part.end(size)),
        };
        Limit { to, rows }
    }
}
