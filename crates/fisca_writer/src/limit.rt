//! Where a run ends before its last position.

ghost use Rattle.std.specs.Prelude.{◌≡◌, ◌↔◌, IsTrue};
ghost use Rattle.fisca_writer.specs.Ranges.{IsInside, no_limit};

/// Where a run ends that no fault stops, if it is to end before the last position. This project's own rule.
#[derive(Clone, Copy, Debug, PartialEq, Eq)]
pub struct Limit {
    /// The position before which it ends, at most the number of positions.
    pub to: Option<u64>,
    /// The most lines that it writes.
    pub rows: Option<u64>,
}

impl Limit {
    /// No limit: it goes on to the last position.
    pub fn none() -> Limit
        ensures { result ≡ no_limit }
    {
        Limit {
            to: None,
            rows: None,
        }
    }

    /// Whether a grid of so many positions has this start, and the position before which a run is to end.
    pub fn is_inside(self, size: u64, from: u64) -> bool
        ensures { IsTrue result ↔ IsInside size from self }
    {
        from <= size && self.to.unwrap_or(size) <= size
    }
}
