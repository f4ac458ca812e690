//! The parts of a grid.

ghost use Rattle.std.specs.Prelude.{◌≡◌, ℕ, ◌*◌, ◌/◌, ◌<◌, ◌≤◌, ◌^◌, option_map};
ghost use Rattle.fisca_writer.specs.Parts.{part_end, part_in, part_start, share_of};

use std::marker::Model;

/// The most parts that a grid has.
const MOST_PARTS: u64 = 1_000_000;

/// One of so many parts of a grid, counted from 1, at most a million. This project's own rule.
#[derive(Clone, Copy, Debug)]
pub struct Part {
    number: u64,
    count: u64,
    ghost first: { 1 ≤ number },
    ghost last: { number ≤ count },
}

impl Model for Part {
    ghost use Rattle.fisca_writer.specs.Parts.{Part as PartOf};

    ghost Value = { PartOf };

    ghost view = { λ p. record { number = p.number; count = p.count; first = p.first; last = p.last } };

    ghost inverse = { λ p. record { number = p.number; count = p.count; first = p.first; last = p.last } };
}

impl Part {
    /// The part of this number among so many; `None` where the number is not one from 1 to the count, or the count is above a million.
    pub fn new(number: u64, count: u64) -> Option<Part>
        ensures { option_map (λ part. (part.number, part.count)) result ≡ part_in number count }
    {
        if 0 < number && number <= count && count <= MOST_PARTS {
            Some(Part { number, count })
        } else {
            None
        }
    }

    /// The position at which it begins in a grid of so many.
    pub fn start(self, size: u64) -> u64
        ensures value { result ≡ part_start size self }
        ensures within { result ≤ size }
    {
        share(size, self.count, self.number - 1)
    }

    /// The position before which it ends.
    pub fn end(self, size: u64) -> u64
        ensures value { result ≡ part_end size self }
        ensures within { result ≤ size }
    {
        share(size, self.count, self.number)
    }
}

/// How many of `size` positions the first `parts` of so many parts have.
fn share(size: u64, count: u64, parts: u64) -> u64
    requires some { 0 < count }
    requires within { parts ≤ count }
    ensures value { result ≡ share_of size count parts }
    ensures within { result ≤ size }
{
    (times(size, parts) / u128::from(count)) as u64
}

/// The product of two words.
fn times(a: u64, b: u64) -> u128
    ensures { result ≡ a * b }
{
    u128::from(a) * u128::from(b)
}
