//! Going over the positions of a grid.

ghost use Rattle.std.specs.Prelude.{◌≡◌, ◌<◌, IfSome, length};
ghost use Rattle.std.specs.Iterator.{YieldsFirst, item_count};
ghost use Rattle.fisca_grid.specs.Grid.{counts_of, size_of};
ghost use Rattle.fisca_writer.specs.Lines.{positions_from};
ghost use Rattle.fisca_writer.specs.Odometer.{after_next, left_of, product_of, HaveTurned};

use super::grid::Axes;
use fisca_writer::Odometer;
use std::marker::Model;

/// The positions of a grid from a start to the last, in order. Contracts see the lengths of the groups, the start and the next
/// position.
#[derive(Debug, Drop)]
pub struct GridCursor {
    odometer: Odometer,
}

impl Model for GridCursor {
    ghost use Rattle.fisca_writer.specs.Odometer.{Going};

    ghost Value = { Going };

    ghost view = { λ c. c.odometer };
}

impl GridCursor {
    /// The positions from `from` on; none from the grid's size on.
    pub fn new(axes: &Axes, from: u64) -> GridCursor
        ensures going { result ≡ record { counts = counts_of axes.now; start = from; next = from } }
        ensures positions { left_of result ≡ positions_from (size_of axes.now) from }
    {
        GridCursor {
            odometer: Odometer::new(axes.groups(), from),
        }
    }

    /// How many positions are left.
    pub fn remaining(&self) -> u64
        ensures { result ≡ length (left_of self.now) }
    {
        self.odometer.remaining()
    }

    /// How many groups turned at the position that was given last: at the first all of them, then the fewest such that all groups behind
    /// them stand as at the position before, and 0 where none was given.
    pub fn turned(&self) -> u32
        ensures { HaveTurned self.now result }
    {
        self.odometer.turned()
    }
}

impl Iterator for GridCursor {
    type Item = u64;

    ghost next_gives = { YieldsFirst left_of };

    ghost remaining = { item_count left_of };

    fn next(&mut self) -> Option<u64>
        ensures gives { YieldsFirst left_of self.old result self.new }
        ensures given { IfSome result (λ position. (position ≡ self.old.next) × (position < product_of self.old.counts)) }
        ensures moved { self.new ≡ after_next self.old }
    {
        self.odometer.next()
    }
}
