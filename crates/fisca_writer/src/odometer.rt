//! Going over the positions of a grid.

ghost use Rattle.std.specs.Prelude.{◌≡◌, ◌<◌, IfSome, length};
ghost use Rattle.std.specs.Iterator.{YieldsFirst, item_count};
ghost use Rattle.fisca_writer.specs.Lines.{positions_from};
ghost use Rattle.fisca_writer.specs.Odometer.{product_of, left_of, after_next, HaveTurned};

use super::groups::GroupLengths;
use std::marker::Model;

/// The positions of a grid from a start to the last, in order. It keeps the place of each group and turns them, without a division
/// at any position but the start.
#[derive(Debug, Drop)]
pub struct Odometer {
    groups: GroupLengths,
    places: [u64; 16],
    start: u64,
    next: u64,
    turned: u32,
}

impl Model for Odometer {
    ghost use Rattle.fisca_writer.specs.Odometer.{Going};
    ghost use Rattle.fisca_writer.specs.Turning.{IsTurning};

    ghost Value = { Going };

    ghost view = { λ o. record { counts = o.groups; start = o.start; next = o.next } };

    ghost invariant = { λ o. IsTurning (record { counts = o.groups; start = o.start; next = o.next }) o.places o.turned };
}

impl Odometer {
    /// The positions from `from` on; none from the number of positions on.
    pub fn new(groups: GroupLengths, from: u64) -> Self
        ensures { result ≡ record { counts = groups; start = from; next = from } }
    {
        let places = groups.places(from);
        Odometer {
            groups,
            places,
            start: from,
            next: from,
            turned: 0,
        }
    }

    /// How many positions are left.
    pub fn remaining(&self) -> u64
        ensures { result ≡ length (left_of self.now) }
    {
        self.groups.size().saturating_sub(self.next)
    }

    /// How many groups turned at the position that was given last: at the first all of them, then the fewest such that all groups behind
    /// them stand as at the position before, and 0 where none was given.
    pub fn turned(&self) -> u32
        ensures { HaveTurned self.now result }
    {
        self.turned
    }
}

impl Iterator for Odometer {
    type Item = u64;

    ghost next_gives = { YieldsFirst left_of };

    ghost remaining = { item_count left_of };

    fn next(&mut self) -> Option<u64>
        ensures gives { YieldsFirst left_of self.old result self.new }
        ensures given { IfSome result (λ position. (position ≡ self.old.next) × (position < product_of self.old.counts)) }
        ensures moved { self.new ≡ after_next self.old }
    {
        if self.next >= self.groups.size() {
            return None;
        }
        let position = self.next;
        self.turned = if position == self.start {
            self.groups.count()
        } else {
            self.groups.turn(&mut self.places)
        };
        self.next = position + 1;
        Some(position)
    }
}
