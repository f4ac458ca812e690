//! GroupLengths of places, of which the first turns fastest.

ghost use Rattle.std.specs.Prelude.{◌≡◌, ◌*◌, ◌<◌, ◌≤◌, ◌^◌, ◌++◌, ◌∷◌, [], length};
ghost use Rattle.fisca_writer.specs.Odometer.{product_of};
ghost use Rattle.fisca_writer.specs.Turning.{ArePlaces, IsTurn};

use std::marker::Model;

/// The lengths of the groups of a grid, of which the first turns fastest: at most 16, each from 1 on, with a product
/// below 2^64. Contracts see the list of the lengths. This project's own rule.
#[derive(Debug, Drop)]
pub struct GroupLengths {
    /// The last place of each group.
    lasts: [u64; 16],
    count: usize,
    size: u64,
}

impl Model for GroupLengths {
    ghost use Rattle.std.specs.Prelude.{◌≡◌, ℕ, ◌+◌, ◌≤◌, List, length, map, take};
    ghost use Rattle.fisca_writer.specs.Odometer.{product_of};

    ghost Value = { List ℕ };

    ghost view = { λ g. map (λ last. last + 1) (take g.count g.lasts) };

    ghost invariant = { λ g. (g.count ≤ 16) × (length g.lasts ≡ 16) × (g.size ≡ product_of (map (λ last. last + 1) (take g.count g.lasts))) };
}

impl GroupLengths {
    /// No group: a grid of one position.
    pub fn new() -> Self
        ensures { result ≡ [] }
    {
        GroupLengths {
            lasts: [0; 16],
            count: 0,
            size: 1,
        }
    }

    /// Appends a group of so many places, which turns slower than those before it.
    pub fn push(&mut self, places: u64)
        requires some { 0 < places }
        requires few { length self.old < 16 }
        requires small { product_of self.old * places < 2 ^ 64 }
        ensures { self.new ≡ self.old ++ places ∷ [] }
    {
        self.lasts[self.count] = places - 1;
        self.count += 1;
        self.size *= places;
    }

    /// The same groups once more. It takes no memory.
    pub fn copied(&self) -> Self
        ensures { result ≡ self.now }
    {
        GroupLengths {
            lasts: self.lasts,
            count: self.count,
            size: self.size,
        }
    }

    /// The number of positions.
    pub fn size(&self) -> u64
        ensures { result ≡ product_of self.now }
    {
        self.size
    }

    /// The number of groups, at most 16.
    pub fn count(&self) -> u32
        ensures { result ≡ length self.now }
    {
        self.count as u32
    }

    /// The places of the groups at a position.
    pub(crate) fn places(&self, position: u64) -> [u64; 16]
        ensures { ArePlaces self.now position result }
    {
        let mut places = [0u64; 16];
        let mut turns = position;
        for group in 0..self.count {
            let count = self.lasts[group] + 1;
            places[group] = turns % count;
            turns /= count;
        }
        places
    }

    /// Turns the places at a position to those at the next, and answers how many groups turned.
    pub(crate) fn turn(&self, places: &mut [u64; 16]) -> u32
        ensures { IsTurn self.now places.old places.new result }
    {
        for group in 0..self.count {
            if places[group] < self.lasts[group] {
                places[group] += 1;
                return group as u32 + 1;
            }
            places[group] = 0;
        }
        self.count as u32
    }
}
