//! An axis of a grid, and its place at a position.

ghost use Rattle.std.specs.Prelude.{◌≡◌, ◌<◌, ◌/◌, ◌%◌};

use super::axes::Axis;

/// An axis of a grid, which stays at a place for `pace` positions, and goes to the next.
#[derive(Clone, Copy, Debug)]
pub(crate) struct Turning {
    pub(crate) axis: Axis,
    pub(crate) pace: u64,
    ghost some: { 0 < pace },
}

impl Turning {
    /// The place of the axis at a position, by at most two divisions: there is none by a pace of 1, as the first group has it, and
    /// none by the count where no place has come a second time, as at all positions of a grid in its last group.
    pub(crate) fn place(&self, position: u64) -> u64
        ensures value { result ≡ (position / self.now.pace) % self.now.axis.spec.count }
        ensures inside { result < self.now.axis.spec.count }
    {
        let turns = if self.pace == 1 {
            position
        } else {
            position / self.pace
        };
        if turns < self.axis.spec.count {
            turns
        } else {
            turns % self.axis.spec.count
        }
    }
}
