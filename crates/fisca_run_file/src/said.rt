//! The axes of a run file in groups.

ghost use Rattle.std.specs.Prelude.{◌≡◌, length, sum};

use crate::said_axis::SaidAxis;

/// The axes of all groups, one after another, and how many there are in each.
#[derive(Drop)]
pub(crate) struct SaidAxes {
    /// The axes.
    pub(crate) axes: Vec<SaidAxis>,
    /// How many there are in each group.
    pub(crate) lengths: Vec<u32>,
    ghost grouped: { sum lengths.items ≡ length axes.items },
}
