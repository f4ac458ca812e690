//! How many values an expression has.

/// How many values an expression has in one formula.
#[derive(Clone, Copy, Debug, PartialEq, Eq)]
pub enum Level {
    /// One, the same for all.
    Constant,
    /// One for each member of the formula's entity.
    Own,
    /// One for each person of the group.
    Members,
}
