//! Whose values are expected.

/// Whose values are expected.
#[derive(Clone, Copy, Debug, PartialEq, Eq)]
pub enum ExpectedMembers {
    /// Those of so many members, from the first on.
    Each(u32),
    /// Those of the member at this place.
    One(u32),
}
