//! Places of roles.

/// A role of a group: its place among the roles of its entity, and of a subrole its place there.
#[derive(Clone, Copy, Debug, PartialEq, Eq)]
pub struct RolePlace {
    /// The role.
    pub role: usize,
    /// The subrole, if it is one.
    pub subrole: Option<usize>,
}
