//! Which members are meant.

/// Which members are meant where a variable stands.
#[derive(Clone, Copy, Debug, PartialEq, Eq)]
pub enum MemberScope {
    /// All that have the variable, since no entity is named.
    All,
    /// One member of an entity.
    Member {
        /// The place of the entity among all.
        entity: usize,
        /// The place of the member among those of its kind.
        member: u32,
    },
}
