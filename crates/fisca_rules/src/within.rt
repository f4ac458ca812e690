//! Names within an entity.

use fisca_symbols::SourceText;

/// A name, beside the constant of its entity.
#[derive(Drop, PartialEq, Eq, Hash)]
pub(crate) struct Within<'a> {
    /// The name that the entity is built under.
    pub(crate) constant: SourceText<'a>,
    /// The name.
    pub(crate) name: SourceText<'a>,
}
