//! Names with a point.

use fisca_symbols::SourceText;

/// Two names with a point between them.
#[derive(Drop)]
pub struct Dotted<'a> {
    /// Before the point.
    pub left: SourceText<'a>,
    /// Behind it.
    pub right: SourceText<'a>,
}
