//! What values are expected of.

use crate::whom::ExpectedMembers;
use fisca_symbols::Variable;

/// A variable, and whose values of it are expected.
#[derive(Clone, Copy)]
pub(crate) struct Subject<'v, 'a> {
    /// The place of the variable among all.
    pub(crate) variable: usize,
    /// The variable.
    pub(crate) declared: &'v Variable<'a>,
    /// Whose values.
    pub(crate) whom: ExpectedMembers,
}
