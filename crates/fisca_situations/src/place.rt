//! For whom values of a variable are given.

use fisca_symbols::Variable;

/// A variable, and the member that values of it are given for.
#[derive(Clone, Copy)]
pub(crate) struct Place<'e, 'r> {
    /// The place of the variable among all.
    pub(crate) variable: usize,
    /// The variable.
    pub(crate) declared: &'e Variable<'r>,
    /// The place of the member among those of its entity.
    pub(crate) member: u32,
}
