//! What formulas are worked out over.

use fisca_members::Members;
use fisca_symbols::Tables;

/// What formulas are worked out over.
#[derive(Clone, Copy)]
pub struct Context<'t, 'r, 's> {
    /// What a rule set declares.
    pub tables: &'r Tables<'t>,
    /// How a situation groups its persons.
    pub members: &'s Members,
}
