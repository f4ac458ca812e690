//! Typed formulas with their first days.
use fisca_check::TypedFormula;
use fisca_time::Instant;

/// A typed formula, and the day from which on it is in force.
#[derive(Drop)]
pub struct DatedFormula {
    /// The first day.
    pub start: Instant,
    /// What it works out.
    pub formula: TypedFormula,
}
