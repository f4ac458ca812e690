//! What formulas may name.
use fisca_check_calls::Locals;
use fisca_symbols::Tables;

/// What is known where an expression of a formula stands.
#[derive(Drop)]
pub struct FormulaScope<'n, 'a> {
    /// What the rule set declares.
    pub tables: &'n Tables<'a>,
    /// The place of the formula's entity.
    pub entity: usize,
    /// The name of the formula's first argument, which asks.
    pub asker_name: &'n [u8],
    /// The name of its second argument, the period.
    pub period_name: &'n [u8],
    /// The name of its third argument, the parameters, if it has one.
    pub reader_name: Option<&'n [u8]>,
    /// The earlier locals.
    pub locals: Locals<'a>,
}
