//! Typed formulas in memory.
use crate::scope::FormulaScope;
use fisca_ast::FormulaKind;
use fisca_ir::Node;

/// What is known behind some locals, and what those with values work out, in order.
#[derive(Drop)]
pub(crate) struct Scope<'n, 'a> {
    pub(crate) names: FormulaScope<'n, 'a>,
    pub(crate) values: Vec<Node>,
}

/// A typed formula.
#[derive(Drop)]
pub struct TypedFormula {
    /// What its locals with values work out, in order.
    pub values: Vec<Node>,
    /// What it returns.
    pub result: Node,
}

/// The first fault of a formula.
#[derive(Clone, Copy, Debug, PartialEq, Eq)]
pub struct FormulaRefusal {
    /// How many locals come before it.
    pub place: usize,
    /// The fault.
    pub kind: FormulaKind,
}
