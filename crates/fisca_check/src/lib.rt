//! Typed formulas: what the expressions of a rule set's formulas stand for, or their first fault.
#![tactic(auto)]

mod asks;
mod atoms;
mod attributes;
mod brackets;
mod calls;
mod formula;
mod formulas;
mod groups;
mod looked;
mod methods;
mod names;
mod rows;
mod scope;
mod subscripts;
mod typing;

pub use formula::{FormulaRefusal, TypedFormula};
pub use formulas::formula_of;
pub use rows::Rows;
pub use scope::FormulaScope;
pub use typing::thing_of;
