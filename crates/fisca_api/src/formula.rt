//! Modules and rule sets.

pub use fisca_ast::{FormulaFault, FormulaKind, Module};
pub use fisca_lexer::{Class, Mark, Token, tokens};
pub use fisca_parser::read_module;
pub use fisca_rules::{BuildFault, DatedFormula, RuleSet};
pub use fisca_simulation::rule_sets_are_safe;
pub use fisca_symbols::{
    Choices, DeclaredType, DefaultValue, Entity, Role, Roles, SetInput, Variable,
};

/// A variable of a rule set: its place among `RuleSet::variables`, as `RuleSet::variable` answers it.
pub type VarId = usize;

/// An entity of a rule set: its place among `RuleSet::entities`, as `RuleSet::entity` answers it.
pub type EntityId = usize;
