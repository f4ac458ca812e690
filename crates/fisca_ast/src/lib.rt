//! Trees of modules and of their expressions, what texts in quotes say, and why a module or a rule set is refused. No reader.
#![tactic(auto)]

mod arguments;
mod contents;
mod fault;
mod groups;
mod module;
mod slice;
mod strings;
mod tree;
mod words;

pub use contents::content;
pub use fault::{FormulaFault, FormulaKind};
pub use groups::bare;
pub use module::{
    Assignment, ClassLine, EnumClass, Formula, Member, Module, Returned, Signature, Statement,
    VariableClass,
};
pub use slice::Slice;
pub use strings::{begins, string_len};
pub use tree::{
    Access, Application, Argument, Arguments, Comparison, Delimiter, Expr, Operands, Operator,
    Prefix, Suffix,
};
pub use words::is_name;
