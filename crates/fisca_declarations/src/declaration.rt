//! What is known of a variable's declaration itself.

use crate::formulas::Formulas;
use fisca_symbols::{SourceText, Texts};

/// Where a variable is declared, what is told of it, and its formulas as they are written.
#[derive(Drop)]
pub struct Declaration<'a> {
    /// The place of its module.
    pub module: usize,
    /// The line on which it begins.
    pub line: usize,
    /// What is told of it.
    pub label: Option<SourceText<'a>>,
    /// What is told of it at length.
    pub documentation: Option<SourceText<'a>>,
    /// What its values are counted in.
    pub unit: Option<SourceText<'a>>,
    /// The law that it follows.
    pub reference: Texts<'a>,
    /// Its formulas from top to bottom.
    pub formulas: Formulas<'a>,
}
