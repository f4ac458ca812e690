//! What came before a line of a variable.

use fisca_ast::Slice;
use fisca_time::Instant;
use indexmap::IndexSet;

/// Days on which formulas start, each once: the first, and those behind it. Most variables have one, which needs no table.
#[derive(Drop)]
pub struct Days {
    /// The first.
    pub first: Instant,
    /// Those behind it, in order.
    pub more: IndexSet<Instant>,
}

/// The names of the attributes so far, and the days on which formulas start.
#[derive(Drop)]
pub struct Before<'a> {
    /// The names of attributes. Each is one of those that are known, so they are few and need no table.
    pub names: Vec<Slice<'a>>,
    /// The days on which formulas start, where there are some.
    pub days: Option<Days>,
}
