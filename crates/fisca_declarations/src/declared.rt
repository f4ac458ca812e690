//! What a rule set declares elsewhere.

use fisca_symbols::{Enums, Names};

/// The constants of entities, and the Enums, in the order of the modules.
#[derive(Drop)]
pub struct Declared<'a> {
    /// The names that entities are built under.
    pub constants: Names<'a>,
    /// The Enums.
    pub enums: Enums<'a>,
}
