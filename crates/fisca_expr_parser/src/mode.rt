//! What may stand in an expression, and where.

/// What an expression may have.
#[derive(Clone, Copy, Debug, PartialEq, Eq)]
pub enum Mode {
    /// All forms: values of attributes and arguments of entities.
    Value,
    /// No tuples and no maps.
    Formula,
}

/// Which arguments may stand here.
#[derive(Clone, Copy, Debug, PartialEq, Eq)]
pub enum Place {
    /// Just one expression.
    Alone,
    /// Expressions.
    InList,
    /// Expressions, and arguments by keyword.
    InCall,
    /// Arguments by keyword, of which one came before.
    BehindKeyword,
    /// Entries of a map.
    InMap,
}
