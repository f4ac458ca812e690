//! Types of values.

/// The type of a value.
#[derive(Clone, Copy, Debug, PartialEq, Eq)]
pub enum ValueType {
    /// A number.
    Number,
    /// `True` or `False`.
    Bool,
    /// A member of the Enum at this place among all.
    Enum(usize),
}
