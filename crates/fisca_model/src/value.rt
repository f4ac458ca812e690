//! Values.

use fisca_num::Fraction;

/// A value of a variable.
#[derive(Clone, Copy, Debug, PartialEq, Eq)]
pub enum Value {
    /// A number.
    Number(Fraction),
    /// `True` or `False`.
    Bool(bool),
    /// The member at this place of the variable's Enum.
    Member(usize),
}
