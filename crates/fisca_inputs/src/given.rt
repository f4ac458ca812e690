//! Inputs as they are given.

use fisca_model::Value;
use fisca_time::Period;

/// An input as it is given, at most longer than the variable's definition period.
#[derive(Clone, Copy, Debug, PartialEq, Eq)]
pub struct Given {
    /// The place of the variable among all.
    pub variable: usize,
    /// The place of the person or group among those of its kind.
    pub member: u32,
    /// The period; that of an eternal variable is the eternal one.
    pub period: Period,
    /// The value.
    pub value: Value,
    /// The line that a fault of it is told of, counted from 1.
    pub line: usize,
}
