//! What is remembered of a key.

use fisca_model::Value;

/// A value of a key, as it is remembered.
#[derive(Clone, Copy, Debug, PartialEq, Eq)]
pub struct Known {
    /// The value.
    pub value: Value,
    /// How many keys are asked for below one another at least where it is worked out, its own key among them.
    pub height: u32,
    /// The wheels that its work reads, as bits.
    pub reads: u16,
}

/// What is remembered of a key, with the time at which it was kept.
#[derive(Clone, Copy, Debug)]
pub(crate) struct Stamped {
    /// What is remembered.
    pub(crate) known: Known,
    /// The time at which it was kept.
    pub(crate) kept_at: u64,
}
