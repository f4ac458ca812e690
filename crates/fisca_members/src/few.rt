//! How many names are few.

/// Up to how many names are looked through one after another: with more a table is made.
pub(crate) const FEW: usize = 16;
