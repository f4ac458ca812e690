//! Exact fractions.

pub use fisca_num::{Fraction, NumFault};
