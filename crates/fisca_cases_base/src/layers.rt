//! The layer of numbers, days and axes.

use crate::fault::BaseFault;
use crate::{grid, num, time};
use std::alloc::Global;

/// What an operation of this layer answers to the words of a case; `None` for any other layer.
pub fn answer(
    alloc: Global,
    layer: &str,
    operation: &str,
    words: &[String],
) -> Option<Result<String, BaseFault>> {
    match layer {
        "num" => Some(num::answer(alloc, operation, words)),
        "time" => Some(time::answer(alloc, operation, words)),
        "grid" => Some(grid::answer(alloc, operation, words)),
        _ => None,
    }
}
