//! The names of cells.

ghost use Rattle.std.specs.Prelude.{◌≡◌, [], IfOk, map, option_map, string_bytes};
ghost use Rattle.fisca_run.specs.Cells as spec;

use std::alloc::{AllocError, Global};

/// The name of a first cell, if it is given. Memory is its only error.
pub fn first_name(alloc: Global, first: Option<&str>) -> Result<Vec<String>, AllocError>
    ensures { IfOk result (λ names. map (λ name. string_bytes name) names.items ≡ spec.named_first (option_map (λ t. t.now) first.entry) []) }
{
    let mut names = Vec::new(alloc);
    match first {
        None => Ok(names),
        Some(first) => {
            names.push(String::from_str(alloc, first)?)?;
            Ok(names)
        }
    }
}
