//! Days on which formulas of a variable start.

ghost use Rattle.std.specs.Prelude.{◌≡◌, IfOk, Some, option_map};
ghost use Rattle.fisca_declarations.specs.Lines.{days_of};
ghost use Rattle.fisca_declarations.specs.Steps.Lines.{with_day as and_day};

use crate::before::Days;
use fisca_time::Instant;
use indexmap::IndexSet;
use std::alloc::{AllocError, Global};

/// The days so far with one more behind them, or nothing where it is one of them.
#[tactic(auto, using(crate::proofs::Came::is_first, crate::proofs::Came::is_behind, crate::proofs::Came::is_new))]
pub(crate) fn with_day(
    alloc: Global,
    days: Option<Days>,
    day: Instant,
) -> Result<Option<Days>, AllocError>
    ensures { IfOk result (λ found. option_map (λ ds. days_of (Some ds)) found ≡ and_day (days_of days) day) }
{
    let Some(Days { first, mut more }) = days else {
        return Ok(Some(Days {
            first: day,
            more: IndexSet::new(alloc),
        }));
    };
    if day == first {
        return Ok(None);
    }
    let is_new = more.insert(day)?;
    if is_new {
        Ok(Some(Days { first, more }))
    } else {
        Ok(None)
    }
}
