//! Pieces of texts.

ghost use Rattle.std.specs.Prelude.{◌≡◌, ◌++◌, OnOk, string_bytes};
ghost use Rattle.fisca_time.specs.PeriodText.{text_of as period_text};

use fisca_time::Period;
use std::alloc::{AllocError, Global};

/// Appends a period.
pub(crate) fn write_period(
    alloc: Global,
    period: Period,
    line: &mut String,
) -> Result<(), AllocError>
    ensures { OnOk result (string_bytes line.new ≡ string_bytes line.old ++ period_text period) }
{
    match period.text(alloc) {
        Ok(text) => line.push_str(text.as_str()),
        Err(_) => Err(AllocError),
    }
}
