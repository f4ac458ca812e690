//! Days as texts.

ghost use Rattle.std.specs.Prelude.{◌≡◌, ◌++◌, OnOk, string_bytes};
ghost use Rattle.fisca_time.specs.PeriodText.{date_text, digits_to};

use fisca_time::Instant;
use std::alloc::AllocError;

/// The bytes of a day.
const DAY_ROOM: usize = 10;

/// Appends a number in decimal digits, behind zeros up to a width.
fn write_padded(number: u32, width: usize, text: &mut String) -> Result<(), AllocError>
    ensures { OnOk result (string_bytes text.new ≡ string_bytes text.old ++ digits_to width number) }
{
    let mut buffer = itoa::Buffer::new();
    let digits = buffer.format(number);
    for _zero in 0..width.saturating_sub(digits.len()) {
        text.push('0')?;
    }
    text.push_str(digits)
}

/// Appends a day, with the year in four digits, and the month and the day in two: `2010-04-05`. `AllocError` only where no memory is
/// left.
pub fn write_day(day: Instant, text: &mut String) -> Result<(), AllocError>
    ensures { OnOk result (string_bytes text.new ≡ string_bytes text.old ++ date_text day) }
{
    text.reserve(DAY_ROOM)?;
    write_padded(u32::from(day.year()), 4, text)?;
    text.push('-')?;
    write_padded(u32::from(day.month()), 2, text)?;
    text.push('-')?;
    write_padded(u32::from(day.day()), 2, text)
}
