//! Texts of periods.
ghost use Rattle.std.specs.Prelude.{◌≡◌, ◌<◌, ◌+◌, ◌++◌, [], ◌∷◌, true, IfOk, OnOk, string_bytes};
ghost use Rattle.fisca_time.specs.Period.{months};
ghost use Rattle.fisca_time.specs.declared.unit.Unit.TheVariants.{Day, Month, Year};
ghost use Rattle.fisca_time.specs.PeriodText.{digits_to, year_text, month_text, date_text, counted_text, text_of};

use crate::Instant;
use std::alloc::{AllocError, Global};

/// `2010-04-05`, or `day:2010-04-05:3`.
pub(crate) fn written_days(alloc: Global, start: Instant, size: u16) -> Result<String, AllocError>
    ensures { IfOk result (λ text. string_bytes text ≡ counted_text Day true (date_text start) size) }
{
    let (year, month, day) = (start.year(), start.month(), start.day());
    match size {
        1 => format!(in alloc; "{year:04}-{month:02}-{day:02}"),
        _ => format!(in alloc; "day:{year:04}-{month:02}-{day:02}:{size}"),
    }
}

/// `2010-04`, or `month:2010-04:3`.
pub(crate) fn written_months(alloc: Global, first: u32, size: u16) -> Result<String, AllocError>
    requires { first < 120_000 }
    ensures { IfOk result (λ text. string_bytes text ≡ text_of (months Month first size)) }
{
    let (year, month) = (first / 12, first % 12 + 1);
    match size {
        1 => month_alone(alloc, year, month),
        _ => format!(in alloc; "month:{year:04}-{month:02}:{size}"),
    }
}

/// `2010`, `year:2010:3`, `year:2010-04` or `year:2010-04:3`.
pub(crate) fn written_years(alloc: Global, first: u32, size: u16) -> Result<String, AllocError>
    requires { first < 120_000 }
    ensures { IfOk result (λ text. string_bytes text ≡ text_of (months Year first size)) }
{
    let (year, month) = (first / 12, first % 12 + 1);
    match (month, size) {
        (1, 1) => year_alone(alloc, year),
        (1, _) => format!(in alloc; "year:{year:04}:{size}"),
        (_, 1) => format!(in alloc; "year:{year:04}-{month:02}"),
        _ => format!(in alloc; "year:{year:04}-{month:02}:{size}"),
    }
}

/// `2010-04`: most texts are a month's, so it is written digit by digit.
fn month_alone(alloc: Global, year: u32, month: u32) -> Result<String, AllocError>
    requires year { year < 10_000 }
    requires month { month < 100 }
    ensures { IfOk result (λ text. string_bytes text ≡ month_text year month) }
{
    let mut text = String::with_capacity(alloc, 7)?;
    push_year(year, &mut text)?;
    text.push('-')?;
    push_two_digits(month, &mut text)?;
    Ok(text)
}

/// `2010`.
fn year_alone(alloc: Global, year: u32) -> Result<String, AllocError>
    requires { year < 10_000 }
    ensures { IfOk result (λ text. string_bytes text ≡ year_text year) }
{
    let mut text = String::with_capacity(alloc, 4)?;
    push_year(year, &mut text)?;
    Ok(text)
}

fn push_year(year: u32, text: &mut String) -> Result<(), AllocError>
    requires { year < 10_000 }
    ensures { OnOk result (string_bytes text.new ≡ string_bytes text.old ++ digits_to 4 year) }
{
    push_two_digits(year / 100, text)?;
    push_two_digits(year % 100, text)
}

fn push_two_digits(number: u32, text: &mut String) -> Result<(), AllocError>
    requires { number < 100 }
    ensures { OnOk result (string_bytes text.new ≡ string_bytes text.old ++ digits_to 2 number) }
{
    push_digit(number / 10, text)?;
    push_digit(number % 10, text)
}

fn push_digit(number: u32, text: &mut String) -> Result<(), AllocError>
    requires { number < 10 }
    ensures { OnOk result (string_bytes text.new ≡ string_bytes text.old ++ (48 + number) ∷ []) }
{
    text.push(char::from(b'0' + number as u8))
}
