//! Instants, days of the calendar and names with a point, as they are written.

ghost use Rattle.std.specs.Prelude.{◌≡◌, Some, map};
ghost use Rattle.std.specs.Result.{result_ok};
ghost use Rattle.fisca_ast.specs.Steps.Groups.{bare as bare_tree};
ghost use Rattle.fisca_ast.specs.Views.{tree, argument_view};
ghost use Rattle.fisca_ast.specs.Outcomes.{Gives};
ghost use Rattle.fisca_attributes.specs.Values as spec;
ghost use Rattle.fisca_attributes.specs.Steps.Values as steps;
ghost use Rattle.fisca_time.specs.Instant.{instant_of_text, instant_if_real};

use crate::dotted::Dotted;
use crate::lists::{items_of, positional};
use crate::values::{name_value, text_value, whole_value};
use fisca_ast::{Argument, Expr, FormulaKind, Suffix, bare};
use fisca_symbols::SourceText;
use fisca_time::Instant;
use std::alloc::Global;

/// The instant that a text says, if it does.
fn instant_of(text: &str) -> Option<Instant>
    ensures { result ≡ result_ok (instant_of_text text.now) }
{
    Instant::read(text).ok()
}

/// A text with an instant.
pub fn instant_value(alloc: Global, value: &Expr<'_>) -> Result<Instant, FormulaKind>
    ensures { Gives (λ d. d) (steps.instant_value (tree value.now)) result }
{
    let text = text_value(alloc, value)?;
    instant_of(text.as_str()).ok_or(FormulaKind::BadAttribute)
}

/// Two names with a point between them.
pub fn dotted_value<'a>(value: &Expr<'a>) -> Result<Dotted<'a>, FormulaKind>
    ensures { Gives (λ d. d) (steps.dotted_value (tree value.now)) result }
{
    match bare(value) {
        Expr::Attribute(access) => Ok(Dotted {
            left: name_value(&access.front)?,
            right: SourceText::borrowed(access.name.as_str()),
        }),
        Expr::Name(_)
        | Expr::Number(_)
        | Expr::Text(_)
        | Expr::Bracketed(_, _)
        | Expr::Applied(_, _)
        | Expr::Prefixed(_, _)
        | Expr::Binary(_, _)
        | Expr::Compare(_, _) => Err(FormulaKind::BadAttribute),
    }
}

/// Whole numbers without sign.
fn each_whole(alloc: Global, items: &[Argument<'_>]) -> Result<Vec<u64>, FormulaKind>
    ensures { Gives (λ v. v.items) (spec.each steps.whole_value (map argument_view items.now)) result }
{
    let mut found = Vec::new(alloc);
    for argument in items {
        found.push(whole_value(positional(argument)?)?)?;
    }
    Ok(found)
}

/// The day that the calendar has in this year and month, if it has it.
fn day_of(year: u64, month: u64, day: u64) -> Option<Instant>
    ensures { result ≡ result_ok (instant_if_real (Some (record { year = year; month = month; day = day }))) }
{
    if year > 9999 || month > 12 || day > 31 {
        return None;
    }
    Instant::new(year as u16, month as u8, day as u8).ok()
}

/// A year, a month and a day.
fn date_of_numbers(numbers: &[u64]) -> Result<Instant, FormulaKind>
    ensures { result ≡ steps.date_of_numbers numbers.now }
{
    match numbers {
        [year, month, day] => day_of(*year, *month, *day).ok_or(FormulaKind::BadAttribute),
        _ => Err(FormulaKind::BadAttribute),
    }
}

/// Whether a call is one of `date`.
fn is_date(called: &Expr<'_>) -> bool
    ensures { result ≡ steps.is_date (bare_tree (tree called.now)) }
{
    match bare(called) {
        Expr::Name(word) => word.as_bytes() == b"date".as_slice(),
        Expr::Number(_)
        | Expr::Text(_)
        | Expr::Bracketed(_, _)
        | Expr::Attribute(_)
        | Expr::Applied(_, _)
        | Expr::Prefixed(_, _)
        | Expr::Binary(_, _)
        | Expr::Compare(_, _) => false,
    }
}

/// `date(n, n, n)`, a day of the calendar.
pub fn date_value(alloc: Global, value: &Expr<'_>) -> Result<Instant, FormulaKind>
    ensures { Gives (λ d. d) (steps.date_value (tree value.now)) result }
{
    match bare(value) {
        Expr::Applied(Suffix::Call, call) => {
            if !is_date(&call.front) {
                return Err(FormulaKind::BadAttribute);
            }
            let numbers = each_whole(alloc, items_of(&call.behind))?;
            date_of_numbers(numbers.as_slice())
        }
        Expr::Applied(Suffix::Subscript, _)
        | Expr::Name(_)
        | Expr::Number(_)
        | Expr::Text(_)
        | Expr::Bracketed(_, _)
        | Expr::Attribute(_)
        | Expr::Prefixed(_, _)
        | Expr::Binary(_, _)
        | Expr::Compare(_, _) => Err(FormulaKind::BadAttribute),
    }
}
