//! The forms in which periods are written.
ghost use Rattle.std.specs.Prelude.{◌≡◌, ◌≢◌, ◌<◌, min, true, false, IfSome, MatchOption, option_map, if◌then◌else◌};
ghost use Rattle.std.specs.Str.Parse.{digits_value};
ghost use Rattle.fisca_time.specs.Pieces.{pieces, colon};
ghost use Rattle.fisca_time.specs.PeriodText.{start_of_text, unit_named, form_in, form_of_pieces, with_limit, is_short_numeral, is_size_text};

use crate::Unit;
use crate::pieces::{TOO_LARGE, number_of, numeral, split};

/// What a period text says, whether or not there is such a period.
#[derive(Clone, Copy)]
pub(crate) struct Form {
    pub unit: Unit,
    pub year: u32,
    pub month: u32,
    pub day: u32,
    pub size: u32,
}

/// What a text of a period other than eternity says, with a size of at most `TOO_LARGE`.
pub(crate) fn written_period(text: &str) -> Option<Form>
    ensures form { result ≡ option_map (with_limit TOO_LARGE) (form_of_pieces (pieces colon text.now)) }
    ensures unit { IfSome result (λ form. form.unit ≢ Unit.Eternity) }
    ensures year { IfSome result (λ form. form.year < 10_000) }
    ensures month { IfSome result (λ form. form.month < 100) }
    ensures day { IfSome result (λ form. form.day < 100) }
{
    let Some((word, rest)) = split(text, b':') else {
        return written_start(text);
    };
    let unit = named_unit(word)?;
    let Some((start, size)) = split(rest, b':') else {
        return under_unit(unit, written_start(rest)?);
    };
    let form = under_unit(unit, written_start(start)?)?;
    let size = written_size(size)?;
    Some(Form { size, ..form })
}

/// A year, a month of a year, or a day of a month.
fn written_start(text: &str) -> Option<Form>
    ensures form { result ≡ start_of_text text.now }
    ensures unit { IfSome result (λ form. form.unit ≢ Unit.Eternity) }
    ensures year { IfSome result (λ form. form.year < 10_000) }
    ensures month { IfSome result (λ form. form.month < 100) }
    ensures day { IfSome result (λ form. form.day < 100) }
    ensures size { IfSome result (λ form. form.size ≡ 1) }
{
    let Some((year, rest)) = split(text, b'-') else {
        let year = numeral(4, text)?;
        return Some(Form {
            unit: Unit::Year,
            year,
            month: 1,
            day: 1,
            size: 1,
        });
    };
    let year = numeral(4, year)?;
    if let Some(month) = short_numeral(rest) {
        return Some(Form {
            unit: Unit::Month,
            year,
            month,
            day: 1,
            size: 1,
        });
    }
    let (month, day) = split(rest, b'-')?;
    let month = short_numeral(month)?;
    let day = short_numeral(day)?;
    Some(Form {
        unit: Unit::Day,
        year,
        month,
        day,
        size: 1,
    })
}

/// A month or a day, in one digit or two.
fn short_numeral(text: &str) -> Option<u32>
    ensures value { result ≡ (if is_short_numeral text.now then Some (digits_value 10 text.now) else None) }
    ensures bound { IfSome result (λ n. n < 100) }
{
    match text.len() {
        1 => numeral(1, text),
        _ => numeral(2, text),
    }
}

/// The unit of a word before a start.
fn named_unit(word: &str) -> Option<Unit>
    ensures { result ≡ unit_named word.now }
{
    match word {
        "year" => Some(Unit::Year),
        "month" => Some(Unit::Month),
        "day" => Some(Unit::Day),
        _ => None,
    }
}

/// The start, counted in that unit.
fn under_unit(unit: Unit, start: Form) -> Option<Form>
    ensures { result ≡ form_in unit start }
{
    match unit {
        Unit::Year if start.unit != Unit::Day => Some(Form { unit, ..start }),
        Unit::Month | Unit::Day if start.unit == unit => Some(start),
        Unit::Day | Unit::Month | Unit::Year | Unit::Eternity => None,
    }
}

/// A size, or `TOO_LARGE` where it is larger.
fn written_size(text: &str) -> Option<u32>
    ensures { MatchOption result (is_size_text text.now ≡ false)
        (λ n. (is_size_text text.now ≡ true) × (n ≡ min TOO_LARGE (digits_value 10 text.now))) }
{
    if text.is_empty() {
        None
    } else {
        number_of(text.as_bytes())
    }
}
