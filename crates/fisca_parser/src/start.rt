//! Names of formulas.

ghost use Rattle.std.specs.Prelude.{◌≡◌, ◌<◌, ◌≤◌, IfSome};
ghost use Rattle.fisca_parser.specs.Steps.Starts as spec;

use fisca_time::Instant;

/// The number of a digit.
fn digit(b: u8) -> Option<u8>
    ensures value { result ≡ spec.digit b }
    ensures bound { IfSome result (λ n. n < 10) }
{
    if b.is_ascii_digit() {
        Some(b - b'0')
    } else {
        None
    }
}

/// The number of two digits.
fn two(a: u8, b: u8) -> Option<u8>
    ensures value { result ≡ spec.two a b }
    ensures bound { IfSome result (λ n. n < 100) }
{
    let tens = digit(a)?;
    let ones = digit(b)?;
    Some(tens * 10 + ones)
}

/// The number of four digits.
fn four(a: u8, b: u8, c: u8, d: u8) -> Option<u16>
    ensures { result ≡ spec.four a b c d }
{
    let hundreds = two(a, b)?;
    let ones = two(c, d)?;
    Some(u16::from(hundreds) * 100 + u16::from(ones))
}

/// The day of a year, a month and a day, where the calendar has it.
fn day_of(year: Option<u16>, month: Option<u8>, day: Option<u8>) -> Option<Instant>
    ensures { result ≡ spec.day_of year month day }
{
    Instant::new(year?, month?, day?).ok()
}

/// What stands behind the month in a formula's name.
fn day_behind(year: Option<u16>, month: Option<u8>, rest: &[u8]) -> Option<Instant>
    ensures { result ≡ spec.day_behind year month rest.now }
{
    match rest {
        [] => day_of(year, month, Some(1)),
        [b'_', a, b] => day_of(year, month, two(*a, *b)),
        _ => None,
    }
}

/// What stands behind the year.
fn month_behind(year: Option<u16>, rest: &[u8]) -> Option<Instant>
    ensures { result ≡ spec.month_behind year rest.now }
{
    match rest {
        [] => day_of(year, Some(1), Some(1)),
        [b'_', a, b, rest @ ..] => day_behind(year, two(*a, *b), rest),
        _ => None,
    }
}

/// What stands behind `formula`.
fn start_behind(rest: &[u8]) -> Option<Instant>
    ensures { result ≡ spec.start_behind rest.now }
{
    match rest {
        [] => day_of(Some(1), Some(1), Some(1)),
        [b'_', a, b, c, d, rest @ ..] => month_behind(four(*a, *b, *c, *d), rest),
        _ => None,
    }
}

/// From when on a formula of this name is in force: `formula`, `formula_YYYY`, `formula_YYYY_MM` or `formula_YYYY_MM_DD`
/// with a day that the calendar has.
#[tactic(auto, unfolding(crate::specs::Steps::Starts::start_of))]
pub(crate) fn start_of(name: &[u8]) -> Option<Instant>
    ensures { result ≡ spec.start_of name.now }
{
    if name.len() < 7 {
        return None;
    }
    let (word, rest) = name.split_at(7);
    if word == b"formula".as_slice() {
        start_behind(rest)
    } else {
        None
    }
}
