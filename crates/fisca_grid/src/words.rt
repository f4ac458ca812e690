//! The words of a command line that describe axes.

ghost use Rattle.std.specs.Prelude.{◌≡◌, ℕ, ◌<◌, MatchOption, Some, None, length, option_map};
ghost use Rattle.std.specs.List.{list_all};
ghost use Rattle.std.specs.Char.{is_ascii_digit};
ghost use Rattle.fisca_grid.specs.Words.{count_of, bounds_of, spec_of, axis_of, part_of};
ghost use Rattle.fisca_grid.specs.Steps.Words.{around_first, around_last, is_word_byte, is_identifier};

use super::axes::AxisSpec;
use fisca_num::Fraction;
use fisca_writer::Part;

/// Whether the text is an ASCII identifier: letters, digits and `_`, of which the first is no digit.
fn is_identifier(text: &str) -> bool
    ensures { result ≡ is_identifier text.now }
{
    match text.as_bytes().first() {
        None => false,
        Some(first) => !first.is_ascii_digit() && are_word_bytes(text.as_bytes()),
    }
}

/// Whether all bytes are ASCII letters, digits and `_`.
fn are_word_bytes(bytes: &[u8]) -> bool
    ensures { result ≡ list_all is_word_byte bytes.now }
{
    for byte in bytes {
        if !(byte.is_ascii_alphanumeric() || *byte == b'_') {
            return false;
        }
    }
    true
}

/// What stands before and behind the first place of the mark, where it stands in the text.
pub fn around_first<'a>(text: &'a str, mark: &str) -> Option<(&'a str, &'a str)>
    requires { 0 < length mark.now }
    ensures { MatchOption result (around_first mark.now text.now ≡ None) (λ parts. around_first mark.now text.now ≡ Some (parts.0.now, parts.1.now)) }
{
    text.split_once(mark)
}

/// What stands before and behind the last place of the mark.
fn around_last<'a>(text: &'a str, mark: &str) -> Option<(&'a str, &'a str)>
    requires { 0 < length mark.now }
    ensures { MatchOption result (around_last mark.now text.now ≡ None) (λ parts. around_last mark.now text.now ≡ Some (parts.0.now, parts.1.now)) }
{
    text.rsplit_once(mark)
}

/// The number that decimal digits say, where there is one and it is below 2^64.
fn read_count(text: &str) -> Option<u64>
    ensures { result ≡ count_of text.now }
{
    if are_digits(text.as_bytes()) {
        text.parse().ok()
    } else {
        None
    }
}

/// Whether all bytes are decimal digits.
fn are_digits(bytes: &[u8]) -> bool
    ensures { result ≡ list_all is_ascii_digit bytes.now }
{
    for byte in bytes {
        if !byte.is_ascii_digit() {
            return false;
        }
    }
    true
}

/// The bounds that `MIN..MAX` says.
fn read_bounds(text: &str) -> Option<(Fraction, Fraction)>
    ensures { result ≡ bounds_of text.now }
{
    let (min, max) = around_first(text, "..")?;
    let min = Fraction::from_decimal(min).ok()?;
    let max = Fraction::from_decimal(max).ok()?;
    Some((min, max))
}

/// The axis that `MIN..MAX/COUNT` says.
fn read_spec(text: &str) -> Option<AxisSpec>
    ensures { result ≡ spec_of text.now }
{
    let (bounds, count) = around_last(text, "/")?;
    let (min, max) = read_bounds(bounds)?;
    let count = read_count(count)?;
    Some(AxisSpec { count, min, max })
}

/// The name and the axis that a word `NAME=MIN..MAX/COUNT` says: NAME is an ASCII identifier, MIN and MAX are decimal
/// literals, COUNT is decimal digits up to 2^64-1. `None` where the word has not this form. This project's own rule.
pub fn read_axis(word: &str) -> Option<(&str, AxisSpec)>
    ensures { option_map (λ axis. (axis.0.now, axis.1)) result ≡ axis_of word.now }
{
    let (name, text) = around_first(word, "=")?;
    let spec = read_spec(text)?;
    if is_identifier(name) {
        Some((name, spec))
    } else {
        None
    }
}

/// The part of a grid that a word `I/N` says: I and N are decimal digits, I from 1 to N and N at most 1,000,000. `None` where the word has not
/// this form. This project's own rule.
pub fn read_part(word: &str) -> Option<Part>
    ensures { option_map (λ part. (part.number, part.count)) result ≡ part_of word.now }
{
    let (number, count) = around_first(word, "/")?;
    let number = read_count(number)?;
    let count = read_count(count)?;
    Part::new(number, count)
}
