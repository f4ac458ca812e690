//! Marks, in front of a text.

ghost use Rattle.std.specs.Prelude.{◌≡◌};
ghost use Rattle.fisca_lexer.specs.Steps.Marks as spec;

use crate::token::Mark;

/// Whether an operator that may stand before `=`.
fn is_operator(b: u8) -> bool
    ensures { result ≡ spec.is_operator b }
{
    b == b'+' || b == b'-' || b == b'*' || b == b'/' || b == b'|' || b == b'&'
}

/// The mark of a byte and `=`.
fn with_equal(b: u8) -> Option<Mark>
    ensures { result ≡ spec.with_equal b }
{
    match b {
        b'=' => Some(Mark::EqualEqual),
        b'!' => Some(Mark::NotEqual),
        b'<' => Some(Mark::LessEqual),
        b'>' => Some(Mark::GreaterEqual),
        _ if is_operator(b) => Some(Mark::Augmented),
        _ => None,
    }
}

/// The mark of a byte that stands twice.
fn doubled(b: u8) -> Option<Mark>
    ensures { result ≡ spec.doubled b }
{
    match b {
        b'*' => Some(Mark::Power),
        b'/' => Some(Mark::WholeDivision),
        _ => None,
    }
}

/// The mark of two bytes.
pub(crate) fn pair(b: u8, c: u8) -> Option<Mark>
    ensures { result ≡ spec.pair b c }
{
    if c == b'=' {
        return with_equal(b);
    }
    if b == c {
        return doubled(b);
    }
    None
}

/// A bracket.
fn bracket(b: u8) -> Option<Mark>
    ensures { result ≡ spec.bracket b }
{
    match b {
        b'(' => Some(Mark::Open),
        b')' => Some(Mark::Close),
        b'[' => Some(Mark::OpenList),
        b']' => Some(Mark::CloseList),
        b'{' => Some(Mark::OpenMap),
        b'}' => Some(Mark::CloseMap),
        _ => None,
    }
}

/// An operator of one byte.
fn operator(b: u8) -> Option<Mark>
    ensures { result ≡ spec.operator b }
{
    match b {
        b'+' => Some(Mark::Plus),
        b'-' => Some(Mark::Minus),
        b'*' => Some(Mark::Star),
        b'/' => Some(Mark::Slash),
        b'|' => Some(Mark::Bar),
        b'&' => Some(Mark::Ampersand),
        b'~' => Some(Mark::Tilde),
        b'<' => Some(Mark::Less),
        b'>' => Some(Mark::Greater),
        _ => None,
    }
}

/// A sign of punctuation.
fn punctuation(b: u8) -> Option<Mark>
    ensures { result ≡ spec.punctuation b }
{
    match b {
        b',' => Some(Mark::Comma),
        b':' => Some(Mark::Colon),
        b'.' => Some(Mark::Dot),
        b'=' => Some(Mark::Equal),
        _ => None,
    }
}

/// The mark of one byte.
pub(crate) fn single(b: u8) -> Option<Mark>
    ensures { result ≡ spec.single b }
{
    if let Some(mark) = bracket(b) {
        return Some(mark);
    }
    if let Some(mark) = operator(b) {
        return Some(mark);
    }
    punctuation(b)
}
