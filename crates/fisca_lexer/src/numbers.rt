//! Numbers, in front of a text.

ghost use Rattle.std.specs.Prelude.{◌≡◌, ◌≤◌, ◌<◌, length, false, true, take, IfOk};
ghost use Rattle.std.specs.Str.{IsAscii};
ghost use Rattle.fisca_lexer.specs.Steps.Pieces as spec;

use crate::token::{Class, Form, Piece};
use fisca_ast::{FormulaKind, begins};
use fisca_num::{Fraction, NumFault};

/// Whether the text begins with a digit.
pub(crate) fn begins_digit(text: &[u8]) -> bool
    ensures { result ≡ spec.begins_digit text.now }
{
    match text {
        [b, ..] => b.is_ascii_digit(),
        [] => false,
    }
}

/// How many digits stand in front, with `_` between two of them.
fn digits_len(text: &[u8]) -> usize
    ensures value { result ≡ spec.digits_len false text.now }
    ensures within { result ≤ length text.now }
    ensures ascii { IsAscii (take result text.now) }
{
    let mut n = 0;
    let mut after = false;
    while n < text.len() {
        let b = text[n];
        if b.is_ascii_digit() {
            after = true;
        } else if after && b == b'_' && begins_digit(&text[n + 1..]) {
            after = false;
        } else {
            return n;
        }
        n += 1;
    }
    n
}

/// Whether the text begins with a digit, or with a point and a digit.
pub(crate) fn begins_number(text: &[u8]) -> bool
    ensures { result ≡ spec.begins_number text.now }
{
    match text {
        [b, rest @ ..] => b.is_ascii_digit() || (*b == b'.' && begins_digit(rest)),
        [] => false,
    }
}

/// The length of the number in front.
#[tactic(auto, using(crate::proofs::Ascii::point_ascii))]
pub(crate) fn number_len(text: &[u8]) -> usize
    ensures value { result ≡ spec.number_len text.now }
    ensures within { result ≤ length text.now }
    ensures ascii { IsAscii (take result text.now) }
    ensures some { spec.begins_number text.now ≡ true → 0 < result }
{
    let whole = digits_len(text);
    let (_, rest) = text.split_at(whole);
    if !begins(rest, b'.') {
        return whole;
    }
    let (_, places) = text.split_at(whole + 1);
    whole + 1 + digits_len(places)
}

/// Whether the text begins with a digit, or with a sign and a digit.
fn begins_size(text: &[u8]) -> bool
    ensures { result ≡ spec.begins_size text.now }
{
    match text {
        [b, rest @ ..] => b.is_ascii_digit() || ((*b == b'+' || *b == b'-') && begins_digit(rest)),
        [] => false,
    }
}

/// Whether the text begins with an exponent.
fn begins_exponent(text: &[u8]) -> bool
    ensures { result ≡ spec.begins_exponent text.now }
{
    match text {
        [b, rest @ ..] => (*b == b'e' || *b == b'E') && begins_size(rest),
        [] => false,
    }
}

/// The number of this length in front.
pub(crate) fn number(text: &[u8], size: usize) -> Result<Piece, FormulaKind>
    requires within { size ≤ length text.now }
    requires ascii { IsAscii (take size text.now) }
    ensures value { result ≡ spec.number size text.now }
    ensures length { IfOk result (λ p. (p.length ≡ size) × (p.lines ≡ 0)) }
{
    let (literal, rest) = text.split_at(size);
    if begins_exponent(rest) {
        return Err(FormulaKind::Unsupported);
    }
    let Ok(literal) = str::from_utf8(literal) else {
        return Err(FormulaKind::Syntax);
    };
    match Fraction::from_decimal(literal) {
        Ok(_) => Ok(Piece {
            form: Form::Token(Class::Number),
            length: size,
            lines: 0,
        }),
        Err(NumFault::TooWide) => Err(FormulaKind::Unsupported),
        Err(NumFault::ZeroDivisor | NumFault::NotANumber) => Err(FormulaKind::Syntax),
        Err(NumFault::Memory) => Err(FormulaKind::Memory),
    }
}
