//! What texts in quotes say.
ghost use Rattle.std.specs.List.{prefix_len};
ghost use Rattle.std.specs.Prelude.{◌≡◌, ◌≤◌, IfOk, length, option_map, string_bytes, true};
ghost use Rattle.fisca_ast.specs.Strings.{begins_quote, in_comment};
ghost use Rattle.fisca_ast.specs.ContentPieces.{front, quoted};
ghost use Rattle.fisca_ast.specs.Steps.Contents as spec;
ghost use Rattle.fisca_ast.specs.Steps.Strings as strings;

use crate::strings::string_len;
use std::alloc::{AllocError, Global};

/// A text without so many bytes at both ends.
fn within(ends: usize, text: &[u8]) -> &[u8]
    ensures { result.now ≡ spec.within ends text.now }
{
    let all = text.len();
    if ends > all {
        return &[];
    }
    let front = text.split_at(all - ends).0;
    if ends > front.len() {
        return &[];
    }
    front.split_at(ends).1
}

/// What stands in one quote or in three.
fn between_quotes(text: &[u8]) -> &[u8]
    ensures { result.now ≡ spec.between_quotes text.now }
{
    match text {
        [] => text,
        [quote, second, third, ..] if quote == second && quote == third => within(3, text),
        [_, ..] => within(1, text),
    }
}

/// How long the line in front is.
fn line_len(text: &[u8]) -> usize
    ensures value { result ≡ prefix_len in_comment text.now }
    ensures within { result ≤ length text.now }
{
    text.iter().take_while(|b| **b != b'\n').count()
}

/// What stands in the quotes in front of the end of a text, and the end behind them.
fn quotes_in_front(text: &[u8]) -> Option<(&str, &[u8])>
    requires end { spec.IsEnd text.now }
    requires quote { begins_quote text.now ≡ true }
    ensures { option_map (λ p. (p.0.now, p.1.now)) result ≡ quoted text.now (strings.string_len text.now) }
{
    match string_len(text) {
        Some(size) => {
            let (quoted, behind) = text.split_at(size);
            match str::from_utf8(between_quotes(quoted)) {
                Ok(said) => Some((said, behind)),
                Err(_) => None,
            }
        }
        None => None,
    }
}

/// What the front of the end of a text says, and the end behind it.
fn front_of(text: &[u8]) -> Option<(&str, &[u8])>
    requires { spec.IsEnd text.now }
    ensures { option_map (λ p. (p.0.now, p.1.now)) result ≡ front text.now }
{
    let [first, rest @ ..] = text else {
        return None;
    };
    match *first {
        b'"' | b'\'' => quotes_in_front(text),
        b'#' => Some(("", rest.split_at(line_len(rest)).1)),
        _ => Some(("", rest)),
    }
}

/// What stands in the quotes of texts side by side, as it is written: a backslash stands for itself.
pub fn content(alloc: Global, source: &str) -> Result<String, AllocError>
    ensures { IfOk result (λ t. string_bytes t ≡ spec.content source.now) }
{
    let mut said = String::new(alloc);
    let mut rest = source.as_bytes();
    for _turn in 0..source.len() {
        match front_of(rest) {
            Some((next, behind)) => {
                said.push_str(next)?;
                rest = behind;
            }
            None => return Ok(said),
        }
    }
    Ok(said)
}
