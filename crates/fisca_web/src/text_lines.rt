//! The lines of a text, one after another.

ghost use Rattle.std.specs.Prelude.{◌≡◌, ◌<◌, ◌≤◌, ◌∷◌, IfSome, Some, length, min};
ghost use Rattle.fisca_web.specs.TextLines.{lines_of};

use fisca_commands::{LineFault, LineSource};
use memchr::memchr;
use std::marker::Model;

/// The most bytes of a text.
const MOST: usize = 1 << 62;

/// The lines of a text that are left; seen as them.
#[derive(Drop)]
pub(crate) struct TextLines<'a> {
    left: &'a [u8],
}

impl<'a> Model for TextLines<'a> {
    ghost use Rattle.std.specs.Prelude.{◌<◌, ◌^◌, List, ℕ, length};
    ghost use Rattle.fisca_web.specs.TextLines.{lines_of};

    ghost Value = { List (List ℕ) };

    ghost view = { λ lines. lines_of lines.left.now };

    ghost invariant = { λ lines. length lines.left.now < 2 ^ 63 };
}

impl<'a> TextLines<'a> {
    /// The lines of a text of less than 2^62 bytes.
    pub(crate) fn new(text: &'a str) -> Option<Self>
        ensures { IfSome result (λ lines. lines ≡ lines_of text.now) }
    {
        let left = text.as_bytes();
        if left.len() < MOST {
            Some(TextLines { left })
        } else {
            None
        }
    }
}

impl LineSource for TextLines<'_> {
    ghost left = { λ lines. Some lines };

    fn next_line(&mut self, most: u64, line: &mut Vec<u8>) -> Result<bool, LineFault> {
        line.clear();
        if self.left.is_empty() {
            return Ok(false);
        }
        let (first, others) = split(self.left);
        if line
            .extend_from_slice(&first[..shorter(first.len(), most)])
            .is_err()
        {
            return Err(LineFault::Memory);
        }
        self.left = others;
        Ok(true)
    }
}

/// The first line of a text that is not empty, without its line feed, and the text behind it.
fn split(text: &[u8]) -> (&[u8], &[u8])
    requires { 0 < length text.now }
    ensures lines { lines_of text.now ≡ result.0.now ∷ lines_of result.1.now }
    ensures shorter { length result.1.now ≤ length text.now }
{
    match memchr(b'\n', text) {
        Some(at) => (&text[..at], &text[at + 1..]),
        None => (text, &text[text.len()..]),
    }
}

/// A length, and so many where it is more.
fn shorter(length: usize, most: u64) -> usize
    ensures { result ≡ min length most }
{
    match usize::try_from(most) {
        Ok(most) => length.min(most),
        Err(_) => length,
    }
}
