//! Pieces of a source.

ghost use Rattle.std.specs.Prelude.{◌≡◌};

use std::marker::Model;

/// A piece of the source, which is UTF-8, seen as its bytes.
#[derive(Drop)]
pub struct Slice<'a> {
    text: &'a str,
}

impl<'a> Model for Slice<'a> {
    ghost use Rattle.std.specs.Prelude.{ℕ, List};

    ghost Value = { List ℕ };

    ghost view = { λ s. s.text.now };
}

impl<'a> Slice<'a> {
    /// This text.
    pub fn new(text: &'a str) -> Slice<'a>
        ensures { result ≡ text.now }
    {
        Slice { text }
    }

    /// The text.
    pub fn as_str(&self) -> &'a str
        ensures { result.now ≡ self.now }
    {
        self.text
    }

    /// The bytes.
    pub fn as_bytes(&self) -> &'a [u8]
        ensures { result.now ≡ self.now }
    {
        self.text.as_bytes()
    }
}
