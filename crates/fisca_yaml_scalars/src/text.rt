//! Texts of scalars: pieces of the source, or copies.

ghost use Rattle.std.specs.Prelude.{◌≡◌, string_bytes};

use std::alloc::Global;
use std::borrow::CowStr;
use std::marker::Model;

/// A text that is borrowed from the source for a plain scalar and for a quoted one without escapes, and else owned.
#[derive(Debug, Drop)]
pub struct Text<'a> {
    inner: CowStr<'a, Global>,
}

impl<'a> Model for Text<'a> {
    ghost use Rattle.std.specs.Prelude.{ℕ, List};
    ghost use Rattle.std.specs.Cow.{cow_str_bytes};

    ghost Value = { List ℕ };

    ghost view = { λ t. cow_str_bytes t.inner };
}

impl<'a> Text<'a> {
    /// A text that stands in the source.
    pub fn borrowed(text: &'a str) -> Text<'a>
        ensures { result ≡ text.now }
    {
        Text {
            inner: CowStr::Borrowed(text),
        }
    }

    /// A text of its own.
    pub(crate) fn owned(text: String) -> Text<'a>
        ensures { result ≡ string_bytes text }
    {
        Text {
            inner: CowStr::Owned(text),
        }
    }

    /// The text.
    pub fn as_str(&self) -> &str
        ensures { result.now ≡ self.now }
    {
        match &self.inner {
            CowStr::Borrowed(text) => text,
            CowStr::Owned(text) => text.as_str(),
        }
    }
}
