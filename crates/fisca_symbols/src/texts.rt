//! Lists of texts.

use crate::text::SourceText;
use std::marker::Model;

/// Texts in order, seen as a list.
#[derive(Drop)]
pub struct Texts<'a> {
    items: Vec<SourceText<'a>>,
}

impl<'a> Model for Texts<'a> {
    ghost use Rattle.std.specs.Prelude.{ℕ, List};

    ghost Value = { List (List ℕ) };

    ghost view = { λ t. t.items.items };
}

impl<'a> Texts<'a> {
    ghost use Rattle.std.specs.Prelude.{◌≡◌};

    /// These texts.
    pub fn new(items: Vec<SourceText<'a>>) -> Texts<'a>
        ensures { result ≡ items.entry.items }
    {
        Texts { items }
    }

    /// The texts in order.
    pub fn as_slice(&self) -> &[SourceText<'a>]
        ensures { result.now ≡ self.now }
    {
        self.items.as_slice()
    }
}
