//! What stands between brackets, taken apart.

ghost use Rattle.std.specs.Prelude.{◌≡◌, map};
ghost use Rattle.fisca_ast.specs.Views.{argument_view, series_of, series_view};

use crate::tree::{Argument, Arguments};
use std::slice::from_ref;

impl<'a> Arguments<'a> {
    /// What the commas part, and whether one follows the last.
    pub fn parts(&self) -> (&[Argument<'a>], bool)
        ensures { series_of result.1 (map argument_view result.0.now) ≡ series_view self.now }
    {
        match self {
            Arguments::One(argument) => (from_ref(argument), false),
            Arguments::Several(items, comma) => (items.as_slice(), *comma),
        }
    }
}
