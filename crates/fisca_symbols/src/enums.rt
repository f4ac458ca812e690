//! The Enums of a rule set.

ghost use Rattle.std.specs.Prelude.{◌≡◌, IfOk, map};
ghost use Rattle.std.specs.Str.{bytes_eq};
ghost use Rattle.fisca_symbols.specs.KnownEnums.{choices};
ghost use Rattle.fisca_model.specs.Tables.{place_in};

use crate::choices::{Choices, places_of_enums};
use crate::text::SourceText;
use indexmap::IndexMap;
use std::alloc::{AllocError, Global};
use std::marker::Model;

/// Enums in the order of the modules, seen as a list. Each is found by its name.
#[derive(Drop)]
pub struct Enums<'a> {
    items: Vec<Choices<'a>>,
    names: IndexMap<SourceText<'a>, usize>,
}

impl<'a> Model for Enums<'a> {
    ghost use Rattle.std.specs.Prelude.{List};
    ghost use Rattle.fisca_symbols.specs.declared.choices.Choices.{Choices};
    ghost use Rattle.fisca_symbols.specs.KnownEnums.{AreFound};

    ghost Value = { List Choices };

    ghost view = { λ e. e.items.items };

    ghost invariant = { λ e. AreFound e.items.items e.names };
}

impl<'a> Enums<'a> {
    /// These Enums.
    pub fn new(alloc: Global, items: Vec<Choices<'a>>) -> Result<Enums<'a>, AllocError>
        ensures { IfOk result (λ e. e ≡ items.entry.items) }
    {
        let names = places_of_enums(alloc, items.as_slice())?;
        Ok(Enums { items, names })
    }

    /// The Enums in order.
    pub fn as_slice(&self) -> &[Choices<'a>]
        ensures { result.now ≡ self.now }
    {
        self.items.as_slice()
    }

    /// The place of the first Enum of this name.
    pub fn of_name(&self, name: &str) -> Option<usize>
        ensures { result ≡ place_in (λ c. bytes_eq c.name name.now) (map choices self.now) }
    {
        self.names.get(&SourceText::borrowed(name)).copied()
    }
}
