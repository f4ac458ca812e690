//! Names in order.

ghost use Rattle.std.specs.Prelude.{◌≡◌, [], ◌∷◌, ◌++◌, IfOk};
ghost use Rattle.std.specs.List.{list_any};
ghost use Rattle.std.specs.Str.{bytes_eq};
ghost use Rattle.fisca_model.specs.Tables.{place_in};

use crate::index::note;
use crate::text::SourceText;
use indexmap::IndexMap;
use std::alloc::{AllocError, Global};
use std::marker::Model;

/// Names in order, seen as a list. Each is found where it stands first.
#[derive(Drop)]
pub struct Names<'a> {
    items: Vec<SourceText<'a>>,
    places: IndexMap<SourceText<'a>, usize>,
}

impl<'a> Model for Names<'a> {
    ghost use Rattle.std.specs.Prelude.{ℕ, List};
    ghost use Rattle.fisca_symbols.specs.KnownNames.{AreFound};

    ghost Value = { List (List ℕ) };

    ghost view = { λ n. n.items.items };

    ghost invariant = { λ n. AreFound n.items.items n.places };
}

impl<'a> Names<'a> {
    /// No names.
    pub fn new(alloc: Global) -> Names<'a>
        ensures { result ≡ [] }
    {
        Names {
            items: Vec::new(alloc),
            places: IndexMap::new(alloc),
        }
    }

    /// One name more.
    pub fn with(self, alloc: Global, name: SourceText<'a>) -> Result<Names<'a>, AllocError>
        ensures { IfOk result (λ n. n ≡ self.entry ++ name.entry ∷ []) }
    {
        let mut items = self.items;
        let mut places = self.places;
        note(&mut places, name.copied(alloc)?, items.len())?;
        items.push(name)?;
        Ok(Names { items, places })
    }

    /// The names in order.
    pub fn as_slice(&self) -> &[SourceText<'a>]
        ensures { result.now ≡ self.now }
    {
        self.items.as_slice()
    }

    /// The first place of a name.
    pub fn place_of(&self, name: &str) -> Option<usize>
        ensures { result ≡ place_in (λ k. bytes_eq k name.now) self.now }
    {
        self.places.get(&SourceText::borrowed(name)).copied()
    }

    /// Whether this name is one of them.
    pub fn contains(&self, name: &str) -> bool
        ensures { result ≡ list_any (λ k. bytes_eq k name.now) self.now }
    {
        self.place_of(name).is_some()
    }
}
