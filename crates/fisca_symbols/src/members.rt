//! Members of Enums.

ghost use Rattle.std.specs.Prelude.{◌≡◌, ℕ, List, IfOk, map, length, nat_eq};
ghost use Rattle.std.specs.Str.{bytes_eq};
ghost use Rattle.fisca_model.specs.Tables.{place_in};
ghost use Rattle.indexmap.specs.IndexMap.{get};

use crate::index::note;
use crate::text::SourceText;
use indexmap::IndexMap;
use std::alloc::{AllocError, Global};
use std::marker::Model;

/// The members of an Enum in order, seen as a list of pairs: a name, and the text behind it. Each is found where its name
/// stands first.
#[derive(Drop)]
pub struct EnumMembers<'a> {
    items: Vec<(SourceText<'a>, SourceText<'a>)>,
    names: IndexMap<SourceText<'a>, usize>,
}

impl<'a> Model for EnumMembers<'a> {
    ghost use Rattle.std.specs.Prelude.{ℕ, List, map};
    ghost use Rattle.fisca_symbols.specs.KnownNames.{AreFound};

    ghost Value = { List (List ℕ × List ℕ) };

    ghost view = { λ m. m.items.items };

    ghost invariant = { λ m. AreFound (map (λ p. p.0) m.items.items) m.names };
}

/// Where each name of a member stands first.
#[tactic(auto, using(crate::proofs::Noted::noted))]
fn places_of_members<'a>(
    alloc: Global,
    items: &[(SourceText<'a>, SourceText<'a>)],
) -> Result<IndexMap<SourceText<'a>, usize>, AllocError>
    ensures { IfOk result (λ m. (t : List ℕ) → get bytes_eq m t ≡ place_in (λ n. bytes_eq n t) (map (λ n. n.0) items.now)) }
{
    let mut places = IndexMap::new(alloc);
    for (place, item) in items.iter().enumerate() {
        note(&mut places, item.0.copied(alloc)?, place)?;
    }
    Ok(places)
}

impl<'a> EnumMembers<'a> {
    /// These members.
    pub fn new(
        alloc: Global,
        items: Vec<(SourceText<'a>, SourceText<'a>)>,
    ) -> Result<EnumMembers<'a>, AllocError>
        ensures { IfOk result (λ m. m ≡ items.entry.items) }
    {
        let names = places_of_members(alloc, items.as_slice())?;
        Ok(EnumMembers { items, names })
    }

    /// How many there are.
    pub fn len(&self) -> usize
        ensures { result ≡ length self.now }
    {
        self.items.len()
    }

    /// Whether there are none.
    pub fn is_empty(&self) -> bool
        ensures { result ≡ nat_eq (length self.now) 0 }
    {
        self.items.is_empty()
    }

    /// The place of the first member of this name.
    pub fn of_name(&self, name: &str) -> Option<usize>
        ensures { result ≡ place_in (λ m. bytes_eq m name.now) (map (λ m. m.0) self.now) }
    {
        self.names.get(&SourceText::borrowed(name)).copied()
    }

    /// The members in order: names, and the texts behind them.
    pub fn as_slice(&self) -> &[(SourceText<'a>, SourceText<'a>)]
        ensures { result.now ≡ self.now }
    {
        self.items.as_slice()
    }
}
