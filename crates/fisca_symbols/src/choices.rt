//! Enums.

ghost use Rattle.std.specs.Prelude.{◌≡◌, ℕ, List, IfOk, map};
ghost use Rattle.std.specs.Str.{bytes_eq};
ghost use Rattle.fisca_symbols.specs.KnownEnums.{choices};
ghost use Rattle.fisca_model.specs.Tables.{place_in};
ghost use Rattle.indexmap.specs.IndexMap.{get};

use crate::index::note;
use crate::members::EnumMembers;
use crate::text::SourceText;
use indexmap::IndexMap;
use std::alloc::{AllocError, Global};

/// An Enum.
#[derive(Drop)]
pub struct Choices<'a> {
    /// The name.
    pub name: SourceText<'a>,
    /// Its members in order.
    pub members: EnumMembers<'a>,
}

/// Where each name of an Enum stands first.
#[tactic(auto, using(crate::proofs::Noted::noted))]
pub(crate) fn places_of_enums<'a>(
    alloc: Global,
    items: &[Choices<'a>],
) -> Result<IndexMap<SourceText<'a>, usize>, AllocError>
    ensures { IfOk result (λ m. (t : List ℕ) → get bytes_eq m t ≡ place_in (λ c. bytes_eq c.name t) (map choices items.now)) }
{
    let mut places = IndexMap::new(alloc);
    for (place, item) in items.iter().enumerate() {
        note(&mut places, item.name.copied(alloc)?, place)?;
    }
    Ok(places)
}
