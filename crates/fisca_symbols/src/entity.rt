//! Entities: persons and groups of them.

ghost use Rattle.std.specs.Prelude.{◌≡◌, ℕ, List, map, IfOk};
ghost use Rattle.std.specs.Str.{bytes_eq};
ghost use Rattle.fisca_symbols.specs.KnownEntities.{entities};
ghost use Rattle.fisca_model.specs.Tables.{place_in, is_group_of, is_person};
ghost use Rattle.indexmap.specs.IndexMap.{get};

use crate::index::note;
use crate::names::Names;
use crate::roles::Roles;
use crate::text::SourceText;
use indexmap::IndexMap;
use std::alloc::{AllocError, Global};

/// The persons, or groups of a kind.
#[derive(Drop)]
pub struct Entity<'a> {
    /// The name that it is built under.
    pub constant: SourceText<'a>,
    /// The name of one.
    pub key: SourceText<'a>,
    /// The name of all.
    pub plural: SourceText<'a>,
    /// What is told of it.
    pub label: Option<SourceText<'a>>,
    /// What is told of it at length.
    pub doc: Option<SourceText<'a>>,
    /// Whether it is the persons.
    pub is_person: bool,
    /// The roles of a group; persons have none.
    pub roles: Roles<'a>,
}

/// Where each constant of an entity stands first.
#[tactic(auto, using(crate::proofs::Noted::noted))]
pub(crate) fn places_of_constants<'a>(
    alloc: Global,
    items: &[Entity<'a>],
) -> Result<IndexMap<SourceText<'a>, usize>, AllocError>
    ensures { IfOk result (λ m. (t : List ℕ) → get bytes_eq m t ≡ place_in (λ e. bytes_eq e.constant t) (entities items.now)) }
{
    let mut places = IndexMap::new(alloc);
    for (place, item) in items.iter().enumerate() {
        note(&mut places, item.constant.copied(alloc)?, place)?;
    }
    Ok(places)
}

/// Where each key of a group stands first.
#[tactic(auto, using(crate::proofs::Noted::noted))]
pub(crate) fn places_of_groups<'a>(
    alloc: Global,
    items: &[Entity<'a>],
) -> Result<IndexMap<SourceText<'a>, usize>, AllocError>
    ensures { IfOk result (λ m. (t : List ℕ) → get bytes_eq m t ≡ place_in (is_group_of t) (entities items.now)) }
{
    let mut places = IndexMap::new(alloc);
    for (place, item) in items.iter().enumerate() {
        if !item.is_person {
            note(&mut places, item.key.copied(alloc)?, place)?;
        }
    }
    Ok(places)
}

/// The plural of each entity.
pub(crate) fn plurals_of<'a>(alloc: Global, items: &[Entity<'a>]) -> Result<Names<'a>, AllocError>
    ensures { IfOk result (λ n. n ≡ map (λ e. e.plural) (entities items.now)) }
{
    let mut names = Names::new(alloc);
    for item in items {
        names = names.with(alloc, item.plural.copied(alloc)?)?;
    }
    Ok(names)
}

/// The key of each entity.
pub(crate) fn keys_of<'a>(alloc: Global, items: &[Entity<'a>]) -> Result<Names<'a>, AllocError>
    ensures { IfOk result (λ n. n ≡ map (λ e. e.key) (entities items.now)) }
{
    let mut names = Names::new(alloc);
    for item in items {
        names = names.with(alloc, item.key.copied(alloc)?)?;
    }
    Ok(names)
}

/// The place of the first entity of persons.
pub(crate) fn first_person(items: &[Entity<'_>]) -> Option<usize>
    ensures { result ≡ place_in is_person (entities items.now) }
{
    for (place, item) in items.iter().enumerate() {
        if item.is_person {
            return Some(place);
        }
    }
    None
}
