//! The members of all entities.

ghost use Rattle.std.specs.Prelude.{◌≡◌, map, option_map, slice_get, IfOk};
ghost use Rattle.fisca_symbols.specs.KnownEntities.{entities as known};
ghost use Rattle.fisca_yaml.specs.Views.{node};
ghost use Rattle.fisca_groups.specs.Grouped.{grouped};
ghost use Rattle.fisca_groups.specs.Lookup as lookup;
ghost use Rattle.fisca_members.specs.Owned.{kind_in};
ghost use Rattle.fisca_members.specs.Steps.Drafts.{drafted};
ghost use Rattle.fisca_members.specs.Steps.Members as spec;
ghost use Rattle.fisca_members.specs.Outcomes.{Tells};
ghost use Rattle.fisca_members.specs.Views.{input_view};

use crate::draft::{Draft, all_none_yet, groups_in};
use crate::fault::MembersFault;
use crate::kind::{Kind, Told};
use crate::own::{kinds_of, owners_of, some_share};
use crate::person::Persons;
use crate::persons::persons_in;
use crate::section::Input;
use crate::sections::input_of;
use crate::titles::titles_of;
use fisca_groups::{Home, MemberNames};
use fisca_symbols::{Entities, Entity};
use fisca_yaml::Tree;
use std::alloc::{AllocError, Global};
use std::marker::Model;

/// The members of each entity in order, seen as a list. Kinds of which no group is given share the groups that persons have
/// of their own.
#[derive(Drop)]
pub struct Members {
    kinds: Vec<Kind>,
    owners: Told,
}

impl Model for Members {
    ghost use Rattle.std.specs.Prelude.{List, map};
    ghost use Rattle.fisca_groups.specs.declared.entity_members.EntityMembers.{EntityMembers};
    ghost use Rattle.fisca_members.specs.Owned.{kind_in};

    ghost Value = { List EntityMembers };

    ghost view = { λ m. map (kind_in m.owners) m.kinds.items };
}

/// Copies of the members of each entity.
fn copies_of(alloc: Global, kinds: &[Kind]) -> Result<Vec<Kind>, AllocError>
    ensures { IfOk result (λ ks. ks.items ≡ kinds.now) }
{
    let mut copies = Vec::with_capacity(alloc, kinds.len())?;
    for kind in kinds {
        let copy = kind.copied(alloc)?;
        copies.push(copy).map_err(AllocError::from)?;
    }
    Ok(copies)
}

/// How many members these have, where they have groups of their own.
fn counts_of(alloc: Global, owners: &Told, kinds: &[Kind]) -> Result<Vec<u32>, AllocError>
    ensures { IfOk result (λ c. c.items ≡ lookup.counts_of (map (kind_in owners.now) kinds.now)) }
{
    let mut counts = Vec::with_capacity(alloc, kinds.len())?;
    for kind in kinds {
        let count = kind.names(owners).len() as u32;
        counts.push(count).map_err(AllocError::from)?;
    }
    Ok(counts)
}

impl Members {
    /// A copy of these. `AllocError` only where memory was refused.
    pub fn copied(&self, alloc: Global) -> Result<Members, AllocError>
        ensures { IfOk result (λ m. m ≡ self.now) }
    {
        Ok(Members {
            kinds: copies_of(alloc, self.kinds.as_slice())?,
            owners: self.owners.copied(alloc)?,
        })
    }

    /// The names of the members of the entity at a place; none where there is no entity.
    pub fn names(&self, entity: usize) -> Option<&MemberNames>
        ensures { option_map (λ n. n.now) result ≡ option_map (λ k. k.names) (slice_get self.now entity) }
    {
        match self.kinds.as_slice().get(entity) {
            Some(kind) => Some(kind.names(&self.owners)),
            None => None,
        }
    }

    /// How many members the entity at a place has; none where there is no entity.
    #[tactic(auto, using(crate::proofs::Retold::count_some, crate::proofs::Retold::count_none))]
    pub fn count(&self, entity: usize) -> u32
        ensures { result ≡ lookup.count_at self.now entity }
    {
        match self.names(entity) {
            Some(names) => names.len() as u32,
            None => 0,
        }
    }

    /// The name of the member at a place, where there is one.
    #[tactic(auto, using(crate::proofs::Retold::name_some, crate::proofs::Retold::name_none))]
    pub fn name(&self, entity: usize, member: u32) -> Option<&str>
        ensures { option_map (λ n. n.now) result ≡ lookup.name_at self.now entity member }
    {
        match self.names(entity) {
            Some(names) => names.get(member as usize),
            None => None,
        }
    }

    /// The group of an entity that holds a person, and the role there.
    pub fn home(&self, entity: usize, person: u32) -> Option<Home>
        ensures { result ≡ lookup.home_at self.now entity person }
    {
        match self.kinds.as_slice().get(entity) {
            Some(kind) => kind.home(&self.owners, person as usize),
            None => None,
        }
    }

    /// The persons of a group of an entity, in order; none where there is no such group.
    pub fn persons(&self, entity: usize, group: u32) -> &[u32]
        ensures { result.now ≡ (grouped self.now).persons entity group }
    {
        match self.kinds.as_slice().get(entity) {
            Some(kind) => kind.persons(&self.owners, group),
            None => &[],
        }
    }

    /// How many members each entity has.
    pub fn counts(&self, alloc: Global) -> Result<Vec<u32>, AllocError>
        ensures { IfOk result (λ c. c.items ≡ lookup.counts_of self.now) }
    {
        counts_of(alloc, &self.owners, self.kinds.as_slice())
    }
}

/// The members of which these are given: each person that no given group of a kind holds gets one of its own.
fn members_with_own(
    alloc: Global,
    entities: &[Entity<'_>],
    persons: &Persons<'_>,
    draft: Draft,
) -> Result<Members, MembersFault>
    ensures { Tells (λ m. m) (spec.owns_from persons.now (drafted persons.now draft) 0 (known entities.now)) result }
{
    let owners = owners_of(alloc, persons, some_share(&draft))?;
    let kinds = kinds_of(alloc, entities, persons, &owners, draft)?;
    Ok(Members {
        kinds,
        owners: owners.told,
    })
}

/// The members of an input whose key stands on `line`: of each of these entities in order.
///
/// The persons are told of first: `UnknownPerson` where there is none, of the line of their key or, where there is no such key, of the
/// first key; `TooMany` of the 1,001st; `BadValue` of one without a map. Then the groups as they are written: `TooMany` and `BadValue` likewise,
/// and each name that is given a role from top to bottom: `UnknownPerson`, `PersonTwice`, `RoleFull`. Then `TooMany` of a person whose
/// own group is the 1,001st of its kind. A person that no given group of a kind names has one of its own behind them, in the first role
/// or its first subrole (this project's own rule).
#[tactic(auto, unfolding(crate::specs::Steps::Members::members_in))]
pub fn members_in(
    alloc: Global,
    entities: &[Entity<'_>],
    line: usize,
    input: &Input<'_, '_>,
) -> Result<Members, MembersFault>
    ensures { Tells (λ m. m) (spec.members_in (known entities.now) line (input_view input.now)) result }
{
    let persons = persons_in(alloc, entities, line, input)?;
    let mut draft = all_none_yet(alloc, &persons, entities)?;
    groups_in(alloc, entities, &persons, &mut draft, input)?;
    members_with_own(alloc, entities, &persons, draft)
}

/// The members of a situation, whose input stands at a key on `line`: of each of these entities in order, or the first fault: of its
/// keys, and then as `members_in` tells.
#[tactic(auto, unfolding(crate::specs::Steps::Members::members_of))]
pub fn members_of(
    alloc: Global,
    entities: &Entities<'_>,
    line: usize,
    tree: &Tree<'_>,
) -> Result<Members, MembersFault>
    ensures { Tells (λ m. m) (spec.members_of (known entities.now) line (node tree.now)) result }
{
    let titles = titles_of(entities);
    let input = input_of(alloc, &titles, line, tree)?;
    members_in(alloc, entities.as_slice(), line, &input)
}
