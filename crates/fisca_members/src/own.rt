//! Groups of persons that no given group holds.

ghost use Rattle.std.specs.Prelude.{◌≡◌, map, option_map, slice_get, IfOk};
ghost use Rattle.fisca_symbols.specs.KnownEntities.{entity as known_one, entities as known};
ghost use Rattle.fisca_members.specs.Owned.{kind_in};
ghost use Rattle.fisca_members.specs.Steps.Drafts.{AreShared, drafted, given_or, own_if};
ghost use Rattle.fisca_members.specs.Steps.Groups as spec;
ghost use Rattle.fisca_members.specs.Steps.Members.{owns_from};
ghost use Rattle.fisca_members.specs.Outcomes.{Leaves, Tells};

use crate::draft::{Draft, begun};
use crate::fault::MembersFault;
use crate::kind::{Kind, Told};
use crate::person::{Person, Persons};
use crate::persons::room;
use crate::role_table::first_role;
use fisca_groups::{EntityMembers, Home};
use fisca_model::RolePlace;
use fisca_symbols::Entity;
use std::alloc::{AllocError, Global};

/// The groups so far, and a person's own, in the first role and named as the person.
fn with_own(
    alloc: Global,
    first: RolePlace,
    groups: &mut EntityMembers,
    place: usize,
    person: &Person<'_>,
) -> Result<(), MembersFault>
    ensures { Leaves groups.new (spec.with_own first groups.old place person.now) result }
{
    let count = groups.names.len();
    room(person.line, count)?;
    groups.names.push(alloc, person.name.as_str())?;
    let group = count as u32;
    groups.homes.hold(place, Home { group, role: first });
    Ok(())
}

/// Each person that no group holds gets one of its own, in order.
fn own_groups(
    alloc: Global,
    first: RolePlace,
    groups: &mut EntityMembers,
    persons: &[Person<'_>],
) -> Result<(), MembersFault>
    ensures { Leaves groups.new (spec.own_from first groups.old 0 persons.now) result }
{
    for (place, person) in persons.iter().enumerate() {
        if !groups.homes.is_held(place) {
            with_own(alloc, first, groups, place, person)?;
        }
    }
    Ok(())
}

/// Groups that persons have of their own, and whether kinds of which nothing is given share these.
#[derive(Drop)]
pub(crate) struct Owners {
    pub(crate) told: Told,
    pub(crate) are_shared: bool,
}

/// Whether nothing is given of two entities or more.
pub(crate) fn some_share(draft: &Draft) -> bool {
    let mut count = 0usize;
    for given in &draft.items {
        if given.is_none() {
            count = count.saturating_add(1);
        }
    }
    count > 1
}

/// Each person in a group of its own, where kinds share these.
pub(crate) fn owners_of(
    alloc: Global,
    persons: &Persons<'_>,
    some_share: bool,
) -> Result<Owners, AllocError>
    ensures { IfOk result (λ o. AreShared persons.now o) }
{
    if some_share {
        let mut groups = begun(alloc, persons, None)?;
        let role = RolePlace {
            role: 0,
            subrole: None,
        };
        if let Ok(()) = own_groups(alloc, role, &mut groups, persons.as_slice()) {
            return Ok(Owners {
                told: Told::of(alloc, groups)?,
                are_shared: true,
            });
        }
    }
    Ok(Owners {
        told: Told::none(alloc)?,
        are_shared: false,
    })
}

/// The groups of a kind, of which these are given, and those of their own in the first role.
#[tactic(auto, using(crate::proofs::Retold::own_retold))]
fn kind_with_own(
    alloc: Global,
    persons: &Persons<'_>,
    owners: &Owners,
    first: RolePlace,
    given: Option<EntityMembers>,
) -> Result<Kind, MembersFault>
    requires { AreShared persons.now owners.now }
    ensures { Tells (kind_in owners.now.told) (spec.own_from first (given_or persons.now given) 0 persons.now) result }
{
    match given {
        None if owners.are_shared => Ok(Kind::Own(first)),
        given => {
            let mut groups = begun(alloc, persons, given)?;
            own_groups(alloc, first, &mut groups, persons.as_slice())?;
            Ok(Kind::Told(Told::of(alloc, groups)?))
        }
    }
}

/// No groups beside these.
fn no_more(
    alloc: Global,
    persons: &Persons<'_>,
    given: Option<EntityMembers>,
) -> Result<Told, AllocError>
    ensures { IfOk result (λ t. t ≡ given_or persons.now given) }
{
    Told::of(alloc, begun(alloc, persons, given)?)
}

/// The members of an entity, of which these are given.
fn kind_of(
    alloc: Global,
    entity: Option<&Entity<'_>>,
    persons: &Persons<'_>,
    owners: &Owners,
    given: Option<EntityMembers>,
) -> Result<Kind, MembersFault>
    requires { AreShared persons.now owners.now }
    ensures { Tells (kind_in owners.now.told) (own_if persons.now (given_or persons.now given) (option_map (λ e. known_one e.now) entity.entry)) result }
{
    match entity {
        None => Ok(Kind::Told(no_more(alloc, persons, given)?)),
        Some(entity) if entity.is_person => Ok(Kind::Told(no_more(alloc, persons, given)?)),
        Some(entity) => {
            let first = first_role(entity.roles.as_slice());
            kind_with_own(alloc, persons, owners, first, given)
        }
    }
}

/// The entity at a place.
fn entity_at<'e, 'r>(entities: &'e [Entity<'r>], place: usize) -> Option<&'e Entity<'r>>
    ensures { option_map (λ e. known_one e.now) result ≡ slice_get (known entities.now) place }
{
    entities.get(place)
}

/// The members of each entity, of which these are given.
pub(crate) fn kinds_of(
    alloc: Global,
    entities: &[Entity<'_>],
    persons: &Persons<'_>,
    owners: &Owners,
    draft: Draft,
) -> Result<Vec<Kind>, MembersFault>
    requires { AreShared persons.now owners.now }
    ensures { Tells (λ ks. map (kind_in owners.now.told) ks.items) (owns_from persons.now (drafted persons.now draft) 0 (known entities.now)) result }
{
    let mut kinds = Vec::with_capacity(alloc, draft.items.len())?;
    for given in draft.items {
        let entity = entity_at(entities, kinds.len());
        let kind = kind_of(alloc, entity, persons, owners, given)?;
        kinds.push(kind)?;
    }
    Ok(kinds)
}
