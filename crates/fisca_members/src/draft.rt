//! What is given of the members of each entity.

ghost use Rattle.std.specs.Prelude.{◌≡◌, map, IfOk};
ghost use Rattle.fisca_symbols.specs.KnownEntities.{entity as known_one, entities as known};
ghost use Rattle.fisca_symbols.specs.KnownRoles.{roles as known_roles};
ghost use Rattle.fisca_members.specs.Steps.Drafts.{drafted, given_or};
ghost use Rattle.fisca_members.specs.Steps.Groups.{groups_of};
ghost use Rattle.fisca_members.specs.Steps.Members as spec;
ghost use Rattle.fisca_members.specs.Outcomes.{Leaves, Tells};
ghost use Rattle.fisca_members.specs.Steps.Persons.{names_of as all_names};
ghost use Rattle.fisca_members.specs.Views.{section as section_view, input_view};

use crate::fault::MembersFault;
use crate::groups::groups_at;
use crate::person::Persons;
use crate::section::{Input, Section};
use fisca_groups::{EntityMembers, Homes, MemberNames};
use fisca_symbols::{Entity, Roles};
use std::alloc::{AllocError, Global};
use std::marker::Model;

/// The members of each entity in order, where some are given, seen as a list.
#[derive(Drop)]
pub(crate) struct Draft {
    pub(crate) items: Vec<Option<EntityMembers>>,
}

impl Model for Draft {
    ghost use Rattle.std.specs.Prelude.{List, Option};
    ghost use Rattle.fisca_groups.specs.declared.entity_members.EntityMembers.{EntityMembers};

    ghost Value = { List (Option EntityMembers) };

    ghost view = { λ d. d.items.items };
}

/// What is given of an entity; where nothing is, no group holds a person.
pub(crate) fn begun(
    alloc: Global,
    persons: &Persons<'_>,
    given: Option<EntityMembers>,
) -> Result<EntityMembers, AllocError>
    ensures { IfOk result (λ k. k ≡ given_or persons.now given) }
{
    match given {
        Some(members) => Ok(members),
        None => Ok(EntityMembers {
            names: MemberNames::new(alloc),
            homes: Homes::new(alloc, persons.len())?,
        }),
    }
}

/// The names of persons.
fn names_of(alloc: Global, persons: &Persons<'_>) -> Result<MemberNames, AllocError>
    ensures { IfOk result (λ n. n ≡ all_names persons.now) }
{
    let mut names = MemberNames::with_capacity(alloc, persons.len())?;
    for person in persons.as_slice() {
        names.push(alloc, person.name.as_str())?;
    }
    Ok(names)
}

/// The persons; and of groups none, so that no person is held.
fn none_yet(
    alloc: Global,
    persons: &Persons<'_>,
    entity: &Entity<'_>,
) -> Result<Option<EntityMembers>, AllocError>
    ensures { IfOk result (λ k. given_or persons.now k ≡ spec.none_yet persons.now (known_one entity.now)) }
{
    if !entity.is_person {
        return Ok(None);
    }
    Ok(Some(EntityMembers {
        names: names_of(alloc, persons)?,
        homes: Homes::new(alloc, 0)?,
    }))
}

/// The same of each entity.
pub(crate) fn all_none_yet(
    alloc: Global,
    persons: &Persons<'_>,
    entities: &[Entity<'_>],
) -> Result<Draft, AllocError>
    ensures { IfOk result (λ m. drafted persons.now m ≡ map (spec.none_yet persons.now) (known entities.now)) }
{
    let mut items = Vec::with_capacity(alloc, entities.len())?;
    for entity in entities {
        let members = none_yet(alloc, persons, entity)?;
        items.push(members).map_err(AllocError::from)?;
    }
    Ok(Draft { items })
}

/// What is given of an entity with these roles, and the groups of a section.
fn section_behind(
    alloc: Global,
    roles: &Roles<'_>,
    persons: &Persons<'_>,
    given: Option<EntityMembers>,
    section: &Section<'_, '_>,
) -> Result<EntityMembers, MembersFault>
    ensures { Tells (λ k. k) (groups_of (known_roles roles.now) persons.now (given_or persons.now given) (section_view section.now)) result }
{
    let mut groups = begun(alloc, persons, given)?;
    groups_at(alloc, roles, persons, &mut groups, section)?;
    Ok(groups)
}

/// The groups of a section are read behind what is given of an entity with these roles.
fn section_given(
    alloc: Global,
    roles: &Roles<'_>,
    persons: &Persons<'_>,
    given: &mut Option<EntityMembers>,
    section: &Section<'_, '_>,
) -> Result<(), MembersFault>
    ensures { Leaves (given_or persons.now given.new) (groups_of (known_roles roles.now) persons.now (given_or persons.now given.old) (section_view section.now)) result }
{
    let before = given.take();
    let groups = section_behind(alloc, roles, persons, before, section)?;
    *given = Some(groups);
    Ok(())
}

/// The groups of a section of a kind with these roles are read.
#[tactic(auto, using(crate::proofs::Drafted::none_there))]
fn section_at(
    alloc: Global,
    roles: &Roles<'_>,
    persons: &Persons<'_>,
    members: &mut Draft,
    section: &Section<'_, '_>,
) -> Result<(), MembersFault>
    ensures { Leaves (drafted persons.now members.new) (spec.changed_at (drafted persons.now members.old) section.now.named.entity (λ k. groups_of (known_roles roles.now) persons.now k (section_view section.now))) result }
{
    let place = section.named.entity;
    if place >= members.items.len() {
        return Ok(());
    }
    let given = &mut members.items[place];
    section_given(alloc, roles, persons, given, section)
}

/// The groups of a section are read; persons are read before.
fn section_read(
    alloc: Global,
    entities: &[Entity<'_>],
    persons: &Persons<'_>,
    members: &mut Draft,
    section: &Section<'_, '_>,
) -> Result<(), MembersFault>
    ensures { Leaves (drafted persons.now members.new) (spec.section_read (known entities.now) persons.now (drafted persons.now members.old) (section_view section.now)) result }
{
    let Some(entity) = entities.get(section.named.entity) else {
        return Ok(());
    };
    if entity.is_person {
        return Ok(());
    }
    section_at(alloc, &entity.roles, persons, members, section)
}

/// The groups of sections, from top to bottom.
fn sections_read(
    alloc: Global,
    entities: &[Entity<'_>],
    persons: &Persons<'_>,
    members: &mut Draft,
    sections: &[Section<'_, '_>],
) -> Result<(), MembersFault>
    ensures { Leaves (drafted persons.now members.new) (spec.sections_read (known entities.now) persons.now (drafted persons.now members.old) (map section_view sections.now)) result }
{
    for section in sections {
        section_read(alloc, entities, persons, members, section)?;
    }
    Ok(())
}

/// The groups that an input names.
pub(crate) fn groups_in(
    alloc: Global,
    entities: &[Entity<'_>],
    persons: &Persons<'_>,
    members: &mut Draft,
    input: &Input<'_, '_>,
) -> Result<(), MembersFault>
    ensures { Leaves (drafted persons.now members.new) (spec.groups_in (known entities.now) persons.now (drafted persons.now members.old) (input_view input.now)) result }
{
    match input {
        Input::OnePerson(_) => Ok(()),
        Input::Sections(sections) => {
            sections_read(alloc, entities, persons, members, sections.as_slice())
        }
    }
}
