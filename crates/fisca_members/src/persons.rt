//! The persons of an input.

ghost use Rattle.std.specs.Prelude.{◌≡◌, ◌<◌, map, option_map, IfOk};
ghost use Rattle.std.specs.List.{find};
ghost use Rattle.fisca_symbols.specs.KnownEntities.{entity as known_one, entities as known};
ghost use Rattle.fisca_model.specs.Tables.{is_person as is_person_in};
ghost use Rattle.fisca_yaml.specs.Views.{node, entries_view};
ghost use Rattle.fisca_members.specs.Outcomes.{Tells};
ghost use Rattle.fisca_members.specs.Steps.Persons as spec;
ghost use Rattle.fisca_members.specs.Views.{section as section_view, input_view};

use crate::fault::{MembersFault, MembersKind};
use crate::person::Persons;
use crate::section::{Input, Section};
use crate::shapes::entries_at;
use fisca_symbols::Entity;
use fisca_yaml::{Entry, Tree};
use std::alloc::Global;

/// How many persons, and how many groups of a kind, there are at most (this project's own limit).
const MOST_MEMBERS: usize = 1000;

/// Whether there is room for one more than so many, or `TooMany` on its line.
pub(crate) fn room(line: usize, count: usize) -> Result<(), MembersFault>
    ensures told { Tells (λ _. tt) (spec.room line count) result }
    ensures fits { IfOk result (λ _. count < 1000) }
{
    if count < MOST_MEMBERS {
        Ok(())
    } else {
        Err(MembersFault {
            line,
            kind: MembersKind::TooMany,
        })
    }
}

/// The persons so far and one more, of whom a map of variables is said.
#[tactic(auto, unfolding(crate::specs::Steps::Persons::with_person))]
fn with_person<'t>(
    alloc: Global,
    persons: Persons<'t>,
    name: &'t str,
    line: usize,
    tree: &Tree<'_>,
) -> Result<Persons<'t>, MembersFault>
    ensures { Tells (λ p. p) (spec.with_person persons.entry name.now line (node tree.now)) result }
{
    room(line, persons.len())?;
    let _variables = entries_at(line, tree)?;
    Ok(persons.with(alloc, name, line)?)
}

/// The persons so far and those of a map.
fn persons_from<'t>(
    alloc: Global,
    persons: Persons<'t>,
    entries: &'t [Entry<'_>],
) -> Result<Persons<'t>, MembersFault>
    ensures { Tells (λ p. p) (spec.persons_from persons.entry (entries_view entries.now)) result }
{
    let mut found = persons;
    for entry in entries {
        found = with_person(alloc, found, entry.key.as_str(), entry.line, &entry.value)?;
    }
    Ok(found)
}

/// The persons of a section: all at their plural, of whom there has to be one, or the only one.
fn persons_of<'t>(alloc: Global, section: &Section<'t, '_>) -> Result<Persons<'t>, MembersFault>
    ensures { Tells (λ p. p) (spec.persons_of (section_view section.now)) result }
{
    let none = Persons::new(alloc);
    if !section.named.is_plural {
        return with_person(alloc, none, section.key, section.line, section.value);
    }
    let entries = entries_at(section.line, section.value)?;
    let persons = persons_from(alloc, none, entries)?;
    if persons.as_slice().is_empty() {
        return Err(MembersFault {
            line: section.line,
            kind: MembersKind::UnknownPerson,
        });
    }
    Ok(persons)
}

/// Whether the entity at a place is the persons.
pub(crate) fn is_person_at(entities: &[Entity<'_>], place: usize) -> bool
    ensures { result ≡ spec.is_person_at (known entities.now) place }
{
    match entities.get(place) {
        Some(entity) => entity.is_person,
        None => false,
    }
}

/// The section of the persons.
fn section_of_persons<'s, 't, 'a>(
    entities: &[Entity<'_>],
    sections: &'s [Section<'t, 'a>],
) -> Option<&'s Section<'t, 'a>>
    ensures { option_map (λ s. section_view s.now) result ≡ find (λ s. spec.is_person_at (known entities.now) s.named.entity) (map section_view sections.now) }
{
    for section in sections {
        if is_person_at(entities, section.named.entity) {
            return Some(section);
        }
    }
    None
}

/// The entity of persons.
fn entity_of_persons<'e, 'r>(entities: &'e [Entity<'r>]) -> Option<&'e Entity<'r>>
    ensures { option_map (λ e. known_one e.now) result ≡ find is_person_in (known entities.now) }
{
    for entity in entities {
        if entity.is_person {
            return Some(entity);
        }
    }
    None
}

/// No person at all.
fn nobody(line: usize) -> MembersFault
    ensures { result ≡ record { line = line; kind = MembersKind.UnknownPerson } }
{
    MembersFault {
        line,
        kind: MembersKind::UnknownPerson,
    }
}

/// The only person, named by the key of its entity.
fn person_alone<'t>(
    alloc: Global,
    entities: &'t [Entity<'_>],
    line: usize,
) -> Result<Persons<'t>, MembersFault>
    ensures { Tells (λ p. p) (spec.person_alone line (find is_person_in (known entities.now))) result }
{
    let Some(entity) = entity_of_persons(entities) else {
        return Err(nobody(line));
    };
    Ok(Persons::new(alloc).with(alloc, entity.key.as_str(), line)?)
}

/// The persons of sections, from top to bottom.
fn persons_among<'t>(
    alloc: Global,
    entities: &[Entity<'_>],
    line: usize,
    sections: &[Section<'t, '_>],
) -> Result<Persons<'t>, MembersFault>
    ensures { Tells (λ p. p) (spec.persons_among (known entities.now) line (map section_view sections.now)) result }
{
    match section_of_persons(entities, sections) {
        Some(section) => persons_of(alloc, section),
        None => Err(nobody(sections.first().map(|section| section.line).unwrap_or(line))),
    }
}

/// The persons of an input, whose key stands on `line`.
pub(crate) fn persons_in<'t>(
    alloc: Global,
    entities: &'t [Entity<'_>],
    line: usize,
    input: &Input<'t, '_>,
) -> Result<Persons<'t>, MembersFault>
    ensures { Tells (λ p. p) (spec.persons_in (known entities.now) line (input_view input.now)) result }
{
    match input {
        Input::OnePerson(_) => person_alone(alloc, entities, line),
        Input::Sections(sections) => persons_among(alloc, entities, line, sections.as_slice()),
    }
}
