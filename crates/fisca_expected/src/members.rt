//! What is expected of members of entities.

ghost use Rattle.std.specs.Prelude.{◌≡◌, ℕ, List, map, option_map, slice_get, Some};
ghost use Rattle.std.specs.Str.{bytes_eq};
ghost use Rattle.fisca_members.specs.Views.{section as section_view};
ghost use Rattle.fisca_situations.specs.Steps.Views.{situation as situation_view};
ghost use Rattle.fisca_symbols.specs.KnownEntities.{entity as known_one, entities as known_all};
ghost use Rattle.fisca_symbols.specs.KnownRoles.{roles as known_roles};
ghost use Rattle.fisca_model.specs.Tables.{place_in};
ghost use Rattle.fisca_yaml.specs.Views.{node, entries_view};
ghost use Rattle.fisca_expected.specs.Outcomes.{Tells};
ghost use Rattle.fisca_expected.specs.Steps.Reading as spec;

use crate::entries::map_read;
use crate::fault::{OutputFault, bad};
use crate::member_scope::MemberScope;
use crate::outputs::Outputs;
use fisca_members::{MemberNames, RoleTable, Section};
use fisca_situations::Situation;
use fisca_symbols::{Entity, Roles, Tables};
use fisca_time::Period;
use fisca_yaml::{Entry, Tree};

/// Whether the name at a place is this one.
fn is_at(names: &MemberNames, place: usize, name: &str) -> bool
    ensures { (k : List ℕ) → slice_get names.now place ≡ Some k → result ≡ bytes_eq k name.now }
{
    match names.get(place) {
        Some(found) => found == name,
        None => false,
    }
}

/// The first place of a name.
fn place_among(names: &MemberNames, name: &str) -> Option<u32>
    ensures { result ≡ place_in (λ k. bytes_eq k name.now) names.now }
{
    for place in 0..names.len() {
        if is_at(names, place, name) {
            return Some(place as u32);
        }
    }
    None
}

/// The place of the first member of this name.
fn member_named(situation: &Situation, entity: usize, name: &str) -> Option<u32>
    ensures { result ≡ spec.member_named (situation_view situation.now).members entity name.now }
{
    match situation.members.names(entity) {
        Some(names) => place_among(names, name),
        None => None,
    }
}

/// The place of the only member.
fn only_member(situation: &Situation, entity: usize) -> Option<u32>
    ensures { result ≡ spec.only_member (situation_view situation.now).members entity }
{
    if situation.members(entity) == 1 {
        Some(0)
    } else {
        None
    }
}

/// The outputs so far, and those of a member, where there is one.
#[tactic(auto, unfolding(crate::specs::Steps::Reading::member_read))]
fn member_read(
    tables: &Tables<'_>,
    situation: &Situation,
    default: Option<Period>,
    entity: usize,
    roles: &RoleTable<'_, '_>,
    outputs: Outputs,
    line: usize,
    tree: &Tree<'_>,
    member: Option<u32>,
) -> Result<Outputs, OutputFault>
    ensures { Tells (λ o. o) (spec.member_read tables.now (situation_view situation.now).members default entity roles.now outputs line (node tree.now) member) result }
{
    let Some(member) = member else {
        return Err(OutputFault::BadOutput { line });
    };
    let scope = MemberScope::Member { entity, member };
    map_read(
        tables, situation, default, scope, roles, outputs, line, tree,
    )
}

/// The outputs so far, and those of the members that entries name.
fn members_read(
    tables: &Tables<'_>,
    situation: &Situation,
    default: &Option<Period>,
    entity: usize,
    roles: &RoleTable<'_, '_>,
    outputs: Outputs,
    entries: &[Entry<'_>],
) -> Result<Outputs, OutputFault>
    ensures { Tells (λ o. o) (spec.members_read tables.now (situation_view situation.now).members default.now entity roles.now outputs (entries_view entries.now)) result }
{
    let mut found = outputs;
    for entry in entries {
        let member = member_named(situation, entity, entry.key.as_str());
        found = member_read(
            tables,
            situation,
            *default,
            entity,
            roles,
            found,
            entry.line,
            &entry.value,
            member,
        )?;
    }
    Ok(found)
}

/// The outputs so far, and those of a map of members, whose key stands on `line`.
fn all_members(
    tables: &Tables<'_>,
    situation: &Situation,
    default: Option<Period>,
    entity: usize,
    roles: &RoleTable<'_, '_>,
    outputs: Outputs,
    line: usize,
    tree: &Tree<'_>,
) -> Result<Outputs, OutputFault>
    ensures { Tells (λ o. o) (spec.all_members tables.now (situation_view situation.now).members default entity roles.now outputs line (node tree.now)) result }
{
    match tree {
        Tree::Map(entries) => members_read(
            tables,
            situation,
            &default,
            entity,
            roles,
            outputs,
            entries.as_slice(),
        ),
        Tree::Null | Tree::Scalar { .. } | Tree::List(_) => Err(bad(line, tree)),
    }
}

/// The outputs so far, and those of a section of an entity with these roles.
#[tactic(auto, unfolding(crate::specs::Steps::Reading::section_by))]
fn section_by(
    tables: &Tables<'_>,
    situation: &Situation,
    default: Option<Period>,
    outputs: Outputs,
    section: &Section<'_, '_>,
    roles: &Roles<'_>,
) -> Result<Outputs, OutputFault>
    ensures { Tells (λ o. o) (spec.section_by tables.now (situation_view situation.now).members default outputs (section_view section.now) (known_roles roles.now)) result }
{
    let table = RoleTable::new(roles);
    let entity = section.named.entity;
    let line = section.line;
    let tree = section.value;
    if section.named.is_plural {
        return all_members(
            tables, situation, default, entity, &table, outputs, line, tree,
        );
    }
    let member = only_member(situation, entity);
    member_read(
        tables, situation, default, entity, &table, outputs, line, tree, member,
    )
}

/// The entity at a place.
fn entity_at<'e, 'r>(entities: &'e [Entity<'r>], place: usize) -> Option<&'e Entity<'r>>
    ensures { option_map (λ e. known_one e.now) result ≡ slice_get (known_all entities.now) place }
{
    entities.get(place)
}

/// The outputs so far, and those of a section.
#[tactic(auto, unfolding(crate::specs::Steps::Reading::section_read))]
fn section_read(
    tables: &Tables<'_>,
    situation: &Situation,
    default: Option<Period>,
    outputs: Outputs,
    section: &Section<'_, '_>,
) -> Result<Outputs, OutputFault>
    ensures { Tells (λ o. o) (spec.section_read tables.now (situation_view situation.now).members default outputs (section_view section.now)) result }
{
    let Some(entity) = entity_at(tables.entities.as_slice(), section.named.entity) else {
        return Ok(outputs);
    };
    section_by(tables, situation, default, outputs, section, &entity.roles)
}

/// The outputs so far, and those of sections from top to bottom.
pub(crate) fn sections_read(
    tables: &Tables<'_>,
    situation: &Situation,
    default: &Option<Period>,
    outputs: Outputs,
    sections: &[Section<'_, '_>],
) -> Result<Outputs, OutputFault>
    ensures { Tells (λ o. o) (spec.sections_read tables.now (situation_view situation.now).members default.now outputs (map section_view sections.now)) result }
{
    let mut found = outputs;
    for section in sections {
        found = section_read(tables, situation, *default, found, section)?;
    }
    Ok(found)
}
