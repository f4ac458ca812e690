//! The groups of a section.

ghost use Rattle.std.specs.Prelude.{◌≡◌, length};
ghost use Rattle.fisca_symbols.specs.KnownRoles.{roles as known_roles};
ghost use Rattle.fisca_yaml.specs.Views.{node, entries_view};
ghost use Rattle.fisca_members.specs.Steps.Groups as spec;
ghost use Rattle.fisca_members.specs.Outcomes.{Leaves};
ghost use Rattle.fisca_members.specs.Views.{section as section_view};

use crate::fault::MembersFault;
use crate::holders::{Post, role_given};
use crate::person::Persons;
use crate::persons::room;
use crate::role_table::RoleTable;
use crate::section::Section;
use crate::shapes::entries_at;
use fisca_groups::{EntityMembers, Homes};
use fisca_symbols::Roles;
use fisca_yaml::{Entry, Tree};
use std::alloc::Global;

/// A role of a group, at a key on `line`; a key that names no role is of a variable.
fn role_at(
    roles: &RoleTable<'_, '_>,
    persons: &Persons<'_>,
    group: u32,
    homes: &mut Homes,
    line: usize,
    tree: &Tree<'_>,
    place: Option<usize>,
) -> Result<(), MembersFault>
    ensures { Leaves homes.new (spec.role_at roles.now persons.now group homes.old line (node tree.now) place) result }
{
    let Some(place) = place else {
        return Ok(());
    };
    let Some(role) = roles.get(place) else {
        return Ok(());
    };
    let post = Post { group, place, role };
    role_given(persons, post, homes, line, tree)
}

/// The roles of a group, from top to bottom.
fn roles_from(
    roles: &RoleTable<'_, '_>,
    persons: &Persons<'_>,
    group: u32,
    homes: &mut Homes,
    entries: &[Entry<'_>],
) -> Result<(), MembersFault>
    ensures { Leaves homes.new (spec.roles_from roles.now persons.now group homes.old (entries_view entries.now)) result }
{
    for entry in entries {
        let place = roles.of_name(entry.key.as_str());
        role_at(
            roles,
            persons,
            group,
            homes,
            entry.line,
            &entry.value,
            place,
        )?;
    }
    Ok(())
}

/// The groups so far, and one more.
fn with_group(
    alloc: Global,
    roles: &RoleTable<'_, '_>,
    persons: &Persons<'_>,
    groups: &mut EntityMembers,
    name: &str,
    line: usize,
    tree: &Tree<'_>,
) -> Result<(), MembersFault>
    ensures { Leaves groups.new (spec.with_group roles.now persons.now groups.old name.now line (node tree.now)) result }
{
    let count = groups.names.len();
    room(line, count)?;
    let entries = entries_at(line, tree)?;
    roles_from(roles, persons, count as u32, &mut groups.homes, entries)?;
    groups.names.push(alloc, name)?;
    Ok(())
}

/// The groups so far, and those of a map.
fn groups_from(
    alloc: Global,
    roles: &RoleTable<'_, '_>,
    persons: &Persons<'_>,
    groups: &mut EntityMembers,
    entries: &[Entry<'_>],
) -> Result<(), MembersFault>
    ensures { Leaves groups.new (spec.groups_from roles.now persons.now groups.old (entries_view entries.now)) result }
{
    for entry in entries {
        let name = entry.key.as_str();
        with_group(
            alloc,
            roles,
            persons,
            groups,
            name,
            entry.line,
            &entry.value,
        )?;
    }
    Ok(())
}

/// The groups so far, and those of a section: all at their plural, or the only one.
fn groups_of(
    alloc: Global,
    roles: &RoleTable<'_, '_>,
    persons: &Persons<'_>,
    groups: &mut EntityMembers,
    section: &Section<'_, '_>,
) -> Result<(), MembersFault>
    ensures { Leaves groups.new (spec.groups_of roles.now persons.now groups.old (section_view section.now)) result }
{
    if !section.named.is_plural {
        return with_group(
            alloc,
            roles,
            persons,
            groups,
            section.key,
            section.line,
            section.value,
        );
    }
    let entries = entries_at(section.line, section.value)?;
    groups_from(alloc, roles, persons, groups, entries)
}

/// The same of a section of groups with these roles.
pub(crate) fn groups_at(
    alloc: Global,
    roles: &Roles<'_>,
    persons: &Persons<'_>,
    groups: &mut EntityMembers,
    section: &Section<'_, '_>,
) -> Result<(), MembersFault>
    ensures { Leaves groups.new (spec.groups_of (known_roles roles.now) persons.now groups.old (section_view section.now)) result }
{
    let table = RoleTable::new(roles);
    groups_of(alloc, &table, persons, groups, section)
}
