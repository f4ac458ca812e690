//! The persons of groups, and their roles.

ghost use Rattle.std.specs.Prelude.{◌≡◌, [], ◌∷◌, ◌<◌, ◌≤◌, ◌^◌, Some, drop, length, MatchOption};
ghost use Rattle.fisca_model.specs.Groups as asking;
ghost use Rattle.fisca_model.specs.Groups.{with_role};
ghost use Rattle.fisca_groups.specs.Grouped.{grouped};
ghost use Rattle.fisca_ops.specs.Steps.Persons as spec;
ghost use Rattle.fisca_ops.specs.Persons.{first, persons_from};

use fisca_members::Members;
use fisca_model::RolePlace;

/// Whether who has this role has the one that is wanted, as `has` has it: who has a subrole has its role.
pub fn has(wanted: RolePlace, role: RolePlace) -> bool
    ensures { result ≡ asking.has wanted role }
{
    if wanted.role != role.role {
        return false;
    }
    match wanted.subrole {
        None => true,
        Some(_) => wanted.subrole == role.subrole,
    }
}

/// The role that a person has in the group of an entity; the first one where there is no such person.
pub fn role_of(members: &Members, entity: usize, person: u32) -> RolePlace
    ensures { result ≡ (grouped members.now).role_of entity person }
{
    match members.home(entity, person) {
        Some(home) => home.role,
        None => RolePlace {
            role: 0,
            subrole: None,
        },
    }
}

/// The group of an entity that a person belongs to; the first one where there is no such person.
pub fn group_of(members: &Members, entity: usize, person: u32) -> u32
    ensures { result ≡ (grouped members.now).group_of entity person }
{
    match members.home(entity, person) {
        Some(home) => home.group,
        None => 0,
    }
}

/// Whether a person has this role, or any where none is wanted.
fn is_meant(members: &Members, entity: usize, role: Option<RolePlace>, person: u32) -> bool
    ensures { result ≡ spec.is_meant (grouped members.now) entity role person }
{
    match role {
        None => true,
        Some(wanted) => has(wanted, role_of(members, entity, person)),
    }
}

/// The next of these persons that has a role, from a place on, and the place behind it; none where nobody is left.
fn next_of(
    members: &Members,
    entity: usize,
    role: Option<RolePlace>,
    persons: &[u32],
    next: usize,
) -> Option<(u32, usize)>
    ensures { MatchOption result (with_role (grouped members.now) entity role (drop next persons.now) ≡ [])
        (λ p. with_role (grouped members.now) entity role (drop next persons.now) ≡ p.0 ∷ with_role (grouped members.now) entity role (drop p.1 persons.now)) }
{
    let mut place = next;
    while place < persons.len() {
        let person = persons[place];
        place += 1;
        if is_meant(members, entity, role, person) {
            return Some((person, place));
        }
    }
    None
}

/// The next person of a group that has a role, from a place among the group's persons on, and the place behind it; none where nobody is left. With no
/// role it is any person.
pub fn next_person(
    members: &Members,
    entity: usize,
    group: u32,
    role: Option<RolePlace>,
    next: usize,
) -> Option<(u32, usize)>
    ensures { MatchOption result (persons_from (grouped members.now) entity group role next ≡ [])
        (λ p. persons_from (grouped members.now) entity group role next ≡ p.0 ∷ persons_from (grouped members.now) entity group role p.1) }
{
    let persons = members.persons(entity, group);
    next_of(members, entity, role, persons, next)
}

/// The first person of a group that has this role, where one has it.
pub fn first_of(members: &Members, entity: usize, group: u32, role: RolePlace) -> Option<u32>
    ensures { result ≡ first (persons_from (grouped members.now) entity group (Some role) 0) }
{
    match next_person(members, entity, group, Some(role), 0) {
        Some((person, _)) => Some(person),
        None => None,
    }
}

/// How many of these persons have a role.
fn count_in(members: &Members, entity: usize, wanted: RolePlace, persons: &[u32]) -> usize
    ensures value { result ≡ length (with_role (grouped members.now) entity (Some wanted) persons.now) }
    ensures most { result ≤ length persons.now }
{
    let mut count = 0;
    for person in persons {
        if has(wanted, role_of(members, entity, *person)) {
            count += 1;
        }
    }
    count
}

/// How many persons of a group have a role, or how many there are.
pub fn count_of(members: &Members, entity: usize, group: u32, role: Option<RolePlace>) -> usize
    ensures value { result ≡ length (persons_from (grouped members.now) entity group role 0) }
    ensures most { result < 2 ^ 63 }
{
    let persons = members.persons(entity, group);
    match role {
        None => persons.len(),
        Some(wanted) => count_in(members, entity, wanted, persons),
    }
}
