//! What is said of all members.

ghost use Rattle.std.specs.Prelude.{◌≡◌, [], map, option_map, slice_get, None};
ghost use Rattle.fisca_inputs.specs.Outcomes.{Tells};
ghost use Rattle.fisca_members.specs.Faults.{entries_in};
ghost use Rattle.fisca_members.specs.Views.{section as section_view, input_view};
ghost use Rattle.fisca_symbols.specs.KnownEntities.{entity as known_one, entities as known_all};
ghost use Rattle.fisca_symbols.specs.KnownRoles.{roles as known_roles};
ghost use Rattle.fisca_yaml.specs.Views.{node, entries_view};
ghost use Rattle.fisca_situations.specs.Steps.Reading as spec;

use crate::given::fault_at;
use crate::given_inputs::GivenInputs;
use crate::variables::member_given;
use fisca_inputs::{SituationFault, SituationKind};
use fisca_members::{Input, RoleTable, Section};
use fisca_symbols::{Entity, Roles, Tables};
use fisca_time::Period;
use fisca_yaml::{Entry, Tree};
use std::alloc::Global;

/// How many members an entity has at most (this project's own limit).
const MOST_MEMBERS: usize = 1000;

/// The inputs so far and what is said of the member at a place, whose name stands on `line`.
#[tactic(auto, unfolding(crate::specs::Steps::Reading::member_below))]
fn member_below(
    tables: &Tables<'_>,
    default: Option<Period>,
    entity: usize,
    roles: &RoleTable<'_, '_>,
    member: usize,
    given: GivenInputs,
    line: usize,
    tree: &Tree<'_>,
) -> Result<GivenInputs, SituationFault>
    ensures { Tells (λ g. g) (spec.member_below tables.now default entity roles.now member given line (entries_in (node tree.now))) result }
{
    if member >= MOST_MEMBERS {
        return Err(fault_at(line, SituationKind::TooMany));
    }
    match tree {
        Tree::Map(entries) => {
            let place = member as u32;
            member_given(
                tables,
                &default,
                Some(entity),
                place,
                roles,
                given,
                entries.as_slice(),
            )
        }
        Tree::Null | Tree::Scalar { .. } | Tree::List(_) => Ok(given),
    }
}

/// The inputs so far and what is said of the members of a map.
fn members_given(
    tables: &Tables<'_>,
    default: &Option<Period>,
    entity: usize,
    roles: &RoleTable<'_, '_>,
    given: GivenInputs,
    entries: &[Entry<'_>],
) -> Result<GivenInputs, SituationFault>
    ensures { Tells (λ g. g) (spec.members_given tables.now default.now entity roles.now 0 given (entries_view entries.now)) result }
{
    let mut found = given;
    for (member, entry) in entries.iter().enumerate() {
        found = member_below(
            tables,
            *default,
            entity,
            roles,
            member,
            found,
            entry.line,
            &entry.value,
        )?;
    }
    Ok(found)
}

/// The inputs so far and what is said in a section of an entity with these roles.
#[tactic(auto, unfolding(crate::specs::Steps::Reading::section_by))]
fn section_by(
    tables: &Tables<'_>,
    default: Option<Period>,
    given: GivenInputs,
    section: &Section<'_, '_>,
    roles: &Roles<'_>,
) -> Result<GivenInputs, SituationFault>
    ensures { Tells (λ g. g) (spec.section_by tables.now default given (section_view section.now) (known_roles roles.now)) result }
{
    let table = RoleTable::new(roles);
    let entity = section.named.entity;
    if !section.named.is_plural {
        return member_below(
            tables,
            default,
            entity,
            &table,
            0,
            given,
            section.line,
            section.value,
        );
    }
    match section.value {
        Tree::Map(entries) => {
            members_given(tables, &default, entity, &table, given, entries.as_slice())
        }
        Tree::Null | Tree::Scalar { .. } | Tree::List(_) => Ok(given),
    }
}

/// The entity at a place.
fn entity_at<'e, 'r>(entities: &'e [Entity<'r>], place: usize) -> Option<&'e Entity<'r>>
    ensures { option_map (λ e. known_one e.now) result ≡ slice_get (known_all entities.now) place }
{
    entities.get(place)
}

/// The inputs so far and what is said in a section.
#[tactic(auto, unfolding(crate::specs::Steps::Reading::section_given))]
fn section_given(
    tables: &Tables<'_>,
    default: Option<Period>,
    given: GivenInputs,
    section: &Section<'_, '_>,
) -> Result<GivenInputs, SituationFault>
    ensures { Tells (λ g. g) (spec.section_given tables.now default given (section_view section.now)) result }
{
    let Some(entity) = entity_at(tables.entities.as_slice(), section.named.entity) else {
        return Ok(given);
    };
    section_by(tables, default, given, section, &entity.roles)
}

/// The inputs so far and what is said in sections, from top to bottom.
fn sections_given(
    tables: &Tables<'_>,
    default: &Option<Period>,
    given: GivenInputs,
    sections: &[Section<'_, '_>],
) -> Result<GivenInputs, SituationFault>
    ensures { Tells (λ g. g) (spec.sections_given tables.now default.now given (map section_view sections.now)) result }
{
    let mut found = given;
    for section in sections {
        found = section_given(tables, *default, found, section)?;
    }
    Ok(found)
}

/// What is said of one person alone.
fn alone_given(
    alloc: Global,
    tables: &Tables<'_>,
    default: Option<Period>,
    tree: &Tree<'_>,
) -> Result<GivenInputs, SituationFault>
    ensures { Tells (λ g. g) (spec.member_given tables.now default None 0 [] [] (entries_in (node tree.now))) result }
{
    let given = GivenInputs::new(alloc);
    let none = RoleTable::none();
    match tree {
        Tree::Map(entries) => {
            member_given(tables, &default, None, 0, &none, given, entries.as_slice())
        }
        Tree::Null | Tree::Scalar { .. } | Tree::List(_) => Ok(given),
    }
}

/// All inputs, as they are given.
#[tactic(auto, unfolding(crate::specs::Steps::Reading::inputs_given))]
pub(crate) fn inputs_given(
    alloc: Global,
    tables: &Tables<'_>,
    default: Option<Period>,
    input: &Input<'_, '_>,
) -> Result<GivenInputs, SituationFault>
    ensures { Tells (λ g. g) (spec.inputs_given tables.now default (input_view input.now)) result }
{
    match input {
        Input::OnePerson(tree) => alone_given(alloc, tables, default, tree),
        Input::Sections(sections) => {
            let none = GivenInputs::new(alloc);
            sections_given(tables, &default, none, sections.as_slice())
        }
    }
}
