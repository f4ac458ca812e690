//! Names behind the formula's first argument.
ghost use Rattle.std.specs.Prelude.{◌≡◌, option_map};
ghost use Rattle.fisca_check.specs.Views.{names as names_of};
ghost use Rattle.fisca_ast.specs.Outcomes.{Gives};
ghost use Rattle.fisca_ir.specs.Views.{relation as relation_of, thing};
ghost use Rattle.fisca_symbols.specs.Known.{tables as tables_of};
ghost use Rattle.fisca_typing.specs.Asks as spec;

use crate::scope::FormulaScope;
use fisca_ast::FormulaKind;
use fisca_ir::{Relation, Thing};
use fisca_model::RolePlace;
use fisca_symbols::Tables;
use fisca_typing::{Method, Total, Whom};

/// The place of the persons' entity; behind all where there is none.
fn person_place(tables: &Tables) -> usize
    ensures { result ≡ spec.person_place (tables_of tables.now) }
{
    match tables.entities.person() {
        Some(place) => place,
        None => tables.entities.as_slice().len(),
    }
}

/// To a group of a person.
fn to_group(entity: usize) -> Relation
    ensures { relation_of result ≡ spec.to_group entity }
{
    Relation {
        whom: Whom::Group(entity),
        entity,
    }
}

/// To the one person of a group with a role.
fn to_holder(tables: &Tables, role: RolePlace) -> Relation
    ensures { relation_of result ≡ spec.to_holder (tables_of tables.now) role }
{
    Relation {
        whom: Whom::Holder(role),
        entity: person_place(tables),
    }
}

/// To each person of a group.
pub fn to_person(tables: &Tables) -> Relation
    ensures { relation_of result ≡ spec.to_person (tables_of tables.now) }
{
    Relation {
        whom: Whom::Person,
        entity: person_place(tables),
    }
}

/// To the member whose formula it is.
pub fn to_self(entity: usize) -> Relation
    ensures { relation_of result ≡ spec.to_self entity }
{
    Relation {
        whom: Whom::Own,
        entity,
    }
}

/// Whom a name behind the first argument leads to: of a person a group, of a group a role that one person at most has.
fn relation_named(names: &FormulaScope, name: &str) -> Option<Relation>
    ensures { option_map relation_of result ≡ spec.relation_named (names_of names.now) name.now }
{
    let tables = names.tables;
    if tables.is_person_at(names.entity) {
        return match tables.entities.group_of_key(name) {
            Some(place) => Some(to_group(place)),
            None => None,
        };
    }
    if name == "members" {
        return None;
    }
    match tables.single_of_key(names.entity, name) {
        Some(role) => Some(to_holder(tables, role)),
        None => None,
    }
}

/// A function of a group.
#[tactic(auto, unfolding(fisca_typing::specs::Asks::group_method))]
fn group_method(name: &[u8]) -> Option<Method>
    ensures { result ≡ spec.group_method name.now }
{
    if name == b"members".as_slice() {
        Some(Method::Members)
    } else if name == b"sum".as_slice() {
        Some(Method::Total(Total::Sum))
    } else if name == b"min".as_slice() {
        Some(Method::Total(Total::Min))
    } else if name == b"max".as_slice() {
        Some(Method::Total(Total::Max))
    } else if name == b"any".as_slice() {
        Some(Method::Total(Total::Any))
    } else if name == b"all".as_slice() {
        Some(Method::Total(Total::All))
    } else if name == b"nb_persons".as_slice() {
        Some(Method::Count)
    } else {
        None
    }
}

/// A function of a person.
#[tactic(auto, unfolding(fisca_typing::specs::Asks::person_method))]
fn person_method(name: &[u8]) -> Option<Method>
    ensures { result ≡ spec.person_method name.now }
{
    if name == b"has_role".as_slice() {
        Some(Method::HasRole)
    } else {
        None
    }
}

/// The function of the formula's entity with this name.
fn method_named(names: &FormulaScope, name: &[u8]) -> Option<Method>
    ensures { result ≡ spec.method_named (names_of names.now) name.now }
{
    if names.tables.is_person_at(names.entity) {
        person_method(name)
    } else {
        group_method(name)
    }
}

/// The entity of the group that a name leads to, if it leads to one.
fn group_led_to(relation: Option<Relation>) -> Option<usize>
    ensures { result ≡ spec.group_led_to (option_map relation_of relation) }
{
    match relation {
        None => None,
        Some(led) => match led.whom {
            Whom::Group(entity) => Some(entity),
            Whom::Own | Whom::Person | Whom::Holder(_) => None,
        },
    }
}

/// `nb_persons` behind a name that leads to a group, or `BadType`.
fn count_behind(name: &[u8], group: Option<usize>) -> Result<Thing, FormulaKind>
    ensures { Gives thing (spec.count_behind name.now group) result }
{
    match group {
        Some(entity) if name == b"nb_persons".as_slice() => { Ok(Thing::GroupCount(entity)) }
        _ => Err(FormulaKind::BadType),
    }
}

/// What a name stands for behind a name behind the formula's first argument, or `BadType`: `members.has_role` of a group,
/// `GROUP.nb_persons` of a person. These are additions of this project.
pub fn method_attribute(
    name: &[u8],
    method: Option<Method>,
    relation: Option<Relation>,
) -> Result<Thing, FormulaKind>
    ensures { Gives thing (spec.method_attribute name.now method (option_map relation_of relation)) result }
{
    if !matches!(method, Some(Method::Members)) {
        return count_behind(name, group_led_to(relation));
    }
    if name == b"has_role".as_slice() {
        Ok(Thing::Method(Some(Method::EachHasRole), None))
    } else {
        Err(FormulaKind::BadType)
    }
}

/// What a name behind the formula's first argument stands for, or `UnknownName`.
pub fn asker_attribute(names: &FormulaScope, name: &str) -> Result<Thing, FormulaKind>
    ensures { Gives thing (spec.asker_attribute (names_of names.now) name.now) result }
{
    match (
        method_named(names, name.as_bytes()),
        relation_named(names, name),
    ) {
        (None, None) => Err(FormulaKind::UnknownName),
        (method, relation) => Ok(Thing::Method(method, relation)),
    }
}
