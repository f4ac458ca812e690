//! Roles, and what the persons of a group come to.
ghost use Rattle.std.specs.Prelude.{◌≡◌};
ghost use Rattle.fisca_check_calls.specs.Arguments.{positions as positions_view};
ghost use Rattle.fisca_check.specs.Questions.{count_of};
ghost use Rattle.fisca_check.specs.Steps.Questions.{role_given as role_view};
ghost use Rattle.fisca_ast.specs.Outcomes.{Gives};
ghost use Rattle.fisca_ir.specs.Views.{thing as thing_of};
ghost use Rattle.fisca_typing.specs.Asks as spec;

use fisca_ast::FormulaKind;
use fisca_check_calls::{Positions, alone, single};
use fisca_ir::{
    Thing, Typed, count, has_role, is_bool, is_numeric, is_of_members, role_of,
    total as total_node, value_of,
};
use fisca_model::{RolePlace, ValueType};
use fisca_typing::{Level, Total};
use std::alloc::Global;

/// A role of this entity, or `BadType`.
fn role_in(entity: usize, thing: &Thing) -> Result<Option<RolePlace>, FormulaKind>
    ensures { Gives (λ r. r) (spec.role_in entity (thing_of thing.now)) result }
{
    let (place, role) = role_of(thing)?;
    if place == entity {
        Ok(Some(role))
    } else {
        Err(FormulaKind::BadType)
    }
}

/// `has_role(role)` of one person or of each person of the group, or `BadType`.
pub fn has_role_by(alloc: Global, level: Level, positions: Positions) -> Result<Thing, FormulaKind>
    ensures { Gives thing_of (spec.has_role_by level (positions_view positions.entry)) result }
{
    let argument = alone(positions)?;
    let (entity, role) = role_of(&argument.thing)?;
    Ok(Thing::Value(Typed {
        value_type: ValueType::Bool,
        level,
        node: has_role(alloc, entity, role)?,
    }))
}

/// How many persons of a group of this entity there are, or have a role.
fn counted(alloc: Global, entity: usize, role: Option<RolePlace>) -> Result<Thing, FormulaKind>
    ensures { Gives thing_of (count_of entity role) result }
{
    Ok(Thing::Value(Typed {
        value_type: ValueType::Number,
        level: Level::Own,
        node: count(alloc, entity, role)?,
    }))
}

/// `nb_persons()` or `nb_persons(role)` of a group of this entity, or `BadType`.
pub fn count_by(alloc: Global, entity: usize, positions: &Positions) -> Result<Thing, FormulaKind>
    ensures { Gives thing_of (spec.count_by entity (positions_view positions.now)) result }
{
    let Positions::ByPosition(arguments) = positions else {
        return Err(FormulaKind::BadType);
    };
    match arguments.as_slice() {
        [] => counted(alloc, entity, None),
        [only] => counted(alloc, entity, role_in(entity, &only.thing)?),
        [_, _, ..] => Err(FormulaKind::BadType),
    }
}

/// Whether a total is taken of values of a type.
fn takes(total: Total, value_type: ValueType) -> bool
    ensures { result ≡ spec.takes total value_type }
{
    match total {
        Total::Sum | Total::Min | Total::Max => is_numeric(value_type),
        Total::Any | Total::All => is_bool(value_type),
    }
}

/// The type of a total.
fn gives(total: Total) -> ValueType
    ensures { result ≡ spec.gives total }
{
    match total {
        Total::Sum | Total::Min | Total::Max => ValueType::Number,
        Total::Any | Total::All => ValueType::Bool,
    }
}

/// A role, and the keyword that it stands behind.
type GivenRole<'t> = Option<(&'t [u8], Thing)>;

/// The role behind `role`, if one is given; or `BadType`.
fn role_given(entity: usize, role: &GivenRole) -> Result<Option<RolePlace>, FormulaKind>
    ensures { Gives (λ r. r) (role_view entity role.now) result }
{
    match role {
        None => Ok(None),
        Some((keyword, thing)) if *keyword == b"role".as_slice() => role_in(entity, thing),
        Some(_) => Err(FormulaKind::BadType),
    }
}

/// A total of values of the persons, or of those with a role: `BadType` for the values, else the role's fault, else
/// `BadLevel` where they are no values of the persons.
fn total_of(
    alloc: Global,
    entity: usize,
    total: Total,
    thing: Thing,
    role: &GivenRole,
) -> Result<Thing, FormulaKind>
    ensures { Gives thing_of (spec.total_of total (thing_of thing) (role_view entity role.now)) result }
{
    let value = value_of(thing)?;
    if !takes(total, value.value_type) {
        return Err(FormulaKind::BadType);
    }
    let place = role_given(entity, role)?;
    if !is_of_members(value.level) {
        return Err(FormulaKind::BadLevel);
    }
    Ok(Thing::Value(Typed {
        value_type: gives(total),
        level: Level::Own,
        node: total_node(alloc, total, place, value.node)?,
    }))
}

/// `sum(values)` and its kin, perhaps with `role=role`; or `BadType`, else `BadLevel`.
#[tactic(auto, using(crate::proofs::Shapes::total_alone, crate::proofs::Shapes::total_role))]
pub fn total_by(
    alloc: Global,
    entity: usize,
    total: Total,
    positions: Positions,
) -> Result<Thing, FormulaKind>
    ensures { Gives thing_of (spec.total_by entity total (positions_view positions.entry)) result }
{
    match positions {
        Positions::ByPosition(arguments) => {
            let values = single(arguments)?;
            total_of(alloc, entity, total, values.thing, &None)
        }
        Positions::AndKeyword(arguments, keyword, thing) => {
            let values = single(arguments)?;
            total_of(alloc, entity, total, values.thing, &Some((keyword, thing)))
        }
        Positions::MoreKeywords => Err(FormulaKind::BadType),
    }
}
