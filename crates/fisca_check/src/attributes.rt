//! Names behind a point.
ghost use Rattle.std.specs.Prelude.{◌≡◌};
ghost use Rattle.fisca_check.specs.Views.{names as names_of};
ghost use Rattle.fisca_ast.specs.Outcomes.{Gives};
ghost use Rattle.fisca_ir.specs.Views.{thing as thing_of};
ghost use Rattle.fisca_symbols.specs.Known.{tables as tables_of};
ghost use Rattle.fisca_typing.specs.Typing as spec;

use crate::methods::{asker_attribute, method_attribute};
use crate::names::library_function;
use crate::scope::FormulaScope;
use fisca_ast::FormulaKind;
use fisca_check_calls::{node_attribute, scale_attribute};
use fisca_ir::{Node, Thing, Typed, period_attribute, start_attribute};
use fisca_model::ValueType;
use fisca_symbols::Tables;
use fisca_typing::Level;
use std::alloc::Global;

/// A member of an Enum, or `UnknownName`.
fn member_thing(tables: &Tables, choices: usize, name: &str) -> Result<Thing, FormulaKind>
    ensures { Gives thing_of (spec.member_thing (tables_of tables.now) choices name.now) result }
{
    match tables.member_named(choices, name) {
        Some(place) => Ok(Thing::Value(Typed {
            value_type: ValueType::Enum(choices),
            level: Level::Constant,
            node: Node::Member(choices, place),
        })),
        None => Err(FormulaKind::UnknownName),
    }
}

/// `.possible_values` behind a member of an Enum, or `UnknownName`; `BadType` behind a number or a bool.
fn value_attribute(name: &[u8], value_type: ValueType) -> Result<Thing, FormulaKind>
    ensures { Gives thing_of (spec.value_attribute name.now value_type) result }
{
    match value_type {
        ValueType::Number | ValueType::Bool => Err(FormulaKind::BadType),
        ValueType::Enum(choices) => {
            if name == b"possible_values".as_slice() {
                Ok(Thing::Choices(choices))
            } else {
                Err(FormulaKind::UnknownName)
            }
        }
    }
}

/// A role of an entity by its constant, or `UnknownName`.
fn role_thing(tables: &Tables, entity: usize, name: &str) -> Result<Thing, FormulaKind>
    ensures { Gives thing_of (spec.role_thing (tables_of tables.now) entity name.now) result }
{
    match tables.role_of_constant(entity, name) {
        Some(role) => Ok(Thing::Role(entity, role)),
        None => Err(FormulaKind::UnknownName),
    }
}

/// What a name behind a point stands for: `UnknownName`, `UnknownParameter`, or `BadType` behind what has no names.
pub fn attribute_of(
    alloc: Global,
    names: &FormulaScope,
    name: &str,
    thing: Thing,
) -> Result<Thing, FormulaKind>
    ensures { Gives thing_of (spec.attribute_of (names_of names.now) name.now (thing_of thing)) result }
{
    let bytes = name.as_bytes();
    match thing {
        Thing::Value(value) => value_attribute(bytes, value.value_type),
        Thing::Period(moves) => period_attribute(alloc, bytes, moves),
        Thing::Start(moves) => start_attribute(alloc, bytes, &moves),
        Thing::Nodes(chosen) => {
            node_attribute(alloc, &names.tables.parameters, bytes, chosen.as_ref())
        }
        Thing::Scale(place, moves) => scale_attribute(bytes, place, moves),
        Thing::Enumeration(choices) => member_thing(names.tables, choices, name),
        Thing::Choices(choices) => member_thing(names.tables, choices, name),
        Thing::Entity(entity) => role_thing(names.tables, entity, name),
        Thing::Asker => asker_attribute(names, name),
        Thing::Method(method, relation) => method_attribute(bytes, method, relation),
        Thing::Library => library_function(bytes),
        Thing::Offset(_)
        | Thing::Reader
        | Thing::Calculation(..)
        | Thing::Role(..)
        | Thing::GroupCount(_)
        | Thing::Function(_)
        | Thing::Asking(_)
        | Thing::Text(_)
        | Thing::Listed(_) => Err(FormulaKind::BadType),
    }
}
