//! What the names in a formula stand for.
ghost use Rattle.std.specs.Prelude.{◌≡◌, Option, option_map};
ghost use Rattle.fisca_check.specs.Views.{names as names_of, other_name};
ghost use Rattle.fisca_ast.specs.Outcomes.{Gives};
ghost use Rattle.fisca_ir.specs.Views.{thing};
ghost use Rattle.fisca_symbols.specs.Known.{tables as tables_of};
ghost use Rattle.fisca_typing.specs.Names as spec;

use crate::scope::FormulaScope;
use fisca_ast::FormulaKind;
use fisca_ir::{Moves, Node, Thing, Typed};
use fisca_model::ValueType;
use fisca_symbols::Tables;
use fisca_typing::{Asking, Function, Level};

/// What the name of an argument of the formula stands for.
fn argument_named(names: &FormulaScope, name: &[u8]) -> Option<Thing>
    ensures { option_map thing result ≡ spec.argument_named (names_of names.now) name.now }
{
    if names.asker_name == name {
        return Some(Thing::Asker);
    }
    if names.period_name == name {
        return Some(Thing::Period(Moves::none()));
    }
    match names.reader_name {
        Some(reader) if reader == name => Some(Thing::Reader),
        _ => None,
    }
}

/// `True` or `False`.
fn constant_bool(truth: bool) -> Thing
    ensures { thing result ≡ spec.constant_bool truth }
{
    Thing::Value(Typed {
        value_type: ValueType::Bool,
        level: Level::Constant,
        node: Node::Truth(truth),
    })
}

/// What a word of the language stands for.
#[tactic(auto, unfolding(fisca_typing::specs::Names::known_word))]
fn known_word(name: &[u8]) -> Option<Thing>
    ensures { option_map thing result ≡ spec.known_word name.now }
{
    if name == b"True".as_slice() {
        Some(constant_bool(true))
    } else if name == b"False".as_slice() {
        Some(constant_bool(false))
    } else if name == b"where".as_slice() {
        Some(Thing::Function(Function::Where))
    } else if name == b"select".as_slice() {
        Some(Thing::Function(Function::Select))
    } else if name == b"min_".as_slice() {
        Some(Thing::Function(Function::Min))
    } else if name == b"max_".as_slice() {
        Some(Thing::Function(Function::Max))
    } else if name == b"not_".as_slice() {
        Some(Thing::Function(Function::Not))
    } else if name == b"np".as_slice() {
        Some(Thing::Library)
    } else if name == b"numpy".as_slice() {
        Some(Thing::Library)
    } else if name == b"ADD".as_slice() {
        Some(Thing::Asking(Asking::Add))
    } else if name == b"DIVIDE".as_slice() {
        Some(Thing::Asking(Asking::Divide))
    } else {
        None
    }
}

/// What the name of a function stands for that this project adds.
#[tactic(auto, unfolding(fisca_typing::specs::Names::added_word))]
fn added_word(name: &[u8]) -> Option<Thing>
    ensures { option_map thing result ≡ spec.added_word name.now }
{
    if name == b"round_".as_slice() {
        Some(Thing::Function(Function::Round))
    } else if name == b"floor".as_slice() {
        Some(Thing::Function(Function::Floor))
    } else if name == b"ceil".as_slice() {
        Some(Thing::Function(Function::Ceil))
    } else if name == b"abs_".as_slice() {
        Some(Thing::Function(Function::Absolute))
    } else if name == b"clip".as_slice() {
        Some(Thing::Function(Function::Clip))
    } else {
        None
    }
}

/// What a name behind `np` or `numpy` stands for that this project adds, or `UnknownName`.
#[tactic(auto, unfolding(fisca_typing::specs::Names::added_function))]
fn added_function(name: &[u8]) -> Result<Thing, FormulaKind>
    ensures { Gives thing (spec.added_function name.now) result }
{
    if name == b"round".as_slice() {
        Ok(Thing::Function(Function::Round))
    } else if name == b"floor".as_slice() {
        Ok(Thing::Function(Function::Floor))
    } else if name == b"ceil".as_slice() {
        Ok(Thing::Function(Function::Ceil))
    } else if name == b"abs".as_slice() {
        Ok(Thing::Function(Function::Absolute))
    } else if name == b"absolute".as_slice() {
        Ok(Thing::Function(Function::Absolute))
    } else if name == b"clip".as_slice() {
        Ok(Thing::Function(Function::Clip))
    } else if name == b"logical_and".as_slice() {
        Ok(Thing::Function(Function::And))
    } else if name == b"logical_or".as_slice() {
        Ok(Thing::Function(Function::Or))
    } else {
        Err(FormulaKind::UnknownName)
    }
}

/// What a name behind `np` or `numpy` stands for, or `UnknownName`.
#[tactic(auto, unfolding(fisca_typing::specs::Names::library_function))]
pub fn library_function(name: &[u8]) -> Result<Thing, FormulaKind>
    ensures { Gives thing (spec.library_function name.now) result }
{
    if name == b"where".as_slice() {
        Ok(Thing::Function(Function::Where))
    } else if name == b"select".as_slice() {
        Ok(Thing::Function(Function::Select))
    } else if name == b"minimum".as_slice() {
        Ok(Thing::Function(Function::Min))
    } else if name == b"maximum".as_slice() {
        Ok(Thing::Function(Function::Max))
    } else if name == b"logical_not".as_slice() {
        Ok(Thing::Function(Function::Not))
    } else {
        added_function(name)
    }
}

/// What the name of an Enum or of an entity stands for.
fn declared(tables: &Tables, name: &str) -> Option<Thing>
    ensures { option_map thing result ≡ spec.declared (tables_of tables.now) name.now }
{
    match tables.enums.of_name(name) {
        Some(place) => Some(Thing::Enumeration(place)),
        None => match tables.entities.of_constant(name) {
            Some(place) => Some(Thing::Entity(place)),
            None => None,
        },
    }
}

/// What a name stands for that is no local's.
fn other_named(names: &FormulaScope, name: &str) -> Option<Thing>
    ensures { option_map thing result ≡ other_name (names_of names.now) name.now }
{
    match argument_named(names, name.as_bytes()) {
        Some(found) => Some(found),
        None => match known_word(name.as_bytes()) {
            Some(found) => Some(found),
            None => match declared(names.tables, name) {
                Some(found) => Some(found),
                None => added_word(name.as_bytes()),
            },
        },
    }
}

/// What a name stands for, or `UnknownName`: the latest local, else an argument, else a word of the language, else an
/// Enum or an entity, else a function that this project adds, which hides no name so.
#[inline(never)]
pub fn named(names: &FormulaScope, name: &str) -> Result<Thing, FormulaKind>
    ensures { Gives thing (spec.named (names_of names.now) name.now) result }
{
    match names.locals.find(name.as_bytes())? {
        Some(found) => Ok(found),
        None => match other_named(names, name) {
            Some(found) => Ok(found),
            None => Err(FormulaKind::UnknownName),
        },
    }
}
