//! What a thing is taken for where it stands.
ghost use Rattle.std.specs.Prelude.{◌≡◌};
ghost use Rattle.fisca_ast.specs.Outcomes.{Gives};
ghost use Rattle.fisca_ir.specs.Views.{chosen, listed, thing as thing_of, typed};
ghost use Rattle.fisca_typing.specs.Things as spec;

use crate::moves::Moves;
use crate::thing::{Chosen, Thing, Typed};
use fisca_ast::FormulaKind;
use fisca_model::RolePlace;
use fisca_typing::{Asking, Move};
use std::rc::Rc;

/// The value that a thing is, or `BadType`.
pub fn value_of(thing: Thing) -> Result<Typed, FormulaKind>
    ensures { Gives typed (spec.value_of (thing_of thing)) result }
{
    match thing {
        Thing::Value(value) => Ok(value),
        _ => Err(FormulaKind::BadType),
    }
}

/// The moves to the period that a thing is, or `BadType`.
pub fn period_of(thing: &Thing) -> Result<&[Move], FormulaKind>
    ensures { Gives (λ ms. ms.now) (spec.period_of (thing_of thing.now)) result }
{
    match thing {
        Thing::Period(moves) => Ok(moves.as_slice()),
        _ => Err(FormulaKind::BadType),
    }
}

/// The moves to the period at whose start parameters are read: a period, or the start of one; else `BadType`.
pub fn instant_of(thing: Thing) -> Result<Moves, FormulaKind>
    ensures { Gives (λ ms. ms) (spec.instant_of (thing_of thing)) result }
{
    match thing {
        Thing::Period(moves) | Thing::Start(moves) => Ok(moves),
        _ => Err(FormulaKind::BadType),
    }
}

/// The text that a thing is, or `BadType`.
pub fn text_of(thing: &Thing) -> Result<&str, FormulaKind>
    ensures { Gives (λ t. t.now) (spec.text_of (thing_of thing.now)) result }
{
    match thing {
        Thing::Text(text) => Ok(text.as_str()),
        _ => Err(FormulaKind::BadType),
    }
}

/// The elements of the list that a thing is, or `BadType`.
pub fn things_of(thing: Thing) -> Result<Vec<Thing>, FormulaKind>
    ensures { Gives (λ xs. listed xs.items) (spec.things_of (thing_of thing)) result }
{
    match thing {
        Thing::Listed(things) => Ok(things),
        _ => Err(FormulaKind::BadType),
    }
}

/// The option of an ask that a thing is, or `BadType`.
pub fn option_of(thing: &Thing) -> Result<Asking, FormulaKind>
    ensures { Gives (λ a. a) (spec.option_of (thing_of thing.now)) result }
{
    match thing {
        Thing::Asking(asking) => Ok(*asking),
        _ => Err(FormulaKind::BadType),
    }
}

/// The role that a thing is, with the place of its entity, or `BadType`.
pub fn role_of(thing: &Thing) -> Result<(usize, RolePlace), FormulaKind>
    ensures { Gives (λ r. (r.0, r.1)) (spec.role_of (thing_of thing.now)) result }
{
    match thing {
        Thing::Role(entity, role) => Ok((*entity, *role)),
        _ => Err(FormulaKind::BadType),
    }
}

/// The parameters that a thing is, or `BadType`.
pub fn nodes_of(thing: Thing) -> Result<Rc<Chosen>, FormulaKind>
    ensures { Gives (λ c. chosen c.value) (spec.nodes_of (thing_of thing)) result }
{
    match thing {
        Thing::Nodes(nodes) => Ok(nodes),
        _ => Err(FormulaKind::BadType),
    }
}
