//! What locals may stand for.
ghost use Rattle.std.specs.Prelude.{◌≡◌, IfOk, Ok, map};
ghost use Rattle.fisca_check_calls.specs.Locals.{held as held_thing, kept_view};
ghost use Rattle.fisca_ast.specs.Outcomes.{Gives};
ghost use Rattle.fisca_ir.specs.Views.{node, thing as thing_of, typed};
ghost use Rattle.fisca_typing.specs.Formulas as spec;

use crate::local::Held;
use fisca_ast::FormulaKind;
use fisca_ir::{Node, Thing, Typed};
use std::alloc::AllocError;
use std::rc::Rc;

impl Held {
    /// What the name of the local stands for, shared with it.
    pub fn thing(&self) -> Result<Thing, AllocError>
        ensures { IfOk result (λ x. thing_of x ≡ held_thing self.now) }
    {
        match self {
            Held::Value(value_type, level, place) => Ok(Thing::Value(Typed {
                value_type: *value_type,
                level: *level,
                node: Node::Local(*place),
            })),
            Held::Period(moves) => Ok(Thing::Period(moves.shared()?)),
            Held::Nodes(chosen) => Ok(Thing::Nodes(Rc::clone(chosen)?)),
            Held::Scale(place, moves) => Ok(Thing::Scale(*place, moves.shared()?)),
            Held::Choices(place) => Ok(Thing::Choices(*place)),
        }
    }
}

/// A value that a local keeps: its node comes behind those of the earlier locals.
fn kept_value(value: Typed, values: &mut Vec<Node>) -> Result<Held, AllocError>
    ensures { IfOk result (λ h. spec.kept_value (typed value) (map node values.old.items) ≡ Ok (kept_view values.new.items h)) }
{
    let place = values.len();
    values.push(value.node)?;
    Ok(Held::Value(value.value_type, value.level, place))
}

/// What the name of a local with this thing stands for, or `BadType` for what no local keeps. The nodes of locals with
/// values come one behind the other.
pub fn kept(thing: Thing, values: &mut Vec<Node>) -> Result<Held, FormulaKind>
    ensures { Gives (kept_view values.new.items) (spec.kept (thing_of thing) (map node values.old.items)) result }
{
    match thing {
        Thing::Value(value) => Ok(kept_value(value, values)?),
        Thing::Period(moves) => Ok(Held::Period(moves)),
        Thing::Nodes(chosen) => Ok(Held::Nodes(chosen)),
        Thing::Scale(place, moves) => Ok(Held::Scale(place, moves)),
        Thing::Choices(place) => Ok(Held::Choices(place)),
        Thing::Start(_)
        | Thing::Offset(_)
        | Thing::Reader
        | Thing::Calculation(..)
        | Thing::Enumeration(_)
        | Thing::Entity(_)
        | Thing::Role(..)
        | Thing::Asker
        | Thing::Method(..)
        | Thing::GroupCount(_)
        | Thing::Library
        | Thing::Function(_)
        | Thing::Asking(_)
        | Thing::Text(_)
        | Thing::Listed(_) => Err(FormulaKind::BadType),
    }
}
