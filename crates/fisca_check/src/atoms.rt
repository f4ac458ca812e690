//! Numbers and texts, and faults that are told later.
ghost use Rattle.std.specs.Prelude.{◌≡◌, Result, Err, IfOk, OnErr};
ghost use Rattle.fisca_check_calls.specs.Arguments.{outcome};
ghost use Rattle.fisca_check.specs.Elements.{text_said};
ghost use Rattle.fisca_ast.specs.Outcomes.{Gives};
ghost use Rattle.fisca_ir.specs.Views.{thing as thing_of};
ghost use Rattle.fisca_num.specs.Literal.{number_of_literal};
ghost use Rattle.fisca_ast.specs.declared.fault.FormulaKind.TheVariants.{Memory};
ghost use Rattle.fisca_ast.specs.declared.fault.FormulaKind.{FormulaKind};
ghost use Rattle.fisca_typing.specs.Things as things;
ghost use Rattle.fisca_typing.specs.Typing as spec;

use fisca_ast::{FormulaKind, content};
use fisca_ir::{Node, Thing, Typed};
use fisca_model::ValueType;
use fisca_num::Fraction;
use fisca_typing::Level;
use std::alloc::{AllocError, Global};

/// A number as it is written; no module has one that is none.
#[inline(never)]
pub fn number_thing(digits: &[u8]) -> Result<Thing, FormulaKind>
    ensures { Gives thing_of (spec.number_thing (number_of_literal digits.now)) result }
{
    match Fraction::from_literal(digits) {
        Ok(number) => Ok(Thing::Value(Typed {
            value_type: ValueType::Number,
            level: Level::Constant,
            node: Node::Literal(number),
        })),
        Err(_) => Err(FormulaKind::BadType),
    }
}

/// A text in quotes.
#[inline(never)]
pub fn text_thing(alloc: Global, source: &str) -> Result<Thing, FormulaKind>
    ensures { Gives thing_of (text_said source.now) result }
{
    Ok(Thing::Text(content(alloc, source)?))
}

/// What was found, or its fault, which is told where it is asked for; but want of memory, and nothing else, at once.
pub fn if_known(found: Result<Thing, FormulaKind>) -> Result<Result<Thing, FormulaKind>, AllocError>
    ensures known { (told : Result things.Thing FormulaKind) → Gives thing_of told found → IfOk result (λ x. outcome x ≡ told) }
    ensures memory { OnErr result (found ≡ Err Memory) }
{
    match found {
        Err(FormulaKind::Memory) => Err(AllocError),
        known => Ok(known),
    }
}
