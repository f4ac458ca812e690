//! Members of Enums in brackets behind parameters.
ghost use Rattle.std.specs.Prelude.{◌≡◌, IfOk, length, map};
ghost use Rattle.fisca_ast.specs.Outcomes.{Gives};
ghost use Rattle.fisca_ir.specs.Views.{chosen as chosen_of, thing as thing_of, typed};
ghost use Rattle.fisca_symbols.specs.Known.{tables as tables_of};
ghost use Rattle.fisca_typing.specs.Parameters as spec;
ghost use Rattle.fisca_model.specs.Tables.{members_at};

use crate::rows::Rows;
use fisca_ast::FormulaKind;
use fisca_check_calls::chosen_below;
use fisca_ir::{Chosen, Thing, Typed, higher};
use fisca_model::ValueType;
use fisca_symbols::{EnumMembers, Tables};
use std::alloc::{AllocError, Global};

/// The names of the members of an Enum.
#[tactic(auto, using(crate::proofs::Members::names_step))]
fn names_of<'t, 'a>(
    alloc: Global,
    members: &'t EnumMembers<'a>,
) -> Result<Vec<&'t [u8]>, AllocError>
    ensures { IfOk result (λ ns. map (λ n. n.now) ns.items ≡ map (λ m. m.0) members.now) }
{
    let mut names = Vec::new(alloc);
    for place in 0..members.len() {
        let Some((name, _)) = members.as_slice().get(place) else {
            return Ok(names);
        };
        names.push(name.as_bytes())?;
    }
    Ok(names)
}

/// The names of the members of the Enum at a place.
pub(crate) fn member_names<'t, 'a>(
    alloc: Global,
    tables: &'t Tables<'a>,
    choices: usize,
) -> Result<Vec<&'t [u8]>, AllocError>
    ensures { IfOk result (λ ns. map (λ n. n.now) ns.items ≡ members_at (tables_of tables.now) choices) }
{
    match tables.enums.as_slice().get(choices) {
        Some(found) => names_of(alloc, &found.members),
        None => Ok(Vec::new(alloc)),
    }
}

/// How many members the Enum at a place has.
fn member_count(tables: &Tables, choices: usize) -> usize
    ensures { result ≡ length (members_at (tables_of tables.now) choices) }
{
    match tables.enums.as_slice().get(choices) {
        Some(found) => found.members.len(),
        None => 0,
    }
}

/// The Enum whose members a type has, or `BadType`.
fn enum_by(value_type: ValueType) -> Result<usize, FormulaKind>
    ensures { Gives (λ e. e) (spec.enum_by value_type) result }
{
    match value_type {
        ValueType::Enum(choices) => Ok(choices),
        ValueType::Number | ValueType::Bool => Err(FormulaKind::BadType),
    }
}

/// Parameters with a member of an Enum behind them in brackets: `BadType`, else `BadLevel`, else `UnknownParameter` where
/// a member has none, else `BadType` where they do not fit.
pub fn subscripted(
    alloc: Global,
    tables: &Tables,
    chosen: &Chosen,
    index: Typed,
    rows: &mut Rows,
) -> Result<Thing, FormulaKind>
    requires { rows.old ≡ tables_of tables.now }
    ensures thing { Gives thing_of (spec.subscripted (tables_of tables.now) (chosen_of chosen.now) (typed index)) result }
    ensures same { rows.new ≡ rows.old }
{
    let choices = enum_by(index.value_type)?;
    let level = higher(chosen.level, index.level)?;
    let children = rows.children(alloc, choices, &chosen.places)?;
    let size = member_count(tables, choices);
    chosen_below(alloc, &children, chosen, level, index.node, size)
}
