//! Arguments of calls.
ghost use Rattle.std.specs.Prelude.{◌≡◌};
ghost use Rattle.fisca_check_calls.specs.Arguments.{all_given, all_settled, any_keyword, positions as positions_view, settled as settled_of};
ghost use Rattle.fisca_check_calls.specs.Steps.Arguments.{pair as pair_of, single as single_of, triple as triple_of};
ghost use Rattle.fisca_ast.specs.Outcomes.{Gives};
ghost use Rattle.fisca_typing.specs.Calls as spec;

use fisca_ast::{Expr, FormulaKind};
use fisca_ir::Thing;
use std::alloc::Global;

/// An argument: its keyword if it has one, how it is written, and what it stands for, or its first fault.
#[derive(Drop)]
pub struct GivenArgument<'a, 't> {
    pub keyword: Option<&'t [u8]>,
    pub tree: &'t Expr<'a>,
    pub thing: Result<Thing, FormulaKind>,
}

/// The same where it stands for something.
#[derive(Drop)]
pub struct Settled<'a, 't> {
    pub keyword: Option<&'t [u8]>,
    pub tree: &'t Expr<'a>,
    pub thing: Thing,
}

/// Arguments by position.
#[derive(Drop)]
pub enum Positions<'a, 't> {
    ByPosition(Vec<Settled<'a, 't>>),
    /// And one by this keyword.
    AndKeyword(Vec<Settled<'a, 't>>, &'t [u8], Thing),
    MoreKeywords,
}

/// What arguments stand for, or the first fault.
pub fn settle<'a, 't>(
    alloc: Global,
    arguments: Vec<GivenArgument<'a, 't>>,
) -> Result<Vec<Settled<'a, 't>>, FormulaKind>
    ensures { Gives (λ found. all_settled found.items) (spec.settled (all_given arguments.entry.items)) result }
{
    let mut found = Vec::new(alloc);
    for argument in arguments {
        let thing = argument.thing?;
        found.push(Settled {
            keyword: argument.keyword,
            tree: argument.tree,
            thing,
        })?;
    }
    Ok(found)
}

/// Whether an argument has a keyword.
fn has_keyword(arguments: &[Settled]) -> bool
    ensures { result ≡ any_keyword (all_settled arguments.now) }
{
    for argument in arguments {
        if argument.keyword.is_some() {
            return true;
        }
    }
    false
}

/// Arguments by position and by keyword, of which the latter come last.
pub fn positions_of<'a, 't>(mut arguments: Vec<Settled<'a, 't>>) -> Positions<'a, 't>
    ensures { positions_view result ≡ spec.positions (all_settled arguments.entry.items) }
{
    if !has_keyword(arguments.as_slice()) {
        return Positions::ByPosition(arguments);
    }
    let Some(last) = arguments.pop() else {
        return Positions::ByPosition(arguments);
    };
    if has_keyword(arguments.as_slice()) {
        return Positions::MoreKeywords;
    }
    match last.keyword {
        Some(key) => Positions::AndKeyword(arguments, key, last.thing),
        None => Positions::MoreKeywords,
    }
}

/// One argument, and nothing else; or `BadType`.
pub fn single<'a, 't>(mut arguments: Vec<Settled<'a, 't>>) -> Result<Settled<'a, 't>, FormulaKind>
    ensures { Gives settled_of (single_of (all_settled arguments.entry.items)) result }
{
    if arguments.len() != 1 {
        return Err(FormulaKind::BadType);
    }
    match arguments.pop() {
        Some(only) => Ok(only),
        None => unreachable!(),
    }
}

/// One argument by position, and nothing else; or `BadType`.
#[tactic(auto, using(crate::proofs::Shapes::alone_single))]
pub fn alone<'a, 't>(positions: Positions<'a, 't>) -> Result<Settled<'a, 't>, FormulaKind>
    ensures { Gives settled_of (spec.alone (positions_view positions.entry)) result }
{
    let Positions::ByPosition(arguments) = positions else {
        return Err(FormulaKind::BadType);
    };
    single(arguments)
}

/// Two arguments, and nothing else; or `BadType`.
pub fn pair<'a, 't>(
    mut arguments: Vec<Settled<'a, 't>>,
) -> Result<(Settled<'a, 't>, Settled<'a, 't>), FormulaKind>
    ensures { Gives (λ p. (settled_of p.0, settled_of p.1)) (pair_of (all_settled arguments.entry.items)) result }
{
    if arguments.len() != 2 {
        return Err(FormulaKind::BadType);
    }
    let Some(second) = arguments.pop() else {
        unreachable!();
    };
    let Some(first) = arguments.pop() else {
        unreachable!();
    };
    Ok((first, second))
}

/// Three arguments, and nothing else; or `BadType`.
pub fn triple<'a, 't>(
    mut arguments: Vec<Settled<'a, 't>>,
) -> Result<(Settled<'a, 't>, Settled<'a, 't>, Settled<'a, 't>), FormulaKind>
    ensures { Gives (λ p. (settled_of p.0, settled_of p.1, settled_of p.2)) (triple_of (all_settled arguments.entry.items)) result }
{
    if arguments.len() != 3 {
        return Err(FormulaKind::BadType);
    }
    let Some(third) = arguments.pop() else {
        unreachable!();
    };
    let Some(second) = arguments.pop() else {
        unreachable!();
    };
    let Some(first) = arguments.pop() else {
        unreachable!();
    };
    Ok((first, second, third))
}
