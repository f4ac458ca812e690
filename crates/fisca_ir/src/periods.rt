//! Periods and parts of their start.
ghost use Rattle.std.specs.Prelude.{◌≡◌, map, option_map};
ghost use Rattle.fisca_num.specs.Literal.{number_of_literal};
ghost use Rattle.fisca_ast.specs.Views.{argument_view, series_of, series_view, tree as tree_of};
ghost use Rattle.fisca_ast.specs.Outcomes.{Gives};
ghost use Rattle.fisca_ir.specs.Views.{thing};
ghost use Rattle.fisca_typing.specs.Calls.{places_of as places_written};
ghost use Rattle.fisca_typing.specs.Periods as spec;

use crate::made;
use crate::moves::Moves;
use crate::thing::{Thing, Typed};
use fisca_ast::{Argument, Arguments, Delimiter, Expr, FormulaKind, Prefix};
use fisca_model::ValueType;
use fisca_num::Fraction;
use fisca_time::Unit;
use fisca_typing::{DatePart, Level, Move, is_places};
use std::alloc::Global;

/// One move further.
fn moved(alloc: Global, moves: &Moves, step: Move) -> Result<Thing, FormulaKind>
    ensures { Gives thing (spec.moved moves.now step) result }
{
    Ok(Thing::Period(moves.with(alloc, step)?))
}

/// What a name behind a period stands for, or `UnknownName`.
#[tactic(auto, unfolding(fisca_typing::specs::Periods::period_attribute))]
pub fn period_attribute(alloc: Global, name: &[u8], moves: Moves) -> Result<Thing, FormulaKind>
    ensures { Gives thing (spec.period_attribute name.now moves) result }
{
    if name == b"this_year".as_slice() {
        moved(alloc, &moves, Move::ThisYear)
    } else if name == b"first_month".as_slice() {
        moved(alloc, &moves, Move::FirstMonth)
    } else if name == b"first_day".as_slice() {
        moved(alloc, &moves, Move::FirstDay)
    } else if name == b"last_month".as_slice() {
        moved(alloc, &moves, Move::LastMonth)
    } else if name == b"last_3_months".as_slice() {
        moved(alloc, &moves, Move::LastThreeMonths)
    } else if name == b"last_year".as_slice() {
        moved(alloc, &moves, Move::LastYear)
    } else if name == b"n_2".as_slice() {
        moved(alloc, &moves, Move::TwoYearsAgo)
    } else if name == b"start".as_slice() {
        Ok(Thing::Start(moves))
    } else if name == b"offset".as_slice() {
        Ok(Thing::Offset(moves))
    } else {
        Err(FormulaKind::UnknownName)
    }
}

/// A part of the start of a period.
fn part_of(alloc: Global, part: DatePart, moves: &Moves) -> Result<Thing, FormulaKind>
    ensures { Gives thing (spec.part_of part moves.now) result }
{
    Ok(Thing::Value(Typed {
        value_type: ValueType::Number,
        level: Level::Constant,
        node: made::date_part(alloc, part, moves.to_vec(alloc)?)?,
    }))
}

/// What a name behind the start of a period stands for, or `UnknownName`.
#[tactic(auto, unfolding(fisca_typing::specs::Periods::start_attribute))]
pub fn start_attribute(alloc: Global, name: &[u8], moves: &Moves) -> Result<Thing, FormulaKind>
    ensures { Gives thing (spec.start_attribute name.now moves.now) result }
{
    if name == b"year".as_slice() {
        part_of(alloc, DatePart::Year, moves)
    } else if name == b"month".as_slice() {
        part_of(alloc, DatePart::Month, moves)
    } else if name == b"day".as_slice() {
        part_of(alloc, DatePart::Day, moves)
    } else {
        Err(FormulaKind::UnknownName)
    }
}

/// The whole number that digits say, if they do.
fn whole_of(digits: &[u8]) -> Option<Fraction>
    ensures { option_map (λ n. n.numerator) result ≡ spec.whole_of (number_of_literal digits.now) }
{
    match Fraction::from_literal(digits) {
        Ok(number) if number.denominator() == 1 => Some(number),
        _ => None,
    }
}

/// A whole number as it is written, perhaps in parentheses.
#[cycle(unsigned)]
fn unsigned_whole(tree: &Expr) -> Option<Fraction>
    ensures { option_map (λ n. n.numerator) result ≡ spec.unsigned_whole (tree_of tree.now) }
{
    match tree {
        Expr::Number(digits) => whole_of(digits.as_bytes()),
        Expr::Bracketed(bracket, inside) => unsigned_inside(inside, *bracket),
        Expr::Name(_)
        | Expr::Text(_)
        | Expr::Attribute(..)
        | Expr::Applied(..)
        | Expr::Prefixed(..)
        | Expr::Binary(..)
        | Expr::Compare(..) => None,
    }
}

/// A whole number alone in parentheses.
#[cycle(unsigned)]
fn unsigned_inside(inside: &Arguments, bracket: Delimiter) -> Option<Fraction>
    ensures { option_map (λ n. n.numerator) result ≡ spec.unsigned_alone bracket (series_view inside.now) }
{
    match inside {
        Arguments::One(argument) => unsigned_in(argument, bracket),
        Arguments::Several(items, comma) => unsigned_alone(items.as_slice(), bracket, *comma),
    }
}

/// The same among some arguments.
#[cycle(unsigned)]
fn unsigned_alone(items: &[Argument], bracket: Delimiter, comma: bool) -> Option<Fraction>
    ensures { option_map (λ n. n.numerator) result ≡ spec.unsigned_alone bracket (series_of comma (map argument_view items.now)) }
{
    if comma {
        return None;
    }
    if items.len() != 1 {
        return None;
    }
    unsigned_in(&items[0], bracket)
}

/// A whole number as an argument in parentheses.
#[cycle(unsigned)]
fn unsigned_in(argument: &Argument, bracket: Delimiter) -> Option<Fraction>
    ensures { option_map (λ n. n.numerator) result ≡ spec.unsigned_in bracket (argument_view argument.now) }
{
    match bracket {
        Delimiter::Round => match argument {
            Argument::Positional(number) => unsigned_whole(number),
            Argument::Keyword(..) | Argument::Entry(..) => None,
        },
        Delimiter::Square | Delimiter::Curly => None,
    }
}

/// A whole number as it is written, perhaps with a `-` before it, perhaps in parentheses.
#[cycle(whole)]
fn whole(tree: &Expr) -> Option<Fraction>
    ensures { option_map (λ n. n.numerator) result ≡ spec.whole (tree_of tree.now) }
{
    match tree {
        Expr::Number(digits) => whole_of(digits.as_bytes()),
        Expr::Bracketed(bracket, inside) => whole_inside(inside, *bracket),
        Expr::Prefixed(Prefix::Minus, inside) => Some(unsigned_whole(inside)?.neg()),
        Expr::Prefixed(Prefix::Plus | Prefix::Not, _)
        | Expr::Name(_)
        | Expr::Text(_)
        | Expr::Attribute(..)
        | Expr::Applied(..)
        | Expr::Binary(..)
        | Expr::Compare(..) => None,
    }
}

/// The same alone in parentheses.
#[cycle(whole)]
fn whole_inside(inside: &Arguments, bracket: Delimiter) -> Option<Fraction>
    ensures { option_map (λ n. n.numerator) result ≡ spec.whole_alone bracket (series_view inside.now) }
{
    match inside {
        Arguments::One(argument) => whole_in(argument, bracket),
        Arguments::Several(items, comma) => whole_alone(items.as_slice(), bracket, *comma),
    }
}

/// The same among some arguments.
#[cycle(whole)]
fn whole_alone(items: &[Argument], bracket: Delimiter, comma: bool) -> Option<Fraction>
    ensures { option_map (λ n. n.numerator) result ≡ spec.whole_alone bracket (series_of comma (map argument_view items.now)) }
{
    if comma {
        return None;
    }
    if items.len() != 1 {
        return None;
    }
    whole_in(&items[0], bracket)
}

/// The same as an argument in parentheses.
#[cycle(whole)]
fn whole_in(argument: &Argument, bracket: Delimiter) -> Option<Fraction>
    ensures { option_map (λ n. n.numerator) result ≡ spec.whole_in bracket (argument_view argument.now) }
{
    match bracket {
        Delimiter::Round => match argument {
            Argument::Positional(number) => whole(number),
            Argument::Keyword(..) | Argument::Entry(..) => None,
        },
        Delimiter::Square | Delimiter::Curly => None,
    }
}

/// The unit of a name.
#[tactic(auto, unfolding(fisca_typing::specs::Periods::unit_named))]
fn unit_named(name: &[u8]) -> Option<Unit>
    ensures { result ≡ spec.unit_named name.now }
{
    if name == b"day".as_slice() {
        Some(Unit::Day)
    } else if name == b"month".as_slice() {
        Some(Unit::Month)
    } else if name == b"year".as_slice() {
        Some(Unit::Year)
    } else {
        None
    }
}

/// So many of a period's own unit further, or `BadType` where the number is not written as a whole one.
pub fn offset_by(alloc: Global, moves: &Moves, count: &Expr) -> Result<Thing, FormulaKind>
    ensures { Gives thing (spec.offset_by moves.now (tree_of count.now)) result }
{
    let Some(number) = whole(count) else {
        return Err(FormulaKind::BadType);
    };
    moved(alloc, moves, Move::Offset(number.numerator()))
}

/// So many of a unit further, or `BadType` where the number is not written as a whole one or no unit has the name.
pub fn offset_by_unit(
    alloc: Global,
    moves: &Moves,
    count: &Expr,
    unit: &[u8],
) -> Result<Thing, FormulaKind>
    ensures { Gives thing (spec.offset_by_unit moves.now (tree_of count.now) unit.now) result }
{
    let Some(number) = whole(count) else {
        return Err(FormulaKind::BadType);
    };
    let Some(unit) = unit_named(unit) else {
        return Err(FormulaKind::BadType);
    };
    moved(alloc, moves, Move::OffsetBy(number.numerator(), unit))
}

/// How many decimal places are written, from -9 to 9, or `BadType`.
pub fn places_of(count: &Expr) -> Result<i8, FormulaKind>
    ensures { Gives (λ n. n) (places_written (tree_of count.now)) result }
{
    let Some(number) = whole(count) else {
        return Err(FormulaKind::BadType);
    };
    let places = number.numerator();
    if !is_places(places) {
        return Err(FormulaKind::BadType);
    }
    Ok(places as i8)
}
