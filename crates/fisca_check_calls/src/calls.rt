//! Calls of functions.
ghost use Rattle.std.specs.Prelude.{◌≡◌, length, map, Ok, option_map};
ghost use Rattle.fisca_check_calls.specs.Arguments.{all_settled, default_given, positions as positions_view, reader_at};
ghost use Rattle.fisca_check_calls.specs.Steps.Arguments.{pair as pair_of};
ghost use Rattle.fisca_num.specs.Results.{and_then};
ghost use Rattle.fisca_ast.specs.Outcomes.{Gives};
ghost use Rattle.fisca_ir.specs.Views.{listed, node, thing, typed};
ghost use Rattle.fisca_typing.specs.Calls as spec;
ghost use Rattle.fisca_typing.specs.Operations.{typed_all};
ghost use Rattle.fisca_typing.specs.Things.{typed as typed_as};

use crate::arguments::{Positions, Settled, alone, pair, single, triple};
use crate::parameters::root_at;
use fisca_ast::{FormulaKind, Operator};
use fisca_ir::{
    Dyadic, Moves, Node, Thing, Typed, choose, common, common_all, higher, highest, instant_of,
    is_bool, numeric_of, offset_by, offset_by_unit, operated, places_of, scale_sum, text_of,
    things_of, unary_of, value_of, where_of,
};
use fisca_model::ValueType;
use fisca_num::Fraction;
use fisca_params::{NodeId, ParamTree};
use fisca_typing::{Arithmetic, Function, Level, Unary};
use std::alloc::Global;

/// The values that a list has, or `BadType`.
fn values_of(alloc: Global, things: Vec<Thing>) -> Result<Vec<Typed>, FormulaKind>
    ensures { Gives (λ vs. map typed vs.items) (typed_all (listed things.items)) result }
{
    let mut values = Vec::new(alloc);
    for thing in things {
        values.push(value_of(thing)?)?;
    }
    Ok(values)
}

/// Whether all values are bools.
fn all_bools(values: &[Typed]) -> bool
    ensures { result ≡ spec.all_bools (map typed values.now) }
{
    for value in values {
        if !is_bool(value.value_type) {
            return false;
        }
    }
    true
}

/// The value of the first true condition, else the last one.
fn selected(
    alloc: Global,
    conditions: Vec<Typed>,
    values: Vec<Typed>,
    otherwise: Node,
) -> Result<Node, FormulaKind>
    requires { length conditions.items ≡ length values.items }
    ensures { Gives node (Ok (spec.selected (map typed conditions.items) (map typed values.items) (node otherwise))) result }
{
    let mut conditions = conditions;
    let mut values = values;
    let mut found = otherwise;
    while let Some(condition) = conditions.pop() {
        let Some(value) = values.pop() else {
            return Ok(found);
        };
        found = choose(alloc, condition.node, value.node, found)?;
    }
    Ok(found)
}

/// What is selected without a default: 0, or `False` where all are bools; `BadType` for members of an Enum.
fn nothing_selected(value_type: ValueType) -> Result<Node, FormulaKind>
    ensures { Gives node (spec.nothing_selected value_type) result }
{
    match value_type {
        ValueType::Number => Ok(Node::Literal(Fraction::zero())),
        ValueType::Bool => Ok(Node::Truth(false)),
        ValueType::Enum(_) => Err(FormulaKind::BadType),
    }
}

/// The values of conditions, with the type of what is selected and what is selected otherwise.
fn select_typed(
    alloc: Global,
    value_type: ValueType,
    conditions: Vec<Typed>,
    values: Vec<Typed>,
    level: Level,
    otherwise: Node,
) -> Result<Thing, FormulaKind>
    requires { length conditions.items ≡ length values.items }
    ensures { Gives thing (typed_as value_type level (spec.selected (map typed conditions.items) (map typed values.items) (node otherwise))) result }
{
    Ok(Thing::Value(Typed {
        value_type,
        level,
        node: selected(alloc, conditions, values, otherwise)?,
    }))
}

/// `select` without or with a default.
fn select_default(
    alloc: Global,
    value_type: ValueType,
    conditions: Vec<Typed>,
    values: Vec<Typed>,
    default: Option<Typed>,
) -> Result<Thing, FormulaKind>
    requires { length conditions.items ≡ length values.items }
    ensures { Gives thing (spec.select_default value_type (map typed conditions.items) (map typed values.items) (option_map typed default)) result }
{
    match default {
        None => {
            let rest = nothing_selected(value_type)?;
            let upper = highest(Level::Constant, conditions.as_slice())?;
            let level = highest(upper, values.as_slice())?;
            select_typed(alloc, value_type, conditions, values, level, rest)
        }
        Some(last) => {
            let common_type = common(value_type, last.value_type)?;
            let upper = highest(Level::Constant, conditions.as_slice())?;
            let lower = highest(upper, values.as_slice())?;
            let level = higher(lower, last.level)?;
            select_typed(alloc, common_type, conditions, values, level, last.node)
        }
    }
}

/// `select` of values: `BadType` where there is none, where a condition is no bool, where there are not as many
/// conditions, or where the values have no common type.
fn select_values(
    alloc: Global,
    conditions: Vec<Typed>,
    values: Vec<Typed>,
    default: Option<Typed>,
) -> Result<Thing, FormulaKind>
    ensures { Gives thing (spec.select_values (map typed conditions.items) (map typed values.items) (option_map typed default)) result }
{
    let [first, others @ ..] = values.as_slice() else {
        return Err(FormulaKind::BadType);
    };
    if !all_bools(conditions.as_slice()) || conditions.len() != values.len() {
        return Err(FormulaKind::BadType);
    }
    let value_type = common_all(first.value_type, others)?;
    select_default(alloc, value_type, conditions, values, default)
}

/// A default, and the keyword that it stands behind.
type Default<'t> = Option<(&'t [u8], Thing)>;

/// The value of a default, or `BadType` where its keyword is another or it is no value.
fn default_value(default: Default) -> Result<Option<Typed>, FormulaKind>
    ensures { Gives (option_map typed) (default_given default.entry) result }
{
    let Some((keyword, thing)) = default else {
        return Ok(None);
    };
    if keyword != b"default".as_slice() {
        return Err(FormulaKind::BadType);
    }
    Ok(Some(value_of(thing)?))
}

/// `select([conditions], [values])`, perhaps with a default.
fn select_of(
    alloc: Global,
    conditions: Thing,
    values: Thing,
    default: Default,
) -> Result<Thing, FormulaKind>
    ensures { Gives thing (spec.select_of (thing conditions) (thing values) (default_given default.entry)) result }
{
    let tested = values_of(alloc, things_of(conditions)?)?;
    let given = values_of(alloc, things_of(values)?)?;
    let last = default_value(default)?;
    select_values(alloc, tested, given, last)
}

/// `where(condition, value, otherwise)`, or `BadType`.
#[tactic(auto, using(crate::proofs::Shapes::where_triple))]
fn where_by(alloc: Global, positions: Positions) -> Result<Thing, FormulaKind>
    ensures { Gives thing (spec.where_by (positions_view positions.entry)) result }
{
    let Positions::ByPosition(arguments) = positions else {
        return Err(FormulaKind::BadType);
    };
    let (condition, value, otherwise) = triple(arguments)?;
    let tested = value_of(condition.thing)?;
    let first = value_of(value.thing)?;
    let second = value_of(otherwise.thing)?;
    where_of(alloc, tested, first, second)
}

/// `select([conditions], [values])`, perhaps with `default=value` behind; or `BadType`.
#[tactic(auto, using(crate::proofs::Shapes::select_pair, crate::proofs::Shapes::select_pair_keyword))]
fn select_by(alloc: Global, positions: Positions) -> Result<Thing, FormulaKind>
    ensures { Gives thing (spec.select_by (positions_view positions.entry)) result }
{
    match positions {
        Positions::ByPosition(arguments) => {
            let (conditions, values) = pair(arguments)?;
            select_of(alloc, conditions.thing, values.thing, None)
        }
        Positions::AndKeyword(arguments, keyword, thing) => {
            let (conditions, values) = pair(arguments)?;
            select_of(
                alloc,
                conditions.thing,
                values.thing,
                Some((keyword, thing)),
            )
        }
        Positions::MoreKeywords => Err(FormulaKind::BadType),
    }
}

/// The lowest or the highest of a value and of more, from left to right.
fn extreme_all(
    alloc: Global,
    extreme: Arithmetic,
    first: Thing,
    others: Vec<Settled>,
) -> Result<Thing, FormulaKind>
    ensures { Gives thing (spec.extreme_all extreme (thing first) (all_settled others.entry.items)) result }
{
    let mut found = first;
    for other in others {
        found = operated(alloc, Dyadic::Extreme(extreme), found, other.thing)?;
    }
    Ok(found)
}

/// `min_` or `max_` of two arguments or more, from left to right, or `BadType`.
fn extreme_by(
    alloc: Global,
    extreme: Arithmetic,
    positions: Positions,
) -> Result<Thing, FormulaKind>
    ensures { Gives thing (spec.extreme_by extreme (positions_view positions.entry)) result }
{
    let Positions::ByPosition(mut arguments) = positions else {
        return Err(FormulaKind::BadType);
    };
    if arguments.len() < 2 {
        return Err(FormulaKind::BadType);
    }
    let first = arguments.remove(0);
    extreme_all(alloc, extreme, first.thing, arguments)
}

/// An operator on two arguments, or `BadType`.
#[tactic(auto, using(crate::proofs::Shapes::two_pair))]
fn operator_by(
    alloc: Global,
    operator: Operator,
    positions: Positions,
) -> Result<Thing, FormulaKind>
    ensures { Gives thing (spec.operator_by operator (positions_view positions.entry)) result }
{
    let Positions::ByPosition(arguments) = positions else {
        return Err(FormulaKind::BadType);
    };
    let (first, second) = pair(arguments)?;
    operated(alloc, Dyadic::Operator(operator), first.thing, second.thing)
}

/// An operation on one argument, or `BadType`.
fn unary_by(alloc: Global, operation: Unary, positions: Positions) -> Result<Thing, FormulaKind>
    ensures { Gives thing (spec.unary_by operation (positions_view positions.entry)) result }
{
    let argument = alone(positions)?;
    unary_of(alloc, operation, argument.thing)
}

/// `round_(number, places)`, or `BadType`.
fn round_to(alloc: Global, arguments: Vec<Settled>) -> Result<Thing, FormulaKind>
    ensures { Gives thing (and_then (pair_of (all_settled arguments.entry.items)) (λ p. and_then (spec.places_of p.1.tree) (spec.rounded p.0.thing))) result }
{
    let (number, places) = pair(arguments)?;
    let places = places_of(places.tree)?;
    unary_of(alloc, Unary::Round(places), number.thing)
}

/// `round_(number)` or `round_(number, places)`, or `BadType`.
#[tactic(auto, using(crate::proofs::Shapes::round_single, crate::proofs::Shapes::round_pair))]
fn round_by(alloc: Global, positions: Positions) -> Result<Thing, FormulaKind>
    ensures { Gives thing (spec.round_by (positions_view positions.entry)) result }
{
    let Positions::ByPosition(arguments) = positions else {
        return Err(FormulaKind::BadType);
    };
    if arguments.len() == 1 {
        let number = single(arguments)?;
        return unary_of(alloc, Unary::Round(0), number.thing);
    }
    round_to(alloc, arguments)
}

/// `clip(number, low, high)`, or `BadType`: the lower one of the higher bound and of the higher one of the number and the
/// lower bound.
#[tactic(auto, using(crate::proofs::Shapes::clip_triple))]
fn clip_by(alloc: Global, positions: Positions) -> Result<Thing, FormulaKind>
    ensures { Gives thing (spec.clip_by (positions_view positions.entry)) result }
{
    let Positions::ByPosition(arguments) = positions else {
        return Err(FormulaKind::BadType);
    };
    let (number, low, high) = triple(arguments)?;
    let raised = operated(
        alloc,
        Dyadic::Extreme(Arithmetic::Max),
        number.thing,
        low.thing,
    )?;
    operated(alloc, Dyadic::Extreme(Arithmetic::Min), raised, high.thing)
}

/// A call of a function of the language: `BadType` where its arguments do not fit, else `BadLevel` where their levels do
/// not.
pub fn function_by(
    alloc: Global,
    function: Function,
    positions: Positions,
) -> Result<Thing, FormulaKind>
    ensures { Gives thing (spec.function_by function (positions_view positions.entry)) result }
{
    match function {
        Function::Where => where_by(alloc, positions),
        Function::Select => select_by(alloc, positions),
        Function::Min => extreme_by(alloc, Arithmetic::Min, positions),
        Function::Max => extreme_by(alloc, Arithmetic::Max, positions),
        Function::Clip => clip_by(alloc, positions),
        Function::Not => unary_by(alloc, Unary::Not, positions),
        Function::And => operator_by(alloc, Operator::And, positions),
        Function::Or => operator_by(alloc, Operator::Or, positions),
        Function::Floor => unary_by(alloc, Unary::Floor, positions),
        Function::Ceil => unary_by(alloc, Unary::Ceil, positions),
        Function::Round => round_by(alloc, positions),
        Function::Absolute => unary_by(alloc, Unary::Absolute, positions),
    }
}

/// `period.offset(count)` or `period.offset(count, unit)`, or `BadType`.
pub fn offset_of(alloc: Global, moves: &Moves, positions: Positions) -> Result<Thing, FormulaKind>
    ensures { Gives thing (spec.offset_of moves.now (positions_view positions.entry)) result }
{
    let Positions::ByPosition(arguments) = positions else {
        return Err(FormulaKind::BadType);
    };
    match arguments.as_slice() {
        [] => Err(FormulaKind::BadType),
        [count] => offset_by(alloc, moves, count.tree),
        [count, unit] => {
            offset_by_unit(alloc, moves, count.tree, text_of(&unit.thing)?.as_bytes())
        }
        [_, _, _, ..] => Err(FormulaKind::BadType),
    }
}

/// `parameters(period)` or `parameters(period.start)`, or `BadType`.
pub fn reader_by(
    alloc: Global,
    tree: &ParamTree,
    positions: Positions,
) -> Result<Thing, FormulaKind>
    ensures { Gives thing (reader_at tree.now (positions_view positions.entry)) result }
{
    let argument = alone(positions)?;
    let moves = instant_of(argument.thing)?;
    root_at(alloc, tree, moves)
}

/// `scale.calc(base)`, or `BadType`.
pub fn calculation_by(
    alloc: Global,
    place: NodeId,
    moves: &Moves,
    positions: Positions,
) -> Result<Thing, FormulaKind>
    ensures { Gives thing (spec.calculation_by place moves.now (positions_view positions.entry)) result }
{
    let argument = alone(positions)?;
    let base = numeric_of(argument.thing)?;
    Ok(Thing::Value(Typed {
        value_type: ValueType::Number,
        level: base.level,
        node: scale_sum(alloc, place, moves.to_vec(alloc)?, base.node)?,
    }))
}
