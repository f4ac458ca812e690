//! Operations: the types and the level of their operands, and what works them out.
ghost use Rattle.std.specs.Prelude.{◌≡◌, if◌then◌else◌, map, IfOk};
ghost use Rattle.fisca_ir.specs.Operations.{operation_view, by};
ghost use Rattle.fisca_ast.specs.Outcomes.{Gives};
ghost use Rattle.fisca_ir.specs.Views.{node, thing, typed};
ghost use Rattle.fisca_typing.specs.Operations as spec;
ghost use Rattle.fisca_typing.specs.Types.{bad_type};

use crate::made;
use crate::node::Node;
use crate::parts::value_of;
use crate::thing::{Thing, Typed};
use crate::types::{common, higher, is_bool, is_number, is_numeric};
use fisca_ast::{Comparison, FormulaKind, Operator, Prefix};
use fisca_model::ValueType;
use fisca_typing::{Arithmetic, Level, Logic, Unary};
use std::alloc::{AllocError, Global};

/// An operation on two operands of types that fit it.
#[derive(Clone, Copy, Debug, PartialEq, Eq)]
pub enum Operation {
    Arithmetic(Arithmetic),
    Logic(Logic),
    Comparison(Comparison),
    /// Whether two are the same member of an Enum.
    Same,
    /// Whether they are not.
    Differs,
}

/// How an operation on two operands is written.
#[derive(Clone, Copy, Debug, PartialEq, Eq)]
pub enum Dyadic {
    Operator(Operator),
    Comparison(Comparison),
    /// `min_` and `max_`
    Extreme(Arithmetic),
}

/// The operation on numbers, bools among them, or `BadType`.
fn on_numbers(
    operation: Arithmetic,
    first: ValueType,
    second: ValueType,
) -> Result<Operation, FormulaKind>
    ensures { Gives operation_view (if spec.are_numeric first second then spec.with_numbers operation else bad_type) result }
{
    if is_numeric(first) && is_numeric(second) {
        Ok(Operation::Arithmetic(operation))
    } else {
        Err(FormulaKind::BadType)
    }
}

/// The operation of an operator on operands of two types, or `BadType`.
fn operation_of(
    operator: Operator,
    first: ValueType,
    second: ValueType,
) -> Result<Operation, FormulaKind>
    ensures { Gives operation_view (spec.operation operator first second) result }
{
    let bools = is_bool(first) && is_bool(second);
    match operator {
        Operator::Or if bools => Ok(Operation::Logic(Logic::Or)),
        Operator::And if bools => Ok(Operation::Logic(Logic::And)),
        Operator::Add if bools => Ok(Operation::Logic(Logic::Or)),
        Operator::Subtract if bools => Err(FormulaKind::BadType),
        Operator::Multiply if bools => Ok(Operation::Logic(Logic::And)),
        Operator::Or | Operator::And => Err(FormulaKind::BadType),
        Operator::Add => on_numbers(Arithmetic::Add, first, second),
        Operator::Subtract => on_numbers(Arithmetic::Subtract, first, second),
        Operator::Multiply => on_numbers(Arithmetic::Multiply, first, second),
        Operator::Divide => on_numbers(Arithmetic::Divide, first, second),
    }
}

/// `min_` or `max_` of operands of two types, or `BadType`: two bools have none.
fn extreme(
    operation: Arithmetic,
    first: ValueType,
    second: ValueType,
) -> Result<Operation, FormulaKind>
    ensures { Gives operation_view (spec.extreme operation first second) result }
{
    if is_bool(first) && is_bool(second) {
        return Err(FormulaKind::BadType);
    }
    on_numbers(operation, first, second)
}

/// The comparison of operands of two types, or `BadType`: members of one Enum are equal or not.
fn comparison_of(
    comparison: Comparison,
    first: ValueType,
    second: ValueType,
) -> Result<Operation, FormulaKind>
    ensures { Gives operation_view (spec.comparison_of comparison first second) result }
{
    match common(first, second)? {
        ValueType::Number | ValueType::Bool => Ok(Operation::Comparison(comparison)),
        ValueType::Enum(_) => match comparison {
            Comparison::Equal => Ok(Operation::Same),
            Comparison::NotEqual => Ok(Operation::Differs),
            Comparison::Less
            | Comparison::LessEqual
            | Comparison::Greater
            | Comparison::GreaterEqual => Err(FormulaKind::BadType),
        },
    }
}

/// The operation on operands of two types, or `BadType`.
fn operation_by(
    dyadic: Dyadic,
    first: ValueType,
    second: ValueType,
) -> Result<Operation, FormulaKind>
    ensures { Gives operation_view (by dyadic first second) result }
{
    match dyadic {
        Dyadic::Operator(operator) => operation_of(operator, first, second),
        Dyadic::Comparison(comparison) => comparison_of(comparison, first, second),
        Dyadic::Extreme(arithmetic) => extreme(arithmetic, first, second),
    }
}

/// The type of what an operation gives.
fn gives(operation: Operation) -> ValueType
    ensures { result ≡ (operation_view operation).gives }
{
    match operation {
        Operation::Arithmetic(_) => ValueType::Number,
        Operation::Logic(_) | Operation::Comparison(_) | Operation::Same | Operation::Differs =>
            ValueType::Bool,
    }
}

/// What works an operation out.
fn made_of(alloc: Global, operation: Operation, left: Node, right: Node) -> Result<Node, AllocError>
    ensures { IfOk result (λ n. node n ≡ (operation_view operation).node (node left) (node right)) }
{
    match operation {
        Operation::Arithmetic(arithmetic) => made::arithmetic(alloc, arithmetic, left, right),
        Operation::Logic(logic) => made::logic(alloc, logic, left, right),
        Operation::Comparison(comparison) => made::comparison(alloc, comparison, left, right),
        Operation::Same => made::same(alloc, left, right),
        Operation::Differs => {
            let same = made::same(alloc, left, right)?;
            made::unary(alloc, Unary::Not, same)
        }
    }
}

/// What an operation on two values gives, or `BadLevel`.
fn with_levels(
    alloc: Global,
    first: Typed,
    second: Typed,
    operation: Operation,
) -> Result<Thing, FormulaKind>
    ensures { Gives thing (spec.with_levels (typed first) (typed second) (operation_view operation)) result }
{
    let level = higher(first.level, second.level)?;
    Ok(Thing::Value(Typed {
        value_type: gives(operation),
        level,
        node: made_of(alloc, operation, first.node, second.node)?,
    }))
}

/// An operation on what two things stand for: `BadType` where one is no value or their types do not fit, else
/// `BadLevel` where their levels do not.
pub fn operated(
    alloc: Global,
    dyadic: Dyadic,
    first: Thing,
    second: Thing,
) -> Result<Thing, FormulaKind>
    ensures { Gives thing (spec.operated (by dyadic) (thing first) (thing second)) result }
{
    let left = value_of(first)?;
    let right = value_of(second)?;
    let operation = operation_by(dyadic, left.value_type, right.value_type)?;
    with_levels(alloc, left, right, operation)
}

/// Whether an operation is on values of this type: `not` on bools, all else on numbers.
fn takes(operation: Unary, value_type: ValueType) -> bool
    ensures { result ≡ spec.is_just (spec.unary_type operation) value_type }
{
    match operation {
        Unary::Not => is_bool(value_type),
        Unary::Minus | Unary::Floor | Unary::Ceil | Unary::Round(_) | Unary::Absolute => {
            is_number(value_type)
        }
    }
}

/// An operation on one value, or `BadType` where the value is of another type.
fn unary_on(alloc: Global, operation: Unary, value: Typed) -> Result<Thing, FormulaKind>
    ensures { Gives thing (spec.unary_on operation (typed value)) result }
{
    if !takes(operation, value.value_type) {
        return Err(FormulaKind::BadType);
    }
    Ok(Thing::Value(Typed {
        value_type: value.value_type,
        level: value.level,
        node: made::unary(alloc, operation, value.node)?,
    }))
}

/// An operation on what a thing stands for, or `BadType`: signs, places and parts are of numbers alone, and `not` of
/// bools.
pub fn unary_of(alloc: Global, operation: Unary, inside: Thing) -> Result<Thing, FormulaKind>
    ensures { Gives thing (spec.unary_of operation (thing inside)) result }
{
    unary_on(alloc, operation, value_of(inside)?)
}

/// A prefix and what a thing stands for, or `BadType`: signs go before numbers alone.
pub fn prefixed_value(alloc: Global, prefix: Prefix, inside: Thing) -> Result<Thing, FormulaKind>
    ensures { Gives thing (spec.prefixed_value prefix (thing inside)) result }
{
    let value = value_of(inside)?;
    match prefix {
        Prefix::Plus => {
            if is_number(value.value_type) {
                Ok(Thing::Value(value))
            } else {
                Err(FormulaKind::BadType)
            }
        }
        Prefix::Minus => unary_on(alloc, Unary::Minus, value),
        Prefix::Not => unary_on(alloc, Unary::Not, value),
    }
}

/// The number or bool that a thing stands for, or `BadType`.
pub fn numeric_of(inside: Thing) -> Result<Typed, FormulaKind>
    ensures { Gives typed (spec.numeric_of (thing inside)) result }
{
    let value = value_of(inside)?;
    if is_numeric(value.value_type) {
        Ok(value)
    } else {
        Err(FormulaKind::BadType)
    }
}

/// The common type of a type and some values, or `BadType`.
pub fn common_all(first: ValueType, values: &[Typed]) -> Result<ValueType, FormulaKind>
    ensures { Gives (λ t. t) (spec.common_all first (map typed values.now)) result }
{
    let mut found = first;
    for value in values {
        found = common(found, value.value_type)?;
    }
    Ok(found)
}

/// The highest of a level and those of some values, or `BadLevel`.
pub fn highest(first: Level, values: &[Typed]) -> Result<Level, FormulaKind>
    ensures { Gives (λ l. l) (spec.highest first (map typed values.now)) result }
{
    let mut found = first;
    for value in values {
        found = higher(found, value.level)?;
    }
    Ok(found)
}

/// One value where a condition holds, else the other: `BadType` where the condition is no bool or the values have no
/// common type, else `BadLevel` where the levels do not fit.
pub fn where_of(
    alloc: Global,
    condition: Typed,
    value: Typed,
    otherwise: Typed,
) -> Result<Thing, FormulaKind>
    ensures { Gives thing (spec.where_of (typed condition) (typed value) (typed otherwise)) result }
{
    if !is_bool(condition.value_type) {
        return Err(FormulaKind::BadType);
    }
    let value_type = common(value.value_type, otherwise.value_type)?;
    let inner = higher(condition.level, value.level)?;
    let level = higher(inner, otherwise.level)?;
    Ok(Thing::Value(Typed {
        value_type,
        level,
        node: made::choose(alloc, condition.node, value.node, otherwise.node)?,
    }))
}
