//! Expressions and arguments, made of their parts with their heights.

ghost use Rattle.std.specs.Prelude.{◌≡◌, ◌≤◌, ◌<◌, max, IfOk, OnOk};
ghost use Rattle.fisca_ast.specs.Tree as spec;
ghost use Rattle.fisca_ast.specs.Tree.{height_all};
ghost use Rattle.fisca_ast.specs.Views.{tree, series_view, argument_view, before};

use crate::measured::{Measured, MeasuredArgument, MeasuredArguments};
use fisca_ast::{
    Access, Application, Argument, Arguments, Comparison, Delimiter, Expr, Operands, Operator,
    Prefix, Slice, Suffix,
};
use std::alloc::{AllocError, Global};

/// An expression, a point and a name.
pub(crate) fn attribute<'a>(
    alloc: Global,
    left: Measured<'a>,
    name: Slice<'a>,
    limit: usize,
) -> Result<Measured<'a>, AllocError>
    requires { left.height < limit }
    ensures value { IfOk result (λ m. tree m.expr ≡ spec.attribute (tree left.entry.expr) name.entry) }
    ensures grows { IfOk result (λ m. left.entry.height < m.height) }
    ensures low { IfOk result (λ m. m.height ≤ limit) }
{
    Ok(Measured {
        expr: Expr::Attribute(Box::new(
            alloc,
            Access {
                front: left.expr,
                name,
            },
        )?),
        height: left.height + 1,
    })
}

/// An expression and what stands in brackets behind it.
pub(crate) fn applied<'a>(
    alloc: Global,
    suffix: Suffix,
    left: Measured<'a>,
    inside: MeasuredArguments<'a>,
    limit: usize,
) -> Result<Measured<'a>, AllocError>
    requires left { left.height < limit }
    requires inside { inside.height < limit }
    ensures value { IfOk result (λ m. tree m.expr ≡ spec.applied suffix (tree left.entry.expr) (series_view inside.entry.arguments)) }
    ensures grows { IfOk result (λ m. left.entry.height < m.height) }
    ensures low { IfOk result (λ m. m.height ≤ limit) }
{
    let height = left.height.max(inside.height) + 1;
    Ok(Measured {
        expr: Expr::Applied(
            suffix,
            Box::new(
                alloc,
                Application {
                    front: left.expr,
                    behind: inside.arguments,
                },
            )?,
        ),
        height,
    })
}

/// Two operands side by side.
fn operands<'a>(
    alloc: Global,
    left: Expr<'a>,
    right: Expr<'a>,
) -> Result<Box<Operands<'a>>, AllocError>
    ensures { IfOk result (λ o. (tree o.value.left ≡ tree left.entry) × (tree o.value.right ≡ tree right.entry)) }
{
    Ok(Box::new(alloc, Operands { left, right })?)
}

/// Two operands.
pub(crate) fn binary<'a>(
    alloc: Global,
    operator: Operator,
    left: Measured<'a>,
    right: Measured<'a>,
    limit: usize,
) -> Result<Measured<'a>, AllocError>
    requires left { left.height < limit }
    requires right { right.height < limit }
    ensures value { IfOk result (λ m. tree m.expr ≡ spec.binary operator (tree left.entry.expr) (tree right.entry.expr)) }
    ensures grows { IfOk result (λ m. left.entry.height < m.height) }
    ensures low { IfOk result (λ m. m.height ≤ limit) }
{
    let height = left.height.max(right.height) + 1;
    Ok(Measured {
        expr: Expr::Binary(operator, operands(alloc, left.expr, right.expr)?),
        height,
    })
}

/// A comparison.
pub(crate) fn compare<'a>(
    alloc: Global,
    comparison: Comparison,
    left: Measured<'a>,
    right: Measured<'a>,
    limit: usize,
) -> Result<Measured<'a>, AllocError>
    requires left { left.height < limit }
    requires right { right.height < limit }
    ensures value { IfOk result (λ m. tree m.expr ≡ spec.compare comparison (tree left.entry.expr) (tree right.entry.expr)) }
    ensures low { IfOk result (λ m. m.height ≤ limit) }
{
    let height = left.height.max(right.height) + 1;
    Ok(Measured {
        expr: Expr::Compare(comparison, operands(alloc, left.expr, right.expr)?),
        height,
    })
}

/// A prefix and its operand.
pub(crate) fn prefixed<'a>(
    alloc: Global,
    prefix: Prefix,
    inside: Measured<'a>,
    limit: usize,
) -> Result<Measured<'a>, AllocError>
    requires { inside.height < limit }
    ensures value { IfOk result (λ m. tree m.expr ≡ spec.prefixed prefix (tree inside.entry.expr)) }
    ensures low { IfOk result (λ m. m.height ≤ limit) }
{
    Ok(Measured {
        expr: Expr::Prefixed(prefix, Box::new(alloc, inside.expr)?),
        height: inside.height + 1,
    })
}

/// What stands in brackets.
pub(crate) fn bracketed<'a>(
    alloc: Global,
    bracket: Delimiter,
    inside: MeasuredArguments<'a>,
    limit: usize,
) -> Result<Measured<'a>, AllocError>
    requires { inside.height < limit }
    ensures value { IfOk result (λ m. tree m.expr ≡ spec.bracketed bracket (series_view inside.entry.arguments)) }
    ensures low { IfOk result (λ m. m.height ≤ limit) }
{
    Ok(Measured {
        expr: Expr::Bracketed(bracket, Box::new(alloc, inside.arguments)?),
        height: inside.height + 1,
    })
}

/// A name.
pub(crate) fn name<'a>(slice: Slice<'a>) -> Measured<'a>
    ensures value { tree result.expr ≡ spec.name slice.entry }
    ensures low { result.height ≡ 1 }
{
    Measured {
        expr: Expr::Name(slice),
        height: 1,
    }
}

/// A number.
pub(crate) fn number<'a>(slice: Slice<'a>) -> Measured<'a>
    ensures value { tree result.expr ≡ spec.number slice.entry }
    ensures low { result.height ≡ 1 }
{
    Measured {
        expr: Expr::Number(slice),
        height: 1,
    }
}

/// Texts in quotes.
pub(crate) fn text<'a>(slice: Slice<'a>) -> Measured<'a>
    ensures value { tree result.expr ≡ spec.text slice.entry }
    ensures low { result.height ≡ 1 }
{
    Measured {
        expr: Expr::Text(slice),
        height: 1,
    }
}

/// An argument by position.
pub(crate) fn positional<'a>(value: Measured<'a>) -> MeasuredArgument<'a>
    ensures value { argument_view result.argument ≡ spec.positional (tree value.entry.expr) }
    ensures low { result.height ≡ value.entry.height }
{
    MeasuredArgument {
        argument: Argument::Positional(value.expr),
        height: value.height,
    }
}

/// An argument by keyword.
pub(crate) fn keyword<'a>(
    alloc: Global,
    key: Slice<'a>,
    value: Measured<'a>,
) -> Result<MeasuredArgument<'a>, AllocError>
    ensures value { IfOk result (λ m. argument_view m.argument ≡ spec.keyword key.entry (tree value.entry.expr)) }
    ensures low { IfOk result (λ m. m.height ≡ value.entry.height) }
{
    Ok(MeasuredArgument {
        argument: Argument::Keyword(key, Box::new(alloc, value.expr)?),
        height: value.height,
    })
}

/// An entry of a map.
pub(crate) fn entry<'a>(
    alloc: Global,
    key: Measured<'a>,
    value: Measured<'a>,
) -> Result<MeasuredArgument<'a>, AllocError>
    ensures value { IfOk result (λ m. argument_view m.argument ≡ spec.entry (tree key.entry.expr) (tree value.entry.expr)) }
    ensures low { IfOk result (λ m. m.height ≡ max key.entry.height value.entry.height) }
{
    let height = key.height.max(value.height);
    Ok(MeasuredArgument {
        argument: Argument::Entry(Box::new(alloc, key.expr)?, Box::new(alloc, value.expr)?),
        height,
    })
}

/// Puts an argument at the end.
#[tactic(auto, using(crate::proofs::Pushed::before_more))]
pub(crate) fn push<'a>(
    items: &mut Vec<Argument<'a>>,
    argument: Argument<'a>,
) -> Result<(), AllocError>
    ensures { OnOk result ((more : spec.Series) → before items.new.items more ≡ before items.old.items (spec.next (argument_view argument.entry) more)) }
{
    items.push(argument)?;
    Ok(())
}

/// These arguments, each with a comma.
#[tactic(auto, using(crate::proofs::Pushed::commas_view, crate::proofs::Pushed::commas_height))]
pub(crate) fn all_with_commas<'a>(items: Vec<Argument<'a>>, height: usize) -> MeasuredArguments<'a>
    requires { height ≡ height_all (before items.items spec.nothing) }
    ensures value { series_view result.arguments ≡ before items.entry.items spec.nothing }
    ensures low { result.height ≡ height }
{
    MeasuredArguments {
        arguments: Arguments::Several(items, true),
        height,
    }
}

/// These arguments, each with a comma, and a last one. A growth for it alone makes room for no more.
#[tactic(auto, using(crate::proofs::Pushed::one_view, crate::proofs::Pushed::one_height, crate::proofs::Pushed::last_view, crate::proofs::Pushed::last_height))]
pub(crate) fn all_with_last<'a>(
    mut items: Vec<Argument<'a>>,
    height: usize,
    argument: MeasuredArgument<'a>,
) -> Result<MeasuredArguments<'a>, AllocError>
    requires { height ≡ height_all (before items.items spec.nothing) }
    ensures value { IfOk result (λ m. series_view m.arguments ≡ before items.entry.items (spec.last (argument_view argument.entry.argument))) }
    ensures low { IfOk result (λ m. m.height ≡ max height argument.entry.height) }
{
    let height = height.max(argument.height);
    if items.is_empty() {
        return Ok(MeasuredArguments {
            arguments: Arguments::One(argument.argument),
            height,
        });
    }
    items.reserve_exact(1)?;
    items.push(argument.argument)?;
    Ok(MeasuredArguments {
        arguments: Arguments::Several(items, false),
        height,
    })
}
