//! Sizes of expressions, where the name of a local counts as the expression that the local stands for.
ghost use Rattle.std.specs.Prelude.{◌≡◌, Bool, map, option_map, Some, None, if◌then◌else◌};
ghost use Rattle.fisca_ast.specs.Views.{argument_view, series_of, series_view, tree as tree_of};
ghost use Rattle.fisca_check_calls.specs.Counts.{size as size_view};
ghost use Rattle.fisca_check_calls.specs.Locals.{sizes};
ghost use Rattle.fisca_typing.specs.Sizes as spec;

use crate::locals::Locals;
use crate::size::{Size, above, beside, is_small, none, one};
use fisca_ast::{Argument, Arguments, Expr};

/// The size of an expression, counted no further than one past the limits.
#[cycle(counted)]
#[tactic(auto, using(crate::proofs::Counted::above_of, crate::proofs::Counted::beside_of))]
pub fn size_of(tree: &Expr, locals: &Locals) -> Size
    ensures { size_view result ≡ spec.capped (spec.size_of (sizes locals.now) (tree_of tree.now)) }
{
    match tree {
        Expr::Name(name) => locals.size_named(name.as_bytes()),
        Expr::Number(_) | Expr::Text(_) => one(),
        Expr::Bracketed(_, inside) => above(size_inside(inside, locals)),
        Expr::Attribute(access) => above(size_of(&access.front, locals)),
        Expr::Applied(_, application) => {
            let first = size_of(&application.front, locals);
            above(beside(first, size_inside(&application.behind, locals)))
        }
        Expr::Prefixed(_, inside) => above(size_of(inside, locals)),
        Expr::Binary(_, operands) => {
            let first = size_of(&operands.left, locals);
            above(beside(first, size_of(&operands.right, locals)))
        }
        Expr::Compare(_, operands) => {
            let first = size_of(&operands.left, locals);
            above(beside(first, size_of(&operands.right, locals)))
        }
    }
}

/// The size of what stands between brackets.
#[cycle(counted)]
fn size_inside(inside: &Arguments, locals: &Locals) -> Size
    ensures { size_view result ≡ spec.capped (spec.size_all (sizes locals.now) (series_view inside.now)) }
{
    match inside {
        Arguments::One(argument) => size_in(argument, locals),
        Arguments::Several(items, _) => size_all(items.as_slice(), locals),
    }
}

/// The size of some arguments.
#[cycle(counted)]
fn size_all(items: &[Argument], locals: &Locals) -> Size
    ensures { (comma : Bool) → size_view result ≡ spec.capped (spec.size_all (sizes locals.now) (series_of comma (map argument_view items.now))) }
{
    let mut found = none();
    for item in items {
        found = beside(found, size_in(item, locals));
    }
    found
}

/// The size of one of what stands between brackets.
#[cycle(counted)]
#[tactic(auto, using(crate::proofs::Counted::beside_of))]
fn size_in(argument: &Argument, locals: &Locals) -> Size
    ensures { size_view result ≡ spec.capped (spec.size_in (sizes locals.now) (argument_view argument.now)) }
{
    match argument {
        Argument::Positional(value) => size_of(value, locals),
        Argument::Keyword(_, value) => size_of(value, locals),
        Argument::Entry(key, value) => {
            let first = size_of(key, locals);
            beside(first, size_of(value, locals))
        }
    }
}

/// The size of an expression with the locals put in, where it is within the limits.
#[tactic(auto, using(crate::proofs::Counted::small_size, crate::proofs::Counted::large_size))]
pub fn small_size(tree: &Expr, locals: &Locals) -> Option<Size>
    ensures { let size = spec.size_of (sizes locals.now) (tree_of tree.now) in
        option_map size_view result ≡ (if spec.is_small size then Some size else None) }
{
    let size = size_of(tree, locals);
    if is_small(size) { Some(size) } else { None }
}
