//! Lists of entities.

ghost use Rattle.std.specs.Prelude.{◌≡◌, map};
ghost use Rattle.fisca_attributes.specs.Values.{is_among};
ghost use Rattle.fisca_ast.specs.Steps.Groups.{bare as unwrapped};
ghost use Rattle.fisca_ast.specs.Views.{tree, argument_view};
ghost use Rattle.fisca_ast.specs.Outcomes.{Gives};
ghost use Rattle.fisca_ast.specs.ModuleViews.{assigned};
ghost use Rattle.fisca_rules.specs.Build as spec;
ghost use Rattle.fisca_rules.specs.Steps.Build as steps;

use fisca_ast::{Argument, Assignment, Expr, FormulaKind, bare};
use fisca_attributes::items_of;
use fisca_declarations::Declared;

/// Whether this is the constant of an entity.
fn is_constant(declared: &Declared<'_>, name: &str) -> bool
    ensures { result ≡ is_among declared.now.constants name.now }
{
    declared.constants.contains(name)
}

/// Whether a value is the constant of an entity.
fn is_entity(declared: &Declared<'_>, value: &Expr<'_>) -> bool
    ensures { result ≡ spec.names_known declared.now (unwrapped (tree value.now)) }
{
    match bare(value) {
        Expr::Name(name) => is_constant(declared, name.as_str()),
        Expr::Number(_)
        | Expr::Text(_)
        | Expr::Bracketed(_, _)
        | Expr::Attribute(_)
        | Expr::Applied(_, _)
        | Expr::Prefixed(_, _)
        | Expr::Binary(_, _)
        | Expr::Compare(_, _) => false,
    }
}

/// Whether an element of a list is the constant of an entity.
fn is_known(declared: &Declared<'_>, argument: &Argument<'_>) -> bool
    ensures { result ≡ steps.is_known declared.now (argument_view argument.now) }
{
    match argument {
        Argument::Positional(value) => is_entity(declared, value),
        Argument::Keyword(..) | Argument::Entry(..) => false,
    }
}

/// Whether all elements of a list are constants of entities.
fn all_known(declared: &Declared<'_>, items: &[Argument<'_>]) -> bool
    ensures { result ≡ steps.all_known declared.now (map argument_view items.now) }
{
    for argument in items {
        if !is_known(declared, argument) {
            return false;
        }
    }
    true
}

/// The elements of a list.
fn listed_in<'e, 'a>(value: &'e Expr<'a>) -> &'e [Argument<'a>]
    ensures { map argument_view result.now ≡ steps.listed_in (tree value.now) }
{
    match bare(value) {
        Expr::Bracketed(_, inside) => items_of(inside),
        Expr::Name(_)
        | Expr::Number(_)
        | Expr::Text(_)
        | Expr::Attribute(_)
        | Expr::Applied(_, _)
        | Expr::Prefixed(_, _)
        | Expr::Binary(_, _)
        | Expr::Compare(_, _) => &[],
    }
}

/// Whether a list has nothing but constants of entities, or `UnknownName`.
pub(crate) fn entities_fit(
    declared: &Declared<'_>,
    written: &Assignment<'_>,
) -> Result<(), FormulaKind>
    ensures { Gives (λ _. tt) (steps.entities_fit declared.now (assigned written.now)) result }
{
    if all_known(declared, listed_in(&written.value)) {
        Ok(())
    } else {
        Err(FormulaKind::UnknownName)
    }
}
