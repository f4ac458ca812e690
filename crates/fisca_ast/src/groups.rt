//! Parentheses around one expression.

ghost use Rattle.std.specs.Prelude.{◌≡◌, map, option_map};
ghost use Rattle.fisca_ast.specs.Steps.Groups as spec;
ghost use Rattle.fisca_ast.specs.Views.{tree, argument_view, series_of, series_view};

use crate::tree::{Argument, Arguments, Delimiter, Expr};

/// An expression without the parentheses around it, however many: they group, and do nothing else.
#[cycle(bare)]
pub fn bare<'e, 'a>(value: &'e Expr<'a>) -> &'e Expr<'a>
    ensures { tree result.now ≡ spec.bare (tree value.now) }
{
    match value {
        Expr::Bracketed(Delimiter::Round, inside) => alone(inside).unwrap_or(value),
        Expr::Bracketed(Delimiter::Square | Delimiter::Curly, _)
        | Expr::Name(_)
        | Expr::Number(_)
        | Expr::Text(_)
        | Expr::Attribute(_)
        | Expr::Applied(_, _)
        | Expr::Prefixed(_, _)
        | Expr::Binary(_, _)
        | Expr::Compare(_, _) => value,
    }
}

/// What stands alone between brackets, if it does, without the parentheses around it.
#[cycle(bare)]
fn alone<'e, 'a>(inside: &'e Arguments<'a>) -> Option<&'e Expr<'a>>
    ensures { option_map (λ e. tree e.now) result ≡ spec.alone (series_view inside.now) }
{
    match inside {
        Arguments::One(argument) => alone_as(argument),
        Arguments::Several(items, comma) => alone_among(items.as_slice(), *comma),
    }
}

/// The only one of some arguments, if there is one and no comma.
#[cycle(bare)]
fn alone_among<'e, 'a>(items: &'e [Argument<'a>], comma: bool) -> Option<&'e Expr<'a>>
    ensures { option_map (λ e. tree e.now) result ≡ spec.alone (series_of comma (map argument_view items.now)) }
{
    if comma {
        return None;
    }
    if items.len() != 1 {
        return None;
    }
    alone_as(&items[0])
}

/// The value of an argument without a keyword.
#[cycle(bare)]
fn alone_as<'e, 'a>(argument: &'e Argument<'a>) -> Option<&'e Expr<'a>>
    ensures { option_map (λ e. tree e.now) result ≡ spec.bare_argument (argument_view argument.now) }
{
    match argument {
        Argument::Positional(value) => Some(bare(value)),
        Argument::Keyword(..) | Argument::Entry(..) => None,
    }
}
