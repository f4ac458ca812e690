//! Lists of values, as they are written.

ghost use Rattle.std.specs.Prelude.{◌≡◌, map};
ghost use Rattle.fisca_ast.specs.Views.{tree, argument_view, series_of, series_view};
ghost use Rattle.fisca_ast.specs.Outcomes.{Gives};
ghost use Rattle.fisca_attributes.specs.Values as spec;
ghost use Rattle.fisca_attributes.specs.Steps.Values as steps;

use crate::values::text_value;
use fisca_ast::{Argument, Arguments, Delimiter, Expr, FormulaKind, bare};
use fisca_symbols::{SourceText, Texts};
use std::alloc::Global;

/// What the commas part, whether one follows the last or not.
fn parted<'e, 'a>(items: &'e [Argument<'a>], comma: bool) -> &'e [Argument<'a>]
    ensures { map argument_view result.now ≡ spec.items (series_of comma (map argument_view items.now)) }
{
    let _follows = comma;
    items
}

/// What stands between brackets, each apart.
pub fn items_of<'e, 'a>(inside: &'e Arguments<'a>) -> &'e [Argument<'a>]
    ensures { map argument_view result.now ≡ spec.items (series_view inside.now) }
{
    let (items, comma) = inside.parts();
    parted(items, comma)
}

/// A value that stands without a label.
pub fn positional<'e, 'a>(argument: &'e Argument<'a>) -> Result<&'e Expr<'a>, FormulaKind>
    ensures { Gives (λ e. tree e.now) (spec.position (argument_view argument.now)) result }
{
    match argument {
        Argument::Positional(value) => Ok(value),
        Argument::Keyword(_, _) | Argument::Entry(_, _) => Err(FormulaKind::BadAttribute),
    }
}

/// Texts in quotes.
fn each_text<'a>(alloc: Global, items: &[Argument<'a>]) -> Result<Vec<SourceText<'a>>, FormulaKind>
    ensures { Gives (λ v. v.items) (spec.each steps.text_value (map argument_view items.now)) result }
{
    let mut texts = Vec::new(alloc);
    for argument in items {
        texts.push(text_value(alloc, positional(argument)?)?)?;
    }
    Ok(texts)
}

/// What stands in square brackets.
pub fn list_of<'e, 'a>(value: &'e Expr<'a>) -> Result<&'e [Argument<'a>], FormulaKind>
    ensures { Gives (λ xs. map argument_view xs.now) (spec.listed (tree value.now)) result }
{
    match bare(value) {
        Expr::Bracketed(Delimiter::Square, inside) => { Ok(items_of(inside)) }
        Expr::Bracketed(Delimiter::Round | Delimiter::Curly, _)
        | Expr::Name(_)
        | Expr::Number(_)
        | Expr::Text(_)
        | Expr::Attribute(_)
        | Expr::Applied(_, _)
        | Expr::Prefixed(_, _)
        | Expr::Binary(_, _)
        | Expr::Compare(_, _) => Err(FormulaKind::BadAttribute),
    }
}

/// At least one text, in square brackets.
pub fn texts_value<'a>(alloc: Global, value: &Expr<'a>) -> Result<Texts<'a>, FormulaKind>
    ensures { Gives (λ t. t) (steps.texts_value (tree value.now)) result }
{
    let texts = each_text(alloc, list_of(value)?)?;
    if texts.is_empty() {
        return Err(FormulaKind::BadAttribute);
    }
    Ok(Texts::new(texts))
}

/// A text, or a list or tuple of texts.
pub fn references_value<'a>(alloc: Global, value: &Expr<'a>) -> Result<Texts<'a>, FormulaKind>
    ensures { Gives (λ t. t) (steps.references_value (tree value.now)) result }
{
    match bare(value) {
        Expr::Text(_) => {
            let mut texts = Vec::new(alloc);
            texts.push(text_value(alloc, value)?)?;
            Ok(Texts::new(texts))
        }
        Expr::Bracketed(Delimiter::Square | Delimiter::Round, inside) => {
            Ok(Texts::new(each_text(alloc, items_of(inside))?))
        }
        Expr::Bracketed(Delimiter::Curly, _)
        | Expr::Name(_)
        | Expr::Number(_)
        | Expr::Attribute(_)
        | Expr::Applied(_, _)
        | Expr::Prefixed(_, _)
        | Expr::Binary(_, _)
        | Expr::Compare(_, _) => Err(FormulaKind::BadAttribute),
    }
}
