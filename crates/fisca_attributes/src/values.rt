//! Values of arguments and attributes, as they are written.

ghost use Rattle.std.specs.Prelude.{◌≡◌, Ok, map, option_map};
ghost use Rattle.fisca_ast.specs.Views.{tree, argument_view, series_of};
ghost use Rattle.fisca_ast.specs.Outcomes.{Gives};
ghost use Rattle.fisca_attributes.specs.Steps.Values as spec;

use fisca_ast::{Argument, Delimiter, Expr, FormulaKind, Prefix, bare, content, is_name};
use fisca_num::{Fraction, NumFault};
use fisca_symbols::SourceText;
use std::alloc::Global;

/// A text in quotes.
pub fn text_value<'a>(alloc: Global, value: &Expr<'a>) -> Result<SourceText<'a>, FormulaKind>
    ensures { Gives (λ t. t) (spec.text_value (tree value.now)) result }
{
    match bare(value) {
        Expr::Text(source) => Ok(SourceText::owned(content(alloc, source.as_str())?)),
        Expr::Name(_)
        | Expr::Number(_)
        | Expr::Bracketed(_, _)
        | Expr::Attribute(_)
        | Expr::Applied(_, _)
        | Expr::Prefixed(_, _)
        | Expr::Binary(_, _)
        | Expr::Compare(_, _) => Err(FormulaKind::BadAttribute),
    }
}

#[tactic(auto, unfolding(crate::specs::Steps::Values::truth_of))]
fn truth_of(word: &[u8]) -> Result<bool, FormulaKind>
    ensures { result ≡ spec.truth_of word.now }
{
    if word == b"True".as_slice() {
        return Ok(true);
    }
    if word == b"False".as_slice() {
        return Ok(false);
    }
    Err(FormulaKind::BadAttribute)
}

/// `True` or `False`.
pub fn truth_value(value: &Expr<'_>) -> Result<bool, FormulaKind>
    ensures { result ≡ spec.truth_value (tree value.now) }
{
    match bare(value) {
        Expr::Name(word) => truth_of(word.as_bytes()),
        Expr::Number(_)
        | Expr::Text(_)
        | Expr::Bracketed(_, _)
        | Expr::Attribute(_)
        | Expr::Applied(_, _)
        | Expr::Prefixed(_, _)
        | Expr::Binary(_, _)
        | Expr::Compare(_, _) => Err(FormulaKind::BadAttribute),
    }
}

/// A name.
pub fn name_value<'a>(value: &Expr<'a>) -> Result<SourceText<'a>, FormulaKind>
    ensures { result ≡ spec.name_value (tree value.now) }
{
    match bare(value) {
        Expr::Name(word) => {
            if is_name(word.as_bytes()) {
                Ok(SourceText::borrowed(word.as_str()))
            } else {
                Err(FormulaKind::BadAttribute)
            }
        }
        Expr::Number(_)
        | Expr::Text(_)
        | Expr::Bracketed(_, _)
        | Expr::Attribute(_)
        | Expr::Applied(_, _)
        | Expr::Prefixed(_, _)
        | Expr::Binary(_, _)
        | Expr::Compare(_, _) => Err(FormulaKind::BadAttribute),
    }
}

fn number_said(said: Result<Fraction, NumFault>) -> Result<Fraction, FormulaKind>
    ensures { result ≡ spec.number_said said }
{
    match said {
        Ok(number) => Ok(number),
        Err(_) => Err(FormulaKind::BadAttribute),
    }
}

/// A number without sign.
fn unsigned_value(value: &Expr<'_>) -> Result<Fraction, FormulaKind>
    ensures { result ≡ spec.unsigned_value (tree value.now) }
{
    match bare(value) {
        Expr::Number(digits) => number_said(Fraction::from_literal(digits.as_bytes())),
        Expr::Name(_)
        | Expr::Text(_)
        | Expr::Bracketed(_, _)
        | Expr::Attribute(_)
        | Expr::Applied(_, _)
        | Expr::Prefixed(_, _)
        | Expr::Binary(_, _)
        | Expr::Compare(_, _) => Err(FormulaKind::BadAttribute),
    }
}

fn with_prefix(
    prefix: Prefix,
    number: Result<Fraction, FormulaKind>,
) -> Result<Fraction, FormulaKind>
    ensures { result ≡ spec.with_prefix prefix number }
{
    match prefix {
        Prefix::Minus => Ok(number?.neg()),
        Prefix::Plus | Prefix::Not => Err(FormulaKind::BadAttribute),
    }
}

/// A number, perhaps with `-`.
pub fn number_value(value: &Expr<'_>) -> Result<Fraction, FormulaKind>
    ensures { result ≡ spec.number_value (tree value.now) }
{
    match bare(value) {
        Expr::Number(digits) => number_said(Fraction::from_literal(digits.as_bytes())),
        Expr::Prefixed(prefix, operand) => with_prefix(*prefix, unsigned_value(&**operand)),
        Expr::Name(_)
        | Expr::Text(_)
        | Expr::Bracketed(_, _)
        | Expr::Attribute(_)
        | Expr::Applied(_, _)
        | Expr::Binary(_, _)
        | Expr::Compare(_, _) => Err(FormulaKind::BadAttribute),
    }
}

/// The natural number that a number is.
fn natural(number: Fraction) -> Result<u64, FormulaKind>
    ensures { result ≡ spec.natural number }
{
    if number.denominator() != 1 || number.numerator() < 0 {
        return Err(FormulaKind::BadAttribute);
    }
    Ok(number.numerator() as u64)
}

/// A whole number without sign.
pub fn whole_value(value: &Expr<'_>) -> Result<u64, FormulaKind>
    ensures { result ≡ spec.whole_value (tree value.now) }
{
    natural(unsigned_value(value)?)
}

/// A whole number from 1.
pub fn count_value(value: &Expr<'_>) -> Result<u64, FormulaKind>
    ensures { result ≡ spec.count_value (tree value.now) }
{
    let count = whole_value(value)?;
    if count == 0 {
        return Err(FormulaKind::BadAttribute);
    }
    Ok(count)
}
