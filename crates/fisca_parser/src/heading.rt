//! What stands on one line, from left to right.

ghost use Rattle.std.specs.Prelude.{◌≡◌, [], ◌∷◌};
ghost use Rattle.fisca_expr_parser.specs.Reading.{Reads};
ghost use Rattle.fisca_ast.specs.Views.{tree};
ghost use Rattle.fisca_parser.specs.Headings as spec;
ghost use Rattle.fisca_parser.specs.Steps.Headings as steps;

use crate::start::start_of;
use fisca_ast::{Expr, FormulaKind, Signature, Slice, is_name};
use fisca_expr_parser::{Cursor, Mode, ParseRefusal, Sign, read_all};
use fisca_lexer::Mark;
use fisca_time::Instant;
use std::alloc::Global;

/// The greatest height of an expression.
const LIMIT: usize = 120;

/// What a class is.
#[derive(Clone, Copy, Debug, PartialEq, Eq)]
pub(crate) enum Base {
    /// An Enum.
    Enum,
    /// A variable.
    Variable,
}

/// The end of the line.
fn end(cursor: &mut Cursor<'_, '_>) -> Result<(), ParseRefusal>
    ensures { Reads (λ _. tt) (spec.ended cursor.old) result cursor.new }
{
    if cursor.left() > 0 {
        return Err(cursor.misfit());
    }
    Ok(())
}

/// A word alone.
pub(crate) fn alone(cursor: &mut Cursor<'_, '_>) -> Result<(), ParseRefusal>
    ensures { Reads (λ _. tt) (spec.alone cursor.old) result cursor.new }
{
    cursor.advance();
    end(cursor)
}

/// `NAME = expression`
pub(crate) fn assignment<'a>(
    alloc: Global,
    cursor: &mut Cursor<'a, '_>,
    mode: Mode,
) -> Result<(Slice<'a>, Expr<'a>), ParseRefusal>
    ensures { Reads (λ p. (p.0, tree p.1)) (spec.assignment mode cursor.old) result cursor.new }
{
    let name = cursor.take_name()?;
    cursor.expect(Mark::Equal)?;
    let value = read_all(alloc, cursor, mode, LIMIT)?;
    Ok((name, value))
}

/// `return expression`
pub(crate) fn returned<'a>(
    alloc: Global,
    cursor: &mut Cursor<'a, '_>,
    mode: Mode,
) -> Result<Expr<'a>, ParseRefusal>
    ensures { Reads tree (spec.returned mode cursor.old) result cursor.new }
{
    cursor.advance();
    read_all(alloc, cursor, mode, LIMIT)
}

/// A text in quotes that ends the line.
fn text<'a>(cursor: &mut Cursor<'a, '_>) -> Result<Slice<'a>, ParseRefusal>
    ensures { Reads (λ t. t) (steps.text cursor.old) result cursor.new }
{
    match cursor.sign() {
        None => Err(cursor.refuse(FormulaKind::Syntax)),
        Some(Sign::Text(content)) => {
            cursor.advance();
            if cursor.left() > 0 {
                return Err(cursor.refuse(FormulaKind::Unsupported));
            }
            Ok(content)
        }
        Some(Sign::Word(_) | Sign::Number(_) | Sign::Mark(_)) => {
            Err(cursor.refuse(FormulaKind::Unsupported))
        }
    }
}

/// `NAME = STRING`
pub(crate) fn labelled<'a>(
    cursor: &mut Cursor<'a, '_>,
) -> Result<(Slice<'a>, Slice<'a>), ParseRefusal>
    ensures { Reads (λ p. p) (spec.labelled cursor.old) result cursor.new }
{
    let name = cursor.take_name()?;
    cursor.expect(Mark::Equal)?;
    let content = text(cursor)?;
    Ok((name, content))
}

/// The parenthesis before the base of a class.
fn bases_open(cursor: &mut Cursor<'_, '_>) -> Result<(), ParseRefusal>
    ensures { Reads (λ _. tt) (spec.bases_open cursor.old) result cursor.new }
{
    if cursor.begins(Mark::Colon) {
        return Err(cursor.refuse(FormulaKind::Unsupported));
    }
    cursor.expect(Mark::Open)
}

/// The base of a class.
#[tactic(auto, unfolding(crate::specs::Steps::Headings::base_of))]
fn base_of(cursor: &mut Cursor<'_, '_>) -> Result<Base, ParseRefusal>
    ensures { Reads (λ b. b) (steps.base_of cursor.old) result cursor.new }
{
    let Some(word) = cursor.word() else {
        if cursor.begins(Mark::Close) {
            return Err(cursor.refuse(FormulaKind::Unsupported));
        }
        return Err(cursor.misfit());
    };
    let name = word.as_bytes();
    if name == b"Enum".as_slice() {
        cursor.advance();
        return Ok(Base::Enum);
    }
    if name == b"Variable".as_slice() {
        cursor.advance();
        return Ok(Base::Variable);
    }
    if is_name(name) {
        return Err(cursor.refuse(FormulaKind::Unsupported));
    }
    Err(cursor.misfit())
}

/// The parenthesis behind the base of a class.
fn bases_close(cursor: &mut Cursor<'_, '_>) -> Result<(), ParseRefusal>
    ensures { Reads (λ _. tt) (spec.bases_close cursor.old) result cursor.new }
{
    if cursor.begins(Mark::Comma) || cursor.begins(Mark::Dot) {
        return Err(cursor.refuse(FormulaKind::Unsupported));
    }
    cursor.expect(Mark::Close)
}

/// `class NAME(BASE):`
pub(crate) fn class_heading<'a>(
    cursor: &mut Cursor<'a, '_>,
) -> Result<(Slice<'a>, Base), ParseRefusal>
    ensures { Reads (λ p. p) (spec.class_heading cursor.old) result cursor.new }
{
    cursor.advance();
    let name = cursor.take_name()?;
    bases_open(cursor)?;
    let base = base_of(cursor)?;
    bases_close(cursor)?;
    cursor.expect(Mark::Colon)?;
    end(cursor)?;
    Ok((name, base))
}

/// The name of a formula.
#[tactic(auto, unfolding(crate::specs::Steps::Headings::start))]
fn start(cursor: &mut Cursor<'_, '_>) -> Result<Instant, ParseRefusal>
    ensures { Reads (λ d. d) (steps.start cursor.old) result cursor.new }
{
    let Some(word) = cursor.word() else {
        return Err(cursor.refuse(FormulaKind::Syntax));
    };
    if !is_name(word.as_bytes()) {
        return Err(cursor.refuse(FormulaKind::Syntax));
    }
    match start_of(word.as_bytes()) {
        Some(start) => {
            cursor.advance();
            Ok(start)
        }
        None => Err(cursor.refuse(FormulaKind::Unsupported)),
    }
}

/// A name that is not this one.
#[tactic(auto, unfolding(crate::specs::Steps::Headings::other_name))]
fn other_name<'a>(cursor: &mut Cursor<'a, '_>, first: &Slice<'a>) -> Result<Slice<'a>, ParseRefusal>
    ensures { Reads (λ n. n) (steps.other_name first.now cursor.old) result cursor.new }
{
    if let Some(word) = cursor.word() {
        if word.as_bytes() == first.as_bytes() {
            return Err(cursor.refuse(FormulaKind::Syntax));
        }
    }
    cursor.take_name()
}

/// A name that is none of these.
#[tactic(auto, unfolding(crate::specs::Steps::Headings::third_name))]
fn third_name<'a>(
    cursor: &mut Cursor<'a, '_>,
    first: &Slice<'a>,
    second: &Slice<'a>,
) -> Result<Slice<'a>, ParseRefusal>
    ensures { Reads (λ n. n) (steps.third_name first.now second.now cursor.old) result cursor.new }
{
    if let Some(word) = cursor.word() {
        if word.as_bytes() == first.as_bytes() {
            return Err(cursor.refuse(FormulaKind::Syntax));
        }
    }
    other_name(cursor, second)
}

/// Past a comma, if it comes next.
fn past_comma(cursor: &mut Cursor<'_, '_>)
    ensures { cursor.new ≡ steps.past_comma cursor.old }
{
    if cursor.begins(Mark::Comma) {
        cursor.advance();
    }
}

/// Behind the second name: perhaps a comma, and then perhaps a third one.
#[tactic(auto, unfolding(crate::specs::Steps::Headings::third))]
fn third<'a>(
    cursor: &mut Cursor<'a, '_>,
    first: &Slice<'a>,
    second: &Slice<'a>,
) -> Result<Option<Slice<'a>>, ParseRefusal>
    ensures { Reads (λ n. n) (steps.third first.now second.now cursor.old) result cursor.new }
{
    if !cursor.begins(Mark::Comma) {
        return Ok(None);
    }
    cursor.advance();
    if cursor.begins(Mark::Close) {
        return Ok(None);
    }
    let name = third_name(cursor, first, second)?;
    past_comma(cursor);
    Ok(Some(name))
}

/// Two names or three.
fn signature<'a>(cursor: &mut Cursor<'a, '_>) -> Result<Signature<'a>, ParseRefusal>
    ensures { Reads (λ s. s) (spec.signature cursor.old) result cursor.new }
{
    let entity = cursor.take_name()?;
    cursor.expect(Mark::Comma)?;
    let period = other_name(cursor, &entity)?;
    let parameters = third(cursor, &entity, &period)?;
    Ok(Signature {
        entity,
        period,
        parameters,
    })
}

/// `def NAME(a, b):` or `def NAME(a, b, c):`
pub(crate) fn definition_heading<'a>(
    cursor: &mut Cursor<'a, '_>,
) -> Result<(Instant, Signature<'a>), ParseRefusal>
    ensures { Reads (λ p. p) (spec.definition_heading cursor.old) result cursor.new }
{
    cursor.advance();
    let start = start(cursor)?;
    cursor.expect(Mark::Open)?;
    let signature = signature(cursor)?;
    cursor.expect(Mark::Close)?;
    cursor.expect(Mark::Colon)?;
    end(cursor)?;
    Ok((start, signature))
}
