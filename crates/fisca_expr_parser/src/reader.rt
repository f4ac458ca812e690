//! Expressions, by how tightly operators bind.

ghost use Rattle.std.specs.Prelude.{◌≡◌, ◌≢◌, ◌≤◌, ◌<◌, ◌-◌, ◌+◌, length, suc, IfOk, IfErr, Some};
ghost use Rattle.fisca_ast.specs.Tree.{Tree, height};
ghost use Rattle.fisca_expr_parser.specs.Spelling.{IsExpression};
ghost use Rattle.fisca_expr_parser.specs.Steps.Marks.{beginning_of as beginning_at};
ghost use Rattle.fisca_expr_parser.specs.Reading as spec;
ghost use Rattle.fisca_expr_parser.specs.Reading.{Reads, reads};
ghost use Rattle.fisca_expr_parser.specs.Signs.{signs};
ghost use Rattle.fisca_ast.specs.Views.{tree, series_view, argument_view};
ghost use Rattle.fisca_expr_parser.specs.Views.{whole, Finds, line_in};
ghost use Rattle.fisca_expr_parser.specs.Steps.Views.{told};

use crate::cursor::Cursor;
use crate::made::{
    all_with_commas, all_with_last, applied, attribute, binary, bracketed, compare, entry, keyword,
    name, number, positional, prefixed, push, text,
};
use crate::marks::{Beginning, Joint, beginning_of, binds, bracket_of, closing_mark, tightness};
use crate::measured::{Measured, MeasuredArgument, MeasuredArguments};
use crate::mode::{Mode, Place};
use crate::places::{
    allows, place_behind, place_behind_suffix, place_in, takes_entry, takes_keyword, takes_many,
    takes_positional,
};
use crate::refusal::ParseRefusal;
use crate::sign::Sign;
use crate::words::is_atom;
use fisca_ast::{Expr, FormulaFault, FormulaKind, is_name};
use fisca_lexer::{Mark, Token};
use std::alloc::Global;

/// An atom, or what a mark begins.
#[tactic(auto, unfolding(crate::specs::Reading::operand))]
#[cycle(read)]
fn read_operand<'a>(
    alloc: Global,
    cursor: &mut Cursor<'a, '_>,
    mode: Mode,
    limit: usize,
) -> Result<Measured<'a>, ParseRefusal>
    requires { 0 < limit }
    ensures value { Reads (λ m. tree m.expr) (spec.operand (reads mode (limit - 1)) mode cursor.old) result cursor.new }
    ensures low { IfOk result (λ m. m.height ≤ limit) }
{
    match cursor.sign() {
        Some(Sign::Word(word)) => {
            if !is_atom(word.as_bytes()) {
                return Err(cursor.misfit());
            }
            let found = name(word);
            cursor.advance();
            Ok(found)
        }
        Some(Sign::Number(digits)) => {
            let found = number(digits);
            cursor.advance();
            Ok(found)
        }
        Some(Sign::Text(content)) => {
            let found = text(content);
            cursor.advance();
            Ok(found)
        }
        Some(Sign::Mark(mark)) => read_opened(alloc, cursor, mode, limit, mark),
        None => Err(cursor.refuse(FormulaKind::Syntax)),
    }
}

/// What a mark begins.
#[cycle(read)]
fn read_opened<'a>(
    alloc: Global,
    cursor: &mut Cursor<'a, '_>,
    mode: Mode,
    limit: usize,
    mark: Mark,
) -> Result<Measured<'a>, ParseRefusal>
    requires { 0 < limit }
    ensures value { Reads (λ m. tree m.expr) (spec.opened (reads mode (limit - 1)) mode (beginning_at mark) cursor.old) result cursor.new }
    ensures low { IfOk result (λ m. m.height ≤ limit) }
{
    match beginning_of(mark) {
        Beginning::Opens(bracket) => {
            if !allows(mode, bracket) {
                return Err(cursor.misfit());
            }
            cursor.advance();
            let place = place_in(mode, bracket);
            let end = closing_mark(bracket);
            let inside = read_enclosed(alloc, cursor, mode, limit - 1, place, end)?;
            Ok(bracketed(alloc, bracket, inside, limit)?)
        }
        Beginning::Sign(prefix) => {
            cursor.advance();
            let inside = read(alloc, cursor, mode, limit - 1, 5)?;
            Ok(prefixed(alloc, prefix, inside, limit)?)
        }
        Beginning::Nothing => Err(cursor.misfit()),
    }
}

/// What stands between brackets, and the closing one.
#[tactic(auto, unfolding(crate::specs::Reading::enclosed))]
#[cycle(read)]
fn read_enclosed<'a>(
    alloc: Global,
    cursor: &mut Cursor<'a, '_>,
    mode: Mode,
    depth: usize,
    place: Place,
    end: Mark,
) -> Result<MeasuredArguments<'a>, ParseRefusal>
    ensures value { Reads (λ m. series_view m.arguments) (spec.enclosed (reads mode depth) place end cursor.old) result cursor.new }
    ensures low { IfOk result (λ m. m.height ≤ depth) }
{
    let inside = read_series(alloc, cursor, mode, depth, place, end)?;
    cursor.expect(end)?;
    Ok(inside)
}

/// An argument.
#[tactic(auto, unfolding(crate::specs::Reading::argument))]
#[cycle(read)]
fn read_argument<'a>(
    alloc: Global,
    cursor: &mut Cursor<'a, '_>,
    mode: Mode,
    depth: usize,
    place: Place,
) -> Result<MeasuredArgument<'a>, ParseRefusal>
    ensures value { Reads (λ m. argument_view m.argument) (spec.argument (reads mode depth) place cursor.old) result cursor.new }
    ensures low { IfOk result (λ m. m.height ≤ depth) }
{
    match cursor.keyword() {
        Some(key) => {
            if !takes_keyword(place) || !is_name(key.as_bytes()) {
                return Err(cursor.misfit());
            }
            cursor.advance();
            cursor.advance();
            let value = read(alloc, cursor, mode, depth, 0)?;
            Ok(keyword(alloc, key, value)?)
        }
        None => {
            if takes_positional(place) {
                return Ok(positional(read(alloc, cursor, mode, depth, 0)?));
            }
            if takes_entry(place) {
                return read_entry(alloc, cursor, mode, depth);
            }
            Err(cursor.misfit())
        }
    }
}

/// An entry of a map.
#[cycle(read)]
fn read_entry<'a>(
    alloc: Global,
    cursor: &mut Cursor<'a, '_>,
    mode: Mode,
    depth: usize,
) -> Result<MeasuredArgument<'a>, ParseRefusal>
    ensures value { Reads (λ m. argument_view m.argument) (spec.mapped (reads mode depth) cursor.old) result cursor.new }
    ensures low { IfOk result (λ m. m.height ≤ depth) }
{
    let key = read(alloc, cursor, mode, depth, 0)?;
    cursor.expect(Mark::Colon)?;
    let value = read(alloc, cursor, mode, depth, 0)?;
    Ok(entry(alloc, key, value)?)
}

/// What stands behind an expression, past the mark that joins.
#[tactic(auto, unfolding(crate::specs::Reading::joined))]
#[cycle(read)]
fn read_joined<'a>(
    alloc: Global,
    cursor: &mut Cursor<'a, '_>,
    mode: Mode,
    limit: usize,
    joint: Joint,
    left: Measured<'a>,
) -> Result<Measured<'a>, ParseRefusal>
    requires { left.height < limit }
    ensures value { Reads (λ m. tree m.expr) (spec.joined (reads mode (limit - 1)) joint (tree left.entry.expr) cursor.old) result cursor.new }
    ensures grows { IfOk result (λ m. left.entry.height < m.height) }
    ensures low { IfOk result (λ m. m.height ≤ limit) }
{
    match joint {
        Joint::Access => {
            let name = cursor.take_name()?;
            Ok(attribute(alloc, left, name, limit)?)
        }
        Joint::Applied(suffix) => {
            let place = place_behind_suffix(suffix);
            let end = closing_mark(bracket_of(suffix));
            let inside = read_enclosed(alloc, cursor, mode, limit - 1, place, end)?;
            Ok(applied(alloc, suffix, left, inside, limit)?)
        }
        Joint::Operates(operator) => {
            let right = read(alloc, cursor, mode, limit - 1, binds(operator) + 1)?;
            Ok(binary(alloc, operator, left, right, limit)?)
        }
        Joint::Ends => Err(cursor.refuse(FormulaKind::Syntax)),
    }
}

/// A comparison with what comes next, where one comes.
#[tactic(auto, unfolding(crate::specs::Reading::compared))]
#[cycle(read)]
fn read_compared<'a>(
    alloc: Global,
    cursor: &mut Cursor<'a, '_>,
    mode: Mode,
    limit: usize,
    left: Measured<'a>,
) -> Result<Measured<'a>, ParseRefusal>
    requires some { 0 < limit }
    requires low { left.height ≤ limit }
    ensures value { Reads (λ m. tree m.expr) (spec.compared (reads mode (limit - 1)) limit (tree left.entry.expr) cursor.old) result cursor.new }
    ensures low { IfOk result (λ m. m.height ≤ limit) }
{
    let Some(comparison) = cursor.comparison() else {
        return Ok(left);
    };
    if left.height >= limit {
        return Err(cursor.refuse(FormulaKind::TooDeep));
    }
    cursor.advance();
    let right = read(alloc, cursor, mode, limit - 1, 1)?;
    if cursor.comparison().is_some() {
        return Err(cursor.refuse(FormulaKind::Unsupported));
    }
    Ok(compare(alloc, comparison, left, right, limit)?)
}

/// An expression at this level or tighter that is no higher than this.
#[cycle(read)]
pub(crate) fn read<'a>(
    alloc: Global,
    cursor: &mut Cursor<'a, '_>,
    mode: Mode,
    depth: usize,
    least: usize,
) -> Result<Measured<'a>, ParseRefusal>
    ensures value { Reads (λ m. tree m.expr) (reads mode depth least cursor.old) result cursor.new }
    ensures low { IfOk result (λ m. m.height ≤ depth) }
{
    if depth == 0 {
        return Err(cursor.refuse(FormulaKind::TooDeep));
    }
    read_within(alloc, cursor, mode, depth, least)
}

/// The same within a limit that leaves room for an atom.
#[cycle(read)]
fn read_within<'a>(
    alloc: Global,
    cursor: &mut Cursor<'a, '_>,
    mode: Mode,
    limit: usize,
    least: usize,
) -> Result<Measured<'a>, ParseRefusal>
    requires { 0 < limit }
    ensures value { Reads (λ m. tree m.expr) (spec.expression (reads mode (limit - 1)) mode limit least cursor.old) result cursor.new }
    ensures low { IfOk result (λ m. m.height ≤ limit) }
{
    let first = read_operand(alloc, cursor, mode, limit)?;
    if least == 0 {
        let left = read_onward(alloc, cursor, mode, limit, 1, first)?;
        read_compared(alloc, cursor, mode, limit, left)
    } else {
        read_onward(alloc, cursor, mode, limit, least, first)
    }
}

/// Goes on as long as marks follow that bind tightly enough, and the tree stays within the limit.
#[cycle(read)]
fn read_onward<'a>(
    alloc: Global,
    cursor: &mut Cursor<'a, '_>,
    mode: Mode,
    limit: usize,
    least: usize,
    first: Measured<'a>,
) -> Result<Measured<'a>, ParseRefusal>
    requires some { 0 < limit }
    requires low { first.height ≤ limit }
    ensures value { Reads (λ m. tree m.expr) (spec.climb (reads mode (limit - 1)) limit least limit (tree first.entry.expr) cursor.old) result cursor.new }
    ensures low { IfOk result (λ m. m.height ≤ limit) }
{
    let mut left = first;
    loop {
        let joint = cursor.joint();
        if tightness(joint) < least {
            return Ok(left);
        }
        if left.height >= limit {
            return Err(cursor.refuse(FormulaKind::TooDeep));
        }
        cursor.advance();
        left = read_joined(alloc, cursor, mode, limit, joint, left)?;
    }
}

/// Arguments, up to the closing bracket.
#[cycle(read)]
fn read_series<'a>(
    alloc: Global,
    cursor: &mut Cursor<'a, '_>,
    mode: Mode,
    depth: usize,
    place: Place,
    end: Mark,
) -> Result<MeasuredArguments<'a>, ParseRefusal>
    ensures value { Reads (λ m. series_view m.arguments) (spec.series (reads mode depth) place end (length cursor.old) cursor.old) result cursor.new }
    ensures low { IfOk result (λ m. m.height ≤ depth) }
{
    let mut place = place;
    let mut items = Vec::new(alloc);
    let mut height = 0;
    for _turn in 0..cursor.left() {
        if cursor.begins(end) && takes_many(place) {
            return Ok(all_with_commas(items, height));
        }
        let argument = read_argument(alloc, cursor, mode, depth, place)?;
        if !(cursor.begins(Mark::Comma) && takes_many(place)) {
            return Ok(all_with_last(items, height, argument)?);
        }
        cursor.advance();
        place = place_behind(place, &argument.argument);
        height = height.max(argument.height);
        push(&mut items, argument.argument)?;
    }
    Err(cursor.refuse(FormulaKind::Syntax))
}

#[tactic(auto, using(crate::proofs::Laws::expression_found, crate::proofs::Laws::expression_only))]
/// The tree of the expression that these tokens of a text are, in which an atom has height 1, up to this height: names,
/// numbers, texts in quotes (side by side they are one token), `True`, `False`, brackets, `.NAME`, calls, subscripts, prefixes,
/// `*` and `/`, `+` and `-`, `&`, `|`, and one comparison, from the tightest to the loosest. (Python's expressions, a subset.)
///
/// Else the first fault from the left, with its line: `Syntax` at the token that does not fit, or at the last one where more
/// would have to come; `Unsupported` at a second comparison, at `//` and `**`, and at `if`, `else`, `and`, `or`, `not`,
/// `for`, `while` and `elif`; `TooDeep` at the token behind which the tree would pass the height. `Memory`, at line 0, comes
/// only where a growth was refused.
pub fn read_expression<'a>(
    alloc: Global,
    text: &'a str,
    tokens: &[Token],
    mode: Mode,
    limit: usize,
) -> Result<Expr<'a>, FormulaFault>
    // What is read is spelled so, and stays within the limit.
    ensures found { IfOk result (λ e. IsExpression mode (signs text.now tokens.now) (tree e) × (height (tree e) ≤ limit)) }
    // What is spelled so and stays within the limit is read, unless memory runs out.
    ensures only { (e : Tree) → IsExpression mode (signs text.now tokens.now) e → height e ≤ limit → Finds e result }
    // Else the fault is the first one from the left, with its line.
    ensures told { IfErr result (λ f. f.kind ≢ FormulaKind.Memory → told mode limit text.now tokens.now ≡ Some f) }
{
    let mut cursor = Cursor::new(text, tokens);
    match read_all(alloc, &mut cursor, mode, limit) {
        Ok(expr) => Ok(expr),
        Err(refusal) => Err(placed(tokens, refusal)),
    }
}

/// The same, with the place of the first fault: the tree of the expression that all tokens are which are left, up to this
/// height, or the first fault and how many tokens are left there.
pub fn read_all<'a>(
    alloc: Global,
    cursor: &mut Cursor<'a, '_>,
    mode: Mode,
    limit: usize,
) -> Result<Expr<'a>, ParseRefusal>
    ensures { Reads tree (whole mode limit cursor.old) result cursor.new }
{
    let found = read(alloc, cursor, mode, limit, 0)?;
    if cursor.left() > 0 {
        return Err(cursor.misfit());
    }
    Ok(found.expr)
}

/// The fault of a refusal, at the line of its token.
fn placed(tokens: &[Token], refusal: ParseRefusal) -> FormulaFault
    ensures value { refusal.kind ≢ FormulaKind.Memory → result ≡ record { line = line_in tokens.now refusal.left; kind = refusal.kind } }
    ensures kind { result.kind ≡ refusal.kind }
{
    let line = match refusal.kind {
        FormulaKind::Memory => 0,
        _ => line_of(tokens, refusal.left),
    };
    FormulaFault {
        line,
        kind: refusal.kind,
    }
}

/// The line of the token behind which so many are left, or of the last one.
fn line_of(tokens: &[Token], left: usize) -> usize
    ensures { result ≡ line_in tokens.now left }
{
    match tokens.get(tokens.len().saturating_sub(left)) {
        Some(token) => token.line as usize,
        None => match tokens.last() {
            Some(token) => token.line as usize,
            None => 1,
        },
    }
}
