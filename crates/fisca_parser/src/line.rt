//! Lines of tokens.

ghost use Rattle.std.specs.Prelude.{◌≡◌, ◌≤◌, ◌<◌, [], ◌++◌, length, take, drop, reverse, IfOk, IfSome, MatchOption, OnOk};
ghost use Rattle.fisca_expr_parser.specs.Views.{line_in};
ghost use Rattle.fisca_parser.specs.Lines as spec;
ghost use Rattle.fisca_parser.specs.Steps.Lines as steps;

use fisca_ast::{FormulaFault, FormulaKind};
use fisca_expr_parser::{Cursor, ParseRefusal};
use fisca_lexer::Token;
use std::alloc::{AllocError, Global};
use std::marker::Model;
use std::rc::Rc;

/// So many tokens at most make a group, if no line is longer.
const GROUP: usize = 8192;

/// A line: how far it is indented, and its tokens. They stand in a group that the lines around it share; it goes with the last of
/// them, so that trees find room in one piece.
#[derive(Drop)]
pub(crate) struct Line {
    indent: usize,
    group: Rc<Vec<Token>>,
    start: usize,
    end: usize,
}

impl Model for Line {
    ghost use Rattle.std.specs.Prelude.{◌≤◌, length, take, drop};
    ghost use Rattle.fisca_parser.specs.Lines.{Line};

    ghost Value = { Line };

    ghost view = { λ l. record { indent = l.indent; tokens = drop l.start (take l.end l.group.value.items) } };

    ghost invariant = { λ l. (l.start ≤ l.end) × (l.end ≤ length l.group.value.items) };
}

/// The line of the token behind which so many are left, or of the last one.
fn line_of(tokens: &[Token], left: usize) -> usize
    ensures { result ≡ line_in tokens.now left }
{
    match tokens.get(tokens.len().saturating_sub(left)) {
        Some(token) => token.line as usize,
        None => match tokens.last() {
            Some(token) => token.line as usize,
            None => 1,
        },
    }
}

/// The line of the last token.
pub(crate) fn last_line(tokens: &[Token]) -> usize
    ensures { result ≡ steps.last_line tokens.now }
{
    line_of(tokens, 0)
}

impl Line {
    ghost use Rattle.fisca_expr_parser.specs.Signs.{signs};

    /// How far it is indented.
    pub fn indent(&self) -> usize
        ensures { result ≡ self.now.indent }
    {
        self.indent
    }

    /// The number of the line on which it begins.
    pub fn number(&self) -> usize
        ensures { result ≡ steps.number self.now }
    {
        let tokens = self.tokens();
        line_of(tokens, tokens.len())
    }

    /// Its tokens.
    pub fn tokens(&self) -> &[Token]
        ensures { result.now ≡ self.now.tokens }
    {
        let (up_to_it, _) = self.group.as_slice().split_at(self.end);
        up_to_it.split_at(self.start).1
    }

    /// At its first token, in this text.
    pub fn cursor<'a, 't>(&'t self, text: &'a str) -> Cursor<'a, 't>
        ensures { result ≡ signs text.now self.now.tokens }
    {
        Cursor::new(text, self.tokens())
    }

    /// This fault on its first line.
    pub fn refuse(&self, kind: FormulaKind) -> FormulaFault
        ensures { result ≡ spec.fault (steps.number self.now) kind }
    {
        FormulaFault {
            line: self.number(),
            kind,
        }
    }

    /// The fault of a refusal, at the line of its token; an expression that is too high is told on the first line, and want of
    /// memory has none.
    pub fn placed(&self, refusal: ParseRefusal) -> FormulaFault
        ensures { result ≡ steps.fault_in self.now refusal }
    {
        let line = match refusal.kind {
            FormulaKind::TooDeep => self.number(),
            FormulaKind::Memory => 0,
            _ => line_of(self.tokens(), refusal.left),
        };
        FormulaFault {
            line,
            kind: refusal.kind,
        }
    }
}

/// How many tokens stand in front that begin no line.
fn within_len(tokens: &[Token]) -> usize
    ensures value { result ≡ steps.within_len tokens.now }
    ensures bound { result ≤ length tokens.now }
{
    tokens.iter().take_while(|t| t.indent.is_none()).count()
}

/// How many tokens stand at the end that begin no line.
fn last_within_len(tokens: &[Token]) -> usize
    ensures value { result ≡ steps.within_len (reverse tokens.now) }
    ensures bound { result ≤ length tokens.now }
{
    tokens
        .iter()
        .rev()
        .take_while(|t| t.indent.is_none())
        .count()
}

/// Where the last line begins, if there is one.
#[tactic(auto, using(crate::proofs::Split::none_cut, crate::proofs::Split::last_cut, crate::proofs::Split::last_alone))]
fn last_start(tokens: &[Token]) -> Option<usize>
    ensures value { MatchOption result (steps.lines tokens.now ≡ []) (λ at. steps.lines tokens.now ≡ steps.lines (take at tokens.now) ++ steps.lines (drop at tokens.now)) }
    ensures alone { IfSome result (λ at. steps.lines (drop at tokens.now) ≡ spec.line_by (spec.indent_of (drop at tokens.now)) (drop at tokens.now) []) }
    ensures bound { IfSome result (λ at. at < length tokens.now) }
{
    let within = last_within_len(tokens);
    if within == tokens.len() {
        return None;
    }
    Some(tokens.len() - within - 1)
}

/// Where the last group of lines begins, if there is a line.
#[tactic(auto, using(crate::proofs::Split::first_cut))]
fn group_start(tokens: &[Token]) -> Option<usize>
    ensures value { MatchOption result (steps.lines tokens.now ≡ []) (λ at. steps.lines tokens.now ≡ steps.lines (take at tokens.now) ++ steps.lines (drop at tokens.now)) }
    ensures bound { IfSome result (λ at. at < length tokens.now) }
{
    let from = tokens.len().saturating_sub(GROUP);
    let late = tokens.split_at(from).1;
    let within = within_len(late);
    if within < late.len() {
        return Some(from + within);
    }
    last_start(tokens)
}

/// Takes the last lines' tokens off, if there is a line. What they took is given back before it is much, so that few tokens are kept
/// twice.
fn cut(tokens: &mut Vec<Token>) -> Result<Option<Vec<Token>>, AllocError>
    ensures value { IfOk result (λ cut. MatchOption cut (steps.lines tokens.old.items ≡ [])
        (λ group. steps.lines tokens.old.items ≡ steps.lines tokens.new.items ++ steps.lines group.items)) }
    ensures shorter { IfOk result (λ cut. IfSome cut (λ _. length tokens.new.items < length tokens.old.items)) }
{
    let Some(at) = group_start(tokens.as_slice()) else {
        return Ok(None);
    };
    let group = tokens.split_off(at)?;
    // (each time that memory is given back may cost a call of the system)
    if tokens.capacity() - tokens.len() > tokens.len() / 8 {
        tokens.shrink_to_fit();
    }
    Ok(Some(group))
}

/// Puts the line between two places of a group at the end, if its first token begins one.
fn push(
    found: &mut Vec<Line>,
    group: &Rc<Vec<Token>>,
    start: usize,
    end: usize,
) -> Result<(), AllocError>
    requires { (start < end) × (end ≤ length group.now.value.items) }
    ensures { OnOk result (found.new.items ≡ found.old.items ++ spec.line_by (spec.indent_of (drop start (take end group.now.value.items))) (drop start (take end group.now.value.items)) []) }
{
    if let Some(indent) = group[start].indent {
        found.push(Line {
            indent: indent as usize,
            group: Rc::clone(group)?,
            start,
            end,
        })?;
    }
    Ok(())
}

/// Puts the lines of a group at the end, the last one first.
#[tactic(auto, using(crate::proofs::Split::one_more, crate::proofs::Split::at_the_end))]
fn push_lines(found: &mut Vec<Line>, group: &Rc<Vec<Token>>) -> Result<(), AllocError>
    ensures { OnOk result (found.new.items ≡ found.old.items ++ reverse (steps.lines group.now.value.items)) }
{
    let mut end = group.len();
    while let Some(start) = last_start(group.as_slice().split_at(end).0) {
        push(found, group, start, end)?;
        end = start;
    }
    Ok(())
}

/// The lines of these tokens, the last one first.
#[tactic(auto, using(crate::proofs::Split::more, crate::proofs::Split::turned_back))]
pub(crate) fn lines(alloc: Global, mut tokens: Vec<Token>) -> Result<Vec<Line>, AllocError>
    ensures { IfOk result (λ v. reverse v.items ≡ steps.lines tokens.items) }
{
    let mut found = Vec::new(alloc);
    while let Some(group) = cut(&mut tokens)? {
        push_lines(&mut found, &Rc::new(alloc, group)?)?;
    }
    Ok(found)
}
