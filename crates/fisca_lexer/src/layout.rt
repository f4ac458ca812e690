//! Lines, indentations and brackets between tokens.

ghost use Rattle.std.specs.Prelude.{◌≡◌, ◌≢◌, ◌≤◌, ◌<◌, ◌+◌, ◌^◌, MatchResult, OnOk, Ok, Err, Some};
ghost use Rattle.fisca_lexer.specs.Layout as spec;
ghost use Rattle.fisca_lexer.specs.Steps.Layout as steps;
ghost use Rattle.fisca_lexer.specs.declared.token.Form.TheVariants as form;

use crate::levels::Levels;
use crate::token::{Class, Mark, Piece, Token};
use fisca_ast::{FormulaFault, FormulaKind};
use std::alloc::Global;

/// What stands before the next piece on its line.
#[derive(Clone, Copy, Debug, PartialEq, Eq)]
pub(crate) enum Margin {
    /// So many spaces alone.
    Spaces(u32),
    /// Blanks alone, a tab among them.
    Tabs,
    /// A token, or the line begins within brackets.
    Tokens,
}

/// Where a reader of tokens stands.
#[derive(Drop)]
pub(crate) struct Layout {
    /// The line, counted from 1.
    pub line: u32,
    /// How many brackets are open.
    pub depth: usize,
    /// What stands before the next piece on its line.
    pub margin: Margin,
    /// The open indentations.
    pub levels: Levels,
}

/// Whether a bracket that opens.
fn opens(mark: Mark) -> bool
    ensures { result ≡ steps.opens mark }
{
    matches!(mark, Mark::Open | Mark::OpenList | Mark::OpenMap)
}

/// Whether a bracket that closes.
fn closes(mark: Mark) -> bool
    ensures { result ≡ steps.closes mark }
{
    matches!(mark, Mark::Close | Mark::CloseList | Mark::CloseMap)
}

/// How many brackets are open behind a token.
fn depth_after(class: Class, depth: usize) -> usize
    requires { depth < 2 ^ 63 }
    ensures value { result ≡ steps.depth_after class depth }
    ensures bound { result ≤ depth + 1 }
{
    match class {
        Class::Word | Class::Number | Class::Quoted => depth,
        Class::Mark(mark) if opens(mark) => depth + 1,
        Class::Mark(mark) if closes(mark) => depth.saturating_sub(1),
        Class::Mark(_) => depth,
    }
}

/// What stands before the next piece behind these blanks.
fn behind_blanks(margin: Margin, blanks: Margin) -> Margin
    ensures { result ≡ steps.behind_blanks margin blanks }
{
    match margin {
        Margin::Tokens => Margin::Tokens,
        Margin::Tabs => Margin::Tabs,
        Margin::Spaces(_) => blanks,
    }
}

/// What stands before the first piece of a line.
fn line_start(depth: usize) -> Margin
    ensures { result ≡ steps.line_start depth }
{
    if depth == 0 {
        Margin::Spaces(0)
    } else {
        Margin::Tokens
    }
}

impl Layout {
    /// At the beginning of a text.
    pub fn new(alloc: Global) -> Layout
        ensures { result ≡ spec.start }
    {
        Layout {
            line: 1,
            depth: 0,
            margin: Margin::Spaces(0),
            levels: Levels::new(alloc),
        }
    }

    /// The indentation of a token here, where it begins a line.
    fn begin(&mut self) -> Result<Option<u32>, FormulaFault>
        ensures value { MatchResult result (λ indent. spec.begun self.old.line self.old.margin self.old.levels ≡ Ok (indent, self.new.levels))
            (λ f. f.kind ≢ FormulaKind.Memory → spec.begun self.old.line self.old.margin self.old.levels ≡ Err f) }
        ensures line { self.new.line ≡ self.old.line }
        ensures depth { self.new.depth ≡ self.old.depth }
    {
        match self.margin {
            Margin::Tokens => Ok(None),
            Margin::Tabs => Err(FormulaFault {
                line: self.line as usize,
                kind: FormulaKind::Indent,
            }),
            Margin::Spaces(column) => {
                if self.levels.go_to(column)? {
                    return Ok(Some(column));
                }
                Err(FormulaFault {
                    line: self.line as usize,
                    kind: FormulaKind::Indent,
                })
            }
        }
    }

    /// The token that a piece of this class at this place is. The reader stands behind it then.
    pub fn token(&mut self, at: usize, piece: Piece, class: Class) -> Result<Token, FormulaFault>
        requires place { at + piece.length < 2 ^ 32 }
        requires line { self.old.line + piece.lines < 2 ^ 32 }
        requires depth { self.old.depth < 2 ^ 63 }
        ensures value { MatchResult result (λ token. spec.step_of at self.old piece (form.Token class) ≡ Ok (Some token, self.new))
            (λ f. f.kind ≢ FormulaKind.Memory → spec.step_of at self.old piece (form.Token class) ≡ Err f) }
        ensures line { OnOk result (self.new.line ≤ self.old.line + piece.lines) }
        ensures depth { OnOk result (self.new.depth ≤ self.old.depth + 1) }
    {
        let indent = self.begin()?;
        let token = Token {
            start: at as u32,
            end: (at + piece.length) as u32,
            line: self.line,
            class,
            indent,
        };
        self.line += piece.lines as u32;
        self.depth = depth_after(class, self.depth);
        self.margin = Margin::Tokens;
        Ok(token)
    }

    /// Goes past blanks.
    pub fn pass_blanks(&mut self, blanks: Margin)
        ensures { self.new ≡ record self.old { margin = steps.behind_blanks self.old.margin blanks } }
    {
        self.margin = behind_blanks(self.margin, blanks);
    }

    /// Goes past the end of a line, which has so many line feeds.
    pub fn end_line(&mut self, feeds: usize)
        requires { self.old.line + feeds < 2 ^ 32 }
        ensures { self.new ≡ record self.old { line = self.old.line + feeds; margin = steps.line_start self.old.depth } }
    {
        self.line += feeds as u32;
        self.margin = line_start(self.depth);
    }
}
