//! The tokens that are left to a reader.

ghost use Rattle.std.specs.Prelude.{◌≡◌, [], ◌∷◌, length, IfOk, MatchOption};
ghost use Rattle.fisca_expr_parser.specs.Reading as spec;
ghost use Rattle.fisca_expr_parser.specs.Steps.Reading as steps;
ghost use Rattle.fisca_expr_parser.specs.Reading.{Reads};
ghost use Rattle.fisca_expr_parser.specs.Signs.{signs};

use crate::marks::{Joint, comparison_of, joint_of, same_mark};
use crate::refusal::ParseRefusal;
use crate::sign::{Sign, sign_of};
use crate::words::is_left_out;
use fisca_ast::{Comparison, FormulaKind, Slice, is_name};
use fisca_lexer::{Mark, Token};
use std::marker::Model;

/// The tokens of a text that are left, seen as signs.
#[derive(Drop)]
pub struct Cursor<'a, 't> {
    text: &'a str,
    rest: &'t [Token],
}

impl<'a, 't> Model for Cursor<'a, 't> {
    ghost use Rattle.std.specs.Prelude.{List};
    ghost use Rattle.fisca_expr_parser.specs.declared.sign.Sign.{Sign};
    ghost use Rattle.fisca_expr_parser.specs.Signs.{signs};

    ghost Value = { List Sign };

    ghost view = { λ c. signs c.text.now c.rest.now };
}

impl<'a, 't> Cursor<'a, 't> {
    /// At the first of these tokens of a text.
    pub fn new(text: &'a str, tokens: &'t [Token]) -> Cursor<'a, 't>
        ensures { result ≡ signs text.now tokens.now }
    {
        Cursor { text, rest: tokens }
    }

    /// How many tokens are left.
    pub fn left(&self) -> usize
        ensures { result ≡ length self.now }
    {
        self.rest.len()
    }

    /// The next token.
    pub fn sign(&self) -> Option<Sign<'a>>
        ensures { MatchOption result (self.now ≡ []) (λ s. self.now ≡ s ∷ spec.tail self.now) }
    {
        match self.rest {
            [token, ..] => Some(sign_of(self.text, token)),
            [] => None,
        }
    }

    /// This fault at the next token.
    pub fn refuse(&self, kind: FormulaKind) -> ParseRefusal
        ensures { result ≡ record { left = length self.now; kind = kind } }
    {
        ParseRefusal {
            left: self.left(),
            kind,
        }
    }

    /// The fault of the next token, which does not fit.
    pub fn misfit(&self) -> ParseRefusal
        ensures { result ≡ record { left = length self.now; kind = steps.misfit self.now } }
    {
        let kind = match self.sign() {
            Some(Sign::Word(word)) if is_left_out(word.as_bytes()) => FormulaKind::Unsupported,
            Some(Sign::Mark(Mark::Power | Mark::WholeDivision)) => FormulaKind::Unsupported,
            _ => FormulaKind::Syntax,
        };
        self.refuse(kind)
    }

    /// Goes past the next token.
    pub fn advance(&mut self)
        ensures { self.new ≡ spec.tail self.old }
    {
        if let [_, rest @ ..] = self.rest {
            self.rest = rest;
        }
    }

    /// Whether this mark comes next.
    pub fn begins(&self, mark: Mark) -> bool
        ensures { result ≡ steps.begins mark self.now }
    {
        match self.sign() {
            Some(Sign::Mark(next)) => same_mark(next, mark),
            _ => false,
        }
    }

    /// What the next token does behind an expression.
    pub(crate) fn joint(&self) -> Joint
        ensures { result ≡ spec.joint_ahead self.now }
    {
        match self.sign() {
            Some(Sign::Mark(next)) => joint_of(next),
            _ => Joint::Ends,
        }
    }

    /// The comparison that comes next.
    pub(crate) fn comparison(&self) -> Option<Comparison>
        ensures { result ≡ spec.comparison_ahead self.now }
    {
        match self.sign() {
            Some(Sign::Mark(next)) => comparison_of(next),
            _ => None,
        }
    }

    /// The word that comes next.
    pub fn word(&self) -> Option<Slice<'a>>
        ensures { result ≡ spec.word_ahead self.now }
    {
        match self.sign() {
            Some(Sign::Word(word)) => Some(word),
            _ => None,
        }
    }

    /// The word that comes next, where a sign of equality follows it.
    pub fn keyword(&self) -> Option<Slice<'a>>
        ensures { result ≡ spec.keyword_ahead self.now }
    {
        let word = self.word()?;
        let mut behind = Cursor {
            text: self.text,
            rest: self.rest,
        };
        behind.advance();
        if behind.begins(Mark::Equal) {
            Some(word)
        } else {
            None
        }
    }

    /// Goes past this mark.
    pub fn expect(&mut self, mark: Mark) -> Result<(), ParseRefusal>
        ensures { Reads (λ _. tt) (spec.expect mark self.old) result self.new }
    {
        if !self.begins(mark) {
            return Err(self.misfit());
        }
        self.advance();
        Ok(())
    }

    /// Goes past a name.
    pub fn take_name(&mut self) -> Result<Slice<'a>, ParseRefusal>
        ensures { Reads (λ n. n) (spec.take_name self.old) result self.new }
    {
        let Some(word) = self.word() else {
            return Err(self.refuse(FormulaKind::Syntax));
        };
        if !is_name(word.as_bytes()) {
            return Err(self.refuse(FormulaKind::Syntax));
        }
        self.advance();
        Ok(word)
    }
}
