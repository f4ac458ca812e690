//! The lines of a text that have content, one after another.

ghost use Rattle.std.specs.Prelude.{◌≡◌, ◌+◌, ◌<◌, ◌≤◌, ◌^◌, [], ◌∷◌, length, IfNone, IfSome, MatchOption, drop};
ghost use Rattle.std.specs.Str.Lines.{lines};
ghost use Rattle.fisca_yaml_scalars.specs.Steps.Rows.{rank, rows, past_marker};
ghost use Rattle.fisca_yaml_scalars.specs.Deeper.{front, after};
ghost use Rattle.fisca_yaml_scalars.specs.Lines.{row};

use crate::line::Line;
use crate::split::first_line;
use std::marker::Model;

/// The next line with content, and the text after it.
fn next_line<'a>(text: &'a str, number: usize) -> Option<(Line<'a>, &'a str)>
    requires near { number + length text.now < 2 ^ 32 }
    requires numbered { 0 < number }
    ensures rows { MatchOption result (rows number (lines text.now) ≡ [])
        (λ p. rows number (lines text.now) ≡ row p.0 ∷ rows (p.0.number + 1) (lines p.1.now)) }
    ensures room { IfSome result (λ p. p.0.number + 1 + length p.1.now ≤ number + length text.now) }
{
    let mut rest = text;
    let mut at = number;
    'lines: while !rest.is_empty() {
        let (line, after) = first_line(rest);
        if let Some(line) = Line::of(at, line) {
            return Some((line, after));
        }
        rest = after;
        at += 1;
    }
    None
}

/// The lines with content that are left of a text. The next one is read ahead.
#[derive(Drop)]
pub struct Lines<'a> {
    next: Option<Line<'a>>,
    text: &'a str,
    number: usize,
}

impl<'a> Model for Lines<'a> {
    ghost use Rattle.std.specs.Prelude.{List, ◌+◌, ◌<◌, ◌^◌, length, option_map};
    ghost use Rattle.std.specs.Str.Lines.{lines};
    ghost use Rattle.fisca_yaml_scalars.specs.Rows.{Row, with_row};
    ghost use Rattle.fisca_yaml_scalars.specs.Steps.Rows.{rows};
    ghost use Rattle.fisca_yaml_scalars.specs.Lines.{row, Nothing};

    ghost Value = { List Row };

    ghost view = { λ l. with_row (option_map row l.next) (rows l.number (lines l.text.now)) };

    ghost invariant = { λ l. (0 < l.number) × (l.number + length l.text.now < 2 ^ 32) × Nothing l.next (rows l.number (lines l.text.now)) };
}

impl<'a> Lines<'a> {
    /// All lines of a text.
    pub fn new(text: &'a str) -> Lines<'a>
        requires { length text.now < 2 ^ 31 }
        ensures { result ≡ rows 1 (lines text.now) }
    {
        match next_line(text, 1) {
            Some((line, rest)) => Lines {
                next: Some(line),
                text: rest,
                number: line.number + 1,
            },
            None => Lines {
                next: None,
                text,
                number: 1,
            },
        }
    }

    /// Goes past the next line.
    fn advance(&mut self)
        ensures { self.new ≡ drop 1 self.old }
    {
        match next_line(self.text, self.number) {
            Some((line, rest)) => {
                self.next = Some(line);
                self.text = rest;
                self.number = line.number + 1;
            }
            None => {
                self.next = None;
            }
        }
    }

    /// Goes past the next line, where it starts a document.
    pub fn skip_start(&mut self)
        ensures { self.new ≡ past_marker self.old }
    {
        let next = self.next;
        match next {
            Some(line) if line.is_start() => self.advance(),
            _ => {}
        }
    }

    /// Takes the next line, where it is deeper than this.
    pub fn next_deeper(&mut self, floor: usize) -> Option<Line<'a>>
        ensures none { IfNone result ((front floor self.old ≡ []) × (self.new ≡ after floor self.old)) }
        ensures some { IfSome result (λ l. (self.old ≡ row l ∷ self.new) × (floor < rank (row l))) }
    {
        let next = self.next;
        match next {
            Some(line) if line.rank() > floor => {
                self.advance();
                Some(line)
            }
            _ => None,
        }
    }
}
