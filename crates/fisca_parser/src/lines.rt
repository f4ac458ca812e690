//! The lines that are left.

ghost use Rattle.std.specs.Prelude.{◌≡◌, [], ◌∷◌, length, reverse, Ok, Err, Some, None};
ghost use Rattle.fisca_parser.specs.Lines.{fault};
ghost use Rattle.fisca_parser.specs.Reading as spec;
ghost use Rattle.fisca_parser.specs.Reading.{Takes};

use crate::line::Line;
use crate::shape::{is_text, shape_of};
use fisca_ast::{FormulaFault, FormulaKind};
use std::marker::Model;

/// The lines that are left, seen from the first to the last.
#[derive(Drop)]
pub(crate) struct Lines {
    /// The last one first.
    rest: Vec<Line>,
}

impl Model for Lines {
    ghost use Rattle.std.specs.Prelude.{List, reverse};
    ghost use Rattle.fisca_parser.specs.Lines.{Line};

    ghost Value = { List Line };

    ghost view = { λ l. reverse l.rest.items };
}

impl Lines {
    /// At the last of these lines, which is the first of the text.
    pub fn new(lines: Vec<Line>) -> Lines
        ensures { result ≡ reverse lines.items }
    {
        Lines { rest: lines }
    }

    /// How many are left.
    pub fn left(&self) -> usize
        ensures { result ≡ length self.now }
    {
        self.rest.len()
    }

    /// The fault of a line that would have to come, where the text ends on this line.
    pub fn missing(&self, end: usize) -> FormulaFault
        ensures { result ≡ fault (spec.here end self.now) FormulaKind.Syntax }
    {
        let line = match self.rest.last() {
            Some(line) => line.number(),
            None => end,
        };
        FormulaFault {
            line,
            kind: FormulaKind::Syntax,
        }
    }

    /// The next line of a block at this indentation, if there is one.
    pub fn next_at(&mut self, indent: usize) -> Result<Option<Line>, FormulaFault>
        ensures { Takes (λ l. l) (spec.next_at indent self.old) result self.new }
    {
        let Some(line) = self.rest.last() else {
            return Ok(None);
        };
        if line.indent() < indent {
            return Ok(None);
        }
        if line.indent() > indent {
            return Err(line.refuse(FormulaKind::Indent));
        }
        Ok(self.rest.pop())
    }

    /// The indentation of the block below a line at this one, where the text ends on that line.
    pub fn deeper(&mut self, end: usize, indent: usize) -> Result<usize, FormulaFault>
        ensures { Takes (λ i. i) (spec.deeper end indent self.old) result self.new }
    {
        match self.rest.last() {
            Some(line) if line.indent() > indent => Ok(line.indent()),
            _ => Err(self.missing(end)),
        }
    }

    /// Goes past a text in quotes that stands alone, if one comes next.
    #[tactic(auto, unfolding(crate::specs::Reading::documented))]
    pub fn pass_text(&mut self, text: &str)
        ensures { self.new ≡ spec.documented text.now self.old }
    {
        let Some(line) = self.rest.last() else {
            return;
        };
        if is_text(shape_of(text, line.tokens())) {
            self.rest.pop();
        }
    }
}
