//! Open indentations.

ghost use Rattle.std.specs.Prelude.{◌≡◌, ◌≤◌, OnOk, OnErr, IfOk};
ghost use Rattle.fisca_lexer.specs.Steps.Layout as spec;

use std::alloc::{AllocError, Global};
use std::marker::Model;

/// The open indentations. They are seen as the list of them, the deepest first; the left edge is always open.
#[derive(Drop)]
pub(crate) struct Levels {
    columns: Vec<u32>,
}

impl Model for Levels {
    ghost use Rattle.std.specs.Prelude.{ℕ, List, reverse};

    ghost Value = { List ℕ };

    ghost view = { λ l. reverse l.columns.items };
}

impl Levels {
    ghost use Rattle.std.specs.Prelude.{[]};

    /// The left edge alone.
    pub fn new(alloc: Global) -> Levels
        ensures { result ≡ [] }
    {
        Levels {
            columns: Vec::new(alloc),
        }
    }

    /// The deepest of them.
    fn deepest(&self) -> u32
        ensures { result ≡ spec.deepest self.now }
    {
        match self.columns.last() {
            Some(column) => *column,
            None => 0,
        }
    }

    /// Closes those that are deeper than this column.
    fn close(&mut self, column: u32)
        ensures { self.new ≡ spec.within column self.old }
    {
        while self.deepest() > column {
            self.columns.pop();
        }
    }

    /// Goes to a line at this column, and tells whether that is an open one.
    pub fn go_to(&mut self, column: u32) -> Result<bool, AllocError>
        ensures { IfOk result (λ is_open. spec.opened is_open self.new ≡ spec.go_to column self.old) }
    {
        if column > self.deepest() {
            self.columns.push(column)?;
            return Ok(true);
        }
        self.close(column);
        Ok(self.deepest() == column)
    }
}
