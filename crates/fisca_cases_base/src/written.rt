//! A text that is written in pieces.

use std::alloc::{AllocError, Global};
use std::fmt::Display;

/// A text that is being written. No piece is an error: that memory was refused is told at the end.
#[derive(Drop)]
pub struct Written {
    text: String,
    is_whole: bool,
}

impl Written {
    /// Nothing is written yet.
    pub fn new(alloc: Global) -> Written {
        Written {
            text: String::new(alloc),
            is_whole: true,
        }
    }

    /// Writes a piece.
    pub fn push(&mut self, piece: &str) {
        if self.text.push_str(piece).is_err() {
            self.is_whole = false;
        }
    }

    /// Writes a number in decimal digits.
    pub fn push_number(&mut self, number: u64) {
        if write!(self.text, "{number}").is_err() {
            self.is_whole = false;
        }
    }

    /// Writes a value as it shows itself.
    pub fn push_shown(&mut self, value: &impl Display) {
        if write!(self.text, "{value}").is_err() {
            self.is_whole = false;
        }
    }

    /// Appends the number of a fault, and its name.
    pub fn push_fault(&mut self, number: u8, fault: &impl Display) {
        self.push("fault ");
        self.push_number(u64::from(number));
        self.push(" ");
        self.push_shown(fault);
    }

    /// Appends the line where a fault stands.
    pub fn push_line(&mut self, line: usize) {
        self.push(", line ");
        self.push_number(line as u64);
    }

    /// The whole text.
    pub fn finish(self) -> Result<String, AllocError> {
        if self.is_whole {
            Ok(self.text)
        } else {
            Err(AllocError)
        }
    }
}
