//! A case as it stands on the lines of the input.

use crate::words::Words;
use crate::written::Written;
use std::alloc::{AllocError, Global};

/// A case: its first line, and the text below it.
#[derive(Drop)]
pub struct Case {
    line: String,
    text: Option<String>,
}

impl Case {
    /// A case without a text.
    pub fn new(line: String) -> Case {
        Case { line, text: None }
    }

    /// Whether a line belongs to the text of the case, which then has it.
    pub fn takes(&mut self, alloc: Global, line: &str) -> Result<bool, AllocError> {
        let Some(inner) = line.strip_prefix("  ") else {
            return Ok(false)
        };
        let mut text = match self.text.take() {
            Some(text) => text,
            None => String::new(alloc),
        };
        text.push_str(inner)?;
        text.push_str("\n")?;
        self.text = Some(text);
        Ok(true)
    }

    /// The words of the line, and the text as the last one.
    pub fn words(&self, alloc: Global) -> Result<Vec<String>, AllocError> {
        let mut words = Words::new(alloc);
        for c in self.line.as_str().chars() {
            words.take(alloc, c)?;
        }
        let mut words = words.finish(alloc)?;
        if let Some(text) = &self.text {
            words.push(text.clone()?)?;
        }
        Ok(words)
    }

    /// The case as it stands and its answer: behind it where both have one line, else below.
    pub fn shown(&self, alloc: Global, answer: &str) -> Result<String, AllocError> {
        let mut shown = Written::new(alloc);
        shown.push(self.line.as_str());
        match &self.text {
            None => shown.push(if answer.contains('\n') { "\n=>" } else { " =>" }),
            Some(text) => {
                push_text(&mut shown, text.as_str());
                shown.push("\n=>");
            }
        }
        push_answer(&mut shown, answer);
        shown.finish()
    }
}

/// Appends the lines of a text, each behind two blanks.
fn push_text(shown: &mut Written, text: &str) {
    for line in text.lines() {
        shown.push("\n  ");
        shown.push(line);
    }
}

/// Appends the lines of an answer, each below the first one.
fn push_answer(shown: &mut Written, answer: &str) {
    let mut is_first = true;
    for line in answer.split('\n') {
        shown.push(if is_first { "" } else { "\n  " });
        shown.push(if line.is_empty() { "" } else { " " });
        push_line(shown, line);
        is_first = false;
    }
}

/// Appends a line, with a carriage return at its end as an escape.
fn push_line(shown: &mut Written, line: &str) {
    match line.strip_suffix('\r') {
        None => shown.push(line),
        Some(rest) => {
            shown.push(rest);
            shown.push("\\r");
        }
    }
}
