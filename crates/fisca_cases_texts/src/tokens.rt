//! Tokens of modules.

use fisca_cases_base::{BaseFault, Written, one};
use fisca_lexer::{Token, tokens};
use std::alloc::{AllocError, Global};

/// The answer to a case of tokens: what the call of this name gives for these words.
pub fn answer(alloc: Global, operation: &str, words: &[String]) -> Result<String, BaseFault> {
    match operation {
        "list" => list(alloc, words),
        _ => Err(BaseFault::Malformed),
    }
}

/// The tokens of a text: `text@line`, and `>column` behind the first of a line.
fn list(alloc: Global, words: &[String]) -> Result<String, BaseFault> {
    let source = one(words)?;
    let found = tokens(alloc, source)?;
    Ok(show(alloc, source, found.as_slice())?)
}

fn show(alloc: Global, source: &str, tokens: &[Token]) -> Result<String, AllocError> {
    let mut shown = Written::new(alloc);
    let mut is_first = true;
    for token in tokens {
        shown.push(if is_first { "" } else { " " });
        push(&mut shown, source, token);
        is_first = false;
    }
    shown.finish()
}

fn push(shown: &mut Written, source: &str, token: &Token) {
    shown.push(
        source
            .get(token.start as usize..token.end as usize)
            .unwrap_or("?"),
    );
    shown.push("@");
    shown.push_number(u64::from(token.line));
    if let Some(column) = token.indent {
        shown.push(">");
        shown.push_number(u64::from(column));
    }
}
