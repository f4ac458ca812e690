//! YAML texts and their trees.

use fisca_cases_base::{BaseFault, Written, one, two};
use fisca_yaml::{Entry, Item, Tree, read};
use std::alloc::{AllocError, Global};

/// The answer to a case of YAML texts: what the call of this name gives for these words.
pub fn answer(alloc: Global, operation: &str, words: &[String]) -> Result<String, BaseFault> {
    match operation {
        "tree" => tree(alloc, words),
        "text" => whole(alloc, words),
        "at" => at(alloc, words),
        _ => Err(BaseFault::Malformed),
    }
}

/// The tree of a text.
fn tree(alloc: Global, words: &[String]) -> Result<String, BaseFault> {
    let tree = read(alloc, one(words)?)?;
    let mut shown = Written::new(alloc);
    show(&mut shown, &tree);
    Ok(shown.finish()?)
}

/// The tree of a text as a text.
fn whole(alloc: Global, words: &[String]) -> Result<String, BaseFault> {
    let tree = read(alloc, one(words)?)?;
    Ok(text(alloc, &tree)?)
}

/// What stands at the key `KEY` of the text `TEXT`: as a text, as a truth value and as a number.
fn at(alloc: Global, words: &[String]) -> Result<String, BaseFault> {
    let (key, source) = two(words)?;
    let tree = read(alloc, source)?;
    match tree.get(key) {
        Some(value) => values(alloc, value),
        None => Ok(String::from_str(alloc, "no such key")?),
    }
}

fn values(alloc: Global, tree: &Tree<'_>) -> Result<String, BaseFault> {
    let text = text(alloc, tree)?;
    let bool = bool(tree);
    let number = number(alloc, tree)?;
    Ok(format!(in alloc; "text {text}, bool {bool}, number {number}")?)
}

/// A text, or `none`.
fn text(alloc: Global, tree: &Tree<'_>) -> Result<String, AllocError> {
    match tree.as_text() {
        Some(text) => format!(in alloc; "'{text}'"),
        None => String::from_str(alloc, "none"),
    }
}

fn bool(tree: &Tree<'_>) -> &'static str {
    match tree.as_bool() {
        Some(true) => "true",
        Some(false) => "false",
        None => "none",
    }
}

fn number(alloc: Global, tree: &Tree<'_>) -> Result<String, BaseFault> {
    match tree.as_number() {
        Some(number) => Ok(number.text(alloc)?),
        None => Ok(String::from_str(alloc, "none")?),
    }
}

/// Appends a tree with its lines: `~` for nothing, `text@line`, `'text'@line`, `[line:value ]` and `{key@line:value }`.
#[cycle(show)]
fn show(shown: &mut Written, tree: &Tree<'_>) {
    match tree {
        Tree::Null => shown.push("~"),
        Tree::Scalar { text, quoted, line } => {
            let quote = if *quoted { "'" } else { "" };
            shown.push(quote);
            shown.push(text.as_str());
            shown.push(quote);
            shown.push("@");
            shown.push_number(*line as u64);
        }
        Tree::List(items) => show_items(shown, items),
        Tree::Map(entries) => show_entries(shown, entries),
    }
}

#[cycle(show)]
fn show_items(shown: &mut Written, items: &[Item<'_>]) {
    shown.push("[");
    for item in items {
        shown.push_number(item.line as u64);
        shown.push(":");
        show(shown, &item.value);
        shown.push(" ");
    }
    shown.push("]");
}

#[cycle(show)]
fn show_entries(shown: &mut Written, entries: &[Entry<'_>]) {
    shown.push("{");
    for entry in entries {
        shown.push(entry.key.as_str());
        shown.push("@");
        shown.push_number(entry.line as u64);
        shown.push(":");
        show(shown, &entry.value);
        shown.push(" ");
    }
    shown.push("}");
}
