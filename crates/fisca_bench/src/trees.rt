//! Trees of YAML texts, written as lines, which `fuzz/run yaml` compares with those that libyaml makes.
use crate::list;
use fisca_yaml::{Entry, Item, Tree, read};
use std::alloc::{AllocError, Global};
use std::rt::Files;
use std::{fs, io};

/// `trees FILE`: writes a line for each of the texts in a file, between which the byte 30 stands: its tree, or `!` with the
/// word and the line of its fault.
pub fn run(rt: &(impl Print + Files + Alloc), alloc: Global, words: &[String]) -> io::Result<()> {
    match words {
        [path] => {
            let texts = fs::read_to_string(rt, path.as_str())?;
            for text in texts.split('\u{1e}') {
                let line = line_of(alloc, text)?;
                println!(rt; "{line}")?;
            }
            Ok(())
        }
        _ => list(rt),
    }
}

/// The line of a text.
fn line_of(alloc: Global, text: &str) -> Result<String, AllocError> {
    match read(alloc, text) {
        Ok(tree) => {
            let mut line = String::new(alloc);
            write_tree(alloc, &mut line, &tree)?;
            Ok(line)
        }
        Err(fault) => {
            let name = fault.kind.name();
            let number = fault.line;
            format!(in alloc; "! {name} {number}")
        }
    }
}

/// `~` for nothing, `TEXT@LINE`, `'TEXT'@LINE`, `[VALUE VALUE ]` and `{KEY@LINE:VALUE KEY@LINE:VALUE }`.
#[cycle(write)]
fn write_tree(alloc: Global, line: &mut String, tree: &Tree<'_>) -> Result<(), AllocError> {
    match tree {
        Tree::Null => line.push_str("~"),
        Tree::Scalar {
            text,
            quoted,
            line: number,
        } => {
            let quote = if *quoted { "'" } else { "" };
            line.push_str(quote)?;
            write_text(alloc, line, text.as_str())?;
            let end = format!(in alloc; "{quote}@{number}")?;
            line.push_str(end.as_str())
        }
        Tree::List(items) => write_items(alloc, line, items),
        Tree::Map(entries) => write_entries(alloc, line, entries),
    }
}

#[cycle(write)]
fn write_items(alloc: Global, line: &mut String, items: &[Item<'_>]) -> Result<(), AllocError> {
    line.push_str("[")?;
    for item in items {
        write_tree(alloc, line, &item.value)?;
        line.push_str(" ")?;
    }
    line.push_str("]")
}

#[cycle(write)]
fn write_entries(
    alloc: Global,
    line: &mut String,
    entries: &[Entry<'_>],
) -> Result<(), AllocError> {
    line.push_str("{")?;
    for entry in entries {
        let number = entry.line;
        write_text(alloc, line, entry.key.as_str())?;
        let end = format!(in alloc; "@{number}:")?;
        line.push_str(end.as_str())?;
        write_tree(alloc, line, &entry.value)?;
        line.push_str(" ")?;
    }
    line.push_str("}")
}

/// Printed ASCII characters but the backslash stand for themselves, and each other byte as a backslash and its number.
fn write_text(alloc: Global, line: &mut String, text: &str) -> Result<(), AllocError> {
    for byte in text.as_bytes() {
        let byte = *byte;
        if 32 < byte && byte < 127 && byte != b'\\' {
            line.push(char::from(byte))?;
        } else {
            let written = format!(in alloc; "\\{byte};")?;
            line.push_str(written.as_str())?;
        }
    }
    Ok(())
}
