//! YAML texts that are made: long ones, beginnings of files, and such as are drawn by lot.

use fisca_yaml::{YamlKind, read};
use std::alloc::Global;
use std::test::Fail;

/// The kind and the line of a text's fault.
fn fault(alloc: Global, text: &str) -> Option<(YamlKind, usize)> {
    match read(alloc, text) {
        Ok(_) => None,
        Err(fault) => Some((fault.kind, fault.line)),
    }
}

#[test]
fn a_text_above_its_limit_is_too_long(rt: HostRuntime) -> Result<(), Fail> {
    let mut text = String::new(rt.alloc());
    for _line in 0..65536u32 {
        text.push_str("# fifteen more \n")?;
    }
    assert_eq!(rt; fault(rt.alloc(), text.as_str()), None);
    text.push_str("\t")?;
    assert_eq!(rt;
        fault(rt.alloc(), text.as_str()),
        Some((YamlKind::TooLong, 1))
    );
    Ok(())
}

/// How many lines a text has, an unended last one included.
fn count_lines(text: &str) -> usize {
    let mut count = 1usize;
    for b in text.as_bytes() {
        if *b == b'\n' {
            count = count.saturating_add(1);
        }
    }
    count
}

/// Whether a text is read, or refused with a line of its own and for another cause than memory.
fn is_answered(alloc: Global, text: &str) -> bool {
    match fault(alloc, text) {
        None => true,
        Some((kind, line)) => kind != YamlKind::Memory && 1 <= line && line <= count_lines(text),
    }
}

/// Files of parameters, as the example of a household has them.
const FILES: [&str; 5] = [
    "description: Social contribution on salaries, by bracket\nmetadata:\n  threshold_unit: currency-EUR\n  rate_unit: /1\nbrackets:\n- threshold:           # the first euro\n    2013-01-01:\n      value: 0\n  rate:\n    2013-01-01:\n      value: 0.02\n- threshold:\n    2013-01-01:\n      value: 1000\n      reference: https://www.example.org/laws/contribution#article-2\n  rate:\n    2013-01-01:\n      value: 0.1\n",
    "# The allowance ended with the formula that reads it, in November 2016.\ndescription: Housing allowance, as a share of the rent\nmetadata:\n  unit: /1\nreference: https://www.example.org/laws/housing-allowance\nvalues:\n  1980-01-01:\n    value: 0.25\n",
    "description: Basic income\nmetadata:\n  unit: currency-EUR\n  period: month\nreference: https://www.example.org/laws/basic-income\nvalues:\n  2015-12-01:\n    value: 600\n    reference: https://www.example.org/laws/basic-income#article-1\n",
    "description: Age of majority\nmetadata:\n  unit: year\nreference:\n- https://www.example.org/laws/majority\n- https://www.example.org/laws/majority/comments\nvalues:\n  1962-07-01:\n    value: 18\n",
    "description: The legislation of the example household\nmetadata:\n  order: [general, benefits, taxes]\n",
];

/// The length of the first beginning of a text that is not answered.
fn first_unanswered(alloc: Global, text: &str) -> Option<usize> {
    for at in 0..text.len() {
        if let Some(prefix) = text.get(..at) {
            if !is_answered(alloc, prefix) {
                return Some(at);
            }
        }
    }
    None
}

#[test]
fn each_prefix_of_a_file_is_answered(rt: HostRuntime) {
    let text =
        "--- # parameters\ndescription: \"Taxe \\u00e9t\\\"é\"\nreference: |\n  one: [\n\n  two\nvalues:\n  2015-12-01: 600\n  2016-01-01: {value: 0.25, 'note': it''s}\nbrackets:\n- threshold:\n    2013-01-01: {value: 0}\n  rate: {2013-01-01: 0.02, \"x\":[1, -2, ~,]}\n- - - a: 1\n      b: >-\n        c\n";
    assert_eq!(rt; first_unanswered(rt.alloc(), text), None);
    assert!(rt; read(rt.alloc(), text).is_ok());
    for file in FILES {
        assert_eq!(rt; first_unanswered(rt.alloc(), file), None, "of {file}");
        assert!(rt; read(rt.alloc(), file).is_ok(), "{file}");
    }
}

/// Pieces of texts.
const PIECES: [&str; 35] = [
    "a",
    "b: ",
    "- ",
    "\n",
    "\n  ",
    "\n",
    " ",
    "\t",
    "[",
    "]",
    "{",
    "}",
    ",",
    ":",
    "\"",
    "'",
    "\\",
    "#",
    " #",
    "|",
    ">",
    "&",
    "é",
    "\u{1f600}",
    "\r\n",
    "\0",
    "---",
    "...",
    "%",
    "<<",
    "\\x4",
    "1",
    "?",
    "\u{feff}",
    "\r",
];

#[test]
fn texts_drawn_by_lot_are_answered(rt: HostRuntime) -> Result<(), Fail> {
    let mut state = 1u64;
    let mut text = String::new(rt.alloc());
    for _text in 0..20000u32 {
        text.clear();
        for _piece in 0..24u32 {
            state = state
                .wrapping_mul(6364136223846793005)
                .wrapping_add(1442695040888963407);
            let piece = ((state >> 33) % 35) as usize;
            text.push_str(PIECES[piece])?;
        }
        assert!(rt; is_answered(rt.alloc(), text.as_str()), "of {text}");
    }
    Ok(())
}

#[test]
fn an_entry_has_the_line_of_its_key(rt: HostRuntime) -> Result<(), Fail> {
    let tree = read(rt.alloc(), "# none\na: 1\nb:\n  c: 2\n")?;
    for (name, line) in [("a", 2), ("b", 3)] {
        match tree.entry(name) {
            Some(entry) => assert_eq!(rt; entry.line, line, "{name}"),
            None => assert!(rt; false, "{name} has no entry"),
        }
    }
    assert!(rt; tree.entry("c").is_none());
    Ok(())
}
