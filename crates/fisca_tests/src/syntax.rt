//! Long texts of modules and high expressions.

use fisca_ast::{FormulaFault, FormulaKind};
use fisca_expr_parser::{Mode, read_expression};
use fisca_lexer::{join_texts, tokens};
use std::alloc::{AllocError, Global};
use std::test::Fail;

/// Whether a text is an expression of a formula.
fn read(alloc: Global, source: &str) -> Result<(), FormulaFault> {
    let mut found = tokens(alloc, source)?;
    join_texts(&mut found);
    read_expression(alloc, source, &found, Mode::Formula, 120)?;
    Ok(())
}

/// The fault of a text on its first line.
fn fault(kind: FormulaKind) -> FormulaFault {
    FormulaFault { line: 1, kind }
}

/// So many parentheses around `1`.
fn nested(alloc: Global, count: u32) -> Result<String, AllocError> {
    let mut text = String::new(alloc);
    for _turn in 0..count {
        text.push_str("(")?;
    }
    text.push_str("1")?;
    for _turn in 0..count {
        text.push_str(")")?;
    }
    Ok(text)
}

#[test]
fn parentheses_up_to_the_height_are_read(rt: HostRuntime) -> Result<(), Fail> {
    let text = nested(rt.alloc(), 119)?;
    assert_eq!(rt; read(rt.alloc(), text.as_str()), Ok(()));
    let high = nested(rt.alloc(), 120)?;
    assert_eq!(rt;
        read(rt.alloc(), high.as_str()),
        Err(fault(FormulaKind::TooDeep))
    );
    Ok(())
}

/// One piece, so often that it has this length, or almost.
fn repeated(alloc: Global, piece: &str, length: usize) -> Result<String, AllocError> {
    let mut text = String::with_capacity(alloc, length)?;
    for _turn in 0..length {
        if piece.len() > length.saturating_sub(text.len()) {
            break;
        }
        text.push_str(piece)?;
    }
    Ok(text)
}

/// Pieces that are tokens, however many.
const LONG: [&str; 10] = [
    "#",
    "\n",
    "a ",
    "'a' ",
    "(",
    ")",
    "[",
    "import a\n",
    "1,",
    "    a\n",
];

#[test]
fn long_texts_are_cut_into_tokens(rt: HostRuntime) -> Result<(), Fail> {
    for piece in LONG {
        let text = repeated(rt.alloc(), piece, 1 << 16)?;
        assert!(rt; tokens(rt.alloc(), text.as_str()).is_ok(), "of {piece:?}");
    }
    Ok(())
}

#[test]
fn longer_texts_are_too_long(rt: HostRuntime) -> Result<(), Fail> {
    let mut text = repeated(rt.alloc(), "#", 1 << 20)?;
    assert!(rt; tokens(rt.alloc(), text.as_str()).is_ok());
    text.push_str("@")?;
    let answer = tokens(rt.alloc(), text.as_str()).err();
    assert_eq!(rt; answer, Some(fault(FormulaKind::TooLong)));
    Ok(())
}
