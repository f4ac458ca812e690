//! Pieces in front of a text.

ghost use Rattle.std.specs.Prelude.{◌≡◌, ◌≤◌, ◌<◌, length, take, IfOk, Ok, true};
ghost use Rattle.std.specs.List.{prefix_len};
ghost use Rattle.fisca_lexer.specs.Steps.Marks.{single};
ghost use Rattle.fisca_ast.specs.Strings as comments;
ghost use Rattle.fisca_lexer.specs.Pieces as spec;
ghost use Rattle.fisca_lexer.specs.Steps.Pieces as steps;
ghost use Rattle.fisca_lexer.specs.declared.token.Form.TheVariants as form;

use crate::marks::{pair, single};
use crate::numbers::{begins_number, number, number_len};
use crate::strings::{begins_quote, is_format, is_prefix, is_quote};
use crate::token::{Class, Form, Piece};
use fisca_ast::{FormulaKind, begins, string_len};
use unicode_ident::is_xid_start;

fn is_word_byte(b: u8) -> bool
    ensures { result ≡ steps.is_word_byte b }
{
    b.is_ascii_alphanumeric() || b == b'_'
}

fn is_blank(b: u8) -> bool
    ensures { result ≡ steps.is_blank b }
{
    b == b' ' || b == b'\t'
}

/// How many bytes of a word stand in front.
fn word_len(text: &[u8]) -> usize
    ensures value { result ≡ prefix_len steps.is_word_byte text.now }
    ensures within { result ≤ length text.now }
{
    text.iter().take_while(|b| is_word_byte(**b)).count()
}

/// How many blanks stand in front.
fn blank_len(text: &[u8]) -> usize
    ensures value { result ≡ prefix_len steps.is_blank text.now }
    ensures within { result ≤ length text.now }
{
    text.iter().take_while(|b| is_blank(**b)).count()
}

/// How many spaces stand in front.
fn space_len(text: &[u8]) -> usize
    ensures value { result ≡ prefix_len spec.is_space text.now }
{
    text.iter().take_while(|b| **b == b' ').count()
}

/// How long the line in front is.
fn line_len(text: &[u8]) -> usize
    ensures value { result ≡ prefix_len comments.in_comment text.now }
    ensures within { result ≤ length text.now }
{
    text.iter().take_while(|b| **b != b'\n').count()
}

/// How many line feeds a text has.
fn line_feeds(text: &[u8]) -> usize
    ensures value { result ≡ steps.line_feeds text.now }
    ensures within { result ≤ length text.now }
{
    text.iter().filter(|b| **b == b'\n').count()
}

/// A token of this length on one line.
fn token(class: Class, size: usize) -> Piece
    ensures { result ≡ spec.piece (form.Token class) size 0 }
{
    Piece {
        form: Form::Token(class),
        length: size,
        lines: 0,
    }
}

/// The text in quotes behind a prefix of this length.
fn string(text: &[u8], prefix: usize) -> Result<Piece, FormulaKind>
    requires { prefix ≤ length text.now }
    ensures value { result ≡ steps.string prefix text.now }
    ensures within { IfOk result (λ p. p.length ≤ length text.now) }
    ensures lines { IfOk result (λ p. p.lines ≤ p.length) }
    ensures further { IfOk result (λ p. prefix < p.length) }
{
    let (_, rest) = text.split_at(prefix);
    let Some(quoted) = string_len(rest) else {
        return Err(FormulaKind::Syntax);
    };
    let length = prefix + quoted;
    let (piece, _) = text.split_at(length);
    Ok(Piece {
        form: Form::Token(Class::Quoted),
        length,
        lines: line_feeds(piece),
    })
}

/// The word of this length in front, or the text in quotes whose prefix it is.
fn word(text: &[u8], size: usize) -> Result<Piece, FormulaKind>
    requires { size ≤ length text.now }
    ensures value { result ≡ steps.word size text.now }
    ensures within { IfOk result (λ p. p.length ≤ length text.now) }
    ensures lines { IfOk result (λ p. p.lines ≤ p.length) }
    ensures further { IfOk result (λ p. size ≤ p.length) }
{
    let (name, rest) = text.split_at(size);
    if !begins_quote(rest) {
        return Ok(token(Class::Word, size));
    }
    if is_prefix(name) {
        return string(text, size);
    }
    if is_format(name) {
        return Err(FormulaKind::Unsupported);
    }
    Ok(token(Class::Word, size))
}

/// The character in front, past ASCII.
fn character(text: &[u8]) -> u32
    ensures value { result ≡ steps.character text.now }
{
    let low = |b: u8| u32::from(b % 64);
    match text {
        [a, b, ..] if *a < 0xe0 => u32::from(*a % 32) * 64 + low(*b),
        [a, b, c, ..] if *a < 0xf0 => (u32::from(*a % 16) * 64 + low(*b)) * 64 + low(*c),
        [a, b, c, d, ..] => { ((u32::from(*a % 8) * 64 + low(*b)) * 64 + low(*c)) * 64 + low(*d) }
        _ => 0,
    }
}

/// Whether the character of this number is a letter that could begin a name.
fn is_letter(code: u32) -> bool
    ensures { result ≡ steps.is_letter code }
{
    match char::from_u32(code) {
        Some(letter) => is_xid_start(letter),
        None => false,
    }
}

/// Why nothing can be read in front.
fn unread(text: &[u8]) -> FormulaKind
    ensures { result ≡ steps.unread text.now }
{
    match text {
        [b'%' | b'\\', ..] => FormulaKind::Unsupported,
        [b, ..] if *b >= 128 && is_letter(character(text)) => FormulaKind::Unsupported,
        _ => FormulaKind::Syntax,
    }
}

/// The mark of one byte in front.
fn one_mark(text: &[u8], byte: u8) -> Result<Piece, FormulaKind>
    ensures value { result ≡ steps.one_mark text.now (single byte) }
    ensures length { IfOk result (λ p. (p.length ≡ 1) × (p.lines ≡ 0)) }
{
    match single(byte) {
        Some(mark) => Ok(token(Class::Mark(mark), 1)),
        None => Err(unread(text)),
    }
}

/// The longer mark in front.
fn marked(text: &[u8]) -> Result<Piece, FormulaKind>
    ensures value { result ≡ steps.marked text.now }
    ensures within { IfOk result (λ p. p.length ≤ length text.now) }
    ensures lines { IfOk result (λ p. p.lines ≡ 0) }
    ensures some { IfOk result (λ p. 0 < p.length) }
{
    match text {
        [] => Err(FormulaKind::Syntax),
        [b] => one_mark(text, *b),
        [b, c, ..] => match pair(*b, *c) {
            Some(mark) => Ok(token(Class::Mark(mark), 2)),
            None => one_mark(text, *b),
        },
    }
}

/// The blanks in front.
fn blanks(text: &[u8]) -> Piece
    ensures value { Ok result ≡ steps.blanks (prefix_len steps.is_blank text.now) text.now }
    ensures length { (result.length ≡ prefix_len steps.is_blank text.now) × (result.lines ≡ 0) }
    ensures within { result.length ≤ length text.now }
{
    let size = blank_len(text);
    let form = if space_len(text) == size {
        Form::Spaces
    } else {
        Form::Tabs
    };
    Piece {
        form,
        length: size,
        lines: 0,
    }
}

/// A line end of this length.
fn line_end(size: usize) -> Piece
    ensures { Ok result ≡ steps.line_end size }
{
    Piece {
        form: Form::LineEnd,
        length: size,
        lines: 1,
    }
}

/// The comment in front.
fn comment(text: &[u8]) -> Piece
    ensures value { result ≡ spec.piece form.Comment (prefix_len comments.in_comment text.now) 0 }
    ensures within { result.length ≤ length text.now }
{
    Piece {
        form: Form::Comment,
        length: line_len(text),
        lines: 0,
    }
}

/// What stands in front, where it is no number and no word.
fn other(text: &[u8]) -> Result<Piece, FormulaKind>
    ensures value { result ≡ steps.other text.now }
    ensures within { IfOk result (λ p. p.length ≤ length text.now) }
    ensures lines { IfOk result (λ p. p.lines ≤ p.length) }
    ensures some { IfOk result (λ p. 0 < p.length) }
{
    match text {
        [] => Err(FormulaKind::Syntax),
        [b' ' | b'\t', ..] => Ok(blanks(text)),
        [b'#', ..] => Ok(comment(text)),
        [b'\n', ..] => Ok(line_end(1)),
        [b'\r', rest @ ..] => {
            if begins(rest, b'\n') {
                Ok(line_end(2))
            } else {
                Err(FormulaKind::Syntax)
            }
        }
        [b, ..] if is_quote(*b) => string(text, 0),
        [_, ..] => marked(text),
    }
}

/// The piece in front, a number, a word or something else, or why none can be read.
fn written(text: &[u8]) -> Result<Piece, FormulaKind>
    ensures value { result ≡ steps.front text.now }
    ensures within { IfOk result (λ p. p.length ≤ length text.now) }
    ensures lines { IfOk result (λ p. p.lines ≤ p.length) }
    ensures some { IfOk result (λ p. 0 < p.length) }
{
    if begins_number(text) {
        return number(text, number_len(text));
    }
    let size = word_len(text);
    if size > 0 {
        return word(text, size);
    }
    other(text)
}

/// The piece in front, or why none can be read. Spaces and line ends are more than half of all pieces, so they are looked for
/// first.
pub(crate) fn front(text: &[u8]) -> Result<Piece, FormulaKind>
    ensures value { result ≡ steps.front text.now }
    ensures within { IfOk result (λ p. p.length ≤ length text.now) }
    ensures lines { IfOk result (λ p. p.lines ≤ p.length) }
    ensures some { IfOk result (λ p. 0 < p.length) }
{
    match text {
        [b' ', ..] => Ok(blanks(text)),
        [b'\n', ..] => Ok(line_end(1)),
        _ => written(text),
    }
}
