//! Which statement a line is.

ghost use Rattle.std.specs.Prelude.{◌≡◌};
ghost use Rattle.fisca_expr_parser.specs.Signs.{signs};
ghost use Rattle.fisca_parser.specs.Steps.Shapes as spec;

use fisca_ast::{FormulaKind, is_name};
use fisca_expr_parser::{Cursor, Sign};
use fisca_lexer::{Mark, Token};

/// What a line is, as its beginning says.
#[derive(Clone, Copy, Debug, PartialEq, Eq)]
pub(crate) enum Shape {
    /// `import ..` or `from ..`
    Import,
    /// A text in quotes alone.
    Text,
    /// `pass`
    Pass,
    /// `NAME = ..`
    Assignment,
    /// `class ..`
    Class,
    /// `def ..`
    Definition,
    /// `return ..`
    Return,
    /// Something else: a statement that is left out, or none at all.
    Other(FormulaKind),
}

/// Whether a text in quotes alone.
pub(crate) fn is_text(shape: Shape) -> bool
    ensures { result ≡ spec.is_text shape }
{
    matches!(shape, Shape::Text)
}

fn is_import(word: &[u8]) -> bool
    ensures { result ≡ spec.is_import word.now }
{
    word == b"import".as_slice() || word == b"from".as_slice()
}

/// Whether a word begins no statement of Python.
fn begins_nothing(word: &[u8]) -> bool
    ensures { result ≡ spec.begins_nothing word.now }
{
    word == b"as".as_slice()
        || word == b"in".as_slice()
        || word == b"is".as_slice()
        || word == b"except".as_slice()
        || word == b"finally".as_slice()
}

/// Why a line that begins with this mark is none of the statements.
fn marked(mark: Mark) -> FormulaKind
    ensures { result ≡ spec.marked mark }
{
    match mark {
        Mark::Open
        | Mark::OpenList
        | Mark::OpenMap
        | Mark::Plus
        | Mark::Minus
        | Mark::Tilde
        | Mark::Power
        | Mark::WholeDivision => FormulaKind::Unsupported,
        _ => FormulaKind::Syntax,
    }
}

/// What a line is that begins with this word, when this comes behind it.
fn worded(word: &[u8], behind: &Cursor) -> Shape
    ensures { result ≡ spec.worded word.now behind.now }
{
    if behind.begins(Mark::Equal) {
        if is_name(word) {
            return Shape::Assignment;
        }
        return Shape::Other(FormulaKind::Syntax);
    }
    if begins_nothing(word) {
        Shape::Other(FormulaKind::Syntax)
    } else {
        Shape::Other(FormulaKind::Unsupported)
    }
}

fn begun_by(word: &[u8], behind: &Cursor) -> Shape
    ensures { result ≡ spec.begun_by word.now behind.now }
{
    if is_import(word) {
        return Shape::Import;
    }
    if word == b"pass".as_slice() {
        return Shape::Pass;
    }
    if word == b"class".as_slice() {
        return Shape::Class;
    }
    if word == b"def".as_slice() {
        return Shape::Definition;
    }
    if word == b"return".as_slice() {
        return Shape::Return;
    }
    worded(word, behind)
}

/// What a line of these tokens of a text is.
#[tactic(auto, unfolding(crate::specs::Steps::Shapes::shape_of))]
pub(crate) fn shape_of(text: &str, tokens: &[Token]) -> Shape
    ensures { result ≡ spec.shape_of (signs text.now tokens.now) }
{
    let mut cursor = Cursor::new(text, tokens);
    let Some(sign) = cursor.sign() else {
        return Shape::Other(FormulaKind::Syntax);
    };
    cursor.advance();
    match sign {
        Sign::Word(word) => begun_by(word.as_bytes(), &cursor),
        Sign::Number(_) => Shape::Other(FormulaKind::Unsupported),
        Sign::Text(_) => {
            if cursor.left() > 0 {
                Shape::Other(FormulaKind::Unsupported)
            } else {
                Shape::Text
            }
        }
        Sign::Mark(mark) => Shape::Other(marked(mark)),
    }
}
