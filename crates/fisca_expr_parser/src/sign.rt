//! Tokens without their places, as definitions see them.

ghost use Rattle.std.specs.Prelude.{◌≡◌, true, IsCharBoundary};
ghost use Rattle.fisca_expr_parser.specs.Steps.Signs as spec;

use fisca_ast::Slice;
use fisca_lexer::{Class, Mark, Token};

/// A token without its place.
#[derive(Drop)]
pub enum Sign<'a> {
    /// A name or a keyword.
    Word(Slice<'a>),
    /// A number.
    Number(Slice<'a>),
    /// Texts in quotes, side by side.
    Text(Slice<'a>),
    /// A mark.
    Mark(Mark),
}

/// Whether a character of a text begins at a place, or the text ends there.
#[tactic(auto, using(crate::proofs::Characters::begins_is))]
fn begins_character(text: &str, at: usize) -> bool
    ensures value { result ≡ spec.begins_character text.now at }
    ensures boundary { result ≡ true → IsCharBoundary text.now at }
{
    text.is_char_boundary(at)
}

/// The piece of a text between two places, or nothing where they are none between its characters.
fn piece(text: &str, start: usize, end: usize) -> &str
    ensures { result.now ≡ spec.piece text.now start end }
{
    if start <= end && begins_character(text, start) && begins_character(text, end) {
        return &text[start..end];
    }
    ""
}

/// What a token of a text is.
pub(crate) fn sign_of<'a>(text: &'a str, token: &Token) -> Sign<'a>
    ensures { result ≡ spec.sign_of text.now token.now }
{
    let slice = Slice::new(piece(text, token.start as usize, token.end as usize));
    match token.class {
        Class::Word => Sign::Word(slice),
        Class::Number => Sign::Number(slice),
        Class::Quoted => Sign::Text(slice),
        Class::Mark(mark) => Sign::Mark(mark),
    }
}
