//! Texts in quotes that stand side by side.

ghost use Rattle.std.specs.Prelude.{◌≡◌, true, false};
ghost use Rattle.fisca_lexer.specs.Texts as spec;
ghost use Rattle.fisca_lexer.specs.Steps.Texts as steps;

use crate::token::{Class, Token};

/// Whether both are texts in quotes, the second beside the first.
fn beside(token: &Token, next: &Token) -> bool
    ensures { result ≡ steps.beside token.now next.now }
{
    matches!(token.class, Class::Quoted)
        && next.indent.is_none()
        && matches!(next.class, Class::Quoted)
}

/// Makes one of texts that stand side by side, from the beginning of the first to the end of the last. (Python joins them
/// likewise.)
pub fn join_texts(tokens: &mut Vec<Token>)
    ensures { tokens.new.items ≡ spec.joined tokens.old.items }
{
    tokens.dedup_by(
        |next: &mut Token, last: &mut Token| -> bool
            ensures test { result ≡ steps.beside last.old next.old }
            ensures joined { result ≡ true → last.new ≡ record last.old { end = next.old.end } }
            ensures apart { result ≡ false → (last.new ≡ last.old) × (next.new ≡ next.old) }
        {
            if !beside(last, next) {
                return false;
            }
            last.end = next.end;
            true
        },
    );
}
