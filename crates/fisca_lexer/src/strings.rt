//! Quotes, and what stands before them.

ghost use Rattle.std.specs.Prelude.{◌≡◌};
ghost use Rattle.fisca_ast.specs.Strings as spec;

/// Whether the byte is a quote.
pub(crate) fn is_quote(b: u8) -> bool
    ensures { result ≡ spec.is_quote b }
{
    b == b'"' || b == b'\''
}

/// Whether the text begins with a quote.
pub(crate) fn begins_quote(text: &[u8]) -> bool
    ensures { result ≡ spec.begins_quote text.now }
{
    match text {
        [b, ..] => is_quote(*b),
        [] => false,
    }
}

/// Whether the word is a prefix of a text in quotes that changes nothing.
pub(crate) fn is_prefix(word: &[u8]) -> bool
    ensures { result ≡ spec.is_prefix word.now }
{
    match word {
        [b] => *b == b'u' || *b == b'U' || *b == b'r' || *b == b'R',
        _ => false,
    }
}

fn is_f(b: u8) -> bool
    ensures { result ≡ spec.is_f b }
{
    b == b'f' || b == b'F'
}

fn is_r(b: u8) -> bool
    ensures { result ≡ spec.is_r b }
{
    b == b'r' || b == b'R'
}

/// Whether the word is the prefix of a text with places to fill in.
pub(crate) fn is_format(word: &[u8]) -> bool
    ensures { result ≡ spec.is_format word.now }
{
    match word {
        [b] => is_f(*b),
        [b, c] => (is_f(*b) && is_r(*c)) || (is_r(*b) && is_f(*c)),
        _ => false,
    }
}
