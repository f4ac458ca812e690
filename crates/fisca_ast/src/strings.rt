//! Texts in quotes, in front of a text.

ghost use Rattle.std.specs.Prelude.{◌≡◌, ◌≤◌, ◌<◌, length, false, IfSome};
ghost use Rattle.fisca_ast.specs.Steps.Strings as spec;

/// Whether the text begins with this byte.
pub fn begins(text: &[u8], byte: u8) -> bool
    ensures { result ≡ spec.begins byte text.now }
{
    match text {
        [b, ..] => *b == byte,
        [] => false,
    }
}

/// Whether a backslash takes the next byte along: this byte is one, or a carriage return that is taken along and stands
/// before a line feed.
fn takes_next(taken: bool, byte: u8, rest: &[u8]) -> bool
    ensures { result ≡ spec.takes_next taken byte rest.now }
{
    if taken {
        byte == b'\r' && begins(rest, b'\n')
    } else {
        byte == b'\\'
    }
}

/// The length of the rest of a text in quotes on one line, its closing quote included.
fn quoted_len(text: &[u8], quote: u8) -> Option<usize>
    ensures value { result ≡ spec.quoted quote false text.now }
    ensures within { IfSome result (λ n. n ≤ length text.now) }
{
    let mut n = 0;
    let mut taken = false;
    while n < text.len() {
        let b = text[n];
        if !taken && b == b'\n' {
            return None;
        }
        if !taken && b == quote {
            return Some(n + 1);
        }
        taken = takes_next(taken, b, text.split_at(n + 1).1);
        n += 1;
    }
    None
}

/// How many quotes stand in a row, up to this byte.
fn quotes_up_to(quote: u8, quotes: u8, taken: bool, byte: u8) -> u8
    requires { quotes < 3 }
    ensures { result ≡ spec.quotes_up_to quote quotes taken byte }
{
    if !taken && byte == quote {
        quotes + 1
    } else {
        0
    }
}

/// The length of the rest of a text in three quotes, its closing quotes included.
fn tripled_len(text: &[u8], quote: u8) -> Option<usize>
    ensures value { result ≡ spec.tripled quote 0 false text.now }
    ensures within { IfSome result (λ n. n ≤ length text.now) }
{
    let mut n = 0;
    let mut quotes = 0;
    let mut taken = false;
    while n < text.len() {
        let b = text[n];
        quotes = quotes_up_to(quote, quotes, taken, b);
        if quotes == 3 {
            return Some(n + 1);
        }
        taken = takes_next(taken, b, text.split_at(n + 1).1);
        n += 1;
    }
    None
}

/// The length of the text in quotes in front, where it is closed.
pub fn string_len(text: &[u8]) -> Option<usize>
    ensures value { result ≡ spec.string_len text.now }
    ensures within { IfSome result (λ n. n ≤ length text.now) }
    ensures some { IfSome result (λ n. 0 < n) }
{
    let [quote, rest @ ..] = text else {
        return None;
    };
    match rest {
        [second, third, inner @ ..] if second == quote && third == quote => {
            Some(3 + tripled_len(inner, *quote)?)
        }
        _ => Some(1 + quoted_len(rest, *quote)?),
    }
}
