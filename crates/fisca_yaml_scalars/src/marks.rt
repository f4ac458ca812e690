//! The characters that lines and values begin and end with.

ghost use Rattle.std.specs.Prelude.{◌≡◌, ◌+◌, ◌<◌, ◌≤◌, length, slice_index, take, drop, false};
ghost use Rattle.fisca_yaml_scalars.specs.Steps.Rows.{is_blank, begins, begins_item, ends_mark, is_empty_line, is_bare};
ghost use Rattle.fisca_yaml_scalars.specs.Steps.Scalars.{is_quote, is_reserved, may_begin, past_blanks, trim_end, ends_line};
ghost use Rattle.fisca_yaml_scalars.specs.Steps.Openings.{is_bracket};

/// A space or a tab.
pub(crate) fn is_blank(b: u8) -> bool
    ensures { result ≡ is_blank b }
{
    b == b' ' || b == b'\t'
}

/// Whether a character comes first.
pub fn begins(bytes: &[u8], byte: u8) -> bool
    ensures { result ≡ begins byte bytes.now }
{
    match bytes {
        [] => false,
        [b, ..] => *b == byte,
    }
}

/// Whether a blank or the end follows.
pub(crate) fn ends_mark(bytes: &[u8]) -> bool
    ensures { result ≡ ends_mark bytes.now }
{
    match bytes {
        [] => true,
        [b, ..] => is_blank(*b),
    }
}

/// Whether this begins with a dash that stands alone.
pub(crate) fn begins_item(bytes: &[u8]) -> bool
    ensures { result ≡ begins_item bytes.now }
{
    match bytes {
        [] => false,
        [b, rest @ ..] => *b == b'-' && ends_mark(rest),
    }
}

/// Whether there are nothing but blanks, and perhaps a comment.
pub(crate) fn is_empty_line(bytes: &[u8]) -> bool
    ensures { result ≡ is_empty_line bytes.now }
{
    for b in bytes {
        if !is_blank(*b) {
            return *b == b'#';
        }
    }
    true
}

/// Whether three of a character stand alone, or with a comment.
pub(crate) fn is_bare(bytes: &[u8], byte: u8) -> bool
    ensures { result ≡ is_bare byte bytes.now }
{
    match bytes {
        [x, y, z, rest @ ..] => {
            *x == byte && *y == byte && *z == byte && ends_mark(rest) && is_empty_line(rest)
        }
        _ => false,
    }
}

/// Whether a quote comes first.
pub fn is_quote(bytes: &[u8]) -> bool
    ensures { result ≡ is_quote bytes.now }
{
    begins(bytes, b'"') || begins(bytes, b'\'')
}

/// Whether an opening bracket comes first.
pub fn is_bracket(bytes: &[u8]) -> bool
    ensures { result ≡ is_bracket bytes.now }
{
    begins(bytes, b'[') || begins(bytes, b'{')
}

/// Whether a character begins something else than a plain scalar, or what this subset refuses.
fn is_reserved(byte: u8) -> bool
    ensures { result ≡ is_reserved byte }
{
    b"&*!%@`,]}\"'[{".contains(&byte)
}

/// Whether a plain scalar may begin so.
pub fn may_begin(bytes: &[u8]) -> bool
    ensures { result ≡ may_begin bytes.now }
{
    match bytes {
        [] => false,
        [b, rest @ ..] => {
            !(is_blank(*b)
                || is_reserved(*b)
                || ((*b == b'?' || *b == b':' || *b == b'-') && ends_mark(rest)))
        }
    }
}

/// What stands before an ASCII character, and what follows it.
pub fn around(text: &str, at: usize) -> (&str, &str)
    requires within { at < length text.now }
    requires ascii { slice_index text.now at < 128 }
    ensures front { result.0.now ≡ take at text.now }
    ensures back { result.1.now ≡ drop (at + 1) text.now }
{
    (&text[..at], &text[at + 1..])
}

/// What follows the blanks, and nothing where a comment does.
pub fn past_blanks(text: &str) -> &str
    ensures value { result.now ≡ past_blanks false text.now }
    ensures shorter { length result.now ≤ length text.now }
{
    let bytes = text.as_bytes();
    let mut skip = 0;
    'blanks: while skip < bytes.len() && is_blank(bytes[skip]) {
        skip += 1;
    }
    if skip == bytes.len() || (skip > 0 && bytes[skip] == b'#') {
        return "";
    }
    &text[skip..]
}

/// Whether there are nothing but blanks and a comment.
pub fn ends_line(text: &str) -> bool
    ensures { result ≡ ends_line text.now }
{
    past_blanks(text).is_empty()
}

/// A text without the blanks at its end.
pub fn trim_end(text: &str) -> &str
    ensures { result.now ≡ trim_end text.now }
{
    let bytes = text.as_bytes();
    let mut end = bytes.len();
    'blanks: while end > 0 && is_blank(bytes[end - 1]) {
        end -= 1;
    }
    &text[..end]
}
