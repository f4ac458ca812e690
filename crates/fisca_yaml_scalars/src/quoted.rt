//! Texts in quotes.

ghost use Rattle.std.specs.Prelude.{◌≡◌, ◌<◌, ◌≤◌, ◌+◌, ◌⊎◌, [], Some, None, length, take, drop, slice_index, MatchOption, IfOk, IfSome, OnErr, option_map, string_bytes, false, true, encode_utf8};
ghost use Rattle.std.specs.Char.{is_digit, digit_value};
ghost use Rattle.fisca_yaml_scalars.specs.Scalars.{single, is_doubled, double, none, begun, digits, quoted, prepend};
ghost use Rattle.fisca_yaml_scalars.specs.Steps.Scalars.{short_escape};
ghost use Rattle.fisca_yaml_scalars.specs.Characters.{single_quote};
ghost use Rattle.fisca_yaml_scalars.specs.Steps.Rows.{begins};

use crate::marks::{around, begins};
use crate::text::Text;
use std::alloc::{AllocError, Global};

/// The quoted text in front, and what follows its closing quote. A text with escapes is copied.
pub fn read_quoted(alloc: Global, text: &str) -> Result<Option<(Text<'_>, &str)>, AllocError>
    ensures value { IfOk result (λ found. option_map (λ p. (p.0, p.1.now)) found ≡ quoted text.now) }
    ensures shorter { IfOk result (λ found. IfSome found (λ p. length p.1.now < length text.now)) }
{
    let bytes = text.as_bytes();
    if begins(bytes, b'"') {
        return read_double(alloc, around(text, 0).1);
    }
    if begins(bytes, b'\'') {
        return read_single(alloc, around(text, 0).1);
    }
    Ok(None)
}

/// Where the first single quote stands.
#[tactic(auto, using(crate::proofs::Quotes::quote_more, crate::proofs::Quotes::doubled_more, crate::proofs::Quotes::doubled_found))]
fn quote(bytes: &[u8]) -> Option<usize>
    ensures doubled { IfSome result (λ n. is_doubled bytes.now ≡ begins single_quote (drop (n + 1) bytes.now)) }
    ensures found { MatchOption result (single false bytes.now ≡ None)
        (λ n. (n < length bytes.now) × (slice_index bytes.now n ≡ 39) × (single false bytes.now ≡ prepend (take n bytes.now) (single true (drop (n + 1) bytes.now)))) }
{
    let mut n = 0;
    'bytes: while n < bytes.len() {
        if bytes[n] == b'\'' {
            return Some(n);
        }
        n += 1;
    }
    None
}

/// The text up to its closing quote, and what follows that. A text with a quote in it is copied.
fn read_single(alloc: Global, text: &str) -> Result<Option<(Text<'_>, &str)>, AllocError>
    ensures value { IfOk result (λ found. option_map (λ p. (p.0, p.1.now)) found ≡ single false text.now) }
    ensures shorter { IfOk result (λ found. IfSome found (λ p. length p.1.now ≤ length text.now)) }
    // Any other text takes no memory.
    ensures copied { OnErr result (is_doubled text.now ≡ true) }
{
    let Some(at) = quote(text.as_bytes()) else {
        return Ok(None);
    };
    let (front, rest) = around(text, at);
    if !begins(rest.as_bytes(), b'\'') {
        return Ok(Some((Text::borrowed(front), rest)));
    }
    let Some((copy, rest)) = copy_single(alloc, text)? else {
        return Ok(None);
    };
    Ok(Some((Text::owned(copy), rest)))
}

/// The same, copied.
fn copy_single(alloc: Global, text: &str) -> Result<Option<(String, &str)>, AllocError>
    ensures value { IfOk result (λ found. option_map (λ p. (string_bytes p.0, p.1.now)) found ≡ single false text.now) }
    ensures shorter { IfOk result (λ found. IfSome found (λ p. length p.1.now ≤ length text.now)) }
{
    let mut copy = String::new(alloc);
    let mut left = text;
    'quotes: while let Some(at) = quote(left.as_bytes()) {
        let (front, rest) = around(left, at);
        copy.push_str(front)?;
        if !begins(rest.as_bytes(), b'\'') {
            return Ok(Some((copy, rest)));
        }
        copy.push_str("'")?;
        left = around(rest, 0).1;
    }
    Ok(None)
}

/// Where the first double quote or backslash stands.
#[tactic(auto, using(crate::proofs::Quotes::double_more))]
fn special(bytes: &[u8]) -> Option<usize>
    ensures { MatchOption result (double none bytes.now ≡ None)
        (λ n. (n < length bytes.now) × ((slice_index bytes.now n ≡ 34) ⊎ (slice_index bytes.now n ≡ 92)) × (double none bytes.now ≡ prepend (take n bytes.now) (double none (drop n bytes.now)))) }
{
    let mut n = 0;
    'bytes: while n < bytes.len() {
        if bytes[n] == b'"' || bytes[n] == b'\\' {
            return Some(n);
        }
        n += 1;
    }
    None
}

/// The text up to its closing quote, and what follows that. A text with escapes is copied.
fn read_double(alloc: Global, text: &str) -> Result<Option<(Text<'_>, &str)>, AllocError>
    ensures value { IfOk result (λ found. option_map (λ p. (p.0, p.1.now)) found ≡ double none text.now) }
    ensures shorter { IfOk result (λ found. IfSome found (λ p. length p.1.now ≤ length text.now)) }
{
    let Some(at) = special(text.as_bytes()) else {
        return Ok(None);
    };
    if text.as_bytes()[at] == b'"' {
        let (front, rest) = around(text, at);
        return Ok(Some((Text::borrowed(front), rest)));
    }
    let Some((copy, rest)) = copy_double(alloc, text)? else {
        return Ok(None);
    };
    Ok(Some((Text::owned(copy), rest)))
}

/// The same, copied.
fn copy_double(alloc: Global, text: &str) -> Result<Option<(String, &str)>, AllocError>
    ensures value { IfOk result (λ found. option_map (λ p. (string_bytes p.0, p.1.now)) found ≡ double none text.now) }
    ensures shorter { IfOk result (λ found. IfSome found (λ p. length p.1.now ≤ length text.now)) }
{
    let mut copy = String::new(alloc);
    let mut left = text;
    'pieces: while let Some(at) = special(left.as_bytes()) {
        let closed = left.as_bytes()[at] == b'"';
        let (front, rest) = around(left, at);
        copy.push_str(front)?;
        if closed {
            return Ok(Some((copy, rest)));
        }
        let Some((c, last)) = escape(rest.as_bytes()) else {
            return Ok(None);
        };
        copy.push(c)?;
        left = around(rest, last).1;
    }
    Ok(None)
}

/// The character that an escape stands for, from what follows its backslash, and where its last character stands.
fn escape(bytes: &[u8]) -> Option<(char, usize)>
    ensures { MatchOption result (double begun bytes.now ≡ None)
        (λ p. (p.1 < length bytes.now) × (slice_index bytes.now p.1 < 128) × (double begun bytes.now ≡ prepend (encode_utf8 p.0) (double none (drop (p.1 + 1) bytes.now)))) }
{
    match bytes {
        [] => None,
        [b, rest @ ..] => {
            if *b == b'x' {
                let c = two_digits(rest)?;
                return Some((c, 2));
            }
            if *b == b'u' {
                let c = four_digits(rest)?;
                return Some((c, 4));
            }
            let c = short_escape(*b)?;
            Some((c, 0))
        }
    }
}

/// What a character behind a backslash stands for.
fn short_escape(b: u8) -> Option<char>
    ensures value { result ≡ short_escape b }
    ensures ascii { IfSome result (λ c. (c < 128) × (b < 128)) }
{
    match b {
        b'\\' => Some('\\'),
        b'"' => Some('"'),
        b'/' => Some('/'),
        b'n' => Some('\n'),
        b'r' => Some('\r'),
        b't' => Some('\t'),
        b'0' => Some('\0'),
        _ => None,
    }
}

/// The value of a hexadecimal digit.
fn hex(b: u8) -> Option<u32>
    ensures { MatchOption result (is_digit b 16 ≡ false) (λ v. (is_digit b 16 ≡ true) × (v ≡ digit_value b) × (v < 16) × (b < 128)) }
{
    match b {
        b'0'..=b'9' => Some(u32::from(b - b'0')),
        b'a'..=b'f' => Some(u32::from(b - b'a') + 10),
        b'A'..=b'F' => Some(u32::from(b - b'A') + 10),
        _ => None,
    }
}

/// The character of the two hexadecimal digits in front.
fn two_digits(bytes: &[u8]) -> Option<char>
    ensures { MatchOption result (double (digits 1 0) bytes.now ≡ None)
        (λ c. (1 < length bytes.now) × (slice_index bytes.now 1 < 128) × (double (digits 1 0) bytes.now ≡ prepend (encode_utf8 c) (double none (drop 2 bytes.now)))) }
{
    match bytes {
        [a, b, ..] => {
            let high = hex(*a)?;
            let low = hex(*b)?;
            char::from_u32(high * 16 + low)
        }
        _ => None,
    }
}

/// The character of the four hexadecimal digits in front. A surrogate is none.
fn four_digits(bytes: &[u8]) -> Option<char>
    ensures { MatchOption result (double (digits 3 0) bytes.now ≡ None)
        (λ c. (3 < length bytes.now) × (slice_index bytes.now 3 < 128) × (double (digits 3 0) bytes.now ≡ prepend (encode_utf8 c) (double none (drop 4 bytes.now)))) }
{
    match bytes {
        [a, b, c, d, ..] => {
            let first = hex(*a)?;
            let second = first * 16 + hex(*b)?;
            let third = second * 16 + hex(*c)?;
            char::from_u32(third * 16 + hex(*d)?)
        }
        _ => None,
    }
}
