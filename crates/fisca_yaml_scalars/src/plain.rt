//! Plain scalars, and which texts are keys.

ghost use Rattle.std.specs.Prelude.{◌≡◌, ◌+◌, ◌<◌, ◌≤◌, ◌&&◌, length, Some, None, MatchOption, slice_index, take, drop, is_some, true, false, ◌==◌};
ghost use Rattle.fisca_yaml_scalars.specs.Steps.Rows.{ends_mark};
ghost use Rattle.fisca_yaml_scalars.specs.Scalars.{key_split, before_comment, word, past_word};
ghost use Rattle.fisca_yaml_scalars.specs.Steps.Scalars.{is_null_word, is_key, stops, ends_key, ends_value};

use crate::marks::{ends_mark, is_blank};

/// Whether a comment begins here; the flag says that a blank came just before.
fn is_comment(b: u8, after: bool) -> bool
    ensures { result ≡ ((b == 35) && after) }
{
    b == b'#' && after
}

/// Whether a colon stands at a place that a blank or the end follows.
fn begins_mark(bytes: &[u8], at: usize) -> bool
    requires { at < length bytes.now }
    ensures { result ≡ ((slice_index bytes.now at == 58) && ends_mark (drop (at + 1) bytes.now)) }
{
    bytes[at] == b':' && ends_mark(&bytes[at + 1..])
}

/// Where the first colon stands that a blank or the end follows, if no comment comes before it.
#[tactic(auto, using(crate::proofs::Steps::key_more, crate::proofs::Steps::key_ends))]
pub(crate) fn colon(bytes: &[u8]) -> Option<usize>
    ensures { MatchOption result (key_split false bytes.now ≡ None) (λ i. (i < length bytes.now)
        × (slice_index bytes.now i ≡ 58) × (key_split false bytes.now ≡ Some (take i bytes.now, drop (i + 1) bytes.now))) }
{
    let mut at = 0;
    let mut after = false;
    'bytes: while at < bytes.len() {
        let b = bytes[at];
        if is_comment(b, after) {
            return None;
        }
        if begins_mark(bytes, at) {
            return Some(at);
        }
        after = is_blank(b);
        at += 1;
    }
    None
}

/// The length of a line up to a comment, unless a colon stands before it that a blank or the end follows.
#[tactic(auto, using(crate::proofs::Steps::key_more, crate::proofs::Steps::key_ends, crate::proofs::Steps::key_stops, crate::proofs::Steps::comment_more, crate::proofs::Steps::comment_here))]
fn value_len(bytes: &[u8]) -> Option<usize>
    ensures { MatchOption result (is_some (key_split false bytes.now) ≡ true) (λ n. (n ≤ length bytes.now) × (n < length bytes.now → slice_index bytes.now n < 128)
        × (is_some (key_split false bytes.now) ≡ false) × (before_comment false bytes.now ≡ take n bytes.now)) }
{
    let mut at = 0;
    let mut after = false;
    'bytes: while at < bytes.len() {
        let b = bytes[at];
        if is_comment(b, after) {
            return Some(at);
        }
        if begins_mark(bytes, at) {
            return None;
        }
        after = is_blank(b);
        at += 1;
    }
    Some(at)
}

/// A line up to a comment, unless a colon stands before it that a blank or the end follows.
pub fn value_text(text: &str) -> Option<&str>
    ensures { MatchOption result (is_some (key_split false text.now) ≡ true)
        (λ t. (is_some (key_split false text.now) ≡ false) × (t.now ≡ before_comment false text.now)) }
{
    let n = value_len(text.as_bytes())?;
    Some(&text[..n])
}

/// Whether a plain word stands for nothing.
pub fn is_null_word(word: &str) -> bool
    ensures { result ≡ is_null_word word.now }
{
    word == "~" || word == "null" || word == "Null" || word == "NULL"
}

fn ends_value(b: u8) -> bool
    ensures { result ≡ ends_value b }
{
    b == b',' || b == b']' || b == b'}'
}

/// Whether a key's colon ends before this.
pub fn ends_key(bytes: &[u8]) -> bool
    ensures { result ≡ ends_key bytes.now }
{
    match bytes {
        [] => true,
        [b, ..] => is_blank(*b) || ends_value(*b),
    }
}

/// Whether a plain scalar in brackets stops at a place; the flag says that a blank came just before.
fn stops(bytes: &[u8], at: usize, after: bool) -> bool
    requires { at < length bytes.now }
    ensures { result ≡ stops after (slice_index bytes.now at) (drop (at + 1) bytes.now) }
{
    let b = bytes[at];
    ends_value(b) || (b == b':' && ends_key(&bytes[at + 1..])) || (b == b'#' && after)
}

/// The length of the plain scalar in front, blanks at its end included.
#[tactic(auto, using(crate::proofs::Steps::word_more, crate::proofs::Steps::word_here))]
pub fn word_len(bytes: &[u8]) -> usize
    ensures within { result ≤ length bytes.now }
    ensures ascii { result < length bytes.now → slice_index bytes.now result < 128 }
    ensures word { word false bytes.now ≡ take result bytes.now }
    ensures rest { past_word false bytes.now ≡ drop result bytes.now }
{
    let mut n = 0;
    let mut after = false;
    'bytes: while n < bytes.len() {
        if stops(bytes, n, after) {
            return n;
        }
        after = is_blank(bytes[n]);
        n += 1;
    }
    n
}

/// Whether an entry may have this key: it has a character, and is not the merge key.
pub fn is_key(key: &str) -> bool
    ensures { result ≡ is_key key.now }
{
    !(key.is_empty() || key == "<<")
}
