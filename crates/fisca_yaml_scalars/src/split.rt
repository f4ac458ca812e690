//! The key of an entry and what follows its colon.

ghost use Rattle.std.specs.Prelude.{◌≡◌, ◌≢◌, ◌<◌, ◌≤◌, ℕ, ◌∷◌, length, slice_index, MatchOption};
ghost use Rattle.std.specs.Str.Lines.{lines, strip_carriage_return};

use crate::marks::around;

/// Where the first line feed stands.
fn line_feed(bytes: &[u8]) -> Option<usize>
    ensures { MatchOption result ((k : ℕ) → k < length bytes.now → slice_index bytes.now k ≢ 10)
        (λ n. (n < length bytes.now) × (slice_index bytes.now n ≡ 10) × ((k : ℕ) → k < n → slice_index bytes.now k ≢ 10)) }
{
    for (i, b) in bytes.iter().enumerate() {
        if *b == b'\n' {
            return Some(i);
        }
    }
    None
}

/// The first line of a text, and the text after it.
pub(crate) fn first_line(text: &str) -> (&str, &str)
    requires { 0 < length text.now }
    ensures lines { lines text.now ≡ result.0.now ∷ lines result.1.now }
    ensures shorter { length result.1.now < length text.now }
    ensures within { length result.0.now ≤ length text.now }
{
    let Some(end) = line_feed(text.as_bytes()) else {
        return (text, "");
    };
    let (line, rest) = around(text, end);
    (without_return(line), rest)
}

/// A line without the carriage return at its end.
fn without_return(line: &str) -> &str
    ensures value { result.now ≡ strip_carriage_return line.now }
    ensures within { length result.now ≤ length line.now }
{
    let bytes = line.as_bytes();
    if !bytes.is_empty() && bytes[bytes.len() - 1] == b'\r' {
        around(line, bytes.len() - 1).0
    } else {
        line
    }
}
