//! The pieces of a text, and the numbers that they write.
ghost use Rattle.std.specs.Prelude.{◌≡◌, ◌≤◌, ◌<◌, ◌^◌, min, true, false, [], ◌∷◌, MatchOption, IfSome, if◌then◌else◌};
ghost use Rattle.std.specs.Str.{all_ascii_digits};
ghost use Rattle.std.specs.Str.Parse.{digits_value};
ghost use Rattle.fisca_time.specs.Pieces.{pieces, is_numeral};

/// Above each year, month and size that a text may have.
pub(crate) const TOO_LARGE: u32 = 10_000;

/// The number that decimal digits write, or `TOO_LARGE` where it is larger. `None` where a byte is
/// no digit.
pub(crate) fn number_of(text: &[u8]) -> Option<u32>
    ensures { MatchOption result (all_ascii_digits text.now ≡ false)
        (λ n. (all_ascii_digits text.now ≡ true) × (n ≡ min TOO_LARGE (digits_value 10 text.now))) }
{
    let mut number = 0;
    for byte in text {
        if !byte.is_ascii_digit() {
            return None;
        }
        number = (10 * number + u32::from(*byte - b'0')).min(TOO_LARGE);
    }
    Some(number)
}

/// The number that `text` writes in that many decimal digits.
pub(crate) fn numeral(count: usize, text: &str) -> Option<u32>
    requires { count ≤ 4 }
    ensures value { result ≡ (if is_numeral count text.now then Some (digits_value 10 text.now) else None) }
    ensures bound { IfSome result (λ n. n < 10 ^ count) }
{
    if text.len() == count {
        number_of(text.as_bytes())
    } else {
        None
    }
}

/// What stands before the first `separator` of a text, and after it. Inlined, so that each search is for one known byte.
#[inline(always)]
pub(crate) fn split(text: &str, separator: u8) -> Option<(&str, &str)>
    requires { separator < 128 }
    ensures { MatchOption result (pieces separator text.now ≡ text.now ∷ [])
        (λ parts. pieces separator text.now ≡ parts.0.now ∷ pieces separator parts.1.now) }
{
    let bytes = text.as_bytes();
    for at in 0..bytes.len() {
        if bytes[at] == separator {
            return Some((text.split_at(at).0, text.split_at(at + 1).1));
        }
    }
    None
}
