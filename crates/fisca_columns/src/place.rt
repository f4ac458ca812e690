//! The place of a member, as a column writes it.

ghost use Rattle.std.specs.Prelude.{◌≡◌, Some, option_map};
ghost use Rattle.std.specs.Char.{is_ascii_digit};
ghost use Rattle.std.specs.List.{list_all};
ghost use Rattle.fisca_columns.specs.Steps.Places as spec;

/// Whether all bytes are decimal digits.
fn are_digits(bytes: &[u8]) -> bool
    ensures { result ≡ list_all is_ascii_digit bytes.now }
{
    bytes.iter().all(|b| b.is_ascii_digit())
}

/// The place that decimal digits write, where there is one of so many.
fn place_in(count: u32, text: &str) -> Option<u32>
    ensures { result ≡ spec.member_at count (Some text.now) }
{
    if !are_digits(text.as_bytes()) {
        return None;
    }
    match text.parse::<u32>() {
        Ok(place) if place < count => Some(place),
        _ => None,
    }
}

/// The place of one of so many members, which is the first where none is written.
pub(crate) fn member_at(count: u32, index: Option<&str>) -> Option<u32>
    ensures { result ≡ spec.member_at count (option_map (λ t. t.now) index.entry) }
{
    match index {
        Some(text) => place_in(count, text),
        None if count == 0 => None,
        None => Some(0),
    }
}
