//! A line with content, and how it begins.

ghost use Rattle.std.specs.Prelude.{◌≡◌, ◌+◌, ◌*◌, ◌<◌, ◌≤◌, ◌^◌, length, Option, Some, None, option_map, IsTrue, IfOk, IfSome, is_some, false};
ghost use Rattle.fisca_yaml_scalars.specs.Steps.Rows.{begins_item, rank, indented, following, row_of, after_dash, is_start, is_marker, begins};
ghost use Rattle.fisca_yaml_scalars.specs.Scalars.{entry_of, key_split, trimmed, after_quoted, quoted};
ghost use Rattle.fisca_yaml_scalars.specs.Steps.Openings.{opens, opens_item, begins_text};

use crate::marks::{
    around, begins, begins_item, ends_mark, is_bare, is_blank, is_empty_line, is_quote, may_begin,
    past_blanks, trim_end,
};
use crate::plain::colon;
use crate::quoted::read_quoted;
use crate::text::Text;
use std::alloc::{AllocError, Global};

/// A line with content: its number, its leading spaces, and what follows them.
#[derive(Clone, Copy)]
pub struct Line<'a> {
    pub number: usize,
    pub indent: usize,
    pub content: &'a str,
    ghost near: { indent + length content.now < 2 ^ 32 },
    ghost numbered: { 0 < number },
}

impl<'a> Line<'a> {
    ghost use Rattle.fisca_yaml_scalars.specs.Lines.{row};

    /// What follows the leading spaces of a text, as a line at its column.
    fn indented(number: usize, text: &'a str) -> Option<Line<'a>>
        requires near { length text.now < 2 ^ 32 }
        requires numbered { 0 < number }
        ensures value { option_map row result ≡ indented number 0 text.now }
        ensures number { IfSome result (λ l. l.number ≡ number) }
    {
        let bytes = text.as_bytes();
        let mut skip = 0;
        'spaces: while skip < bytes.len() && bytes[skip] == b' ' {
            skip += 1;
        }
        if skip == bytes.len() {
            return None;
        }
        Some(Line {
            number,
            indent: skip,
            content: &text[skip..],
        })
    }

    /// The line of a text, where it has content.
    pub(crate) fn of(number: usize, text: &'a str) -> Option<Line<'a>>
        requires near { length text.now < 2 ^ 32 }
        requires numbered { 0 < number }
        ensures value { option_map row result ≡ row_of number text.now }
        ensures number { IfSome result (λ l. l.number ≡ number) }
    {
        if is_empty_line(text.as_bytes()) {
            None
        } else {
            Line::indented(number, text)
        }
    }

    /// What follows a dash or a colon, as a line at its own column, where anything but a comment does.
    pub fn following(number: usize, column: usize, text: &'a str) -> Option<Line<'a>>
        requires near { column + length text.now < 2 ^ 32 }
        requires numbered { 0 < number }
        ensures value { option_map row result ≡ following number column text.now }
        ensures right { IfSome result (λ l. column ≤ l.indent) }
        ensures number { IfSome result (λ l. l.number ≡ number) }
    {
        let bytes = text.as_bytes();
        let mut skip = 0;
        'blanks: while skip < bytes.len() && is_blank(bytes[skip]) {
            skip += 1;
        }
        if skip == bytes.len() {
            return None;
        }
        if bytes[skip] == b'#' {
            return None;
        }
        Some(Line {
            number,
            indent: column + skip,
            content: &text[skip..],
        })
    }

    /// Whether an item begins the line.
    pub fn is_item(&self) -> bool
        ensures { result ≡ begins_item self.now.content.now }
    {
        begins_item(self.content.as_bytes())
    }

    /// How deep the line stands.
    pub fn rank(&self) -> usize
        ensures { result ≡ rank (row self.now) }
    {
        if self.is_item() {
            2 * self.indent + 2
        } else {
            2 * self.indent + 1
        }
    }

    /// Whether a tab stands among the line's leading blanks.
    pub fn is_tabbed(&self) -> bool
        ensures { result ≡ begins 9 self.now.content.now }
    {
        begins(self.content.as_bytes(), b'\t')
    }

    /// Whether the line starts a document.
    pub(crate) fn is_start(&self) -> bool
        ensures { result ≡ is_start (row self.now) }
    {
        self.indent == 0 && is_bare(self.content.as_bytes(), b'-')
    }

    /// Whether the line starts or ends a document.
    pub fn is_marker(&self) -> bool
        ensures { result ≡ is_marker (row self.now) }
    {
        let bytes = self.content.as_bytes();
        self.indent == 0 && (is_bare(bytes, b'-') || is_bare(bytes, b'.'))
    }

    /// What follows the dash.
    pub fn after_dash(self) -> Option<Line<'a>>
        requires { IsTrue (begins_item self.content.now) }
        ensures value { option_map row result ≡ after_dash (row self.entry) }
        ensures right { IfSome result (λ l. self.entry.indent < l.indent) }
        ensures number { IfSome result (λ l. l.number ≡ self.entry.number) }
    {
        Line::following(self.number, self.indent + 1, &self.content[1..])
    }

    /// The key of an entry that begins here, and what follows its colon.
    pub fn entry(self, alloc: Global) -> Result<Option<(Text<'a>, &'a str)>, AllocError>
        ensures value { IfOk result (λ found. option_map (λ p. (p.0, p.1.now)) found ≡ entry_of self.entry.content.now) }
        ensures shorter { IfOk result (λ found. IfSome found (λ p. length p.1.now < length self.entry.content.now)) }
    {
        if is_quote(self.content.as_bytes()) {
            return quoted_entry(alloc, self.content);
        }
        if may_begin(self.content.as_bytes()) {
            return Ok(plain_entry(self.content));
        }
        Ok(None)
    }

    /// Whether a list or a map begins here.
    pub fn opens(self, alloc: Global) -> Result<bool, AllocError>
        ensures { IfOk result (λ b. b ≡ opens (row self.entry)) }
    {
        if self.is_item() {
            return Ok(true);
        }
        let entry = self.entry(alloc)?;
        Ok(entry.is_some())
    }

    /// Whether a block text begins here, beside a key or a dash.
    pub fn begins_text(&self) -> bool
        ensures { result ≡ begins_text (row self.now) }
    {
        let bytes = self.content.as_bytes();
        begins(bytes, b'|') || begins(bytes, b'>')
    }

    /// Whether a list or a map begins here, behind a dash.
    pub fn opens_item(self, alloc: Global) -> Result<bool, AllocError>
        ensures { IfOk result (λ b. b ≡ opens_item (row self.entry)) }
    {
        if self.begins_text() {
            return Ok(false);
        }
        self.opens(alloc)
    }
}

/// A plain key, and what follows its colon.
fn plain_entry(content: &str) -> Option<(Text<'_>, &str)>
    ensures value { option_map (λ p. (p.0, p.1.now)) result ≡ trimmed (key_split false content.now) }
    ensures shorter { IfSome result (λ p. length p.1.now < length content.now) }
{
    let at = colon(content.as_bytes())?;
    let (key, rest) = around(content, at);
    Some((Text::borrowed(trim_end(key)), rest))
}

/// A quoted key, and what follows its colon.
fn quoted_entry(alloc: Global, content: &str) -> Result<Option<(Text<'_>, &str)>, AllocError>
    ensures value { IfOk result (λ found. option_map (λ p. (p.0, p.1.now)) found ≡ after_quoted (quoted content.now)) }
    ensures shorter { IfOk result (λ found. IfSome found (λ p. length p.1.now < length content.now)) }
{
    let Some((key, rest)) = read_quoted(alloc, content)? else {
        return Ok(None);
    };
    let rest = past_blanks(rest);
    if begins(rest.as_bytes(), b':') && ends_mark(&rest.as_bytes()[1..]) {
        return Ok(Some((key, around(rest, 0).1)));
    }
    Ok(None)
}
