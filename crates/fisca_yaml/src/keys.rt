//! Keys that come a second time.

ghost use Rattle.std.specs.Prelude.{◌≡◌, ◌≢◌, IfOk, is_some, IfSome, ◌<◌, ◌≤◌, max};
ghost use Rattle.std.specs.List.{list_any};
ghost use Rattle.std.specs.Str.{bytes_eq};
ghost use Rattle.fisca_yaml.specs.Node.{keys, repeats, AreNumbered, last_line};
ghost use Rattle.fisca_yaml.specs.Views.{entries_view};

use crate::fault::{YamlFault, YamlKind, at};
use crate::tree::Entry;
use std::alloc::{AllocError, Global};
use std::collections::BTreeMap;

/// Of so many entries each key is compared with those before it; of more a map is made.
const FEW: usize = 8;

/// The line of the first key that comes a second time.
pub(crate) fn repeated(alloc: Global, entries: &[Entry<'_>]) -> Result<Option<usize>, AllocError>
    requires { AreNumbered (entries_view entries.now) }
    ensures value { IfOk result (λ line. is_some line ≡ repeats (keys (entries_view entries.now))) }
    ensures line { IfOk result (λ line. IfSome line (λ n. (0 < n) × (n ≤ last_line (entries_view entries.now)))) }
{
    if entries.len() <= FEW {
        Ok(repeated_among_few(entries))
    } else {
        repeated_among_many(alloc, entries)
    }
}

/// The same, without memory, in a time that grows with the square of their number.
fn repeated_among_few(entries: &[Entry<'_>]) -> Option<usize>
    requires { AreNumbered (entries_view entries.now) }
    ensures value { is_some result ≡ repeats (keys (entries_view entries.now)) }
    ensures line { IfSome result (λ n. (0 < n) × (n ≤ last_line (entries_view entries.now))) }
{
    for (at, entry) in entries.iter().enumerate() {
        if has_key(&entries[..at], entry.key.as_str()) {
            return Some(entry.line);
        }
    }
    None
}

/// The same, by a map of the keys.
fn repeated_among_many(alloc: Global, entries: &[Entry<'_>]) -> Result<Option<usize>, AllocError>
    requires { AreNumbered (entries_view entries.now) }
    ensures value { IfOk result (λ line. is_some line ≡ repeats (keys (entries_view entries.now))) }
    ensures line { IfOk result (λ line. IfSome line (λ n. (0 < n) × (n ≤ last_line (entries_view entries.now)))) }
{
    let mut seen = BTreeMap::new(alloc);
    for entry in entries {
        let line = entry.line;
        if seen.insert(entry.key.as_str(), line)?.is_some() {
            return Ok(Some(line));
        }
    }
    Ok(None)
}

/// Whether a key stands among these.
fn has_key(entries: &[Entry<'_>], key: &str) -> bool
    ensures { result ≡ list_any (bytes_eq key.now) (keys (entries_view entries.now)) }
{
    for entry in entries {
        if entry.key.as_str() == key {
            return true;
        }
    }
    false
}

/// The first fault of a map's lines: the key that comes a second time before this fault, or this fault.
pub(crate) fn first_fault(alloc: Global, entries: &[Entry<'_>], fault: YamlFault) -> YamlFault
    requires { AreNumbered (entries_view entries.now) }
    ensures memory { result.kind ≢ YamlKind.Memory → fault.kind ≢ YamlKind.Memory }
    ensures line { result.line ≤ max fault.line (last_line (entries_view entries.now)) }
    ensures long { fault.kind ≢ YamlKind.TooLong → result.kind ≢ YamlKind.TooLong }
{
    if fault.kind == YamlKind::Memory {
        return fault;
    }
    match repeated(alloc, entries) {
        Ok(Some(line)) => at(line, YamlKind::DuplicateKey),
        Ok(None) => fault,
        Err(error) => YamlFault::from(error),
    }
}

/// The first fault of an entry whose value has this fault: that its key stands among those before it, or this fault.
pub(crate) fn first_of_entry(
    entries: &[Entry<'_>],
    key: &str,
    line: usize,
    fault: YamlFault,
) -> YamlFault
    requires { 0 < line }
    ensures memory { result.kind ≢ YamlKind.Memory → fault.kind ≢ YamlKind.Memory }
    ensures line { result.line ≤ max fault.line line }
    ensures long { fault.kind ≢ YamlKind.TooLong → result.kind ≢ YamlKind.TooLong }
{
    if fault.kind != YamlKind::Memory && has_key(entries, key) {
        at(line, YamlKind::DuplicateKey)
    } else {
        fault
    }
}
