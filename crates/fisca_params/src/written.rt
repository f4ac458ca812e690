//! Date maps as they are written.
ghost use Rattle.std.specs.Prelude.{◌≡◌, Some, None, IfSome, IfOk, MatchResult, codes, map, option_map};
ghost use Rattle.std.specs.Result.{result_err};
ghost use Rattle.fisca_yaml.specs.Views.{node, entries_view};
ghost use Rattle.fisca_params.specs.Content.{written_if_both, date_of, first_line};
ghost use Rattle.fisca_params.specs.Steps.Content.{written_value, written_values, are_instants, is_date_map, date_map};
ghost use Rattle.fisca_params.specs.FaultLines.{line_at, is_dated};
ghost use Rattle.fisca_params.specs.Steps.FaultLines.{line_of};
ghost use Rattle.fisca_params.specs.Written.{seen};

use fisca_time::Instant;
use fisca_yaml::{Entry, Tree};
use std::alloc::{AllocError, Global};

/// What stands at a date: the value or, of a map, its `value`.
#[derive(Drop)]
pub(crate) struct Written<'t, 'a> {
    pub date: Instant,
    pub value: &'t Tree<'a>,
}

impl<'t, 'a> Written<'t, 'a> {
    /// What an entry of a date map says, where its key is an instant and it has a value.
    fn read(entry: &'t Entry<'a>) -> Option<Written<'t, 'a>>
        ensures { option_map seen result ≡ written_if_both (date_of entry.now.key) (written_value (node entry.now.value)) }
    {
        let date = Instant::read(entry.key.as_str()).ok()?;
        let value = written_value(&entry.value)?;
        Some(Written { date, value })
    }
}

/// The value that stands at a date: of a map its `value`, which may be no map.
pub(crate) fn written_value<'t, 'a>(tree: &'t Tree<'a>) -> Option<&'t Tree<'a>>
    ensures { option_map (λ t. node t.now) result ≡ written_value (node tree.now) }
{
    match tree {
        Tree::Map(_) => match tree.get("value")? {
            Tree::Map(_) => None,
            value => Some(value),
        },
        _ => Some(tree),
    }
}

/// What the entries of a date map say, or the line of the first that has no instant or no value.
pub(crate) fn read_written<'t, 'a>(
    alloc: Global,
    entries: &'t [Entry<'a>],
) -> Result<Result<Vec<Written<'t, 'a>>, usize>, AllocError>
    ensures values { IfOk result (λ read. MatchResult read (λ v. written_values (entries_view entries.now) ≡ Some (map seen v.items)) (λ _. written_values (entries_view entries.now) ≡ None)) }
    ensures line { IfOk result (λ read. first_line is_dated (entries_view entries.now) ≡ result_err read) }
{
    let mut values = Vec::with_capacity(alloc, entries.len())?;
    for entry in entries {
        let Some(written) = Written::read(entry) else {
            return Ok(Err(entry.line));
        };
        match values.push(written) {
            Ok(()) => {}
            Err(_) => return Err(AllocError),
        }
    }
    Ok(Ok(values))
}

/// Whether a map has entries, and each key is an instant.
fn is_date_map(entries: &[Entry<'_>]) -> bool
    ensures { result ≡ is_date_map (entries_view entries.now) }
{
    !entries.is_empty() && are_instants(entries)
}

/// Whether each key is an instant.
fn are_instants(entries: &[Entry<'_>]) -> bool
    ensures { result ≡ are_instants (entries_view entries.now) }
{
    for entry in entries {
        if Instant::read(entry.key.as_str()).is_err() {
            return false;
        }
    }
    true
}

/// The date map of a parameter, and the line of its key: the `values` of a map or, where it has no `brackets` either, a map of
/// instants alone, whose key stands on `line`.
pub(crate) fn date_map<'t, 'a>(tree: &'t Tree<'a>, line: usize) -> Option<(usize, &'t Tree<'a>)>
    ensures map { option_map (λ p. node p.1.now) result ≡ date_map (node tree.now) }
    ensures line { IfSome result (λ p. p.0 ≡ line_at (codes "values") line (node tree.now)) }
{
    let Tree::Map(entries) = tree else {
        return None;
    };
    if let Some(values) = tree.entry("values") {
        return Some((values.line, &values.value));
    }
    if tree.get("brackets").is_none() && is_date_map(entries) {
        return Some((line, tree));
    }
    None
}

/// The line of a tree that does not fit: that on which it begins, and of a map or of nothing that of its key.
pub(crate) fn line_of(tree: &Tree<'_>, line: usize) -> usize
    ensures { result ≡ line_of line (node tree.now) }
{
    match tree {
        Tree::Map(_) => line,
        _ => tree.line().unwrap_or(line),
    }
}
