//! The fault of a line that stands where none fits.

ghost use Rattle.std.specs.Prelude.{◌≡◌, ◌&&◌, ◌==◌, nat_lt, ◌/◌, ◌-◌, IfErr};
ghost use Rattle.fisca_yaml.specs.Answers.{IsTold};

use crate::fault::{YamlFault, YamlKind, at};
use crate::value::read_on_line;
use fisca_yaml_scalars::{Line, is_key};
use std::alloc::Global;

/// Whether an indentation is that of the entry or item of this rank.
pub(crate) fn is_open(rank: usize, indent: usize) -> bool
    ensures { result ≡ (nat_lt 0 rank && ((rank - 1) / 2 == indent)) }
{
    rank > 0 && (rank - 1) / 2 == indent
}

/// The fault of a line where no line may stand.
pub(crate) fn misplaced(alloc: Global, line: Line<'_>, open: bool, depth: usize) -> YamlFault
    ensures { IsTold line.entry.number result }
{
    if !line.is_tabbed() && !open {
        return at(line.number, YamlKind::BadIndent);
    }
    misfit(alloc, line, depth)
}

/// The fault of a line at an open indentation that fits nothing there: what its own look shows, read as an item, an entry or a scalar.
pub(crate) fn misfit(alloc: Global, line: Line<'_>, depth: usize) -> YamlFault
    ensures { IsTold line.entry.number result }
{
    if line.is_tabbed() {
        return at(line.number, YamlKind::Tab);
    }
    let mut inner = line;
    'items: while inner.is_item() {
        match inner.after_dash() {
            Some(next) if !next.begins_text() => inner = next,
            _ => return at(line.number, YamlKind::Unsupported),
        }
    }
    match look_over(alloc, inner, depth) {
        Ok(()) => at(line.number, YamlKind::Unsupported),
        Err(fault) => fault,
    }
}

/// The fault of an entry or a scalar by itself.
fn look_over(alloc: Global, line: Line<'_>, depth: usize) -> Result<(), YamlFault>
    ensures { IfErr result (IsTold line.entry.number) }
{
    let Some((key, rest)) = line.entry(alloc)? else {
        let _value = read_on_line(alloc, &line, depth)?;
        return Ok(());
    };
    if !is_key(key.as_str()) {
        return Err(at(line.number, YamlKind::Unsupported));
    }
    if let Some(value) = Line::following(line.number, 0, rest) {
        let _value = read_on_line(alloc, &value, depth)?;
    }
    Ok(())
}
