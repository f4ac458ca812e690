//! Parameters and scales as their files have them.
ghost use Rattle.std.specs.Prelude.{◌≡◌, is_none};
ghost use Rattle.fisca_yaml.specs.Steps.Find.{get};
ghost use Rattle.fisca_yaml.specs.Views.{node, entries_view, items_view};
ghost use Rattle.fisca_params.specs.Answers.{Finds};
ghost use Rattle.std.specs.Option.{unwrap_or};
ghost use Rattle.fisca_params.specs.FaultLines.{values_line, field_line, unreadable, bracket_line, brackets_line, scale_line};
ghost use Rattle.fisca_params.specs.Content.{first_line};
ghost use Rattle.fisca_params.specs.Steps.Content.{parameter_in, number_dates, dates_or_none, is_bracket_field, names_field, bracket_of, brackets_of, brackets_in, is_single_amount, scale_of};

use crate::content::Content;
use crate::dated::dates_in;
use crate::fault::NodeFault;
use crate::written::{date_map, line_of, read_written};
use fisca_num::Fraction;
use fisca_scales::{Bracket, Dates, Scale};
use fisca_yaml::{Entry, Item, Tree};
use std::alloc::Global;

/// The parameter of a date map, whose key stands on `line`.
pub(crate) fn read_parameter(
    alloc: Global,
    line: usize,
    values: &Tree<'_>,
) -> Result<Content, NodeFault>
    ensures { Finds (λ c. c) result (parameter_in (node values.now)) (values_line line (node values.now)) }
{
    let Tree::Map(entries) = values else {
        let line = line_of(values, line);
        return Err(NodeFault::BadParameter { line });
    };
    let written = match read_written(alloc, entries)? {
        Ok(written) => written,
        Err(line) => return Err(NodeFault::BadParameter { line }),
    };
    if let Some(numbers) = dates_in::<Fraction>(alloc, &written)? {
        return Ok(Content::Numbers(numbers));
    }
    match dates_in::<bool>(alloc, &written)? {
        Some(bools) => Ok(Content::Bools(bools)),
        None => Ok(Content::Unusable),
    }
}

/// The values of a bracket's field, which is dated as a number parameter is. Its key stands on `line`.
fn number_dates(alloc: Global, line: usize, tree: &Tree<'_>) -> Result<Dates<Fraction>, NodeFault>
    ensures { Finds (λ d. d) result (number_dates (node tree.now)) (field_line line (node tree.now)) }
{
    let Some((_, Tree::Map(entries))) = date_map(tree, line) else {
        let line = line_of(tree, line);
        return Err(NodeFault::BadParameter { line });
    };
    let written = match read_written(alloc, entries)? {
        Ok(written) => written,
        Err(line) => return Err(NodeFault::BadParameter { line }),
    };
    dates_in::<Fraction>(alloc, &written)?.ok_or(NodeFault::BadParameter { line })
}

/// The values of this field of a bracket, none where it is not given.
fn read_field(alloc: Global, bracket: &Tree<'_>, name: &str) -> Result<Dates<Fraction>, NodeFault>
    ensures { Finds (λ d. d) result (dates_or_none (get name.now (node bracket.now))) (unwrap_or (unreadable name.now (node bracket.now)) 0) }
{
    match bracket.entry(name) {
        None => Ok(Dates::new(alloc)),
        Some(entry) => number_dates(alloc, entry.line, &entry.value),
    }
}

/// The line of the first key of a bracket that names no field.
fn first_stray(entries: &[Entry<'_>]) -> Option<usize>
    ensures { result ≡ first_line names_field (entries_view entries.now) }
{
    for entry in entries {
        if !is_bracket_field(entry.key.as_str()) {
            return Some(entry.line);
        }
    }
    None
}

/// Whether a key names a field of a bracket.
fn is_bracket_field(key: &str) -> bool
    ensures { result ≡ is_bracket_field key.now }
{
    key == "threshold" || key == "rate" || key == "amount"
}

/// A bracket, whose item stands on `line`.
fn read_bracket(alloc: Global, line: usize, tree: &Tree<'_>) -> Result<Bracket, NodeFault>
    ensures { Finds (λ b. b) result (bracket_of (node tree.now)) (bracket_line line (node tree.now)) }
{
    let Tree::Map(entries) = tree else {
        let line = line_of(tree, line);
        return Err(NodeFault::BadParameter { line });
    };
    if let Some(line) = first_stray(entries) {
        return Err(NodeFault::BadParameter { line });
    }
    let threshold = read_field(alloc, tree, "threshold")?;
    let rate = read_field(alloc, tree, "rate")?;
    let amount = read_field(alloc, tree, "amount")?;
    Ok(Bracket {
        threshold,
        rate,
        amount,
    })
}

/// The brackets of a list.
fn read_brackets(alloc: Global, items: &[Item<'_>]) -> Result<Vec<Bracket>, NodeFault>
    ensures { Finds (λ v. v.items) result (brackets_of (items_view items.now)) (brackets_line (items_view items.now)) }
{
    let mut brackets = Vec::new(alloc);
    for item in items {
        brackets.push(read_bracket(alloc, item.line, &item.value)?)?;
    }
    Ok(brackets)
}

/// The scale of a map that has these brackets, whose key stands on `line`.
pub(crate) fn read_scale(
    alloc: Global,
    line: usize,
    tree: &Tree<'_>,
    brackets: &Tree<'_>,
) -> Result<Content, NodeFault>
    ensures { Finds (λ c. c) result (scale_of (node tree.now) (node brackets.now)) (scale_line line (node brackets.now)) }
{
    let Tree::List(items) = brackets else {
        let line = line_of(brackets, line);
        return Err(NodeFault::BadParameter { line });
    };
    let brackets = read_brackets(alloc, items)?;
    Ok(Content::Scale(Scale::new(is_single_amount(tree), brackets)))
}

/// Whether the metadata of a scale mark it `type: single_amount`.
fn is_single_amount(tree: &Tree<'_>) -> bool
    ensures { result ≡ is_single_amount (node tree.now) }
{
    let Some(metadata) = tree.get("metadata") else {
        return false;
    };
    let Some(kind) = metadata.get("type") else {
        return false;
    };
    match kind.as_text() {
        Some(text) => text == "single_amount",
        None => false,
    }
}
