//! The axes that words describe, and their names.

ghost use Rattle.std.specs.Prelude.{◌≡◌, ◌++◌, map, option_map, IfOk, string_bytes};
ghost use Rattle.std.specs.List.{list_any};
ghost use Rattle.std.specs.Str.{bytes_eq};
ghost use Rattle.fisca_grid.specs.NamedAxes.{specs_of, filter_from};
ghost use Rattle.fisca_grid.specs.Steps.NamedAxes.{name_of, own_groups, has_twins};

use super::axes::AxisSpec;
use super::condition::{Filter, read_condition};
use super::words::read_axis;
use std::alloc::{AllocError, Global};

/// The name of the axis that a word describes, and nothing for another word.
fn name_of(word: &str) -> &str
    ensures { result.now ≡ name_of word.now }
{
    match read_axis(word) {
        Some((name, _)) => name,
        None => "",
    }
}

/// The axes that words `NAME=MIN..MAX/COUNT` describe, in order; none where one of the words describes no axis. Memory is its only
/// error.
pub fn read_axes(alloc: Global, words: &[String]) -> Result<Option<Vec<AxisSpec>>, AllocError>
    ensures { IfOk result (λ specs. option_map (λ specs. specs.items) specs ≡ specs_of (map (λ word. string_bytes word) words.now)) }
{
    let mut specs = Vec::new(alloc);
    for word in words {
        match read_axis(word.as_str()) {
            Some((_, spec)) => specs.push(spec)?,
            None => return Ok(None),
        }
    }
    Ok(Some(specs))
}

/// Names, and behind them those of the axes that the words describe. Memory is its only error.
pub fn axis_names(
    alloc: Global,
    names: Vec<String>,
    words: &[String],
) -> Result<Vec<String>, AllocError>
    ensures { IfOk result (λ all. map (λ name. string_bytes name) all.items ≡ map (λ name. string_bytes name) names.items ++ map name_of (map (λ word. string_bytes word) words.now)) }
{
    let mut all = names;
    for word in words {
        all.push(String::from_str(alloc, name_of(word.as_str()))?)?;
    }
    Ok(all)
}

/// The lengths of groups, where each axis is a group of its own.
pub fn own_groups(alloc: Global, specs: &[AxisSpec]) -> Result<Vec<u32>, AllocError>
    ensures { IfOk result (λ lengths. lengths.items ≡ own_groups specs.now) }
{
    let mut lengths = Vec::with_capacity(alloc, specs.len())?;
    for _spec in specs {
        lengths.push(1)?;
    }
    Ok(lengths)
}

/// Whether a word has this name.
fn is_named(words: &[String], name: &str) -> bool
    ensures { result ≡ list_any (λ other. bytes_eq other name.now) (map name_of (map (λ word. string_bytes word) words.now)) }
{
    for word in words {
        if name_of(word.as_str()) == name {
            return true;
        }
    }
    false
}

/// Whether two of the words describe axes of one name.
pub fn has_twins(words: &[String]) -> bool
    ensures { result ≡ has_twins (map name_of (map (λ word. string_bytes word) words.now)) }
{
    for i in 0..words.len() {
        if is_named(&words[i + 1..], name_of(words[i].as_str())) {
            return true;
        }
    }
    false
}

/// The condition that a text states of one of the axes that the words describe, as [`read_condition`] reads it, with the axis's
/// index. This project's own rule.
pub fn read_filter(words: &[String], text: &str) -> Option<Filter>
    ensures { result ≡ filter_from 0 (map name_of (map (λ word. string_bytes word) words.now)) text.now }
{
    for axis in 0..words.len() {
        if let Some(condition) = read_condition(name_of(words[axis].as_str()), text) {
            return Some(Filter { axis, condition });
        }
    }
    None
}
