//! What a text means.

ghost use Rattle.std.specs.Prelude.{◌≡◌, ℕ, option_map, unwrap_or, Some, OnOk, IfErr, true, OnErr};
ghost use Rattle.fisca_yaml.specs.Node.{scalar};
ghost use Rattle.fisca_yaml.specs.Steps.Leaves.{leaf};
ghost use Rattle.fisca_yaml.specs.Views.{node, entries_view, AddsItem, AddsEntry};
ghost use Rattle.fisca_yaml.specs.Find.{get_entry, begins_on, entry_line, line_at};
ghost use Rattle.fisca_yaml.specs.Steps.Find.{get, as_text, as_plain, as_bool, as_number, bool_of};

use crate::fault::{YamlFault, YamlKind};
use fisca_num::Fraction;
use fisca_yaml_scalars::{Text, is_null_word};
use std::alloc::{AllocError, Global};

/// What a text means: nothing, a scalar, a list or a map, as in YAML 1.1. It borrows the text.
#[cycle(tree)]
#[derive(Debug, Drop)]
pub enum Tree<'a> {
    /// Nothing, or one of the plain words `~`, `null`, `Null` and `NULL`.
    Null,
    /// A scalar, whether it stands in quotes, and its line, counted from 1.
    Scalar {
        text: Text<'a>,
        quoted: bool,
        line: usize,
    },
    /// The items of a list, in order.
    List(Vec<Item<'a>>),
    /// The entries of a map, in order. No key comes twice.
    Map(Vec<Entry<'a>>),
}

/// An item of a list, with the line of its dash, or in brackets the line on which it stands.
#[cycle(tree)]
#[derive(Debug, Drop)]
pub struct Item<'a> {
    pub line: usize,
    pub value: Tree<'a>,
}

/// An entry of a map, with the line of its key.
#[cycle(tree)]
#[derive(Debug, Drop)]
pub struct Entry<'a> {
    pub key: Text<'a>,
    pub line: usize,
    pub value: Tree<'a>,
}

/// Puts an item at the end.
#[tactic(auto, using(crate::proofs::Grown::adds_item))]
pub(crate) fn push_item<'a>(
    items: &mut Vec<Item<'a>>,
    line: usize,
    value: Tree<'a>,
) -> Result<(), YamlFault>
    ensures ok { OnOk result (AddsItem items.old.items items.new.items line (node value.entry)) }
    ensures err { IfErr result (λ f. (f.kind ≡ YamlKind.Memory) × (f.line ≡ 0)) }
{
    items.push(Item { line, value })?;
    Ok(())
}

/// Makes room for one entry where there is none: most maps have no other.
fn reserve_first(entries: &mut Vec<Entry<'_>>) -> Result<(), AllocError>
    ensures { entries.new.items ≡ entries.old.items }
{
    if entries.is_empty() {
        entries.reserve_exact(1).map_err(AllocError::from)?;
    }
    Ok(())
}

/// Puts an entry at the end.
#[tactic(auto, using(crate::proofs::Grown::adds_entry))]
pub(crate) fn push_entry<'a>(
    entries: &mut Vec<Entry<'a>>,
    key: Text<'a>,
    line: usize,
    value: Tree<'a>,
) -> Result<(), YamlFault>
    ensures ok { OnOk result (AddsEntry entries.old.items entries.new.items key.entry line (node value.entry)) }
    ensures err { IfErr result (λ f. (f.kind ≡ YamlKind.Memory) × (f.line ≡ 0)) }
    ensures kept { OnErr result (entries.new.items ≡ entries.old.items) }
{
    reserve_first(entries)?;
    entries.push(Entry { key, line, value })?;
    Ok(())
}

/// What a plain scalar stands for.
pub(crate) fn leaf(line: usize, word: &str) -> Tree<'_>
    ensures { node result ≡ leaf line word.now }
{
    if is_null_word(word) {
        return Tree::Null;
    }
    Tree::Scalar {
        text: Text::borrowed(word),
        quoted: false,
        line,
    }
}

/// A scalar in quotes.
pub(crate) fn quoted_scalar(line: usize, text: Text<'_>) -> Tree<'_>
    ensures { node result ≡ scalar text.entry true line }
{
    Tree::Scalar {
        text,
        quoted: true,
        line,
    }
}

impl<'a> Tree<'a> {
    /// The entry at a key of a map, which has the line of the key. There is none in a list, a scalar or nothing.
    pub fn entry(&self, name: &str) -> Option<&Entry<'a>>
        ensures value { option_map (λ e. node e.now.value) result ≡ get name.now (node self.now) }
        ensures line { (other : ℕ) → unwrap_or (option_map (λ e. e.now.line) result) other ≡ line_at name.now other (node self.now) }
    {
        match self {
            Tree::Map(entries) => find(entries, name),
            _ => None,
        }
    }

    /// The value at a key of a map. There is none in a list, a scalar or nothing.
    pub fn get(&self, name: &str) -> Option<&Tree<'a>>
        ensures { option_map (λ t. node t.now) result ≡ get name.now (node self.now) }
    {
        let entry = self.entry(name)?;
        Some(&entry.value)
    }

    /// The line on which it begins: a list begins with its first item, a map with its first key. There is none of nothing, and
    /// of a list or a map without any.
    pub fn line(&self) -> Option<usize>
        ensures { result ≡ begins_on (node self.now) }
    {
        match self {
            Tree::Null => None,
            Tree::Scalar { line, .. } => Some(*line),
            Tree::List(items) => items.first().map(|item| item.line),
            Tree::Map(entries) => entries.first().map(|entry| entry.line),
        }
    }

    /// The text of a scalar, in quotes or not.
    pub fn as_text(&self) -> Option<&str>
        ensures { option_map (λ s. s.now) result ≡ as_text (node self.now) }
    {
        match self {
            Tree::Scalar { text, .. } => Some(text.as_str()),
            _ => None,
        }
    }

    /// The text of a scalar without quotes.
    fn as_plain(&self) -> Option<&str>
        ensures { option_map (λ s. s.now) result ≡ as_plain (node self.now) }
    {
        match self {
            Tree::Scalar {
                text,
                quoted: false,
                ..
            } => Some(text.as_str()),
            _ => None,
        }
    }

    /// The value of a scalar without quotes that is a decimal literal within the limits of numbers.
    pub fn as_number(&self) -> Option<Fraction>
        ensures { result ≡ as_number (node self.now) }
    {
        let text = self.as_plain()?;
        Fraction::from_decimal(text).ok()
    }

    /// The truth value of a scalar without quotes that is `true`, `yes`, `on`, `false`, `no` or `off`, in lower case, with a capital
    /// or all in capitals.
    pub fn as_bool(&self) -> Option<bool>
        ensures { result ≡ as_bool (node self.now) }
    {
        let text = self.as_plain()?;
        bool_of(text)
    }
}

/// The truth value that a word stands for.
fn bool_of(word: &str) -> Option<bool>
    ensures { result ≡ bool_of (Some word.now) }
{
    match word {
        "true" | "True" | "TRUE" | "yes" | "Yes" | "YES" | "on" | "On" | "ON" => Some(true),
        "false" | "False" | "FALSE" | "no" | "No" | "NO" | "off" | "Off" | "OFF" => Some(false),
        _ => None,
    }
}

/// The entry at a key.
fn find<'t, 'a>(entries: &'t Vec<Entry<'a>>, name: &str) -> Option<&'t Entry<'a>>
    ensures value { option_map (λ e. node e.now.value) result ≡ get_entry name.now (entries_view entries.now.items) }
    ensures line { (other : ℕ) → unwrap_or (option_map (λ e. e.now.line) result) other ≡ entry_line name.now other (entries_view entries.now.items) }
{
    let mut at = 0;
    'entries: while at < entries.len() {
        let entry = &entries[at];
        if entry.key.as_str() == name {
            return Some(entry);
        }
        at += 1;
    }
    None
}
