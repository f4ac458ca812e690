//! Lists and maps in brackets.

ghost use Rattle.std.specs.Prelude.{◌≡◌, ◌≢◌, ◌<◌, ◌≤◌, ◌-◌, Some, None, length, IfOk, OnOk, MatchOption, MatchResult, false, true, take, IfErr};
ghost use Rattle.std.specs.Bool.{OnTrue, OnFalse};
ghost use Rattle.fisca_yaml_scalars.specs.Steps.Rows.{begins, tail};
ghost use Rattle.fisca_yaml_scalars.specs.Scalars.{quoted};
ghost use Rattle.fisca_yaml_scalars.specs.Steps.Scalars.{is_quote, past_blanks, is_key, ends_key};
ghost use Rattle.fisca_yaml.specs.Flow.{plain_flow, after_value, flow_key, flow_entry, flow_items, flow_entries, flow_scalar, flow_value, value_or_null, keyed_by};
ghost use Rattle.fisca_yaml.specs.Grouping.{map_of};
ghost use Rattle.fisca_yaml.specs.Views.{node, items_view, entries_view, keyed_view};
ghost use Rattle.fisca_yaml.specs.Answers.{GivesAnd, Gives, IsTold};
ghost use Rattle.fisca_yaml.specs.Node.{AreNumbered, last_line};

use crate::fault::{YamlFault, YamlKind, at};
use crate::keys::{first_fault, first_of_entry, repeated};
use crate::tree::{Entry, Item, Tree, leaf, push_entry, push_item, quoted_scalar};
use fisca_yaml_scalars::{
    Text, around, begins, ends_key, is_key, is_quote, may_begin, past_blanks, read_quoted,
    trim_end, word_len,
};
use std::alloc::{AllocError, Global};
use std::marker::Model;

/// The text that is left of a line.
#[derive(Drop)]
pub struct Flow<'a> {
    rest: &'a str,
}

impl<'a> Model for Flow<'a> {
    ghost use Rattle.std.specs.Prelude.{List, ℕ};

    ghost Value = { List ℕ };

    ghost view = { λ f. f.rest.now };
}

impl<'a> Flow<'a> {
    /// A whole text.
    pub(crate) fn new(rest: &'a str) -> Flow<'a>
        ensures { result ≡ rest.now }
    {
        Flow { rest }
    }

    /// What is left.
    pub(crate) fn rest(&self) -> &'a str
        ensures { result.now ≡ self.now }
    {
        self.rest
    }

    /// Whether a character comes next.
    fn begins(&self, byte: u8) -> bool
        ensures { result ≡ begins byte self.now }
    {
        begins(self.rest.as_bytes(), byte)
    }

    /// Takes an ASCII character, where it comes next.
    fn take(&mut self, byte: u8) -> bool
        requires { byte < 128 }
        ensures is { result ≡ begins byte self.old }
        ensures taken { OnTrue result (self.new ≡ tail self.old) }
        ensures left { OnFalse result (self.new ≡ self.old) }
        ensures shorter { OnTrue result (length self.new < length self.old) }
    {
        match self.rest.as_bytes() {
            [b, ..] if *b == byte => {
                self.rest = around(self.rest, 0).1;
                true
            }
            _ => false,
        }
    }

    /// Goes past blanks and a comment.
    fn skip_blanks(&mut self)
        ensures value { self.new ≡ past_blanks false self.old }
        ensures shorter { length self.new ≤ length self.old }
    {
        self.rest = past_blanks(self.rest);
    }

    /// Takes the plain scalar in front.
    fn take_plain(&mut self) -> Option<&'a str>
        ensures value { MatchOption result (plain_flow self.old ≡ None) (λ w. plain_flow self.old ≡ Some (w.now, self.new)) }
        ensures shorter { MatchOption result (self.new ≡ self.old) (λ w. length self.new < length self.old) }
    {
        let bytes = self.rest.as_bytes();
        if !may_begin(bytes) {
            return None;
        }
        let length = word_len(bytes);
        if length == 0 {
            return None;
        }
        let (word, rest) = self.rest.split_at(length);
        self.rest = rest;
        Some(trim_end(word))
    }

    /// Takes the quoted text in front.
    fn take_quoted(&mut self, alloc: Global) -> Result<Option<Text<'a>>, AllocError>
        ensures value { IfOk result (λ found. MatchOption found (quoted self.old ≡ None) (λ t. quoted self.old ≡ Some (t, self.new))) }
        ensures shorter { IfOk result (λ found. MatchOption found (self.new ≡ self.old) (λ t. length self.new < length self.old)) }
    {
        let Some((text, rest)) = read_quoted(alloc, self.rest)? else {
            return Ok(None);
        };
        self.rest = rest;
        Ok(Some(text))
    }
}

/// Why no plain scalar may begin so.
pub(crate) fn refused_kind(bytes: &[u8]) -> YamlKind
    ensures memory { result ≢ YamlKind.Memory }
    ensures long { result ≢ YamlKind.TooLong }
{
    match bytes {
        [b'\t', ..] => YamlKind::Tab,
        [b'&' | b'*' | b'!' | b'%' | b'@' | b'`', ..] => YamlKind::Unsupported,
        [b'?' | b':' | b'-'] | [b'?' | b':' | b'-', b' ' | b'\t', ..] => YamlKind::Unsupported,
        _ => YamlKind::BadFlow,
    }
}

/// One scalar in front.
fn read_flow_scalar<'a>(
    alloc: Global,
    number: usize,
    flow: &mut Flow<'a>,
) -> Result<Tree<'a>, YamlFault>
    requires { 0 < number }
    ensures value { GivesAnd node result flow.new (flow_scalar number flow.old) }
    ensures told { IfErr result (IsTold number) }
    ensures shorter { OnOk result (length flow.new < length flow.old) }
{
    if is_quote(flow.rest().as_bytes()) {
        return match flow.take_quoted(alloc)? {
            Some(text) => Ok(quoted_scalar(number, text)),
            None => Err(at(number, YamlKind::BadQuote)),
        };
    }
    match flow.take_plain() {
        Some(word) => Ok(leaf(number, word)),
        None => Err(at(number, refused_kind(flow.rest().as_bytes()))),
    }
}

/// One value in front, with lists and maps nested no deeper than this.
#[cycle(flow)]
pub(crate) fn read_flow<'a>(
    alloc: Global,
    number: usize,
    flow: &mut Flow<'a>,
    depth: usize,
) -> Result<Tree<'a>, YamlFault>
    requires { 0 < number }
    ensures value { GivesAnd node result flow.new (flow_value depth number flow.old) }
    ensures told { IfErr result (IsTold number) }
    ensures shorter { OnOk result (length flow.new < length flow.old) }
{
    if flow.take(b'[') {
        if depth == 0 {
            return Err(at(number, YamlKind::TooDeep));
        }
        flow.skip_blanks();
        return Ok(Tree::List(read_flow_items(alloc, number, flow, depth - 1)?));
    }
    if flow.take(b'{') {
        if depth == 0 {
            return Err(at(number, YamlKind::TooDeep));
        }
        flow.skip_blanks();
        let entries = read_flow_entries(alloc, number, flow, depth - 1)?;
        return make_map(alloc, entries);
    }
    read_flow_scalar(alloc, number, flow)
}

/// The map of these entries, where no key comes twice.
pub(crate) fn make_map<'a>(alloc: Global, entries: Vec<Entry<'a>>) -> Result<Tree<'a>, YamlFault>
    requires { AreNumbered (entries_view entries.items) }
    ensures value { Gives node result (map_of (Some (entries_view entries.entry.items))) }
    ensures told { IfErr result (IsTold (last_line (entries_view entries.entry.items))) }
{
    if let Some(line) = repeated(alloc, &entries)? {
        return Err(at(line, YamlKind::DuplicateKey));
    }
    Ok(Tree::Map(entries))
}

/// The items of a list, and its closing bracket.
#[cycle(flow)]
fn read_flow_items<'a>(
    alloc: Global,
    number: usize,
    flow: &mut Flow<'a>,
    depth: usize,
) -> Result<Vec<Item<'a>>, YamlFault>
    requires { 0 < number }
    ensures value { GivesAnd (λ v. items_view v.items) result flow.new (flow_items (flow_value depth number) number flow.old) }
    ensures told { IfErr result (IsTold number) }
    ensures shorter { OnOk result (length flow.new ≤ length flow.old) }
{
    let mut items = Vec::new(alloc);
    while !flow.take(b']') {
        let value = read_flow(alloc, number, flow, depth)?;
        push_item(&mut items, number, value)?;
        separate(number, flow, b']')?;
    }
    Ok(items)
}

/// Goes past a value's comma, or to the closing bracket.
fn separate(number: usize, flow: &mut Flow<'_>, close: u8) -> Result<(), YamlFault>
    requires ascii { close < 128 }
    requires numbered { 0 < number }
    ensures value { MatchResult result (λ _. after_value close flow.old ≡ Some flow.new) (λ f. (f.kind ≢ YamlKind.Memory) × (after_value close flow.old ≡ None)) }
    ensures told { IfErr result (IsTold number) }
    ensures shorter { OnOk result (length flow.new ≤ length flow.old) }
{
    flow.skip_blanks();
    if flow.take(b',') {
        flow.skip_blanks();
        return Ok(());
    }
    if flow.begins(close) {
        Ok(())
    } else {
        Err(at(number, YamlKind::BadFlow))
    }
}

/// The entries of a map, and its closing bracket.
#[cycle(flow)]
fn read_flow_entries<'a>(
    alloc: Global,
    number: usize,
    flow: &mut Flow<'a>,
    depth: usize,
) -> Result<Vec<Entry<'a>>, YamlFault>
    requires { 0 < number }
    ensures value { GivesAnd (λ v. entries_view v.items) result flow.new (flow_entries (flow_value depth number) number flow.old) }
    ensures told { IfErr result (IsTold number) }
    ensures lines { IfOk result (λ v. AreNumbered (entries_view v.items) × (last_line (entries_view v.items) ≤ number)) }
    ensures shorter { OnOk result (length flow.new ≤ length flow.old) }
{
    let mut entries = Vec::new(alloc);
    while !flow.take(b'}') {
        match read_flow_entry(alloc, number, flow, depth, &entries) {
            Ok((key, value)) => push_entry(&mut entries, key, number, value)?,
            Err(fault) => return Err(first_fault(alloc, &entries, fault)),
        }
        if let Err(fault) = separate(number, flow, b'}') {
            return Err(first_fault(alloc, &entries, fault));
        }
    }
    Ok(entries)
}

/// A key, its colon and its value, where these entries came before.
#[cycle(flow)]
fn read_flow_entry<'a>(
    alloc: Global,
    number: usize,
    flow: &mut Flow<'a>,
    depth: usize,
    before: &[Entry<'a>],
) -> Result<(Text<'a>, Tree<'a>), YamlFault>
    requires { 0 < number }
    ensures value { GivesAnd keyed_view result flow.new (flow_entry (flow_value depth number) flow.old) }
    ensures told { IfErr result (IsTold number) }
    ensures shorter { OnOk result (length flow.new < length flow.old) }
{
    let key = read_flow_key(alloc, number, flow)?;
    match read_flow_beside(alloc, number, flow, depth) {
        Ok(value) => Ok((key, value)),
        Err(fault) => Err(first_of_entry(before, key.as_str(), number, fault)),
    }
}

/// The value of an entry, or nothing where a comma or the bracket follows.
#[cycle(flow)]
fn read_flow_beside<'a>(
    alloc: Global,
    number: usize,
    flow: &mut Flow<'a>,
    depth: usize,
) -> Result<Tree<'a>, YamlFault>
    requires { 0 < number }
    ensures value { GivesAnd node result flow.new (value_or_null (flow_value depth number) flow.old) }
    ensures told { IfErr result (IsTold number) }
    ensures shorter { OnOk result (length flow.new ≤ length flow.old) }
{
    if flow.begins(b',') || flow.begins(b'}') {
        return Ok(Tree::Null);
    }
    read_flow(alloc, number, flow, depth)
}

/// A key, its colon and the blanks behind it.
fn read_flow_key<'a>(
    alloc: Global,
    number: usize,
    flow: &mut Flow<'a>,
) -> Result<Text<'a>, YamlFault>
    requires { 0 < number }
    ensures value { GivesAnd (λ k. k) result flow.new (flow_key flow.old) }
    ensures told { IfErr result (IsTold number) }
    ensures shorter { OnOk result (length flow.new < length flow.old) }
{
    if is_quote(flow.rest().as_bytes()) {
        let Some(key) = flow.take_quoted(alloc)? else {
            return Err(at(number, YamlKind::BadQuote));
        };
        take_colon(number, flow, true, key.as_str())?;
        return Ok(key);
    }
    let Some(word) = flow.take_plain() else {
        return Err(at(number, refused_key(flow.rest().as_bytes())));
    };
    take_colon(number, flow, false, word)?;
    Ok(Text::borrowed(word))
}

/// Why no plain key may begin so. A colon with a blank or an end behind it follows an empty key.
fn refused_key(bytes: &[u8]) -> YamlKind
    ensures memory { result ≢ YamlKind.Memory }
    ensures long { result ≢ YamlKind.TooLong }
{
    match bytes {
        [b':', rest @ ..] if ends_key(rest) => YamlKind::Unsupported,
        _ => refused_kind(bytes),
    }
}

/// Goes past a key's colon and the blanks behind it. Behind a plain key's colon a blank or an end must follow.
fn take_colon(number: usize, flow: &mut Flow<'_>, loose: bool, key: &str) -> Result<(), YamlFault>
    requires { 0 < number }
    ensures value { MatchResult result (λ _. keyed_by loose (Some (key.now, flow.old)) ≡ Some (key.now, flow.new)) (λ f. (f.kind ≢ YamlKind.Memory) × (keyed_by loose (Some (key.now, flow.old)) ≡ None)) }
    ensures told { IfErr result (IsTold number) }
    ensures shorter { OnOk result (length flow.new ≤ length flow.old) }
{
    flow.skip_blanks();
    if !flow.take(b':') {
        return Err(at(number, YamlKind::BadFlow));
    }
    if !loose && !ends_key(flow.rest().as_bytes()) {
        return Err(at(number, YamlKind::BadFlow));
    }
    if !is_key(key) {
        return Err(at(number, YamlKind::Unsupported));
    }
    flow.skip_blanks();
    Ok(())
}
