//! Reading a text: its lines, grouped by how deep they stand.

ghost use Rattle.std.specs.Prelude.{◌≡◌, ◌≢◌, ℕ, ◌^◌, length, ◌∷◌, ◌<◌, ◌-◌, Some, None, Ok, Err, IfOk, OnOk, IfErr, IsTrue, List, MatchResult, ◌≤◌, OnErr, IsErrAnd, ◌↔◌};
ghost use Rattle.fisca_yaml_scalars.specs.Rows.{last_number};
ghost use Rattle.fisca_yaml_scalars.specs.Steps.Rows.{rank, begins_item, following};
ghost use Rattle.std.specs.Str.Lines.{lines};
ghost use Rattle.fisca_yaml.specs.Grouping.{groups, items_of, entries_of, item_value, entry_value, entry_rest, block, tree, IsTree, Within, document};
ghost use Rattle.fisca_yaml_scalars.specs.Deeper.{front, after};
ghost use Rattle.fisca_yaml.specs.Node.{Node, AreNumbered, last_line};
ghost use Rattle.fisca_yaml_scalars.specs.Lines.{row};
ghost use Rattle.fisca_yaml.specs.Views.{node, items_view, entries_view, AddsEntry};
ghost use Rattle.fisca_yaml.specs.Answers.{Gives, IsTold};

use crate::fault::{YamlFault, YamlKind, at};
use crate::flow::make_map;
use crate::keys::{first_fault, first_of_entry};
use crate::misfit::{is_open, misfit, misplaced};
use crate::tree::{Entry, Item, Tree, push_entry, push_item};
use crate::value::{read_alone, read_beside};
use fisca_yaml_scalars::{Line, Lines, Text, is_key};
use std::alloc::Global;

/// The longest text, in bytes.
const MAX_TEXT: usize = 1024 * 1024;

/// For how many entries a map has room at first: most maps of rule files have one or two.
const FIRST_ENTRIES: usize = 2;

/// How many lists and maps may stand in one another.
const MAX_DEPTH: usize = 16;

/// Reads a text: the part of YAML 1.1 that `docs/LANGUAGE.md` describes. The tree borrows the text.
///
/// A refusal has the kind and the line (from 1) of the first line's first fault: in a line `Tab`, then `BadIndent`, then from left
/// to right. `TooLong`, at line 1, comes before all others, where the text has more than 1 MiB. `Memory`, at line 0, comes only
/// where a growth was refused.
pub fn read(alloc: Global, text: &str) -> Result<Tree<'_>, YamlFault>
    // What is read is the text's tree, and no limit is passed.
    ensures tree { IfOk result (λ t. IsTree text.now (node t) × Within text.now (node t)) }
    // A refusal for another cause than memory comes only where there is no tree, or a limit is passed.
    ensures only { IfErr result (λ f. f.kind ≢ YamlKind.Memory → (n : Node) → IsTree text.now n → Within text.now n → ⊥) }
    // The same, by the function that gives the tree of a text within the limits.
    ensures found { IfOk result (λ t. document text.now ≡ Some (node t)) }
    ensures none { IfErr result (λ f. f.kind ≢ YamlKind.Memory → document text.now ≡ None) }
    // `TooLong` is told of a text that is too long, at line 1, and of no other.
    ensures too_long { 2 ^ 20 < length text.now → IsErrAnd result (λ f. (f.kind ≡ YamlKind.TooLong) × (f.line ≡ 1)) }
    ensures long { IfErr result (λ f. f.kind ≡ YamlKind.TooLong → 2 ^ 20 < length text.now) }
    // A fault is told of a line of the text, and want of memory alone of line 0.
    ensures line { IfErr result (λ f. f.kind ≢ YamlKind.TooLong → f.line ≤ length (lines text.now)) }
    ensures memory { IfErr result (λ f. (f.line ≡ 0) ↔ (f.kind ≡ YamlKind.Memory)) }
{
    if text.len() > MAX_TEXT {
        return Err(at(1, YamlKind::TooLong));
    }
    let tree = read_tree(alloc, text)?;
    Ok(tree)
}

/// The tree of a text that is not too long.
fn read_tree(alloc: Global, text: &str) -> Result<Tree<'_>, YamlFault>
    requires { length text.now < 2 ^ 31 }
    ensures value { Gives node result (tree MAX_DEPTH text.now) }
    ensures told { IfErr result (IsTold (length (lines text.now))) }
{
    let mut lines = Lines::new(text);
    lines.skip_start();
    match lines.next_deeper(0) {
        None => Ok(Tree::Null),
        Some(head) => {
            if head.is_marker() {
                return Err(at(head.number, YamlKind::Unsupported));
            }
            if head.opens(alloc)? {
                read_block(alloc, head, &mut lines, 0, MAX_DEPTH)
            } else {
                read_alone(alloc, &head, &mut lines, 0, MAX_DEPTH)
            }
        }
    }
}

/// The list or map of a line and all deeper lines after it.
#[cycle(read)]
fn read_block<'a>(
    alloc: Global,
    head: Line<'a>,
    rest: &mut Lines<'a>,
    floor: usize,
    depth: usize,
) -> Result<Tree<'a>, YamlFault>
    requires { floor < rank (row head) }
    ensures value { Gives node result (block depth (row head.entry ∷ front floor rest.old)) }
    ensures told { IfErr result (IsTold (last_number (row head.entry ∷ rest.old))) }
    ensures rest { OnOk result (rest.new ≡ after floor rest.old) }
{
    if depth == 0 {
        return Err(at(head.number, YamlKind::TooDeep));
    }
    if head.is_item() {
        Ok(Tree::List(read_items(alloc, head, rest, floor, depth - 1)?))
    } else {
        let entries = read_entries(alloc, head, rest, floor, depth - 1)?;
        make_map(alloc, entries)
    }
}

/// The items of a list, from its first line on.
#[cycle(read)]
fn read_items<'a>(
    alloc: Global,
    head: Line<'a>,
    rest: &mut Lines<'a>,
    floor: usize,
    depth: usize,
) -> Result<Vec<Item<'a>>, YamlFault>
    requires deeper { floor < rank (row head) }
    requires item { IsTrue (begins_item head.content.now) }
    ensures value { Gives (λ v. items_view v.items) result
        (items_of (item_value depth (block depth)) (rank (row head.entry)) (groups (rank (row head.entry)) (row head.entry ∷ front floor rest.old))) }
    ensures told { IfErr result (IsTold (last_number (row head.entry ∷ rest.old))) }
    ensures rest { OnOk result (rest.new ≡ after floor rest.old) }
{
    let rank = head.rank();
    let indent = head.indent;
    let mut items = Vec::new(alloc);
    let mut next = Some(head);
    while let Some(line) = next {
        if line.rank() != rank {
            let open = line.indent == indent || is_open(floor, line.indent);
            return Err(misplaced(alloc, line, open, depth));
        }
        let value = read_item(alloc, line, rest, depth)?;
        push_item(&mut items, line.number, value)?;
        next = rest.next_deeper(floor);
    }
    Ok(items)
}

/// The value of an item, from what follows its dash and the deeper lines.
#[cycle(read)]
fn read_item<'a>(
    alloc: Global,
    line: Line<'a>,
    rest: &mut Lines<'a>,
    depth: usize,
) -> Result<Tree<'a>, YamlFault>
    requires { IsTrue (begins_item line.content.now) }
    ensures value { Gives node result (item_value depth (block depth) (record { head = row line.entry; inside = front (rank (row line.entry)) rest.old })) }
    ensures told { IfErr result (IsTold (last_number (row line.entry ∷ rest.old))) }
    ensures rest { OnOk result (rest.new ≡ after (rank (row line.entry)) rest.old) }
{
    let floor = line.rank();
    match line.after_dash() {
        None => read_below(alloc, rest, floor, depth),
        Some(inner) => {
            if inner.opens_item(alloc)? {
                read_block(alloc, inner, rest, floor, depth)
            } else {
                read_beside(alloc, &inner, rest, line.indent, floor, depth)
            }
        }
    }
}

/// The list or map of the deeper lines, or nothing.
#[cycle(read)]
fn read_below<'a>(
    alloc: Global,
    rest: &mut Lines<'a>,
    floor: usize,
    depth: usize,
) -> Result<Tree<'a>, YamlFault>
    ensures value { Gives node result (block depth (front floor rest.old)) }
    ensures told { IfErr result (IsTold (last_number rest.old)) }
    ensures rest { OnOk result (rest.new ≡ after floor rest.old) }
{
    match rest.next_deeper(floor) {
        None => Ok(Tree::Null),
        Some(head) => {
            if head.opens(alloc)? {
                read_block(alloc, head, rest, floor, depth)
            } else {
                Err(misfit(alloc, head, depth))
            }
        }
    }
}

/// The entries of a map, from its first line on.
#[cycle(read)]
fn read_entries<'a>(
    alloc: Global,
    head: Line<'a>,
    rest: &mut Lines<'a>,
    floor: usize,
    depth: usize,
) -> Result<Vec<Entry<'a>>, YamlFault>
    requires deeper { floor < rank (row head) }
    ensures value { Gives (λ v. entries_view v.items) result
        (entries_of (entry_value depth (block depth)) (rank (row head.entry)) (groups (rank (row head.entry)) (row head.entry ∷ front floor rest.old))) }
    ensures told { IfErr result (IsTold (last_number (row head.entry ∷ rest.old))) }
    ensures lines { IfOk result (λ v. AreNumbered (entries_view v.items) × (last_line (entries_view v.items) ≤ last_number (row head.entry ∷ rest.old))) }
    ensures rest { OnOk result (rest.new ≡ after floor rest.old) }
{
    let rank = head.rank();
    let indent = head.indent;
    let mut entries = Vec::with_capacity(alloc, FIRST_ENTRIES)?;
    let mut next = Some(head);
    while let Some(line) = next {
        if line.rank() != rank {
            let open = line.indent == indent || is_open(floor, line.indent);
            let fault = misplaced(alloc, line, open, depth);
            return Err(first_fault(alloc, &entries, fault));
        }
        if let Err(fault) = read_entry(alloc, &line, rest, depth, &mut entries) {
            return Err(first_fault(alloc, &entries, fault));
        }
        next = rest.next_deeper(floor);
    }
    Ok(entries)
}

/// Puts an entry behind those before it: its key, and its value from what follows the colon and the deeper lines. It is moved
/// there once, since texts and trees take several words.
#[cycle(read)]
fn read_entry<'a>(
    alloc: Global,
    line: &Line<'a>,
    rest: &mut Lines<'a>,
    depth: usize,
    entries: &mut Vec<Entry<'a>>,
) -> Result<(), YamlFault>
    ensures value { MatchResult result
        (λ _. (p : List ℕ × Node) × ((entry_value depth (block depth) (record { head = row line.now; inside = front (rank (row line.now)) rest.old }) ≡ Some p)
        × AddsEntry entries.old.items entries.new.items p.0 line.now.number p.1))
        (λ f. f.kind ≢ YamlKind.Memory → entry_value depth (block depth) (record { head = row line.now; inside = front (rank (row line.now)) rest.old }) ≡ None) }
    ensures told { IfErr result (IsTold (last_number (row line.now ∷ rest.old))) }
    ensures kept { OnErr result (entries.new.items ≡ entries.old.items) }
    ensures rest { OnOk result (rest.new ≡ after (rank (row line.now)) rest.old) }
{
    let Some((key, tail)) = line.entry(alloc)? else {
        return Err(misfit(alloc, *line, depth));
    };
    if !is_key(key.as_str()) {
        return Err(at(line.number, YamlKind::Unsupported));
    }
    match read_value(alloc, line, tail, rest, depth) {
        Ok(value) => {
            push_entry(entries, key, line.number, value)?;
            Ok(())
        }
        Err(fault) => Err(first_of_entry(entries, key.as_str(), line.number, fault)),
    }
}

/// The value of an entry, from what follows its colon and the deeper lines.
#[cycle(read)]
fn read_value<'a>(
    alloc: Global,
    line: &Line<'a>,
    tail: &'a str,
    rest: &mut Lines<'a>,
    depth: usize,
) -> Result<Tree<'a>, YamlFault>
    requires { length tail.now < 2 ^ 32 }
    ensures value { Gives node result (entry_rest depth (block depth) line.now.indent (following line.now.number 0 tail.now) (front (rank (row line.now)) rest.old)) }
    ensures told { IfErr result (IsTold (last_number (row line.now ∷ rest.old))) }
    ensures rest { OnOk result (rest.new ≡ after (rank (row line.now)) rest.old) }
{
    let floor = line.rank();
    match Line::following(line.number, 0, tail) {
        None => read_below(alloc, rest, floor, depth),
        Some(inner) => read_beside(alloc, &inner, rest, line.indent, floor, depth),
    }
}
