//! The nodes of a parameter file, put into the tree.
ghost use Rattle.std.specs.Prelude.{◌≡◌, ◌<◌, ◌≤◌, length, is_none, OnOk, IfOk, IfSome};
ghost use Rattle.fisca_yaml.specs.Views.{node, entries_view};
ghost use Rattle.fisca_params.specs.Answers.{Gives, Leaves};
ghost use Rattle.fisca_params.specs.Tree.{entered};
ghost use Rattle.fisca_params.specs.Steps.Tree.{put_node, put_children, put_file, put_below, enter, is_description, names_description, describes_folder, is_folder};
ghost use Rattle.fisca_params.specs.Content.{first_line};
ghost use Rattle.fisca_params.specs.FaultLines.{entry_or_node};
ghost use Rattle.fisca_params.specs.Paths.{names_in};

use crate::content::Content;
use crate::fault::NodeFault;
use crate::nodes::Nodes;
use crate::parameter::{read_parameter, read_scale};
use crate::written::{date_map, line_of};
use fisca_yaml::{Entry, Tree};
use std::alloc::Global;

/// Puts the node that a map of a file is, and the nodes below it, below a node. The map's key stands on `line`.
#[cycle(put)]
pub(crate) fn put_node(
    nodes: &mut Nodes,
    alloc: Global,
    parent: usize,
    name: &str,
    line: usize,
    tree: &Tree<'_>,
) -> Result<(), NodeFault>
    requires parent { parent < length nodes.old }
    ensures put { Leaves nodes.new result (put_node nodes.old parent name.now line (node tree.now)) }
    ensures longer { OnOk result (length nodes.old ≤ length nodes.new) }
{
    if nodes.child(parent, name).is_some() {
        return Err(NodeFault::DuplicateName { line });
    }
    let Tree::Map(entries) = tree else {
        let line = line_of(tree, line);
        return Err(NodeFault::BadParameter { line });
    };
    if let Some((line, values)) = date_map(tree, line) {
        let parameter = read_parameter(alloc, line, values)?;
        nodes.put(alloc, parent, name, parameter)?;
        return Ok(());
    }
    if let Some(brackets) = tree.entry("brackets") {
        let scale = read_scale(alloc, brackets.line, tree, &brackets.value)?;
        nodes.put(alloc, parent, name, scale)?;
        return Ok(());
    }
    let place = nodes.put(alloc, parent, name, Content::Branch)?;
    put_children(nodes, alloc, place, entries)
}

/// Puts the children that the entries of a map are below a node.
#[cycle(put)]
fn put_children(
    nodes: &mut Nodes,
    alloc: Global,
    place: usize,
    entries: &[Entry<'_>],
) -> Result<(), NodeFault>
    requires place { place < length nodes.old }
    ensures put { Leaves nodes.new result (put_children nodes.old place (entries_view entries.now)) }
    ensures longer { OnOk result (length nodes.old ≤ length nodes.new) }
{
    for entry in entries {
        let key = entry.key.as_str();
        if !is_description(key) {
            put_node(nodes, alloc, place, key, entry.line, &entry.value)?;
        }
    }
    Ok(())
}

/// Whether a key describes a node, and is no child of it.
fn is_description(key: &str) -> bool
    ensures { result ≡ is_description key.now }
{
    key == "description"
        || key == "metadata"
        || key == "reference"
        || key == "documentation"
        || key == "unit"
}

/// The line from which on a tree does not describe a folder, which a map of such keys alone does, and nothing.
fn first_misplaced(tree: &Tree<'_>) -> Option<usize>
    ensures none { is_none result ≡ describes_folder (node tree.now) }
    ensures line { IfSome result (λ line. line ≡ entry_or_node names_description 1 (node tree.now)) }
{
    match tree {
        Tree::Null => None,
        Tree::Map(entries) => first_child(entries),
        _ => Some(line_of(tree, 1)),
    }
}

/// The line of the first key that does not describe a node.
fn first_child(entries: &[Entry<'_>]) -> Option<usize>
    ensures { result ≡ first_line names_description (entries_view entries.now) }
{
    for entry in entries {
        if !is_description(entry.key.as_str()) {
            return Some(entry.line);
        }
    }
    None
}

/// Puts the node of a file of this name below a folder. A file `index` describes its folder alone.
fn put_file(
    nodes: &mut Nodes,
    alloc: Global,
    folder: usize,
    name: &str,
    tree: &Tree<'_>,
) -> Result<(), NodeFault>
    requires folder { folder < length nodes.old }
    ensures put { Leaves nodes.new result (put_file nodes.old folder name.now (node tree.now)) }
    ensures longer { OnOk result (length nodes.old ≤ length nodes.new) }
{
    if name == "index" {
        return match first_misplaced(tree) {
            Some(line) => Err(NodeFault::BadParameter { line }),
            None => Ok(()),
        };
    }
    put_node(nodes, alloc, folder, name, 1, tree)
}

/// The place of the folder of this name below a folder, where it is put if it is not there yet.
fn enter(nodes: &mut Nodes, alloc: Global, parent: usize, name: &str) -> Result<usize, NodeFault>
    requires parent { parent < length nodes.old }
    ensures entered { Gives (λ place. entered nodes.new place) result (enter nodes.old parent name.now) }
    ensures within { IfOk result (λ place. place < length nodes.new) }
    ensures longer { OnOk result (length nodes.old ≤ length nodes.new) }
{
    match nodes.child(parent, name) {
        None => Ok(nodes.put(alloc, parent, name, Content::Folder)?),
        Some(place) if nodes.is_folder(place) => Ok(place),
        Some(_) => Err(NodeFault::DuplicateName { line: 1 }),
    }
}

/// Puts the node of the file of this path below the root, and the folders in the path that are not there yet.
pub(crate) fn put_below(
    nodes: &mut Nodes,
    alloc: Global,
    path: &str,
    tree: &Tree<'_>,
) -> Result<(), NodeFault>
    ensures { Leaves nodes.new result (put_below nodes.old 0 (names_in path.now) (node tree.now)) }
{
    let mut folder = nodes.root();
    let mut rest = path;
    while let Some((name, below)) = rest.split_once('/') {
        folder = enter(nodes, alloc, folder, name)?;
        rest = below;
    }
    put_file(nodes, alloc, folder, rest, tree)
}
