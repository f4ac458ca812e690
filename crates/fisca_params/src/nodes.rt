//! The nodes of the parameter tree, and the look-up of a child by its name.
ghost use Rattle.std.specs.Prelude.{nat_lt, ◌≡◌, ◌<◌, ◌++◌, ◌∷◌, [], length, count_by, Some, None, IfOk, OnOk, IfSome, string_bytes};
ghost use Rattle.fisca_params.specs.Tree.{child_of, child_node, content_at};
ghost use Rattle.fisca_params.specs.Steps.Tree.{is_folder};
ghost use Rattle.fisca_params.specs.Files.{root_alone};
ghost use Rattle.fisca_params.specs.Steps.Lookup.{is_counted};

use crate::content::Content;
use std::alloc::{AllocError, Global};
use std::collections::BTreeMap;
use std::marker::Model;

/// A node: the place of the node above it, its name there, and what it is.
#[derive(Debug, Drop)]
pub(crate) struct ParamNode {
    parent: Option<usize>,
    name: String,
    content: Content,
}

impl Model for ParamNode {
    ghost use Rattle.std.specs.Prelude.{string_bytes};
    ghost use Rattle.fisca_params.specs.Tree.{TreeNode};

    ghost Value = { TreeNode };

    ghost view = { λ n. record { parent = n.parent; name = string_bytes n.name; content = n.content } };
}

impl ParamNode {
    /// Whether the node is a parameter or a scale.
    fn is_counted(&self) -> bool
        ensures { result ≡ is_counted self.now }
    {
        !matches!(self.content, Content::Folder | Content::Branch)
    }
}

/// The nodes, each after the one above it, and for each the places of its children by their names. Contracts see the nodes.
#[derive(Debug, Drop)]
pub(crate) struct Nodes {
    nodes: Vec<ParamNode>,
    children: Vec<BTreeMap<String, usize>>,
}

impl Model for Nodes {
    ghost use Rattle.std.specs.Prelude.{List};
    ghost use Rattle.fisca_params.specs.Nodes.{IsIndexed};
    ghost use Rattle.fisca_params.specs.Tree.{TreeNode};

    ghost Value = { List TreeNode };

    ghost view = { λ n. n.nodes.items };

    ghost invariant = { λ n. IsIndexed n.nodes.items n.children.items };
}

/// A node of this name below another.
fn node_below(parent: usize, name: String, content: Content) -> ParamNode
    ensures { result ≡ child_node parent (string_bytes name) content }
{
    ParamNode {
        parent: Some(parent),
        name,
        content,
    }
}

impl Nodes {
    /// The root alone.
    pub(crate) fn new(alloc: Global) -> Result<Nodes, AllocError>
        ensures { IfOk result (λ n. n ≡ root_alone) }
    {
        let mut nodes = Vec::new(alloc);
        nodes.push(ParamNode {
            parent: None,
            name: String::new(alloc),
            content: Content::Folder,
        })?;
        let mut children = Vec::new(alloc);
        children.push(BTreeMap::new(alloc))?;
        Ok(Nodes { nodes, children })
    }

    /// The place of the root.
    pub(crate) fn root(&self) -> usize
        ensures place { result ≡ 0 }
        ensures within { result < length self.now }
    {
        let _nodes = &self.nodes;
        0
    }

    /// The place of the node of this name below a node.
    pub(crate) fn child(&self, parent: usize, name: &str) -> Option<usize>
        ensures place { result ≡ child_of self.now parent name.now }
        ensures within { IfSome result (λ place. place < length self.now) }
    {
        if parent >= self.nodes.len() {
            return None;
        }
        self.children[parent].get(name).copied()
    }

    /// The same by the bytes of a name.
    pub(crate) fn child_by(&self, parent: usize, name: &[u8]) -> Option<usize>
        ensures place { result ≡ child_of self.now parent name.now }
        ensures within { IfSome result (λ place. place < length self.now) }
    {
        let _nodes = &self.nodes;
        let Ok(text) = str::from_utf8(name) else {
            return None;
        };
        self.child(parent, text)
    }

    /// What the node at a place is.
    pub(crate) fn content(&self, place: usize) -> &Content
        requires { place < length self.now }
        ensures { Some result.now ≡ content_at self.now place }
    {
        &self.nodes[place].content
    }

    /// Whether there is a node at this place.
    pub(crate) fn has(&self, place: usize) -> bool
        ensures { result ≡ nat_lt place (length self.now) }
    {
        place < self.nodes.len()
    }

    /// Whether a node is a folder.
    pub(crate) fn is_folder(&self, place: usize) -> bool
        requires { place < length self.now }
        ensures { result ≡ is_folder (content_at self.now place) }
    {
        matches!(self.content(place), Content::Folder)
    }

    /// How many parameters and scales there are.
    pub(crate) fn count(&self) -> usize
        ensures { result ≡ count_by is_counted self.now }
    {
        self.nodes.iter().filter(|node| node.is_counted()).count()
    }

    /// Puts a node below another that has no child of its name, and answers its place.
    pub(crate) fn put(
        &mut self,
        alloc: Global,
        parent: usize,
        name: &str,
        content: Content,
    ) -> Result<usize, AllocError>
        requires parent { parent < length self.old }
        requires free { child_of self.old parent name.now ≡ None }
        ensures place { IfOk result (λ place. place ≡ length self.old) }
        ensures nodes { OnOk result (self.new ≡ self.old ++ child_node parent name.now content ∷ []) }
    {
        let place = self.nodes.len();
        let key = String::from_str(alloc, name)?;
        let node = node_below(parent, String::from_str(alloc, name)?, content);
        self.nodes.reserve(1)?;
        self.children.reserve(1)?;
        self.children[parent].insert(key, place)?;
        self.nodes.push_reserved(node);
        self.children.push_reserved(BTreeMap::new(alloc));
        Ok(place)
    }
}
