//! The parameter tree.
ghost use Rattle.std.specs.Prelude.{◌≡◌, ◌<◌, length, Some, IfSome, IsSome, count_by};
ghost use Rattle.fisca_params.specs.Lookup.{kind_of, value_in, sum_in, scale_in};
ghost use Rattle.fisca_params.specs.Steps.Lookup.{is_counted};
ghost use Rattle.fisca_params.specs.Tree.{child_of, content_at};

use crate::ParamFault;
use crate::content::{Content, NodeKind, ParamValue};
use crate::nodes::Nodes;
use fisca_num::Fraction;
use fisca_time::Instant;
use std::marker::Model;

/// A node of a parameter tree, by its place in the tree that gave it.
#[derive(Clone, Copy, Debug, PartialEq, Eq, Hash)]
pub struct NodeId {
    place: usize,
}

impl Model for NodeId {
    ghost use Rattle.std.specs.Prelude.{ℕ};

    ghost Value = { ℕ };

    ghost view = { λ n. n.place };

    ghost inverse = { λ place. record { place = place } };
}

/// The parameters and scales of a rule set, as a tree of nodes: the folders below `parameters`, the files in them, and
/// the maps in a file. Contracts see the list of its nodes, the root first and each node after the one above it.
#[derive(Debug, Drop)]
pub struct ParamTree {
    pub(crate) nodes: Nodes,
}

impl Model for ParamTree {
    ghost use Rattle.std.specs.Prelude.{List};
    ghost use Rattle.fisca_params.specs.Tree.{TreeNode};

    ghost Value = { List TreeNode };

    ghost view = { λ t. t.nodes };
}

impl ParamTree {
    /// The node of the folder `parameters`.
    pub fn root(&self) -> NodeId
        ensures place { result ≡ 0 }
        ensures within { result < length self.now }
    {
        let place = self.nodes.root();
        NodeId { place }
    }

    /// The child of this name of a node, where it has one: of a folder a folder or a file without its ending, of a map
    /// in a file the entry of this key. Parameters and scales have none.
    pub fn child(&self, node: NodeId, name: &str) -> Option<NodeId>
        ensures place { result ≡ child_of self.now node name.now }
        ensures within { IfSome result (λ child. child < length self.now) }
    {
        let place = self.nodes.child(node.place, name)?;
        Some(NodeId { place })
    }

    /// The same by the bytes of a name.
    pub fn child_by(&self, node: NodeId, name: &[u8]) -> Option<NodeId>
        ensures place { result ≡ child_of self.now node name.now }
        ensures within { IfSome result (λ child. child < length self.now) }
    {
        let place = self.nodes.child_by(node.place, name)?;
        Some(NodeId { place })
    }

    /// What formulas may do with a node. A place that the tree has not counts as a node.
    pub fn kind(&self, node: NodeId) -> NodeKind
        ensures kind { result ≡ kind_of (content_at self.now node) }
        ensures scale { result ≡ NodeKind.Scale → IsSome (scale_in (content_at self.now node)) }
    {
        if !self.nodes.has(node.place) {
            return NodeKind::Node;
        }
        match self.content(node) {
            Content::Folder | Content::Branch => NodeKind::Node,
            Content::Numbers(_) => NodeKind::Number,
            Content::Bools(_) => NodeKind::Bool,
            Content::Unusable => NodeKind::Unusable,
            Content::Scale(_) => NodeKind::Scale,
        }
    }

    /// How many parameters and scales there are, unusable ones included.
    pub fn count(&self) -> usize
        ensures { result ≡ count_by is_counted self.now }
    {
        self.nodes.count()
    }

    /// The value of a parameter at an instant: that of the latest date not after it. There is none before the first
    /// date and where that value is null, nor for a node, a scale or an unusable parameter.
    pub fn value_at(&self, node: NodeId, instant: Instant) -> Option<ParamValue>
        requires { node < length self.now }
        ensures { result ≡ value_in (content_at self.now node) instant }
    {
        match self.content(node) {
            Content::Numbers(dates) => Some(ParamValue::Number(dates.value_at(instant)?)),
            Content::Bools(dates) => Some(ParamValue::Bool(dates.value_at(instant)?)),
            _ => None,
        }
    }

    /// The sum of a scale for a base at an instant, by the OpenFisca documentation.
    ///
    /// `Undefined` where no bracket is complete at the instant, `BadScale` where two complete brackets have one
    /// threshold, and `Number` where a difference, a product or a partial sum over the thresholds below the base is too
    /// wide (these are this project's own rules).
    pub fn calc(
        &self,
        node: NodeId,
        instant: Instant,
        base: Fraction,
    ) -> Result<Fraction, ParamFault>
        requires { IsSome (scale_in (content_at self.now node)) }
        ensures { result ≡ sum_in (content_at self.now node) instant base }
    {
        match self.content(node) {
            Content::Scale(scale) => scale.sum(instant, base),
            _ => Err(ParamFault::Undefined),
        }
    }

    /// What a node is.
    fn content(&self, node: NodeId) -> &Content
        requires { node < length self.now }
        ensures { Some result.now ≡ content_at self.now node }
    {
        self.nodes.content(node.place)
    }
}
