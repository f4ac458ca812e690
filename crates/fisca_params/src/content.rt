//! What a node of the parameter tree is.
use fisca_num::Fraction;
use fisca_scales::{Dates, Scale};

/// What a node of the parameter tree is.
#[derive(Debug, Drop)]
pub(crate) enum Content {
    /// A folder of files.
    Folder,
    /// A map of further nodes in a file.
    Branch,
    Numbers(Dates<Fraction>),
    Bools(Dates<bool>),
    /// A parameter with other values.
    Unusable,
    Scale(Scale),
}

/// What formulas may do with a node: a `Node` has children, a `Number` or `Bool` has values at instants, a `Scale` has
/// sums, and an `Unusable` parameter is read and not used.
#[derive(Clone, Copy, Debug, PartialEq, Eq, Hash)]
pub enum NodeKind {
    Node,
    Number,
    Bool,
    Unusable,
    Scale,
}

/// The value of a parameter at an instant.
#[derive(Clone, Copy, Debug, PartialEq, Eq, Hash)]
pub enum ParamValue {
    Number(Fraction),
    Bool(bool),
}
