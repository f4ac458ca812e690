//! What a typed formula works out: names are resolved, and no text is left.
use fisca_ast::Comparison;
use fisca_model::RolePlace;
use fisca_num::Fraction;
use fisca_params::NodeId;
use fisca_typing::{Arithmetic, Asking, DatePart, Logic, Move, Total, Unary, Whom};
use std::rc::Rc;

/// What is worked out for an expression. Enums, their members, variables and entities are given by their places, and a
/// local by how many with a value come before it; moves lead from the period of the formula to the one that is meant.
#[cycle(node)]
pub enum Node {
    /// A number.
    Literal(Fraction),
    /// `True` or `False`.
    Truth(bool),
    /// A member of an Enum.
    Member(usize, usize),
    /// The value of a local.
    Local(usize),
    /// A part of the start of a period.
    DatePart(DatePart, Box<Vec<Move>>),
    /// The value of a variable.
    Ask(Box<Ask>),
    /// Whether the person has a role in a group of this entity: one of the group's persons where their values are taken,
    /// else the formula's own.
    HasRole(usize, Box<RolePlace>),
    /// How many persons there are, or have a role, in the group of this entity: the formula's own, else that of its
    /// person.
    Count(usize, Option<Box<RolePlace>>),
    /// What values of the group's persons come to.
    Total(Total, Box<Totalled>),
    /// A value of one.
    Unary(Unary, Box<Node>),
    /// A number of two.
    Arithmetic(Arithmetic, Box<Pair>),
    /// A bool of two.
    Logic(Logic, Box<Pair>),
    /// How two numbers compare.
    Comparison(Comparison, Box<Pair>),
    /// Whether two are the same member of an Enum.
    Same(Box<Pair>),
    /// The left one where the condition holds, else the right one.
    Choose(Box<Node>, Box<Pair>),
    /// One of some parameters.
    Parameter(Box<Parameter>),
    /// The sum of a scale.
    ScaleSum(Box<ScaleSum>),
}

/// A loop, since a `select` has one choice in the next for each of its conditions, of which a module has room for 150,000: they need no
/// stack. Other nodes make two levels at most of each of the 120 that an expression may have with its locals put in.
impl Drop for Node {
    #[cycle(dropping)]
    fn drop(mut self) {
        loop {
            match self {
                Node::Choose(_, pair) => {
                    let Pair { left: _, right } = Box::into_inner(pair);
                    self = right;
                }
                Node::Literal(_) | Node::Truth(_) | Node::Member(_, _) | Node::Local(_) => return,
                Node::DatePart(_, _) => return,
                Node::Ask(_) => return,
                Node::HasRole(_, _) => return,
                Node::Count(_, _) => return,
                Node::Total(_, _) => return,
                Node::Unary(_, _) => return,
                Node::Arithmetic(_, _) => return,
                Node::Logic(_, _) => return,
                Node::Comparison(_, _) => return,
                Node::Same(_) => return,
                Node::Parameter(_) => return,
                Node::ScaleSum(_) => return,
            }
        }
    }
}

/// The operands of an operation, side by side.
#[cycle(node)]
#[derive(Drop)]
pub struct Pair {
    pub left: Node,
    pub right: Node,
}

/// Values of the group's persons, or of those with a role.
#[cycle(node)]
#[derive(Drop)]
pub struct Totalled {
    pub role: Option<RolePlace>,
    pub values: Node,
}

/// Parameters at the start of a period, of which members of Enums choose one. They stand in order of the first member,
/// then of the second, and so on, and many parameters may share them.
#[cycle(node)]
#[derive(Drop)]
pub struct Parameter {
    pub indices: Vec<Index>,
    pub places: Rc<Vec<NodeId>>,
    pub moves: Vec<Move>,
}

/// A member of an Enum that chooses among parameters, and how many members the Enum has. Nodes that stand in many places,
/// as a local's, are shared.
#[cycle(node)]
#[derive(Drop)]
pub struct Index {
    pub member: Rc<Node>,
    pub size: usize,
}

/// A scale at the start of a period, and the base of its sum.
#[cycle(node)]
#[derive(Drop)]
pub struct ScaleSum {
    pub place: NodeId,
    pub moves: Vec<Move>,
    pub base: Node,
}

/// A variable, for whom it is asked, what of the period is asked for, and the moves to it.
#[derive(Drop)]
pub struct Ask {
    pub variable: usize,
    pub whom: Whom,
    pub asking: Asking,
    pub moves: Vec<Move>,
}
