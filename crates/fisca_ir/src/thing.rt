//! What an expression of a formula may stand for.
use crate::moves::Moves;
use crate::node::{Index, Node};
use fisca_model::{RolePlace, ValueType};
use fisca_params::NodeId;
use fisca_typing::{Asking, Function, Level, Method, Whom};
use std::rc::Rc;

/// A value: its type, its level, and what is worked out for it.
#[derive(Drop)]
pub struct Typed {
    pub value_type: ValueType,
    pub level: Level,
    pub node: Node,
}

/// Parameters that are chosen among, at the start of a period: those that the members of the indices lead to, at the
/// indices' highest level. The places are shared.
#[derive(Drop)]
pub struct Chosen {
    pub level: Level,
    pub indices: Vec<Index>,
    pub places: Rc<Vec<NodeId>>,
    pub moves: Moves,
}

/// Whom a variable is asked for by a name behind the entity, and the place of the variable's entity.
#[derive(Clone, Copy, Debug, PartialEq, Eq)]
pub struct Relation {
    pub whom: Whom,
    pub entity: usize,
}

/// What an expression may stand for. Entities, Enums and parameters are given by their places.
#[derive(Drop)]
pub enum Thing {
    Value(Typed),
    /// A period, by the moves to it.
    Period(Moves),
    /// `period.start`
    Start(Moves),
    /// `period.offset`
    Offset(Moves),
    /// The formula's third argument.
    Reader,
    /// `parameters(period)`, and what stands below it; a local's are shared.
    Nodes(Rc<Chosen>),
    Scale(NodeId, Moves),
    /// `scale.calc`
    Calculation(NodeId, Moves),
    Enumeration(usize),
    /// `x.possible_values`
    Choices(usize),
    Entity(usize),
    Role(usize, RolePlace),
    /// The formula's first argument.
    Asker,
    /// A name behind it.
    Method(Option<Method>, Option<Relation>),
    /// `GROUP.nb_persons` behind it, where it is a person.
    GroupCount(usize),
    /// `np` and `numpy`
    Library,
    Function(Function),
    /// `ADD` and `DIVIDE`
    Asking(Asking),
    Text(String),
    Listed(Vec<Thing>),
}
