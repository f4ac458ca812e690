//! Nodes, made of their parts.
ghost use Rattle.std.specs.Prelude.{◌≡◌, IfOk, OnOk};
ghost use Rattle.fisca_ir.specs.Views.{node, indices as all_indices, index_view};
ghost use Rattle.fisca_typing.specs.Nodes as spec;

use crate::node::{Ask, Index, Node, Pair, Parameter, ScaleSum, Totalled};
use fisca_ast::Comparison;
use fisca_model::RolePlace;
use fisca_params::NodeId;
use fisca_typing::{Arithmetic, Asking, DatePart, Logic, Move, Total, Unary, Whom};
use std::alloc::{AllocError, Global};
use std::rc::Rc;

/// A part of the start of a period.
pub fn date_part(alloc: Global, part: DatePart, moves: Vec<Move>) -> Result<Node, AllocError>
    ensures { IfOk result (λ n. node n ≡ spec.date_part part moves.items) }
{
    Ok(Node::DatePart(part, Box::new(alloc, moves)?))
}

/// The value of a variable.
pub fn ask(
    alloc: Global,
    variable: usize,
    whom: Whom,
    asking: Asking,
    moves: Vec<Move>,
) -> Result<Node, AllocError>
    ensures { IfOk result (λ n. node n ≡ spec.ask variable whom asking moves.items) }
{
    let asked = Ask {
        variable,
        whom,
        asking,
        moves,
    };
    Ok(Node::Ask(Box::new(alloc, asked)?))
}

/// Whether a person has a role in a group of an entity.
pub fn has_role(alloc: Global, entity: usize, role: RolePlace) -> Result<Node, AllocError>
    ensures { IfOk result (λ n. node n ≡ spec.has_role entity role) }
{
    Ok(Node::HasRole(entity, Box::new(alloc, role)?))
}

/// How many persons of a group of an entity there are, or have a role.
pub fn count(alloc: Global, entity: usize, role: Option<RolePlace>) -> Result<Node, AllocError>
    ensures { IfOk result (λ n. node n ≡ spec.count entity role) }
{
    match role {
        Some(place) => Ok(Node::Count(entity, Some(Box::new(alloc, place)?))),
        None => Ok(Node::Count(entity, None)),
    }
}

/// What values of a group's persons come to.
pub fn total(
    alloc: Global,
    total: Total,
    role: Option<RolePlace>,
    values: Node,
) -> Result<Node, AllocError>
    ensures { IfOk result (λ n. node n ≡ spec.total total role (node values)) }
{
    Ok(Node::Total(total, Box::new(alloc, Totalled { role, values })?))
}

/// A value of one.
pub fn unary(alloc: Global, operation: Unary, inside: Node) -> Result<Node, AllocError>
    ensures { IfOk result (λ n. node n ≡ spec.unary operation (node inside)) }
{
    Ok(Node::Unary(operation, Box::new(alloc, inside)?))
}

/// A number of two.
pub fn arithmetic(
    alloc: Global,
    operation: Arithmetic,
    left: Node,
    right: Node,
) -> Result<Node, AllocError>
    ensures { IfOk result (λ n. node n ≡ spec.arithmetic operation (node left) (node right)) }
{
    Ok(Node::Arithmetic(operation, Box::new(alloc, Pair { left, right })?))
}

/// A bool of two.
pub fn logic(alloc: Global, operation: Logic, left: Node, right: Node) -> Result<Node, AllocError>
    ensures { IfOk result (λ n. node n ≡ spec.logic operation (node left) (node right)) }
{
    Ok(Node::Logic(operation, Box::new(alloc, Pair { left, right })?))
}

/// How two numbers compare.
pub fn comparison(
    alloc: Global,
    comparison: Comparison,
    left: Node,
    right: Node,
) -> Result<Node, AllocError>
    ensures { IfOk result (λ n. node n ≡ spec.comparison comparison (node left) (node right)) }
{
    Ok(Node::Comparison(comparison, Box::new(alloc, Pair { left, right })?))
}

/// Whether two are the same member of an Enum.
pub fn same(alloc: Global, left: Node, right: Node) -> Result<Node, AllocError>
    ensures { IfOk result (λ n. node n ≡ spec.same (node left) (node right)) }
{
    Ok(Node::Same(Box::new(alloc, Pair { left, right })?))
}

/// One value where a condition holds, else the other.
pub fn choose(
    alloc: Global,
    condition: Node,
    value: Node,
    otherwise: Node,
) -> Result<Node, AllocError>
    ensures { IfOk result (λ n. node n ≡ spec.choose (node condition) (node value) (node otherwise)) }
{
    let values = Pair {
        left: value,
        right: otherwise,
    };
    Ok(Node::Choose(Box::new(alloc, condition)?, Box::new(alloc, values)?))
}

/// One of some parameters.
pub fn parameter_node(
    alloc: Global,
    indices: Vec<Index>,
    places: Rc<Vec<NodeId>>,
    moves: Vec<Move>,
) -> Result<Node, AllocError>
    ensures { IfOk result (λ n. node n ≡ spec.parameter (all_indices indices.items) places.value.items moves.items) }
{
    let parameter = Parameter {
        indices,
        places,
        moves,
    };
    Ok(Node::Parameter(Box::new(alloc, parameter)?))
}

/// The sum of a scale.
pub fn scale_sum(
    alloc: Global,
    place: NodeId,
    moves: Vec<Move>,
    base: Node,
) -> Result<Node, AllocError>
    ensures { IfOk result (λ n. node n ≡ spec.scale_sum place moves.items (node base)) }
{
    let sum = ScaleSum { place, moves, base };
    Ok(Node::ScaleSum(Box::new(alloc, sum)?))
}

/// A member that chooses, to be shared.
fn make_index(alloc: Global, member: Node, size: usize) -> Result<Index, AllocError>
    ensures { IfOk result (λ i. index_view i ≡ record { member = node member; size = size }) }
{
    Ok(Index {
        member: Rc::new(alloc, member)?,
        size,
    })
}

/// Puts a member that chooses behind the others.
pub fn push_index(
    alloc: Global,
    chosen: &mut Vec<Index>,
    member: Node,
    size: usize,
) -> Result<(), AllocError>
    ensures { OnOk result (all_indices chosen.new.items ≡ spec.behind (all_indices chosen.old.items) (node member) size) }
{
    let index = make_index(alloc, member, size)?;
    chosen.push(index)?;
    Ok(())
}

/// The same member, shared.
fn copy_index(index: &Index) -> Result<Index, AllocError>
    ensures { IfOk result (λ i. index_view i ≡ index_view index.now) }
{
    Ok(Index {
        member: Rc::clone(&index.member)?,
        size: index.size,
    })
}

/// The same members, shared.
pub fn copy_indices(alloc: Global, chosen: &[Index]) -> Result<Vec<Index>, AllocError>
    ensures { IfOk result (λ copies. all_indices copies.items ≡ all_indices chosen.now) }
{
    let mut copies = Vec::new(alloc);
    for index in chosen {
        copies.push(copy_index(index)?)?;
    }
    Ok(copies)
}
