//! Parameters below `parameters(period)`.
ghost use Rattle.std.specs.Prelude.{◌≡◌, ◌∷◌, [], ℕ, List, Ok, length, map};
ghost use Rattle.std.specs.List.{list_all};
ghost use Rattle.fisca_check_calls.specs.Parameters.{alike_below, all_are, children as children_view, chosen_among as among, chosen_by, one_kind, scale_alone, thing_of_kind as kind_thing};
ghost use Rattle.fisca_params.specs.Tree.{TreeNode};
ghost use Rattle.fisca_ast.specs.Outcomes.{Gives};
ghost use Rattle.fisca_ir.specs.Views.{chosen as chosen_of, indices as indices_of, node, thing};
ghost use Rattle.fisca_typing.specs.Parameters as spec;

use fisca_ast::FormulaKind;
use fisca_ir::{
    Chosen, Index, Moves, Node, Thing, Typed, copy_indices, parameter_node, push_index,
};
use fisca_model::ValueType;
use fisca_params::{NodeId, NodeKind, ParamTree};
use fisca_typing::Level;
use std::alloc::Global;
use std::rc::Rc;

/// What all of some nodes may be.
#[derive(Clone, Copy, Debug, PartialEq, Eq)]
pub enum Wanted {
    Numbers,
    Bools,
    Nodes,
}

/// Nodes that are all of one kind, shared by all that choose among them.
#[derive(Drop)]
pub struct Children {
    /// What they are.
    pub kind: Wanted,
    /// Their places.
    pub places: Rc<Vec<NodeId>>,
}

/// Whether a node is what is wanted.
fn is_wanted(wanted: Wanted, kind: NodeKind) -> bool
    ensures { result ≡ all_are wanted kind }
{
    match wanted {
        Wanted::Numbers => matches!(kind, NodeKind::Number),
        Wanted::Bools => matches!(kind, NodeKind::Bool),
        Wanted::Nodes => matches!(kind, NodeKind::Node),
    }
}

/// Whether all of these nodes are what is wanted.
fn are_all(tree: &ParamTree, places: &[NodeId], wanted: Wanted) -> bool
    ensures { result ≡ list_all (all_are wanted) (spec.kinds_at tree.now places.now) }
{
    for place in places {
        if !is_wanted(wanted, tree.kind(*place)) {
            return false;
        }
    }
    true
}

/// The parameters that are chosen among, as a value.
fn parameter_of(alloc: Global, value_type: ValueType, chosen: Chosen) -> Result<Thing, FormulaKind>
    ensures { Gives thing (spec.parameter_of value_type (chosen_of chosen)) result }
{
    Ok(Thing::Value(Typed {
        value_type,
        level: chosen.level,
        node: parameter_node(
            alloc,
            chosen.indices,
            chosen.places,
            chosen.moves.to_vec(alloc)?,
        )?,
    }))
}

/// What all of these nodes are, where they are of one kind.
fn kind_of_all(tree: &ParamTree, places: &[NodeId]) -> Option<Wanted>
    ensures { result ≡ one_kind (spec.kinds_at tree.now places.now) }
{
    if are_all(tree, places, Wanted::Numbers) {
        Some(Wanted::Numbers)
    } else if are_all(tree, places, Wanted::Bools) {
        Some(Wanted::Bools)
    } else if are_all(tree, places, Wanted::Nodes) {
        Some(Wanted::Nodes)
    } else {
        None
    }
}

/// What nodes stand for that are all of this kind.
fn thing_of_kind(alloc: Global, kind: Wanted, chosen: Chosen) -> Result<Thing, FormulaKind>
    ensures { Gives thing (kind_thing kind (chosen_of chosen)) result }
{
    match kind {
        Wanted::Numbers => parameter_of(alloc, ValueType::Number, chosen),
        Wanted::Bools => parameter_of(alloc, ValueType::Bool, chosen),
        Wanted::Nodes => Ok(Thing::Nodes(Rc::new(alloc, chosen)?)),
    }
}

/// What nodes stand for, where none is a scale that no index chooses: `BadType` where they are not of one kind.
#[tactic(auto, using(crate::proofs::OneKind::one_kind_by))]
fn of_one_kind(alloc: Global, tree: &ParamTree, chosen: Chosen) -> Result<Thing, FormulaKind>
    ensures { Gives thing (spec.of_one_kind (chosen_of chosen) (spec.kinds_at tree.now chosen.places.value.items)) result }
{
    match kind_of_all(tree, chosen.places.as_slice()) {
        Some(kind) => thing_of_kind(alloc, kind, chosen),
        None => Err(FormulaKind::BadType),
    }
}

/// The scale that no index chooses.
fn lone_scale(tree: &ParamTree, indices: &[Index], places: &[NodeId]) -> Option<NodeId>
    ensures { result ≡ scale_alone (indices_of indices.now) places.now (spec.kinds_at tree.now places.now) }
{
    if indices.iter().next().is_some() {
        return None;
    }
    let mut items = places.iter();
    let place = *items.next()?;
    if items.next().is_some() {
        return None;
    }
    match tree.kind(place) {
        NodeKind::Scale => Some(place),
        NodeKind::Node | NodeKind::Number | NodeKind::Bool | NodeKind::Unusable => None,
    }
}

/// What nodes stand for: a scale, parameters of one type, or nodes with children; else `BadType`.
#[tactic(auto, using(crate::proofs::Scales::scale_or_others))]
fn thing_chosen(alloc: Global, tree: &ParamTree, chosen: Chosen) -> Result<Thing, FormulaKind>
    ensures { Gives thing (spec.thing_chosen tree.now (chosen_of chosen)) result }
{
    match lone_scale(tree, chosen.indices.as_slice(), chosen.places.as_slice()) {
        Some(place) => Ok(Thing::Scale(place, chosen.moves)),
        None => of_one_kind(alloc, tree, chosen),
    }
}

/// The children of these names below a node, or `UnknownParameter`.
#[tactic(auto, using(crate::proofs::Rows::child_step, crate::proofs::Rows::child_fault))]
fn children_named(
    alloc: Global,
    tree: &ParamTree,
    place: NodeId,
    names: &[&[u8]],
) -> Result<Vec<NodeId>, FormulaKind>
    ensures { Gives (λ found. found.items) (spec.children_named tree.now place (map (λ name. name.now) names.now)) result }
{
    let mut found = Vec::new(alloc);
    for name in names {
        let Some(child) = tree.child_by(place, name) else {
            return Err(FormulaKind::UnknownParameter);
        };
        found.push(child)?;
    }
    Ok(found)
}

/// The children of these names below each of some nodes, or `UnknownParameter`.
#[tactic(auto, using(crate::proofs::Rows::children_step, crate::proofs::Rows::children_fault))]
fn children_below(
    alloc: Global,
    tree: &ParamTree,
    places: &[NodeId],
    names: &[&[u8]],
) -> Result<Vec<NodeId>, FormulaKind>
    ensures { Gives (λ found. found.items) (spec.children_below tree.now places.now (map (λ name. name.now) names.now)) result }
{
    let mut found = Vec::new(alloc);
    for place in places {
        let children = children_named(alloc, tree, *place, names)?;
        found.extend_from_slice(children.as_slice())?;
    }
    Ok(found)
}

/// `parameters(period)`: the root, at the start of a period.
pub fn root_at(alloc: Global, tree: &ParamTree, moves: Moves) -> Result<Thing, FormulaKind>
    ensures { Gives thing (spec.root_at tree.now moves) result }
{
    let mut places = Vec::new(alloc);
    places.push(tree.root())?;
    let chosen = Chosen {
        level: Level::Constant,
        indices: Vec::new(alloc),
        places: Rc::new(alloc, places)?,
        moves,
    };
    thing_chosen(alloc, tree, chosen)
}

/// The child of this name below a node alone, or `UnknownParameter`.
fn child_alone(
    alloc: Global,
    tree: &ParamTree,
    place: NodeId,
    name: &[u8],
) -> Result<Vec<NodeId>, FormulaKind>
    ensures { Gives (λ found. found.items) (spec.children_below tree.now (place ∷ []) (name.now ∷ [])) result }
{
    let Some(child) = tree.child_by(place, name) else {
        return Err(FormulaKind::UnknownParameter);
    };
    let mut places = Vec::new(alloc);
    places.push(child)?;
    Ok(places)
}

/// The children of this name below each of some nodes, or `UnknownParameter`.
fn children_named_so(
    alloc: Global,
    tree: &ParamTree,
    places: &[NodeId],
    name: &[u8],
) -> Result<Vec<NodeId>, FormulaKind>
    ensures { Gives (λ found. found.items) (spec.children_below tree.now places.now (name.now ∷ [])) result }
{
    match places {
        [place] => child_alone(alloc, tree, *place, name),
        several => children_below(alloc, tree, several, &[name]),
    }
}

/// A name behind nodes, or `UnknownParameter`.
pub fn node_attribute(
    alloc: Global,
    tree: &ParamTree,
    name: &[u8],
    chosen: &Chosen,
) -> Result<Thing, FormulaKind>
    ensures { Gives thing (spec.node_attribute tree.now name.now (chosen_of chosen.now)) result }
{
    let places = children_named_so(alloc, tree, chosen.places.as_slice(), name)?;
    let below = Chosen {
        level: chosen.level,
        indices: copy_indices(alloc, chosen.indices.as_slice())?,
        places: Rc::new(alloc, places)?,
        moves: chosen.moves.shared()?,
    };
    thing_chosen(alloc, tree, below)
}

/// `scale.calc`, or `BadType`.
pub fn scale_attribute(name: &[u8], place: NodeId, moves: Moves) -> Result<Thing, FormulaKind>
    ensures { Gives thing (spec.scale_attribute name.now place moves) result }
{
    if name == b"calc".as_slice() {
        Ok(Thing::Calculation(place, moves))
    } else {
        Err(FormulaKind::BadType)
    }
}

/// The children of these names below each of some nodes: `UnknownParameter`, or `BadType` where they are not of one kind.
pub fn children_alike(
    alloc: Global,
    tree: &ParamTree,
    places: &[NodeId],
    names: &[&[u8]],
) -> Result<Children, FormulaKind>
    ensures { Gives children_view (alike_below tree.now places.now (map (λ name. name.now) names.now)) result }
{
    let found = children_below(alloc, tree, places, names)?;
    match kind_of_all(tree, found.as_slice()) {
        Some(kind) => Ok(Children {
            kind,
            places: Rc::new(alloc, found)?,
        }),
        None => Err(FormulaKind::BadType),
    }
}

/// These nodes, at this level, chosen by the members that choose so far and one more, of an Enum with so many.
fn chosen_among(
    alloc: Global,
    children: &Children,
    chosen: &Chosen,
    level: Level,
    member: Node,
    size: usize,
) -> Result<Thing, FormulaKind>
    ensures { Gives thing (among (children_view children.now) (chosen_of chosen.now) level (node member) size) result }
{
    let mut indices = copy_indices(alloc, chosen.indices.as_slice())?;
    push_index(alloc, &mut indices, member, size)?;
    let below = Chosen {
        level,
        indices,
        places: Rc::clone(&children.places)?,
        moves: chosen.moves.shared()?,
    };
    thing_of_kind(alloc, children.kind, below)
}

/// Nodes with a member of an Enum with so many behind them in brackets, at this level: a child for each member, where
/// these are what the members' names lead to.
pub fn chosen_below(
    alloc: Global,
    children: &Children,
    chosen: &Chosen,
    level: Level,
    member: Node,
    size: usize,
) -> Result<Thing, FormulaKind>
    ensures { (ns : List TreeNode) (ts : List (List ℕ)) → alike_below ns (chosen_of chosen.now).places ts ≡ Ok (children_view children.now) → size ≡ length ts → Gives thing (chosen_by ns (chosen_of chosen.now) level (node member) ts) result }
{
    chosen_among(alloc, children, chosen, level, member, size)
}
