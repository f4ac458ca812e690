//! Formulas that are made of known values and of the values of keys, one after another.

ghost use Rattle.std.specs.Bool.{OnTrue};
ghost use Rattle.std.specs.Prelude.{◌≡◌, [], ◌∷◌, List, None, false, map, is_some, IfOk, IfSome};
ghost use Rattle.fisca_model.specs.Values.{bool};
ghost use Rattle.fisca_typing.specs.Meaning.{formula_means};
ghost use Rattle.fisca_model.specs.Groups.{Groups};
ghost use Rattle.fisca_ir.specs.Views.{node};
ghost use Rattle.fisca_ir.specs.declared.node.Node.{Node as Held};
ghost use Rattle.fisca_symbols.specs.Known.{tables as known};
ghost use Rattle.fisca_machine.specs.Plans.{has_plan, is_alone, is_operand, plays, then_operand, then_steps};
ghost use Rattle.fisca_machine.specs.Running.{After, Locals, before, parametric, point, says};
ghost use Rattle.fisca_typing.specs.Nodes.{arithmetic, ask as asks_node, no_index, parameter};
ghost use Rattle.fisca_ops.specs.Casts.{cast};

use crate::found::{type_of, variable_at};
use crate::pending::{Frame, Operation};
use fisca_ir::{Ask, Node, Parameter};
use fisca_model::{Key, Value};
use fisca_ops::{moved_all, parameter_at, plain_key, start_at};
use fisca_params::NodeId;
use fisca_symbols::{DeclaredType, Tables};
use fisca_typing::{Arithmetic, Asking, Whom};
use std::alloc::{AllocError, Global};

/// An operand.
#[derive(Clone, Copy)]
pub(crate) enum Operand {
    /// A value that is known.
    Known(Value),
    /// The value of this key.
    Asked(Key),
}

/// A step: what is made of the value so far and of an operand.
#[derive(Clone, Copy)]
pub(crate) struct PlanStep {
    /// The operation. Without one it is the operand itself.
    pub(crate) operation: Option<Operation>,
    /// The right operand.
    pub(crate) right: Operand,
}

/// A formula of a variable for a member at a period, where it is made of known values and of the values of keys, one after another: what it
/// names is looked up once.
#[derive(Drop)]
pub struct Plan {
    /// The steps. The first has no operation.
    pub(crate) steps: Vec<PlanStep>,
    /// The type of the variable.
    pub(crate) declared: DeclaredType,
}

/// The place of the parameter that a node names, where none is chosen.
fn only_place(x: &Parameter) -> Option<NodeId>
    ensures some { IfSome result (λ place. ((parametric x.now).indices ≡ no_index) × ((parametric x.now).places ≡ place ∷ [])) }
    ensures only { is_some result ≡ is_alone (parametric x.now).indices (parametric x.now).places }
{
    let [] = x.indices.as_slice() else {
        return None;
    };
    match x.places.as_slice() {
        [place] => Some(*place),
        _ => None,
    }
}

/// The parameter that a node names, where none is chosen and it has a value.
#[tactic(auto, unfolding(crate::specs::Plans::is_operand))]
fn parameter_of(tables: &Tables<'_>, x: &Parameter, frame: &Frame) -> Option<Operand>
    ensures some { IfSome result (λ o. (g : Groups) (ls : Locals) (k : After) → says (known tables.now) g ls (parameter (parametric x.now).indices (parametric x.now).places (parametric x.now).moves) (point frame.now (record { person = None; visible = 0 })) k ≡ then_operand o k) }
    ensures only { (g : Groups) (ls : Locals) → is_some result ≡ is_operand (known tables.now) g ls (parameter (parametric x.now).indices (parametric x.now).places (parametric x.now).moves) (point frame.now (record { person = None; visible = 0 })) }
{
    let place = only_place(x)?;
    let day = start_at(x.moves.as_slice(), frame.period).ok()?;
    match parameter_at(&tables.parameters, place, day) {
        Ok(value) => Some(Operand::Known(value)),
        Err(_) => None,
    }
}

/// The key for which a node asks the formula's own member, as it stands.
#[tactic(auto, unfolding(crate::specs::Plans::is_operand))]
fn own_key(tables: &Tables<'_>, ask: &Ask, frame: &Frame) -> Option<Operand>
    ensures some { IfSome result (λ o. (g : Groups) (ls : Locals) (k : After) → says (known tables.now) g ls (asks_node ask.now.variable ask.now.whom ask.now.asking ask.now.moves.items) (point frame.now (record { person = None; visible = 0 })) k ≡ then_operand o k) }
    ensures only { (g : Groups) (ls : Locals) → is_some result ≡ is_operand (known tables.now) g ls (asks_node ask.now.variable ask.now.whom ask.now.asking ask.now.moves.items) (point frame.now (record { person = None; visible = 0 })) }
{
    let (Asking::Plain, Whom::Own) = (ask.asking, ask.whom) else {
        return None;
    };
    let variable = variable_at(tables, ask.variable)?;
    type_of(variable.value_type)?;
    let period = moved_all(ask.moves.as_slice(), frame.period).ok()?;
    match plain_key(
        ask.variable,
        variable.definition_period,
        frame.member,
        period,
    ) {
        Ok(key) => Some(Operand::Asked(key)),
        Err(_) => None,
    }
}

/// The operand that a node is, where it is one.
#[tactic(auto, unfolding(crate::specs::Plans::is_operand))]
fn operand_of(tables: &Tables<'_>, e: &Node, frame: &Frame) -> Option<Operand>
    ensures some { IfSome result (λ o. (g : Groups) (ls : Locals) (k : After) → says (known tables.now) g ls (node e.now) (point frame.now (record { person = None; visible = 0 })) k ≡ then_operand o k) }
    ensures only { (g : Groups) (ls : Locals) → is_some result ≡ is_operand (known tables.now) g ls (node e.now) (point frame.now (record { person = None; visible = 0 })) }
{
    match e {
        Node::Literal(number) => Some(Operand::Known(Value::Number(*number))),
        Node::Truth(truth) => Some(Operand::Known(Value::Bool(*truth))),
        Node::Member(_, place) => Some(Operand::Known(Value::Member(*place))),
        Node::Ask(ask) => own_key(tables, ask, frame),
        Node::Parameter(x) => parameter_of(tables, x, frame),
        Node::Local(_)
        | Node::DatePart(..)
        | Node::HasRole(..)
        | Node::Count(..)
        | Node::Total(..)
        | Node::Unary(..)
        | Node::Arithmetic(..)
        | Node::Logic(..)
        | Node::Comparison(..)
        | Node::Same(_)
        | Node::Choose(..)
        | Node::ScaleSum(_) => None,
    }
}

/// Puts the steps of arithmetic on two nodes, where the left one has a plan and the right one is an operand. Whether they are so.
#[cycle(steps)]
fn put_arithmetic(
    tables: &Tables<'_>,
    kind: Arithmetic,
    left: &Node,
    right: &Node,
    frame: &Frame,
    steps: &mut Vec<PlanStep>,
) -> Result<bool, AllocError>
    requires { steps.old.items ≡ [] }
    ensures steps { IfOk result (λ r. OnTrue r ((g : Groups) (ls : Locals) (k : After) → says (known tables.now) g ls (arithmetic kind (node left.now) (node right.now)) (point frame.now (record { person = None; visible = 0 })) k ≡ then_steps steps.new.items k (bool false))) }
    ensures only { IfOk result (λ r. (g : Groups) (ls : Locals) → r ≡ has_plan (known tables.now) g ls (arithmetic kind (node left.now) (node right.now)) (point frame.now (record { person = None; visible = 0 }))) }
{
    if !put_steps(tables, left, frame, steps)? {
        return Ok(false);
    }
    let Some(operand) = operand_of(tables, right, frame) else {
        return Ok(false);
    };
    steps.push(PlanStep {
        operation: Some(Operation::Arithmetic(kind)),
        right: operand,
    })?;
    Ok(true)
}

/// Puts the steps of a node that is an operand, or arithmetic on such a node and on an operand. Whether it is one.
#[cycle(steps)]
fn put_steps(
    tables: &Tables<'_>,
    e: &Node,
    frame: &Frame,
    steps: &mut Vec<PlanStep>,
) -> Result<bool, AllocError>
    requires { steps.old.items ≡ [] }
    ensures steps { IfOk result (λ r. OnTrue r ((g : Groups) (ls : Locals) (k : After) → says (known tables.now) g ls (node e.now) (point frame.now (record { person = None; visible = 0 })) k ≡ then_steps steps.new.items k (bool false))) }
    ensures only { IfOk result (λ r. (g : Groups) (ls : Locals) → r ≡ has_plan (known tables.now) g ls (node e.now) (point frame.now (record { person = None; visible = 0 }))) }
{
    if let Some(right) = operand_of(tables, e, frame) {
        steps.push(PlanStep {
            operation: None,
            right,
        })?;
        return Ok(true);
    }
    match e {
        Node::Arithmetic(kind, pair) => {
            put_arithmetic(tables, *kind, &pair.left, &pair.right, frame, steps)
        }
        Node::Literal(_)
        | Node::Truth(_)
        | Node::Member(..)
        | Node::Local(_)
        | Node::DatePart(..)
        | Node::Ask(_)
        | Node::HasRole(..)
        | Node::Count(..)
        | Node::Total(..)
        | Node::Unary(..)
        | Node::Logic(..)
        | Node::Comparison(..)
        | Node::Same(_)
        | Node::Choose(..)
        | Node::Parameter(_)
        | Node::ScaleSum(_) => Ok(false),
    }
}

/// The plan of a formula of a variable of this type, for a member at a period, by the node of its result. `None` exactly where the node is no operand
/// and no arithmetic from left to right on operands. An operand is a literal, a parameter that is not chosen or a variable of the formula's own
/// member as it stands, where it has a value or a key then: no period is out of range, the parameter has a value on the day, and the period fits
/// the variable. `Err` only where memory was refused. This project's own rule.
pub fn plan_of(
    alloc: Global,
    tables: &Tables<'_>,
    returned: &Node,
    declared: DeclaredType,
    frame: Frame,
) -> Result<Option<Plan>, AllocError>
    ensures plays { IfOk result (λ o. IfSome o (λ p. (ns : List Held) (g : Groups) → before (formula_means (known tables.now) g (record { values = map node ns; result = node returned.now }) (record { entity = frame.entity; member = frame.member; person = None; period = frame.period })) (cast declared) ≡ plays p)) }
    ensures only { IfOk result (λ o. (g : Groups) (ls : Locals) → is_some o ≡ has_plan (known tables.now) g ls (node returned.now) (point frame (record { person = None; visible = 0 }))) }
{
    let mut steps = Vec::new(alloc);
    if put_steps(tables, returned, &frame, &mut steps)? {
        Ok(Some(Plan { steps, declared }))
    } else {
        Ok(None)
    }
}
