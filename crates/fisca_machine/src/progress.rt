//! Plans that are played: step by step, until there is a value, none can be, or the value of a key is needed.

ghost use Rattle.std.specs.Prelude.{◌≡◌, false};
ghost use Rattle.fisca_model.specs.Seen.{value_seen};
ghost use Rattle.fisca_model.specs.Values.{bool};
ghost use Rattle.fisca_ops.specs.Ended.{IsMoving, ended};
ghost use Rattle.fisca_machine.specs.Plans.{Stops, behind_operand, plays};
ghost use Rattle.fisca_machine.specs.Steps.Plans.{made as made_of};

use crate::found::applied;
use crate::pending::Operation;
use crate::plan::{Operand, Plan, PlanStep};
use fisca_model::{Key, Value};
use fisca_ops::{OperationFault, cast};
use fisca_symbols::DeclaredType;

/// Where a plan stops.
#[derive(Clone, Copy)]
pub enum Stop {
    /// It is done: its value.
    Done(Value),
    /// It has no value.
    Failed(OperationFault),
    /// The value of this key is needed.
    Needs(Key),
}

/// How far a plan is played: an operand is waited for.
#[derive(Clone, Copy)]
pub struct Progress<'p> {
    /// The value so far.
    left: Value,
    /// What is made of it and of the operand.
    operation: Option<Operation>,
    /// The steps behind that.
    steps: &'p [PlanStep],
    /// The type of the variable.
    declared: DeclaredType,
}

/// What is made of two values; without an operation it is the second.
#[inline(always)]
fn made(operation: Option<Operation>, left: Value, right: Value) -> Result<Value, OperationFault>
    requires { IsMoving (made_of operation (value_seen left) (value_seen right)) }
    ensures { ended result ≡ made_of operation (value_seen left) (value_seen right) }
{
    match operation {
        None => Ok(right),
        Some(operation) => applied(operation, left, right),
    }
}

impl Plan {
    /// The plan from its beginning on, which waits for an operand that its first step has no need of: any, say `False`. This project's own rule.
    #[inline(always)]
    pub fn begin(&self) -> Progress<'_>
        ensures { behind_operand result (bool false) ≡ plays self.now }
    {
        Progress {
            left: Value::Bool(false),
            operation: None,
            steps: self.steps.as_slice(),
            declared: self.declared,
        }
    }
}

impl Progress<'_> {
    /// Goes on with the operand that was waited for, until the plan stops: `Done` with the value that the variable takes, `Failed` with the fault
    /// where a step or the variable's type has no value, or `Needs` with the key of the next operand, which then is waited for. This project's own
    /// rule.
    #[inline(always)]
    pub fn go_on(&mut self, operand: Value) -> Stop
        requires moving { IsMoving (behind_operand self.old (value_seen operand)) }
        ensures stop { Stops result (behind_operand self.old (value_seen operand)) (behind_operand self.new) }
    {
        let mut right = operand;
        loop {
            let left = match made(self.operation, self.left, right) {
                Ok(left) => left,
                Err(fault) => return Stop::Failed(fault),
            };
            let [step, behind @ ..] = self.steps else {
                return match cast(self.declared, left) {
                    Ok(value) => Stop::Done(value),
                    Err(fault) => Stop::Failed(fault),
                };
            };
            self.left = left;
            self.operation = step.operation;
            self.steps = behind;
            match step.right {
                Operand::Known(value) => right = value,
                Operand::Asked(key) => return Stop::Needs(key),
            }
        }
    }
}
