//! The machine.

ghost use Rattle.std.specs.Prelude.{◌≡◌, ◌∷◌, ◌<◌, ◌+◌, [], IfOk, IfErr, OnOk, map};
ghost use Rattle.fisca_model.specs.Seen.{value_seen};
ghost use Rattle.fisca_typing.specs.Meaning.{formula_means};
ghost use Rattle.fisca_ir.specs.Views.{node};
ghost use Rattle.fisca_ops.specs.Casts.{cast};
ghost use Rattle.fisca_ops.specs.Ended.{IsMoving};
ghost use Rattle.fisca_machine.specs.Running.{before, rest, waiting, resume, Told};
ghost use Rattle.fisca_machine.specs.Weights.{load};
ghost use Rattle.fisca_machine.specs.Context.{tables, groups};

use crate::context::Context;
use crate::pending::{At, Frame, Kept, Pending};
use crate::stack::Stack;
use fisca_ir::Node;
use fisca_model::{Key, Value};
use fisca_ops::OperationFault;
use fisca_symbols::DeclaredType;
use fisca_time::Period;
use std::alloc::{AllocError, Global};

/// What is done next: a node is worked out, or the machine's value is given to what is pending.
#[derive(Clone, Copy)]
pub enum Control<'a> {
    /// This node is worked out.
    Eval(&'a Node, At),
    /// The value is given on.
    Give,
}

/// Where a machine stops.
#[derive(Clone, Copy, Debug, PartialEq, Eq)]
pub enum Step {
    /// The formula on top is done, and off: its value.
    Done(Value),
    /// The formula on top has no value.
    Failed(OperationFault),
    /// The value of this key is needed.
    Needs(Key),
    /// No memory was given.
    Memory,
}

/// The formulas that are being worked out, the last one on top.
#[derive(Drop)]
pub struct Machine<'a> {
    /// The locals of the formula on top.
    pub(crate) locals: &'a [Node],
    /// For whom it is worked out.
    pub(crate) frame: Frame,
    /// The value that is given on.
    pub(crate) value: Value,
    /// What is pending.
    pub(crate) stack: Stack<Pending<'a>>,
    /// What is kept for it.
    pub(crate) kept: Stack<Kept>,
}

/// For nobody yet.
fn nobody() -> Frame {
    Frame {
        entity: 0,
        member: 0,
        period: Period::ETERNITY,
    }
}

impl<'a> Machine<'a> {
    /// A machine with no formula.
    pub fn new(alloc: Global) -> Machine<'a>
        ensures { (w : Context) → waiting w result ≡ [] }
    {
        Machine {
            locals: &[],
            frame: nobody(),
            value: Value::Bool(false),
            stack: Stack::new(alloc),
            kept: Stack::new(alloc),
        }
    }

    /// Takes all formulas off. What memory the machine has, it keeps.
    pub fn clear(&mut self)
        ensures { (w : Context) → waiting w self.new ≡ [] }
    {
        self.stack.clear();
        self.kept.clear();
    }

    /// The value is given on next.
    #[inline(always)]
    pub fn give(&mut self, value: Value) -> Control<'a>
        ensures control { result ≡ Control.Give }
        ensures machine { self.new ≡ record self.old { value = value } }
    {
        self.value = match value {
            Value::Number(number) => Value::Number(number),
            Value::Bool(truth) => Value::Bool(truth),
            Value::Member(place) => Value::Member(place),
        };
        Control::Give
    }

    /// What is pending is put on top.
    pub(crate) fn put(&mut self, pending: Pending<'a>) -> Result<(), AllocError>
        ensures { OnOk result (self.new ≡ record self.old { stack = pending.entry ∷ self.old.stack }) }
    {
        self.stack.push(pending)
    }

    /// What is kept is put on top.
    pub(crate) fn keep(&mut self, kept: Kept) -> Result<(), AllocError>
        ensures { OnOk result (self.new ≡ record self.old { kept = kept ∷ self.old.kept }) }
    {
        self.kept.push(kept)
    }

    /// Puts a formula of a variable of this type on top: its locals with values, its result, and for whom it is worked out. `Err` where no memory was given.
    pub fn begin(
        &mut self,
        context: &Context<'_, '_, '_>,
        locals: &'a [Node],
        returned: &'a Node,
        declared: DeclaredType,
        frame: Frame,
    ) -> Result<Control<'a>, AllocError>
        ensures begun { IfOk result (λ k. resume context.now self.new k ≡ before (formula_means (tables context.now) (groups context.now) (record { values = map node locals.now; result = node returned.now }) (record { entity = frame.entity; member = frame.member; person = None; period = frame.period })) (cast declared)) }
        ensures waits { OnOk result (waiting context.now self.new ≡ rest context.now self.old ∷ waiting context.now self.old) }
    {
        self.stack.push(Pending::Return(self.locals, declared))?;
        self.kept.push(Kept::Frame(self.frame))?;
        self.locals = locals;
        self.frame = frame;
        Ok(Control::Eval(
            returned,
            At {
                person: None,
                visible: locals.len(),
            },
        ))
    }

    /// Goes on until the machine stops.
    pub fn run(&mut self, context: &Context<'_, '_, '_>, control: Control<'a>) -> Step
        requires moving { IsMoving (resume context.now self.old control) }
        ensures told { Told result (resume context.now self.old control.entry) (rest context.now self.new) (waiting context.now self.old) (waiting context.now self.new) }
    {
        let mut now = control;
        loop {
            let next = match now {
                Control::Eval(node, at) => self.descend(context, node, at),
                Control::Give => self.ascend(context),
            };
            match next {
                Ok(control) => now = control,
                // by its parts, so that each is written in one piece
                Err(
                    Step::Needs(
                        Key {
                            variable,
                            member,
                            period,
                        },
                    ),
                ) => {
                    return Step::Needs(Key {
                        variable,
                        member,
                        period,
                    });
                }
                Err(Step::Done(value)) => return Step::Done(value),
                Err(Step::Failed(fault)) => return Step::Failed(fault),
                Err(Step::Memory) => return Step::Memory,
            }
        }
    }
}
