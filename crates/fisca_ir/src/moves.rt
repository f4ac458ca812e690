//! Moves to a period, shared by what takes them up.
ghost use Rattle.std.specs.Prelude.{◌≡◌, [], ◌∷◌, ◌++◌, IfOk};

use fisca_typing::Move;
use std::alloc::{AllocError, Global};
use std::marker::Model;
use std::rc::Rc;

/// Moves in order, seen as a list. What stands for a local has the local's own.
#[derive(Drop)]
pub struct Moves {
    steps: Option<Rc<Vec<Move>>>,
}

impl Model for Moves {
    ghost use Rattle.std.specs.Prelude.{List, [], option_map};
    ghost use Rattle.std.specs.Option.{unwrap_or};
    ghost use Rattle.fisca_typing.specs.declared.moves.Move.{Move};

    ghost Value = { List Move };

    ghost view = { λ m. unwrap_or (option_map (λ s. s.value.items) m.steps) [] };
}

impl Moves {
    /// No moves.
    pub fn none() -> Moves
        ensures { result ≡ [] }
    {
        Moves { steps: None }
    }

    /// The moves in order.
    pub fn as_slice(&self) -> &[Move]
        ensures { result.now ≡ self.now }
    {
        match &self.steps {
            Some(steps) => steps.as_slice(),
            None => &[],
        }
    }

    /// A list of its own of these.
    pub fn to_vec(&self, alloc: Global) -> Result<Vec<Move>, AllocError>
        ensures { IfOk result (λ ms. ms.items ≡ self.now) }
    {
        self.as_slice().to_vec(alloc)
    }

    /// These, and one more.
    pub fn with(&self, alloc: Global, step: Move) -> Result<Moves, AllocError>
        ensures { IfOk result (λ m. m ≡ self.now ++ step ∷ []) }
    {
        let before = self.as_slice();
        let mut steps = Vec::with_capacity(alloc, before.len().saturating_add(1))?;
        steps.extend_from_slice(before)?;
        steps.push(step)?;
        Ok(Moves {
            steps: Some(Rc::new(alloc, steps)?),
        })
    }

    /// The same moves, shared.
    pub fn shared(&self) -> Result<Moves, AllocError>
        ensures { IfOk result (λ m. m ≡ self.now) }
    {
        match &self.steps {
            Some(steps) => Ok(Moves {
                steps: Some(Rc::clone(steps)?),
            }),
            None => Ok(Moves::none()),
        }
    }
}
