//! What is noted while a formula is followed, and why it stops.

ghost use Rattle.std.specs.Prelude.{List, Option};
ghost use Rattle.fisca_model.specs.Values as meaning;
ghost use Rattle.fisca_ops.specs.Ended.{ended as dialogue};
ghost use Rattle.fisca_simulation.specs.Noted.{unread};
ghost use Rattle.fisca_simulation.specs.Played.{Plays, played};

use fisca_model::{Key, Value};
use fisca_num::Fraction;
use fisca_ops::OperationFault;
use fisca_params::NodeId;
use fisca_time::Instant;

/// What is read of parameters: the value of one on a day, or the sum of a scale for a base.
#[derive(Clone, Copy, Debug, PartialEq, Eq)]
pub struct Reading {
    /// The parameter or the scale.
    pub place: NodeId,
    /// The day.
    pub day: Instant,
    /// The base, of a scale.
    pub base: Option<Fraction>,
}

/// What a formula needs on the way to its value.
#[derive(Clone, Copy, Debug, PartialEq, Eq)]
pub enum Note {
    /// The value of this key is asked for.
    Asked(Key),
    /// A parameter or a scale is read.
    Read(Reading),
}

/// Why a formula that is followed has no value.
#[derive(Clone, Copy, Debug, PartialEq, Eq)]
pub enum Halted {
    /// This fault.
    Fault(OperationFault),
    /// The key that was asked for last has no value.
    Unanswered,
    /// No memory was given.
    Memory,
}

/// An outcome of an operation.
pub(crate) fn ended(outcome: Result<Value, OperationFault>) -> Result<Value, Halted>
    ensures { (w : meaning.Key → Option meaning.Value) (ns : List Note) → Plays result ns ns (played w (unread (dialogue outcome))) }
{
    match outcome {
        Ok(value) => Ok(value),
        Err(fault) => Err(Halted::Fault(fault)),
    }
}
