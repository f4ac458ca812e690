//! How a run ends, and what stops it.

ghost use Rattle.std.specs.Prelude.{◌≡◌};

use thiserror::Error;

/// How a run ends that nothing stopped. This project's own rule.
#[derive(Clone, Copy, Debug, PartialEq, Eq)]
pub enum RunEnd {
    /// No position is left.
    End,
    /// The limit of lines is reached. The remaining lines are those from this position on.
    More(u64),
}

/// Why a row could not be worked out.
#[derive(Clone, Copy, Debug, PartialEq, Eq, Error)]
pub enum RowFault<F> {
    /// 1: the row is a fault.
    #[error("Eval")]
    Eval(F),
    /// 2: memory was refused.
    #[error("Memory")]
    Memory,
}

/// What stops a run. `F` is the type of the faults of its rows.
#[derive(Clone, Copy, Debug, PartialEq, Eq, Error)]
#[error("{}", self.name())]
pub enum RunFault<F> {
    /// 1: the start is above the size of the grid. Nothing was written.
    BadPosition,
    /// 2: the row at this position is a fault. The sink has just the lines before it.
    Eval { position: u64, fault: F },
    /// 3: the sink failed. It has all lines before this position, and a proper prefix of the line
    /// there.
    Write { position: u64 },
    /// 4: memory was refused at this position. The sink has just the lines before it.
    Memory { position: u64 },
}

impl<F> RunFault<F> {
    ghost use Rattle.fisca_writer.specs.Fault.{name_of, number_of};

    /// The plain name of the fault, as `BadPosition`.
    pub fn name(&self) -> &'static str
        ensures { result.now ≡ name_of self.now }
    {
        match self {
            RunFault::BadPosition => "BadPosition",
            RunFault::Eval { .. } => "Eval",
            RunFault::Write { .. } => "Write",
            RunFault::Memory { .. } => "Memory",
        }
    }

    /// The number of the fault, from 1 to 4.
    pub fn number(&self) -> u8
        ensures { result ≡ number_of self.now }
    {
        match self {
            RunFault::BadPosition => 1,
            RunFault::Eval { .. } => 2,
            RunFault::Write { .. } => 3,
            RunFault::Memory { .. } => 4,
        }
    }
}
