//! Why a text, or a move, gives no period or date.
ghost use Rattle.std.specs.Prelude.{◌≡◌};
ghost use Rattle.fisca_time.specs.Fault.{number_of};

use std::alloc::AllocError;
use thiserror::Error;

/// Why an instant, a period or a text of one was refused.
#[derive(Clone, Copy, Debug, PartialEq, Eq, Error)]
pub enum TimeFault {
    /// The text has none of the forms that an instant or a period is written in.
    #[error("BadText")]
    BadText = 1,
    /// The form is right, but there is no such day, month or size between 0001-01 and 9999-12.
    #[error("OutOfRange")]
    OutOfRange = 2,
    /// The period is not divided into such units.
    #[error("NoSubperiods")]
    NoSubperiods = 3,
    /// No memory was left for a text.
    #[error("Memory")]
    Memory = 4,
}

impl TimeFault {
    /// The number of the fault, from 1 to 4.
    pub fn number(self) -> u8
        ensures { result ≡ number_of self }
    {
        match self {
            TimeFault::BadText => 1,
            TimeFault::OutOfRange => 2,
            TimeFault::NoSubperiods => 3,
            TimeFault::Memory => 4,
        }
    }
}

impl From<AllocError> for TimeFault {
    ghost use Rattle.std.specs.Prelude.{◌≡◌};
    ghost use Rattle.fisca_time.specs.declared.fault.TimeFault.TheVariants.{Memory};

    ghost from_gives = { λ _ fault. fault ≡ Memory };

    fn from(_refused: AllocError) -> TimeFault {
        TimeFault::Memory
    }
}
