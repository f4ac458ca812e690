//! Why an operation or a text gives no number.
ghost use Rattle.std.specs.Prelude.{◌≡◌};
ghost use Rattle.fisca_num.specs.Faults.{name_of, number_of};

use thiserror::Error;

/// Why an operation or a text gives no number.
#[derive(Clone, Copy, Debug, PartialEq, Eq, Error)]
#[error("{}", self.name())]
pub enum NumFault {
    /// 1: the value in lowest terms has a part beyond the limits, or a literal has too many places.
    TooWide = 1,
    /// 2: a division by 0.
    ZeroDivisor = 2,
    /// 3: the text has not the form of a decimal literal.
    NotANumber = 3,
    /// 4: no memory was given.
    Memory = 4,
}

impl NumFault {
    /// The number of the fault, from 1 to 4.
    pub fn number(self) -> u8
        ensures { result ≡ number_of self }
    {
        match self {
            NumFault::TooWide => 1,
            NumFault::ZeroDivisor => 2,
            NumFault::NotANumber => 3,
            NumFault::Memory => 4,
        }
    }

    /// The plain name of the fault, as `TooWide`.
    pub fn name(self) -> &'static str
        ensures { result.now ≡ name_of self }
    {
        match self {
            NumFault::TooWide => "TooWide",
            NumFault::ZeroDivisor => "ZeroDivisor",
            NumFault::NotANumber => "NotANumber",
            NumFault::Memory => "Memory",
        }
    }
}
