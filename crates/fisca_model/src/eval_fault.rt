//! Why a key has no value.

ghost use Rattle.std.specs.Prelude.{◌≡◌, option_map};
ghost use Rattle.fisca_model.specs.EvalFaults as spec;
ghost use Rattle.fisca_model.specs.Seen.{key_seen};

use crate::key::Key;
use thiserror::Error;

/// Why a key has no value, by this project's own numbers. Each but `Memory` has the key that it is told of: that whose formula it comes
/// from, where nothing else is said.
#[derive(Clone, Copy, Debug, PartialEq, Eq, Error)]
#[error("{}", self.name())]
pub enum EvalFault {
    /// 1: a division by 0.
    ZeroDivisor(Key),
    /// 2: a number has a part beyond the limits.
    TooWide(Key),
    /// 3: a parameter or a scale has no value at the instant.
    ParameterUndefined(Key),
    /// 4: two brackets of a scale have one threshold at the instant.
    BadScale(Key),
    /// 5: the lowest or the highest of nobody.
    NoMember(Key),
    /// 6: the key that is asked for has no value at its period.
    PeriodMismatch(Key),
    /// 7: a period is moved out of the calendar, or has no start.
    PeriodOutOfRange(Key),
    /// 8: the key needs itself: the first that stands again in the chain of keys.
    Cycle(Key),
    /// 9: more than a hundred keys are asked for below one another: the first of them.
    TooDeep(Key),
    /// 10: a growth was refused.
    Memory,
}

impl EvalFault {
    /// The number of the fault, from 1 to 10.
    pub fn number(self) -> u8
        ensures { result ≡ spec.number_of self }
    {
        match self {
            EvalFault::ZeroDivisor(_) => 1,
            EvalFault::TooWide(_) => 2,
            EvalFault::ParameterUndefined(_) => 3,
            EvalFault::BadScale(_) => 4,
            EvalFault::NoMember(_) => 5,
            EvalFault::PeriodMismatch(_) => 6,
            EvalFault::PeriodOutOfRange(_) => 7,
            EvalFault::Cycle(_) => 8,
            EvalFault::TooDeep(_) => 9,
            EvalFault::Memory => 10,
        }
    }

    /// The plain name of the fault, as `ZeroDivisor`.
    pub fn name(self) -> &'static str
        ensures { result.now ≡ spec.name_of self }
    {
        match self {
            EvalFault::ZeroDivisor(_) => "ZeroDivisor",
            EvalFault::TooWide(_) => "TooWide",
            EvalFault::ParameterUndefined(_) => "ParameterUndefined",
            EvalFault::BadScale(_) => "BadScale",
            EvalFault::NoMember(_) => "NoMember",
            EvalFault::PeriodMismatch(_) => "PeriodMismatch",
            EvalFault::PeriodOutOfRange(_) => "PeriodOutOfRange",
            EvalFault::Cycle(_) => "Cycle",
            EvalFault::TooDeep(_) => "TooDeep",
            EvalFault::Memory => "Memory",
        }
    }

    /// The key that the fault is told of. `Memory` has none.
    pub fn key(self) -> Option<Key>
        ensures { option_map key_seen result ≡ option_map (λ f. f.key) (spec.told self) }
    {
        match self {
            EvalFault::ZeroDivisor(key)
            | EvalFault::TooWide(key)
            | EvalFault::ParameterUndefined(key)
            | EvalFault::BadScale(key)
            | EvalFault::NoMember(key)
            | EvalFault::PeriodMismatch(key)
            | EvalFault::PeriodOutOfRange(key)
            | EvalFault::Cycle(key)
            | EvalFault::TooDeep(key) => Some(key),
            EvalFault::Memory => None,
        }
    }
}
