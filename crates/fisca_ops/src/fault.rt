//! Why a formula has no value.

ghost use Rattle.std.specs.Prelude.{◌≡◌};
ghost use Rattle.fisca_key_semantics.specs.Dialogues as dialogues;
ghost use Rattle.fisca_typing.specs.Meaning as meaning;
ghost use Rattle.fisca_ops.specs.Ended.{fault_seen};

use fisca_model::Key;
use fisca_num::NumFault;
use fisca_params::ParamFault;

/// Why a formula has no value.
#[derive(Clone, Copy, Debug, PartialEq, Eq)]
pub enum OperationFault {
    /// A division by 0.
    ZeroDivisor,
    /// A number has a part beyond the limits.
    TooWide,
    /// A parameter or a scale has no value at the instant.
    ParameterUndefined,
    /// Two brackets of a scale have one threshold at the instant.
    BadScale,
    /// The lowest or the highest of nobody.
    NoMember,
    /// A variable is asked for at a period at which it has no value. This one is told of the key that was asked for.
    PeriodMismatch(Key),
    /// A period is moved out of the calendar, or has no start.
    PeriodOutOfRange,
}

/// What the fault of an operation on numbers means: `ZeroDivisor` or `TooWide`.
pub fn fault_of(fault: NumFault) -> OperationFault
    ensures { fault_seen result ≡ dialogues.fault_of fault }
{
    match fault {
        NumFault::ZeroDivisor => OperationFault::ZeroDivisor,
        NumFault::TooWide | NumFault::NotANumber | NumFault::Memory => OperationFault::TooWide,
    }
}

/// What the fault of a scale means: `ParameterUndefined` where no bracket is complete, that of a number where one is, else `BadScale`.
pub fn scale_fault(fault: ParamFault) -> OperationFault
    ensures { fault_seen result ≡ meaning.scale_fault fault }
{
    match fault {
        ParamFault::Undefined => OperationFault::ParameterUndefined,
        ParamFault::Number(number) => fault_of(number),
        ParamFault::Yaml { .. }
        | ParamFault::BadParameter { .. }
        | ParamFault::DuplicateName { .. }
        | ParamFault::BadScale
        | ParamFault::Memory => OperationFault::BadScale,
    }
}
