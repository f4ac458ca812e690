//! Faults of formulas.

ghost use Rattle.std.specs.Prelude.{◌≡◌, Some};
ghost use Rattle.fisca_key_semantics.specs.Inquiry.{named};
ghost use Rattle.fisca_model.specs.EvalFaults.{told};
ghost use Rattle.fisca_model.specs.Seen.{key_seen};
ghost use Rattle.fisca_ops.specs.Ended.{fault_seen};

use fisca_model::{EvalFault, Key};
use fisca_ops::OperationFault;

/// The fault of the formula of a key.
pub(crate) fn told_of(fault: OperationFault, key: Key) -> EvalFault
    ensures { told result ≡ Some (named (key_seen key) (fault_seen fault)) }
{
    match fault {
        OperationFault::ZeroDivisor => EvalFault::ZeroDivisor(key),
        OperationFault::TooWide => EvalFault::TooWide(key),
        OperationFault::ParameterUndefined => EvalFault::ParameterUndefined(key),
        OperationFault::BadScale => EvalFault::BadScale(key),
        OperationFault::NoMember => EvalFault::NoMember(key),
        OperationFault::PeriodMismatch(asked) => EvalFault::PeriodMismatch(asked),
        OperationFault::PeriodOutOfRange => EvalFault::PeriodOutOfRange(key),
    }
}
