//! An evaluator as what answers the values of columns.

ghost use Rattle.std.specs.Prelude.{◌≡◌};
ghost use Rattle.fisca_simulation.specs.Steps.Told as spec;

use crate::evaluator::PlainEvaluator;
use fisca_model::{EvalFault, Key, Value};
use fisca_situations::{Answers, Situation};
use fisca_writer::RowFault;

impl<'r, 't> Answers for PlainEvaluator<'r, 't> {
    ghost use Rattle.std.specs.Prelude.{⊤};
    ghost use Rattle.fisca_simulation.specs.Evaluators.{simulation_of};
    ghost use Rattle.fisca_simulation.specs.Told.{IsReady, told_in};

    type Fault = EvalFault;

    ghost answer = { λ e. told_in (simulation_of e) };

    ghost members = { λ e. (simulation_of e).situation.members };

    ghost ready = { λ e. IsReady (simulation_of e) };

    // nothing is remembered
    ghost worked = { λ _ _ _. ⊤ };

    ghost refused = { λ _ _ _. ⊤ };

    fn value(&mut self, key: Key) -> Result<Value, RowFault<EvalFault>> {
        match PlainEvaluator::value(self, key) {
            Ok(value) => Ok(value),
            Err(fault) => Err(row_fault(fault)),
        }
    }

    fn situation(&self) -> &Situation {
        PlainEvaluator::situation(self)
    }
}

/// The fault of a row whose key has no value: `Memory` where there was none, and else the fault of the key.
fn row_fault(fault: EvalFault) -> RowFault<EvalFault>
    ensures { result ≡ spec.row_fault fault }
{
    match fault {
        EvalFault::ZeroDivisor(_)
        | EvalFault::TooWide(_)
        | EvalFault::ParameterUndefined(_)
        | EvalFault::BadScale(_)
        | EvalFault::NoMember(_)
        | EvalFault::PeriodMismatch(_)
        | EvalFault::PeriodOutOfRange(_)
        | EvalFault::Cycle(_)
        | EvalFault::TooDeep(_) => RowFault::Eval(fault),
        EvalFault::Memory => RowFault::Memory,
    }
}
