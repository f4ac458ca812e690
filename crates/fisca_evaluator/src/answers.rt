//! An evaluator that remembers as what answers the values of columns.

ghost use Rattle.std.specs.Prelude.{◌≡◌};
ghost use Rattle.fisca_simulation.specs.Steps.Told as spec;

use crate::Recall;
use crate::evaluator::Evaluator;
use fisca_model::{EvalFault, Key, Value};
use fisca_situations::{Answers, Situation};
use fisca_writer::RowFault;

impl<'r, 't, R: Recall> Answers for Evaluator<'r, 't, R> {
    ghost use Rattle.fisca_simulation.specs.Told.{told_in};
    ghost use Rattle.fisca_evaluator.specs.Asked.{HasRefused, HasWorked};
    ghost use Rattle.fisca_evaluator.specs.Evaluators.{CanAnswer, marks_in, simulation_of};

    type Fault = EvalFault;

    ghost answer = { λ e. told_in (simulation_of e) };

    ghost members = { λ e. (simulation_of e).situation.members };

    ghost ready = { λ e. CanAnswer (marks_in e) (simulation_of e) (R.find e.store.recall) e.store.counts.free };

    ghost worked = { HasWorked R.find };

    ghost refused = { HasRefused R.find };

    fn value(&mut self, key: Key) -> Result<Value, RowFault<EvalFault>> {
        match Evaluator::value(self, key) {
            Ok(value) => Ok(value),
            Err(fault) => Err(row_fault(fault)),
        }
    }

    fn situation(&self) -> &Situation {
        Evaluator::situation(self)
    }
}

/// The fault of a row whose key has no value: `Memory` where there was none, and else the fault of the key.
fn row_fault(fault: EvalFault) -> RowFault<EvalFault>
    ensures { result ≡ spec.row_fault fault }
{
    match fault {
        EvalFault::ZeroDivisor(_)
        | EvalFault::TooWide(_)
        | EvalFault::ParameterUndefined(_)
        | EvalFault::BadScale(_)
        | EvalFault::NoMember(_)
        | EvalFault::PeriodMismatch(_)
        | EvalFault::PeriodOutOfRange(_)
        | EvalFault::Cycle(_)
        | EvalFault::TooDeep(_) => RowFault::Eval(fault),
        EvalFault::Memory => RowFault::Memory,
    }
}
