//! What is remembered, and counts of it.

ghost use Rattle.std.specs.Prelude.{◌≡◌, OnOk, OnErr, IfErr};
ghost use Rattle.fisca_memo_theory.specs.Entries.{Remembered, with_entry};
ghost use Rattle.fisca_memo_theory.specs.Memory.{HasFormula};
ghost use Rattle.fisca_model.specs.Seen.{key_seen};
ghost use Rattle.fisca_evaluator.specs.Recalled as spec;
ghost use Rattle.fisca_evaluator.specs.Evaluations as evaluations;
ghost use Rattle.fisca_evaluator.specs.Counted.{with_kept, with_lost};
ghost use Rattle.fisca_evaluator.specs.Found.{entry_seen};

use crate::evaluation::Evaluation;
use crate::{Counts, Known, Recall};
use fisca_model::{EvalFault, Key};

/// What is remembered, and how many formulas gave values.
#[derive(Drop)]
pub(crate) struct Store<R> {
    pub(crate) recall: R,
    pub(crate) counts: Counts,
}

/// Remembers the value that its formula gave of a key of which nothing was remembered, and counts it. Nothing else remembers or counts.
#[inline(always)]
pub(crate) fn remember<R: Recall>(
    evaluation: &Evaluation<'_, '_, '_>,
    store: &mut Store<R>,
    key: &Key,
    known: &Known,
) -> Result<(), EvalFault>
    requires known { spec.IsKnownOf (evaluations.sources_in evaluation.now) key.now known.now }
    requires read { evaluations.HasRead evaluation.now key.now known.now }
    requires memory { evaluations.IsMemoryIn evaluation.now (R.find store.old.recall) store.old.counts.free }
    requires miss { Remembered (R.find store.old.recall) (key_seen key.now) → ⊥ }
    requires formula { HasFormula (evaluations.sources_in evaluation.now) (key_seen key.now) }
    requires work { spec.IsAllButItself (evaluations.sources_in evaluation.now) (R.find store.old.recall) key.now }
    ensures fault { IfErr result (λ e. e ≡ EvalFault.Memory) }
    ensures memory { evaluations.IsMemoryIn evaluation.now (R.find store.new.recall) store.new.counts.free }
    ensures ok { OnOk result (R.find store.new.recall ≡ with_entry (R.find store.old.recall) (key_seen key.now) (entry_seen known.now)) }
    ensures err { OnErr result (R.find store.new.recall ≡ R.find store.old.recall) }
    ensures kept { OnOk result (store.new.counts ≡ with_kept known.now.reads store.old.counts) }
    ensures lost { OnErr result (store.new.counts ≡ with_lost store.old.counts) }
{
    let kept = *known;
    let reads = known.reads;
    match store.recall.keep(*key, kept) {
        Ok(()) => {
            store.counts.count_kept(reads);
            Ok(())
        }
        Err(_) => {
            store.counts.count_lost();
            Err(EvalFault::Memory)
        }
    }
}
