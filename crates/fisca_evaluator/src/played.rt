//! Values of keys by the plans of their formulas.

ghost use Rattle.std.specs.Prelude.{◌≡◌, ◌≤◌, ◌<◌, false, None, length, OnOk, OnErr, IfOk, IfErr, IfSome, IfNone, map};
ghost use Rattle.fisca_key_semantics.specs.Answers.{known as from_known};
ghost use Rattle.fisca_key_semantics.specs.Keys.{has};
ghost use Rattle.fisca_model.specs.EvalFaults.{IsTold, told};
ghost use Rattle.fisca_memo_theory.specs.Entries.{Remembered};
ghost use Rattle.fisca_memo_theory.specs.Memory.{IsTrueMemory};
ghost use Rattle.fisca_memo_theory.specs.Reads.{AreReads};
ghost use Rattle.fisca_memo_theory.specs.Work.{Covered, Grows};
ghost use Rattle.fisca_model.specs.Seen.{key_seen, value_seen};
ghost use Rattle.fisca_machine.specs.Plans.{plays};
ghost use Rattle.fisca_evaluator.specs.Counting.{AreLost, IsCounted};
ghost use Rattle.fisca_evaluator.specs.Plans.{IsPlanOf};
ghost use Rattle.fisca_evaluator.specs.Recalled as spec;
ghost use Rattle.fisca_evaluator.specs.Evaluations as evaluations;

use crate::evaluation::Evaluation;
use crate::fault::told_of;
use crate::recalled::{MOST_KEYS, at_hand, seek, value_below};
use crate::store::{Store, remember};
use crate::{Known, Recall};
use fisca_machine::{Machine, Plan, Stop};
use fisca_model::{EvalFault, Key, Value};
use fisca_simulation::first_of_chain;

/// The value of a key below others whose formula has a plan, with its height: what is remembered of it, its input, or what the plan gives.
pub(crate) fn value_by_plan<'r, R: Recall>(
    evaluation: &Evaluation<'r, '_, '_>,
    store: &mut Store<R>,
    machine: &mut Machine<'r>,
    keys: &mut Vec<Key>,
    plan: &Plan,
    key: &Key,
) -> Result<Known, EvalFault>
    requires evaluation { evaluations.IsEvaluation evaluation.now }
    requires planned { IsPlanOf (evaluations.seen evaluation.now).rules (evaluations.seen evaluation.now).neutral (key_seen key.now) plan.now }
    requires depth { length keys.old.items ≤ 100 }
    requires stack { spec.IsStack (evaluations.sources_in evaluation.now) keys.old.items key.now }
    requires memory { evaluations.IsMemoryIn evaluation.now (R.find store.old.recall) store.old.counts.free }
    requires passed { spec.HasPassedTo (evaluations.sources_in evaluation.now) (R.find store.old.recall) keys.old.items key.now }
    ensures known { IfOk result (λ k. spec.IsKnownBelow (evaluations.sources_in evaluation.now) keys.old.items key.now k) }
    ensures read { IfOk result (λ k. evaluations.HasRead evaluation.now key.now k) }
    ensures fault { IfErr result (λ e. IsTold (told e) (evaluations.wanted evaluation.now keys.old.items key.now)) }
    ensures memory { evaluations.IsMemoryIn evaluation.now (R.find store.new.recall) store.new.counts.free }
    ensures grows { Grows (R.find store.old.recall) (R.find store.new.recall) (spec.work_below (evaluations.sources_in evaluation.now) keys.old.items key.now) }
    ensures covered { OnOk result (Covered (evaluations.sources_in evaluation.now) (Remembered (R.find store.new.recall)) (key_seen key.now)) }
    ensures stopped { IfErr result (λ e. spec.IfTold (told e) (spec.IsDoneBelow (evaluations.sources_in evaluation.now) (R.find store.new.recall) keys.old.items key.now)) }
    ensures counted { IsCounted (R.find store.old.recall) (R.find store.new.recall) store.old.counts store.new.counts }
    ensures lost { AreLost result store.old.counts.lost store.new.counts.lost }
    ensures keys { keys.new.items ≡ keys.old.items }
{
    if let Some(known) = seek(evaluation, &store.recall, keys.as_slice(), key)? {
        return Ok(known);
    }
    if let Some(value) = evaluation.simulation.situation.input(key) {
        return at_hand(evaluation, keys.as_slice(), key, value);
    }
    by_plan(evaluation, store, machine, keys, plan, key)
}

/// The value of a key of which nothing is remembered, by its plan, below others.
fn by_plan<'r, R: Recall>(
    evaluation: &Evaluation<'r, '_, '_>,
    store: &mut Store<R>,
    machine: &mut Machine<'r>,
    keys: &mut Vec<Key>,
    plan: &Plan,
    key: &Key,
) -> Result<Known, EvalFault>
    requires evaluation { evaluations.IsEvaluation evaluation.now }
    requires work { evaluations.IsWork evaluation.now (plays plan.now) key.now }
    requires depth { length keys.old.items ≤ 100 }
    requires stack { spec.IsStack (evaluations.sources_in evaluation.now) keys.old.items key.now }
    requires away { has (map key_seen keys.old.items) (key_seen key.now) ≡ false }
    requires memory { evaluations.IsMemoryIn evaluation.now (R.find store.old.recall) store.old.counts.free }
    requires miss { R.find store.old.recall (key_seen key.now) ≡ None }
    requires passed { spec.HasPassedTo (evaluations.sources_in evaluation.now) (R.find store.old.recall) keys.old.items key.now }
    ensures known { IfOk result (λ k. spec.IsKnownBelow (evaluations.sources_in evaluation.now) keys.old.items key.now k) }
    ensures read { IfOk result (λ k. evaluations.HasRead evaluation.now key.now k) }
    ensures fault { IfErr result (λ e. IsTold (told e) (evaluations.wanted evaluation.now keys.old.items key.now)) }
    ensures memory { evaluations.IsMemoryIn evaluation.now (R.find store.new.recall) store.new.counts.free }
    ensures grows { Grows (R.find store.old.recall) (R.find store.new.recall) (spec.work_below (evaluations.sources_in evaluation.now) keys.old.items key.now) }
    ensures covered { OnOk result (Covered (evaluations.sources_in evaluation.now) (Remembered (R.find store.new.recall)) (key_seen key.now)) }
    ensures stopped { IfErr result (λ e. spec.IfTold (told e) (spec.IsDoneBelow (evaluations.sources_in evaluation.now) (R.find store.new.recall) keys.old.items key.now)) }
    ensures counted { IsCounted (R.find store.old.recall) (R.find store.new.recall) store.old.counts store.new.counts }
    ensures lost { AreLost result store.old.counts.lost store.new.counts.lost }
    ensures keys { keys.new.items ≡ keys.old.items }
{
    if keys.len() >= MOST_KEYS {
        return Err(EvalFault::TooDeep(first_of_chain(keys.as_slice(), key)));
    }
    match keys.push(*key) {
        Ok(()) => {
            let played = play(evaluation, store, machine, keys, plan, key);
            let _ = keys.pop();
            played
        }
        Err(_) => Err(EvalFault::Memory),
    }
}

/// Plays the plan of the last of the keys, of which nothing is remembered, and remembers its value. Its height is one more than the greatest
/// height of what it asks for, and it reads what that reads, and the wheels of its variable.
fn play<'r, R: Recall>(
    evaluation: &Evaluation<'r, '_, '_>,
    store: &mut Store<R>,
    machine: &mut Machine<'r>,
    keys: &mut Vec<Key>,
    plan: &Plan,
    key: &Key,
) -> Result<Known, EvalFault>
    requires evaluation { evaluations.IsEvaluation evaluation.now }
    requires work { evaluations.IsWork evaluation.now (plays plan.now) key.now }
    requires depth { length keys.old.items ≤ 100 }
    requires stack { spec.IsWorking (evaluations.sources_in evaluation.now) keys.old.items key.now }
    requires memory { evaluations.IsMemoryIn evaluation.now (R.find store.old.recall) store.old.counts.free }
    requires miss { R.find store.old.recall (key_seen key.now) ≡ None }
    requires passed { spec.HasPassed (evaluations.sources_in evaluation.now) (R.find store.old.recall) keys.old.items }
    ensures known { IfOk result (λ k. spec.IsKnownAt (evaluations.sources_in evaluation.now) keys.old.items key.now k) }
    ensures read { IfOk result (λ k. evaluations.HasRead evaluation.now key.now k) }
    ensures fault { IfErr result (λ e. IsTold (told e) (evaluations.wanted_of_work evaluation.now keys.old.items (plays plan.now) key.now)) }
    ensures memory { evaluations.IsMemoryIn evaluation.now (R.find store.new.recall) store.new.counts.free }
    ensures grows { Grows (R.find store.old.recall) (R.find store.new.recall) (spec.work_at (evaluations.sources_in evaluation.now) keys.old.items key.now) }
    ensures covered { OnOk result (Covered (evaluations.sources_in evaluation.now) (Remembered (R.find store.new.recall)) (key_seen key.now)) }
    ensures stopped { IfErr result (λ e. spec.IfTold (told e) (spec.IsDoneAt (evaluations.sources_in evaluation.now) (R.find store.new.recall) keys.old.items key.now)) }
    ensures counted { IsCounted (R.find store.old.recall) (R.find store.new.recall) store.old.counts store.new.counts }
    ensures lost { AreLost result store.old.counts.lost store.new.counts.lost }
    ensures keys { keys.new.items ≡ keys.old.items }
{
    let mut progress = plan.begin();
    let mut operand = Value::Bool(false);
    let mut tallest = 0;
    let mut reads = 0;
    loop {
        match progress.go_on(operand) {
            Stop::Done(value) => {
                let known = Known {
                    value,
                    height: tallest + 1,
                    reads: reads | evaluation.wheels_of(key),
                };
                remember(evaluation, store, key, &known)?;
                return Ok(known);
            }
            Stop::Failed(fault) => return Err(told_of(fault, *key)),
            Stop::Needs(asked) => {
                let known = value_below(evaluation, store, machine, keys, &asked)?;
                tallest = tallest.max(known.height);
                reads |= known.reads;
                operand = known.value;
            }
        }
    }
}
