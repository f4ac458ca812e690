//! Values of keys, worked out below one another, each once.

ghost use Rattle.std.specs.Prelude.{◌≡◌, ◌≤◌, ◌<◌, false, None, length, OnOk, OnErr, IfOk, IfErr, IfSome, IfNone, map};
ghost use Rattle.fisca_key_semantics.specs.Answers.{known as from_known};
ghost use Rattle.fisca_key_semantics.specs.Keys.{has};
ghost use Rattle.fisca_model.specs.EvalFaults.{IsTold, told};
ghost use Rattle.fisca_memo_theory.specs.Entries.{Remembered};
ghost use Rattle.fisca_memo_theory.specs.Memory.{IsTrueMemory};
ghost use Rattle.fisca_memo_theory.specs.Reads.{AreReads};
ghost use Rattle.fisca_memo_theory.specs.Work.{Covered, Grows};
ghost use Rattle.fisca_model.specs.Seen.{key_seen, value_seen};
ghost use Rattle.fisca_machine.specs.Running.{rest, waiting};
ghost use Rattle.fisca_evaluator.specs.Counting.{AreLost, IsCounted};
ghost use Rattle.fisca_evaluator.specs.Recalled as spec;
ghost use Rattle.fisca_evaluator.specs.Evaluations as evaluations;

use crate::evaluation::Evaluation;
use crate::fault::told_of;
use crate::store::{Store, remember};
use crate::{Known, Recall};
use fisca_check::TypedFormula;
use fisca_machine::{Frame, Machine, Step};
use fisca_model::{EvalFault, Key, Value};
use fisca_simulation::{default_of, first_of_chain, stands_in};
use fisca_symbols::Variable;

/// How many keys are asked for below one another at most.
pub(crate) const MOST_KEYS: usize = 100;

/// What is remembered of a key that is asked for below others, if it is not too high for the fuel that is left. A key of which nothing is
/// remembered and that stands among those above it is a cycle. A variable without formulas is neither remembered nor among them.
#[inline(always)]
pub(crate) fn seek<R: Recall>(
    evaluation: &Evaluation<'_, '_, '_>,
    recall: &R,
    keys: &[Key],
    key: &Key,
) -> Result<Option<Known>, EvalFault>
    requires depth { length keys.now ≤ 100 }
    requires stack { spec.IsStack (evaluations.sources_in evaluation.now) keys.now key.now }
    requires truth { IsTrueMemory (evaluations.sources_in evaluation.now) (R.find recall.now) }
    requires reads { AreReads (evaluations.marks_in evaluation.now) (evaluations.sources_in evaluation.now) (R.find recall.now) }
    requires passed { spec.HasPassedTo (evaluations.sources_in evaluation.now) (R.find recall.now) keys.now key.now }
    ensures known { IfOk result (λ o. IfSome o (λ k. spec.IsKnownBelow (evaluations.sources_in evaluation.now) keys.now key.now k)) }
    ensures read { IfOk result (λ o. IfSome o (λ k. evaluations.HasRead evaluation.now key.now k)) }
    ensures hit { IfOk result (λ o. IfSome o (λ k. Remembered (R.find recall.now) (key_seen key.now))) }
    ensures miss { IfOk result (λ o. IfNone o (R.find recall.now (key_seen key.now) ≡ None)) }
    ensures away { IfOk result (λ o. IfNone o (has (map key_seen keys.now) (key_seen key.now) ≡ false)) }
    ensures fault { IfErr result (λ e. IsTold (told e) (evaluations.wanted evaluation.now keys.now key.now)) }
    ensures stopped { OnErr result (spec.IsDoneBelow (evaluations.sources_in evaluation.now) (R.find recall.now) keys.now key.now) }
{
    if !evaluation.simulation.has_formulas(key.variable) {
        return Ok(None);
    }
    if let Some(known) = recall.look(key) {
        if known.height as usize > MOST_KEYS - keys.len() {
            return Err(EvalFault::TooDeep(first_of_chain(keys, key)));
        }
        return Ok(Some(known));
    }
    if stands_in(keys, key) {
        return Err(EvalFault::Cycle(*key));
    }
    Ok(None)
}

/// A value that is at hand, for a key below others. It is not remembered.
#[inline(always)]
pub(crate) fn at_hand(
    evaluation: &Evaluation<'_, '_, '_>,
    keys: &[Key],
    key: &Key,
    value: Value,
) -> Result<Known, EvalFault>
    requires depth { length keys.now ≤ 100 }
    requires stack { spec.IsStack (evaluations.sources_in evaluation.now) keys.now key.now }
    requires away { has (map key_seen keys.now) (key_seen key.now) ≡ false }
    requires known { evaluations.sources_in evaluation.now (key_seen key.now) ≡ from_known (value_seen value) }
    ensures known { IfOk result (λ k. spec.IsKnownBelow (evaluations.sources_in evaluation.now) keys.now key.now k) }
    ensures read { IfOk result (λ k. evaluations.HasRead evaluation.now key.now k) }
    ensures fault { IfErr result (λ e. IsTold (told e) (evaluations.wanted evaluation.now keys.now key.now)) }
{
    if keys.len() >= MOST_KEYS {
        return Err(EvalFault::TooDeep(first_of_chain(keys, key)));
    }
    Ok(Known {
        value,
        height: 1,
        reads: evaluation.wheels_of(key),
    })
}

/// The value of a key that is asked for below others, with its height: what is remembered of it, its input, what its formula gives, or its
/// variable's default.
#[cycle(value)]
pub(crate) fn value_below<'r, R: Recall>(
    evaluation: &Evaluation<'r, '_, '_>,
    store: &mut Store<R>,
    machine: &mut Machine<'r>,
    keys: &mut Vec<Key>,
    key: &Key,
) -> Result<Known, EvalFault>
    requires evaluation { evaluations.IsEvaluation evaluation.now }
    requires depth { length keys.old.items ≤ 100 }
    requires stack { spec.IsStack (evaluations.sources_in evaluation.now) keys.old.items key.now }
    requires memory { evaluations.IsMemoryIn evaluation.now (R.find store.old.recall) store.old.counts.free }
    requires passed { spec.HasPassedTo (evaluations.sources_in evaluation.now) (R.find store.old.recall) keys.old.items key.now }
    ensures known { IfOk result (λ k. spec.IsKnownBelow (evaluations.sources_in evaluation.now) keys.old.items key.now k) }
    ensures read { IfOk result (λ k. evaluations.HasRead evaluation.now key.now k) }
    ensures fault { IfErr result (λ e. IsTold (told e) (evaluations.wanted evaluation.now keys.old.items key.now)) }
    ensures memory { evaluations.IsMemoryIn evaluation.now (R.find store.new.recall) store.new.counts.free }
    ensures grows { Grows (R.find store.old.recall) (R.find store.new.recall) (spec.work_below (evaluations.sources_in evaluation.now) keys.old.items key.now) }
    ensures covered { OnOk result (Covered (evaluations.sources_in evaluation.now) (Remembered (R.find store.new.recall)) (key_seen key.now)) }
    ensures stopped { IfErr result (λ e. spec.IfTold (told e) (spec.IsDoneBelow (evaluations.sources_in evaluation.now) (R.find store.new.recall) keys.old.items key.now)) }
    ensures counted { IsCounted (R.find store.old.recall) (R.find store.new.recall) store.old.counts store.new.counts }
    ensures lost { AreLost result store.old.counts.lost store.new.counts.lost }
    ensures keys { keys.new.items ≡ keys.old.items }
    ensures rest { OnOk result (rest evaluation.now.context machine.new ≡ rest evaluation.now.context machine.old) }
    ensures waits { OnOk result (waiting evaluation.now.context machine.new ≡ waiting evaluation.now.context machine.old) }
{
    let Some(variable) = evaluation.simulation.variable(*key) else {
        return Err(EvalFault::PeriodMismatch(*key));
    };
    if let Some(known) = seek(evaluation, &store.recall, keys.as_slice(), key)? {
        return Ok(known);
    }
    if let Some(value) = evaluation.simulation.situation.input(key) {
        return at_hand(evaluation, keys.as_slice(), key, value);
    }
    match evaluation.simulation.formula(variable, *key) {
        Some(formula) => by_formula(evaluation, store, machine, keys, variable, formula, key),
        None => match default_of(variable) {
            Some(value) => at_hand(evaluation, keys.as_slice(), key, value),
            None => Err(EvalFault::PeriodMismatch(*key)),
        },
    }
}

/// The value of a key of which nothing is remembered, by its formula, below others.
#[cycle(value)]
fn by_formula<'r, R: Recall>(
    evaluation: &Evaluation<'r, '_, '_>,
    store: &mut Store<R>,
    machine: &mut Machine<'r>,
    keys: &mut Vec<Key>,
    variable: &Variable<'_>,
    formula: &'r TypedFormula,
    key: &Key,
) -> Result<Known, EvalFault>
    requires evaluation { evaluations.IsEvaluation evaluation.now }
    requires work { evaluations.IsWork evaluation.now (evaluations.work evaluation.now variable.now formula.now key.now) key.now }
    requires depth { length keys.old.items ≤ 100 }
    requires stack { spec.IsStack (evaluations.sources_in evaluation.now) keys.old.items key.now }
    requires away { has (map key_seen keys.old.items) (key_seen key.now) ≡ false }
    requires memory { evaluations.IsMemoryIn evaluation.now (R.find store.old.recall) store.old.counts.free }
    requires miss { R.find store.old.recall (key_seen key.now) ≡ None }
    requires passed { spec.HasPassedTo (evaluations.sources_in evaluation.now) (R.find store.old.recall) keys.old.items key.now }
    ensures known { IfOk result (λ k. spec.IsKnownBelow (evaluations.sources_in evaluation.now) keys.old.items key.now k) }
    ensures read { IfOk result (λ k. evaluations.HasRead evaluation.now key.now k) }
    ensures fault { IfErr result (λ e. IsTold (told e) (evaluations.wanted evaluation.now keys.old.items key.now)) }
    ensures memory { evaluations.IsMemoryIn evaluation.now (R.find store.new.recall) store.new.counts.free }
    ensures grows { Grows (R.find store.old.recall) (R.find store.new.recall) (spec.work_below (evaluations.sources_in evaluation.now) keys.old.items key.now) }
    ensures covered { OnOk result (Covered (evaluations.sources_in evaluation.now) (Remembered (R.find store.new.recall)) (key_seen key.now)) }
    ensures stopped { IfErr result (λ e. spec.IfTold (told e) (spec.IsDoneBelow (evaluations.sources_in evaluation.now) (R.find store.new.recall) keys.old.items key.now)) }
    ensures counted { IsCounted (R.find store.old.recall) (R.find store.new.recall) store.old.counts store.new.counts }
    ensures lost { AreLost result store.old.counts.lost store.new.counts.lost }
    ensures keys { keys.new.items ≡ keys.old.items }
    ensures rest { OnOk result (rest evaluation.now.context machine.new ≡ rest evaluation.now.context machine.old) }
    ensures waits { OnOk result (waiting evaluation.now.context machine.new ≡ waiting evaluation.now.context machine.old) }
{
    if keys.len() >= MOST_KEYS {
        return Err(EvalFault::TooDeep(first_of_chain(keys.as_slice(), key)));
    }
    match keys.push(*key) {
        Ok(()) => {
            let worked = work_out(evaluation, store, machine, keys, variable, formula, key);
            let _ = keys.pop();
            worked
        }
        Err(_) => Err(EvalFault::Memory),
    }
}

/// Works out the formula of the last of the keys, of which nothing is remembered, and remembers its value. Its height is one more than the
/// greatest height of what it asks for, and it reads what that reads, and the wheels of its variable. A formula that has a plan is played instead.
#[cycle(value)]
fn work_out<'r, R: Recall>(
    evaluation: &Evaluation<'r, '_, '_>,
    store: &mut Store<R>,
    machine: &mut Machine<'r>,
    keys: &mut Vec<Key>,
    variable: &Variable<'_>,
    formula: &'r TypedFormula,
    key: &Key,
) -> Result<Known, EvalFault>
    requires evaluation { evaluations.IsEvaluation evaluation.now }
    requires work { evaluations.IsWork evaluation.now (evaluations.work evaluation.now variable.now formula.now key.now) key.now }
    requires depth { length keys.old.items ≤ 100 }
    requires stack { spec.IsWorking (evaluations.sources_in evaluation.now) keys.old.items key.now }
    requires memory { evaluations.IsMemoryIn evaluation.now (R.find store.old.recall) store.old.counts.free }
    requires miss { R.find store.old.recall (key_seen key.now) ≡ None }
    requires passed { spec.HasPassed (evaluations.sources_in evaluation.now) (R.find store.old.recall) keys.old.items }
    ensures known { IfOk result (λ k. spec.IsKnownAt (evaluations.sources_in evaluation.now) keys.old.items key.now k) }
    ensures read { IfOk result (λ k. evaluations.HasRead evaluation.now key.now k) }
    ensures fault { IfErr result (λ e. IsTold (told e) (evaluations.wanted_of_work evaluation.now keys.old.items (evaluations.work evaluation.now variable.now formula.now key.now) key.now)) }
    ensures memory { evaluations.IsMemoryIn evaluation.now (R.find store.new.recall) store.new.counts.free }
    ensures grows { Grows (R.find store.old.recall) (R.find store.new.recall) (spec.work_at (evaluations.sources_in evaluation.now) keys.old.items key.now) }
    ensures covered { OnOk result (Covered (evaluations.sources_in evaluation.now) (Remembered (R.find store.new.recall)) (key_seen key.now)) }
    ensures stopped { IfErr result (λ e. spec.IfTold (told e) (spec.IsDoneAt (evaluations.sources_in evaluation.now) (R.find store.new.recall) keys.old.items key.now)) }
    ensures counted { IsCounted (R.find store.old.recall) (R.find store.new.recall) store.old.counts store.new.counts }
    ensures lost { AreLost result store.old.counts.lost store.new.counts.lost }
    ensures keys { keys.new.items ≡ keys.old.items }
    ensures rest { OnOk result (rest evaluation.now.context machine.new ≡ rest evaluation.now.context machine.old) }
    ensures waits { OnOk result (waiting evaluation.now.context machine.new ≡ waiting evaluation.now.context machine.old) }
{
    let frame = Frame {
        entity: variable.entity,
        member: key.member,
        period: key.period,
    };
    let locals = formula.values.as_slice();
    let begun = machine.begin(
        &evaluation.context,
        locals,
        &formula.result,
        variable.value_type,
        frame,
    );
    let mut control = match begun {
        Ok(control) => control,
        Err(_) => return Err(EvalFault::Memory),
    };
    let mut tallest = 0;
    let mut reads = 0;
    loop {
        match machine.run(&evaluation.context, control) {
            Step::Done(value) => {
                let known = Known {
                    value,
                    height: tallest + 1,
                    reads: reads | evaluation.wheels_of(key),
                };
                remember(evaluation, store, key, &known)?;
                return Ok(known);
            }
            Step::Failed(fault) => return Err(told_of(fault, *key)),
            Step::Memory => return Err(EvalFault::Memory),
            Step::Needs(asked) => {
                // by its parts, as it was written: to read it in one piece would wait for them
                let Key {
                    variable,
                    member,
                    period,
                } = asked;
                let needed = Key {
                    variable,
                    member,
                    period,
                };
                let known = value_below(evaluation, store, machine, keys, &needed)?;
                tallest = tallest.max(known.height);
                reads |= known.reads;
                control = machine.give(known.value);
            }
        }
    }
}
