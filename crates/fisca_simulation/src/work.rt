//! Values of keys, worked out below one another.

ghost use Rattle.std.specs.Prelude.{◌≡◌, ◌≤◌, ◌<◌, length, OnOk, map};
ghost use Rattle.fisca_key_semantics.specs.Answers.{known as from_known};
ghost use Rattle.fisca_model.specs.EvalFaults.{IsAnswer};
ghost use Rattle.fisca_simulation.specs.PlainEvaluations as spec;
ghost use Rattle.fisca_model.specs.Seen.{key_seen, value_seen};
ghost use Rattle.fisca_machine.specs.Running.{rest, waiting};

use crate::chains::too_long;
use crate::default_of;
use crate::fault::told_of;
use crate::plain_evaluation::PlainEvaluation;
use fisca_check::TypedFormula;
use fisca_machine::{Frame, Machine, Step};
use fisca_model::{EvalFault, Key, Value};
use fisca_symbols::Variable;

/// How many keys are asked for below one another at most.
const MOST_KEYS: usize = 100;

/// A value that is at hand, for a key below others.
fn at_hand(keys: &[Key], key: &Key, value: Value) -> Result<Value, EvalFault>
    requires { length keys.now ≤ 100 }
    ensures { spec.IsAtHand keys.now key.now value result }
{
    if keys.len() >= MOST_KEYS {
        return Err(too_long(keys, key));
    }
    Ok(value)
}

/// The value of a key that is asked for below others.
#[cycle(value)]
pub(crate) fn value_below<'r>(
    evaluation: &PlainEvaluation<'r, '_, '_>,
    machine: &mut Machine<'r>,
    keys: &mut Vec<Key>,
    key: &Key,
) -> Result<Value, EvalFault>
    requires evaluation { spec.IsPlainEvaluation evaluation.now }
    requires depth { length keys.old.items ≤ 100 }
    ensures answer { IsAnswer (spec.wanted evaluation.now keys.old.items key.now) result }
    ensures keys { keys.new.items ≡ keys.old.items }
    ensures rest { OnOk result (rest evaluation.now.context machine.new ≡ rest evaluation.now.context machine.old) }
    ensures waits { OnOk result (waiting evaluation.now.context machine.new ≡ waiting evaluation.now.context machine.old) }
{
    let Some(variable) = evaluation.simulation.variable(*key) else {
        return Err(EvalFault::PeriodMismatch(*key));
    };
    if let Some(value) = evaluation.simulation.situation.input(key) {
        return at_hand(keys.as_slice(), key, value);
    }
    match evaluation.simulation.formula(variable, *key) {
        Some(formula) => by_formula(evaluation, machine, keys, variable, formula, key),
        None => match default_of(variable) {
            Some(value) => at_hand(keys.as_slice(), key, value),
            None => Err(EvalFault::PeriodMismatch(*key)),
        },
    }
}

/// The value of a key by its formula, below others.
#[cycle(value)]
fn by_formula<'r>(
    evaluation: &PlainEvaluation<'r, '_, '_>,
    machine: &mut Machine<'r>,
    keys: &mut Vec<Key>,
    variable: &Variable<'_>,
    formula: &'r TypedFormula,
    key: &Key,
) -> Result<Value, EvalFault>
    requires evaluation { spec.IsPlainEvaluation evaluation.now }
    requires work { spec.IsWork evaluation.now variable.now formula.now key.now }
    requires depth { length keys.old.items ≤ 100 }
    ensures answer { IsAnswer (spec.wanted evaluation.now keys.old.items key.now) result }
    ensures keys { keys.new.items ≡ keys.old.items }
    ensures rest { OnOk result (rest evaluation.now.context machine.new ≡ rest evaluation.now.context machine.old) }
    ensures waits { OnOk result (waiting evaluation.now.context machine.new ≡ waiting evaluation.now.context machine.old) }
{
    if keys.len() >= MOST_KEYS {
        return Err(too_long(keys.as_slice(), key));
    }
    match keys.push(*key) {
        Ok(()) => {
            let worked = work_out(evaluation, machine, keys, variable, formula, key);
            let _ = keys.pop();
            worked
        }
        Err(_) => Err(EvalFault::Memory),
    }
}

/// Works out the formula of the last of the keys.
#[cycle(value)]
fn work_out<'r>(
    evaluation: &PlainEvaluation<'r, '_, '_>,
    machine: &mut Machine<'r>,
    keys: &mut Vec<Key>,
    variable: &Variable<'_>,
    formula: &'r TypedFormula,
    key: &Key,
) -> Result<Value, EvalFault>
    requires evaluation { spec.IsPlainEvaluation evaluation.now }
    requires work { spec.IsWork evaluation.now variable.now formula.now key.now }
    requires some { 0 < length keys.old.items }
    requires depth { length keys.old.items ≤ 100 }
    ensures answer { IsAnswer (spec.wanted_of_work evaluation.now keys.old.items variable.now formula.now key.now) result }
    ensures keys { keys.new.items ≡ keys.old.items }
    ensures rest { OnOk result (rest evaluation.now.context machine.new ≡ rest evaluation.now.context machine.old) }
    ensures waits { OnOk result (waiting evaluation.now.context machine.new ≡ waiting evaluation.now.context machine.old) }
{
    let frame = Frame {
        entity: variable.entity,
        member: key.member,
        period: key.period,
    };
    let locals = formula.values.as_slice();
    let begun = machine.begin(
        &evaluation.context,
        locals,
        &formula.result,
        variable.value_type,
        frame,
    );
    let mut control = match begun {
        Ok(control) => control,
        Err(_) => return Err(EvalFault::Memory),
    };
    loop {
        match machine.run(&evaluation.context, control) {
            Step::Done(value) => return Ok(value),
            Step::Failed(fault) => return Err(told_of(fault, *key)),
            Step::Memory => return Err(EvalFault::Memory),
            Step::Needs(asked) => {
                // by its parts, as it was written: to read it in one piece would wait for them
                let Key {
                    variable,
                    member,
                    period,
                } = asked;
                let needed = Key {
                    variable,
                    member,
                    period,
                };
                let value = value_below(evaluation, machine, keys, &needed)?;
                control = machine.give(value);
            }
        }
    }
}
