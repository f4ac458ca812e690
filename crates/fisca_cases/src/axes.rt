//! Axes put into situations.

ghost use Rattle.fisca_rules.specs.Views.{rule_set};
ghost use Rattle.fisca_simulation.specs.Sound.{IsSafeRules};

use crate::fault::{CaseFault, malformed};
use crate::runs::read_run;
use crate::situations::{push_input, read_period, situation};
use fisca_cases_base::{Written, number};
use fisca_inputs::{Given, SituationFault};
use fisca_model::Key;
use fisca_num::Fraction;
use fisca_rules::RuleSet;
use fisca_run_file::{RunFile, RunRequest};
use fisca_situations::{Situation, Slot, reading_of};
use fisca_time::Period;
use fisca_yaml::{Tree, read};
use std::alloc::Global;

/// What an axis of `VARIABLE MEMBER PERIOD` moves in the situation of a default period and an input, which are the last two words: how many inputs are given
/// then, and each period with what stands there, before and after the slot is turned to `VALUE`.
pub fn axis(alloc: Global, rules: &RuleSet<'_>, words: &[String]) -> Result<String, CaseFault> {
    let [variable, member, period, value, default, text] = words else {
        return Err(malformed());
    };
    let key = Key {
        variable: rules.variable(variable.as_str()).unwrap_or(usize::MAX),
        member: number(member.as_str())?,
        period: Period::read(period.as_str())?,
    };
    let value = Fraction::from_decimal(value.as_str())?;
    let mut given = given_in(alloc, rules, default.as_str(), text.as_str())?;
    let mut found = situation(alloc, rules, default.as_str(), text.as_str())?;
    let slot = found.axis(alloc, &rules.tables, &[], &mut given, &key, 0)?;
    let mut shown = Written::new(alloc);
    shown.push("given ");
    shown.push_number(given.len() as u64);
    push_inputs(alloc, &mut shown, &slot, &found)?;
    slot.turn(&mut found.inputs, value);
    push_inputs(alloc, &mut shown, &slot, &found)?;
    Ok(shown.finish()?)
}

/// The inputs that are given in a text, before they are shared.
fn given_in(
    alloc: Global,
    rules: &RuleSet<'_>,
    default: &str,
    text: &str,
) -> Result<Vec<Given>, CaseFault> {
    let tree = read(alloc, text)?;
    let reading = reading_of(alloc, &rules.tables, read_period(default)?, 1, &tree)?;
    let mut given = Vec::new(alloc);
    given.extend_from_slice(reading.given.as_slice())?;
    Ok(given)
}

/// The periods of a slot, each with what stands there.
fn push_inputs(
    alloc: Global,
    shown: &mut Written,
    slot: &Slot,
    found: &Situation,
) -> Result<(), CaseFault> {
    for period in slot.periods.as_slice() {
        shown.push(", ");
        shown.push(period.text(alloc)?.as_str());
        shown.push(" ");
        push_input(alloc, shown, &found.input(&key_at(slot, *period)))?;
    }
    Ok(())
}

fn key_at(slot: &Slot, period: Period) -> Key {
    Key {
        variable: slot.variable,
        member: slot.member,
        period,
    }
}

/// Whether the axes of a file, put into its situation one after another, move what its slots move, and leave the inputs with which a run begins.
pub fn are_put_in(alloc: Global, rules: &RuleSet<'_>, tree: &Tree<'_>) -> Result<bool, CaseFault>
    requires { IsSafeRules (rule_set rules.now) }
{
    let begun = read_run(alloc, rules, tree)?.start(alloc, &rules.tables)?;
    let RunFile { situation, request } = read_run(alloc, rules, tree)?;
    let slots = begun.slots.as_slice();
    let mut again = situation;
    match put_in(alloc, rules, &request, slots, &mut again) {
        Ok(is_same) => Ok(
            is_same
                && slots
                    .iter()
                    .all(|slot| have_same(slot, &begun.situation, &again)),
        ),
        Err(_) => Ok(false),
    }
}

/// Puts the axes of a file into its situation. Answers whether they move what these slots do.
fn put_in(
    alloc: Global,
    rules: &RuleSet<'_>,
    request: &RunRequest,
    slots: &[Slot],
    situation: &mut Situation,
) -> Result<bool, SituationFault> {
    let mut given = Vec::new(alloc);
    given.extend_from_slice(request.given.as_slice())?;
    let mut is_same = slots.len() == request.moved.as_slice().len();
    for (slot, input) in slots.iter().zip(request.moved.as_slice()) {
        let key = Key {
            variable: input.variable,
            member: input.member,
            period: input.period,
        };
        let neutral = request.neutral.as_slice();
        let made = situation.axis(alloc, &rules.tables, neutral, &mut given, &key, slot.wheel)?;
        is_same = is_same && are_same(&made, slot);
    }
    Ok(is_same)
}

fn are_same(ours: &Slot, theirs: &Slot) -> bool {
    ours.variable == theirs.variable
        && ours.member == theirs.member
        && ours.wheel == theirs.wheel
        && ours.value_type == theirs.value_type
        && ours.is_divided == theirs.is_divided
        && ours.periods.as_slice() == theirs.periods.as_slice()
}

/// Whether the keys of a slot have the same inputs in two situations.
fn have_same(slot: &Slot, ours: &Situation, theirs: &Situation) -> bool {
    for period in slot.periods.as_slice() {
        let key = key_at(slot, *period);
        if ours.input(&key) != theirs.input(&key) {
            return false;
        }
    }
    true
}
