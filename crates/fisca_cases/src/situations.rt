//! Situations.

use crate::axes;
use crate::fault::{CaseFault, malformed};
use fisca_cases_base::{Written, number, two};
use fisca_members::Home;
use fisca_model::{Key, Value};
use fisca_num::Fraction;
use fisca_rules::RuleSet;
use fisca_situations::Situation;
use fisca_time::Period;
use fisca_yaml::read;
use std::alloc::Global;

/// The answer to a case of situations: what the call of this name gives under this rule set for these words, of which the last two are the default
/// period, or `-` for none, and the input.
pub fn answer(
    alloc: Global,
    operation: &str,
    rules: &RuleSet<'_>,
    words: &[String],
) -> Result<String, CaseFault> {
    match operation {
        "members" => members(alloc, rules, words),
        "input" => input(alloc, rules, words),
        "neutralized" => neutralized(alloc, rules, words),
        "axis" => axes::axis(alloc, rules, words),
        _ => Err(malformed()),
    }
}

/// The situation of an input whose key stands on line 1.
pub fn situation(
    alloc: Global,
    rules: &RuleSet<'_>,
    default: &str,
    text: &str,
) -> Result<Situation, CaseFault> {
    let tree = read(alloc, text)?;
    Ok(Situation::read(alloc, &rules.tables, read_period(default)?, 1, &tree)?)
}

/// A default period, or `-` for none.
pub fn read_period(default: &str) -> Result<Option<Period>, CaseFault> {
    match default {
        "-" => Ok(None),
        word => Ok(Some(Period::read(word)?)),
    }
}

/// A line for each entity: its members, and behind a bar for each person the group, and the role with its subrole.
fn members(alloc: Global, rules: &RuleSet<'_>, words: &[String]) -> Result<String, CaseFault> {
    let (default, text) = two(words)?;
    let found = situation(alloc, rules, default, text)?;
    let mut shown = Written::new(alloc);
    for (place, entity) in rules.entities().iter().enumerate() {
        if place != 0 {
            shown.push("\n");
        }
        shown.push(entity.key.as_str());
        shown.push(":");
        push_names(&mut shown, &found, place);
        push_homes(&mut shown, &found, place);
    }
    Ok(shown.finish()?)
}

fn push_names(shown: &mut Written, found: &Situation, entity: usize) {
    for member in 0..found.members(entity) {
        shown.push(" ");
        shown.push(found.name(entity, member).unwrap_or("?"));
    }
}

/// As many persons as have a group of this kind.
fn push_homes(shown: &mut Written, found: &Situation, entity: usize) {
    for person in 0..1000u32 {
        match found.members.home(entity, person) {
            Some(home) => push_home(shown, person, home),
            None => return,
        }
    }
}

fn push_home(shown: &mut Written, person: u32, home: Home) {
    shown.push(if person == 0 { " | " } else { ", " });
    shown.push_number(home.group as u64);
    shown.push(" ");
    shown.push_number(home.role.role as u64);
    if let Some(subrole) = home.role.subrole {
        shown.push(".");
        shown.push_number(subrole as u64);
    }
}

/// The input of `VARIABLE MEMBER PERIOD`, after sharing.
fn input(alloc: Global, rules: &RuleSet<'_>, words: &[String]) -> Result<String, CaseFault> {
    let [variable, member, period, default, text] = words else {
        return Err(malformed());
    };
    let found = situation(alloc, rules, default.as_str(), text.as_str())?;
    let key = key_of(rules, variable.as_str(), member.as_str(), period.as_str())?;
    shown(alloc, &found.input(&key))
}

/// The same where the first variable has been neutralised.
fn neutralized(alloc: Global, rules: &RuleSet<'_>, words: &[String]) -> Result<String, CaseFault> {
    let [neutral, variable, member, period, default, text] = words else {
        return Err(malformed());
    };
    let mut found = situation(alloc, rules, default.as_str(), text.as_str())?;
    let key = key_of(rules, variable.as_str(), member.as_str(), period.as_str())?;
    let mut marks = Vec::new(alloc);
    for declared in rules.variables() {
        marks.push(declared.name.as_bytes() == neutral.as_bytes())?;
    }
    found.neutralize(marks.as_slice());
    shown(alloc, &found.input(&key))
}

/// The key of a variable at a member and a period.
pub fn key_of(
    rules: &RuleSet<'_>,
    variable: &str,
    member: &str,
    period: &str,
) -> Result<Key, CaseFault> {
    let Some(variable) = rules.variable(variable) else {
        return Err(malformed());
    };
    Ok(Key {
        variable,
        member: number(member)?,
        period: Period::read(period)?,
    })
}

/// What stands at a key, behind what is written.
pub fn push_input(
    alloc: Global,
    written: &mut Written,
    value: &Option<Value>,
) -> Result<(), CaseFault> {
    written.push(shown(alloc, value)?.as_str());
    Ok(())
}

fn shown(alloc: Global, value: &Option<Value>) -> Result<String, CaseFault> {
    match value {
        None => Ok(String::from_str(alloc, "none")?),
        Some(Value::Number(number)) => number_text(alloc, *number),
        Some(Value::Bool(value)) => Ok(format!(in alloc; "{value}")?),
        Some(Value::Member(place)) => Ok(format!(in alloc; "member {place}")?),
    }
}

fn number_text(alloc: Global, number: Fraction) -> Result<String, CaseFault> {
    Ok(number.text(alloc)?)
}
