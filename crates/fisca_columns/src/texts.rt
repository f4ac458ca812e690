//! The texts of keys and values.

ghost use Rattle.std.specs.Prelude.{◌≡◌, ◌++◌, slice_get, option_map, codes, OnOk, IfOk, string_bytes};
ghost use Rattle.fisca_time.specs.PeriodText.{text_of as period_text};
ghost use Rattle.fisca_symbols.specs.Known.{tables as known};
ghost use Rattle.fisca_symbols.specs.KnownVariables.{variable as known_variable, value_type as known_type};
ghost use Rattle.fisca_columns.specs.Texts as spec;
ghost use Rattle.fisca_columns.specs.Steps.Texts as steps;
ghost use Rattle.fisca_situations.specs.Steps.Views.{situation as situation_view};

use crate::pieces::write_period;
use fisca_model::{Key, Value};
use fisca_situations::Situation;
use fisca_symbols::{DeclaredType, Tables, Variable};
use fisca_time::Period;
use std::alloc::{AllocError, Global};

/// The name of a variable, if there is one.
fn name_of<'v>(variable: Option<&'v Variable<'_>>) -> &'v str
    ensures { result.now ≡ steps.name_of (option_map (λ v. known_variable v.now) variable.entry) }
{
    match variable {
        Some(variable) => variable.name.as_str(),
        None => "",
    }
}

/// The name of a member of the variable's entity, if there is one.
fn member_of<'s>(situation: &'s Situation, member: u32, variable: Option<&Variable<'_>>) -> &'s str
    ensures { result.now ≡ steps.member_of (situation_view situation.now).members member (option_map (λ v. known_variable v.now) variable.entry) }
{
    match variable {
        Some(variable) => situation.name(variable.entity, member).unwrap_or(""),
        None => "",
    }
}

/// The names of a key's variable and of its member, and nothing where one is not there.
pub(crate) fn names_of<'t>(
    tables: &'t Tables<'_>,
    situation: &'t Situation,
    key: &Key,
) -> (&'t str, &'t str)
    ensures variable { result.0.now ≡ steps.name_of (slice_get (known tables.now).variables key.now.variable) }
    ensures member { result.1.now ≡ steps.member_of (situation_view situation.now).members key.now.member (slice_get (known tables.now).variables key.now.variable) }
{
    let variable = tables.variables.as_slice().get(key.variable);
    let name = name_of(variable);
    let member = member_of(situation, key.member, variable);
    (name, member)
}

/// Appends a name, and a text behind it.
fn write_named(name: &str, between: &str, line: &mut String) -> Result<(), AllocError>
    ensures { OnOk result (string_bytes line.new ≡ string_bytes line.old ++ spec.named between.now name.now) }
{
    line.push_str(name)?;
    line.push_str(between)
}

/// Appends the names of a variable and of a member, and a period, with a text between them.
fn write_parts(
    alloc: Global,
    name: &str,
    member: &str,
    period: Period,
    between: &str,
    line: &mut String,
) -> Result<(), AllocError>
    ensures { OnOk result (string_bytes line.new ≡ string_bytes line.old ++ spec.key_by between.now name.now member.now (period_text period)) }
{
    write_named(name, between, line)?;
    write_named(member, between, line)?;
    write_period(alloc, period, line)
}

/// Appends the text of a key: the name of its variable, the name of its member and its period, with a text between them. A key whose
/// variable or member is not there has nothing in its place.
pub fn write_key(
    alloc: Global,
    tables: &Tables<'_>,
    situation: &Situation,
    key: &Key,
    between: &str,
    line: &mut String,
) -> Result<(), AllocError>
    ensures { OnOk result (string_bytes line.new ≡ string_bytes line.old ++ spec.key_text between.now (known tables.now) (situation_view situation.now).members key.now) }
{
    let (name, member) = names_of(tables, situation, key);
    write_parts(alloc, name, member, key.period, between, line)
}

/// The text of a key: the name of its variable, the name of its member and its period, with single spaces between them, as
/// `salary Ann 2017-01`. `AllocError` only where memory was refused.
pub fn key_text(
    alloc: Global,
    tables: &Tables<'_>,
    situation: &Situation,
    key: &Key,
) -> Result<String, AllocError>
    ensures { IfOk result (λ text. string_bytes text ≡ spec.key_text (codes " ") (known tables.now) (situation_view situation.now).members key.now) }
{
    let mut line = String::new(alloc);
    write_key(alloc, tables, situation, key, " ", &mut line)?;
    Ok(line)
}

/// The name of the member at a place of the variable's Enum, if there is one.
fn choice_of<'t>(tables: &'t Tables<'_>, value_type: DeclaredType, place: usize) -> &'t str
    ensures { result.now ≡ steps.choice_of (known tables.now) (known_type value_type) place }
{
    let DeclaredType::Enum(choices) = value_type else {
        return "";
    };
    let Some(choices) = tables.enums.as_slice().get(choices) else {
        return "";
    };
    match choices.members.as_slice().get(place) {
        Some(member) => member.0.as_str(),
        None => "",
    }
}

/// The same of the variable at a place.
pub(crate) fn choice_at<'t>(tables: &'t Tables<'_>, variable: usize, place: usize) -> &'t str
    ensures { result.now ≡ steps.choice_at (known tables.now) (slice_get (known tables.now).variables variable) place }
{
    match tables.variables.as_slice().get(variable) {
        Some(variable) => choice_of(tables, variable.value_type, place),
        None => "",
    }
}

/// Appends the text of a value of the variable at a place: that of a number, `true` or `false`, or the name of the member of its Enum,
/// where there is one.
pub fn write_value(
    tables: &Tables<'_>,
    variable: usize,
    value: Value,
    line: &mut String,
) -> Result<(), AllocError>
    ensures { OnOk result (string_bytes line.new ≡ string_bytes line.old ++ spec.value_text (known tables.now) variable value) }
{
    match value {
        Value::Number(number) => number.write_text(line),
        Value::Bool(true) => line.push_str("true"),
        Value::Bool(false) => line.push_str("false"),
        Value::Member(place) => line.push_str(choice_at(tables, variable, place)),
    }
}

/// The text of a value of the variable at a place, as `write_value` appends it. `AllocError` only where memory was refused.
pub fn value_text(
    alloc: Global,
    tables: &Tables<'_>,
    variable: usize,
    value: Value,
) -> Result<String, AllocError>
    ensures { IfOk result (λ text. string_bytes text ≡ spec.value_text (known tables.now) variable value) }
{
    let mut line = String::new(alloc);
    write_value(tables, variable, value, &mut line)?;
    Ok(line)
}
