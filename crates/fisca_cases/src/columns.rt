//! Columns, and the files of `fisca calc`.

ghost use Rattle.std.specs.Prelude.{◌≡◌, None};
ghost use Rattle.fisca_model.specs.Values as meaning;
ghost use Rattle.fisca_rules.specs.Views.{rule_set};
ghost use Rattle.fisca_simulation.specs.Sound.{IsSafeRules};

use crate::fault::{CaseFault, malformed, no_memory};
use crate::situations::{key_of, situation};
use fisca_cases_base::{Written, number};
use fisca_columns::{CalcFile, key_text, read_column, value_text, write_columns};
use fisca_commands::calc_inputs_fit;
use fisca_evaluator::{Counts, IndexRecall, ListRecall, Recall};
use fisca_model::{EvalFault, Key, Value};
use fisca_num::Fraction;
use fisca_rules::RuleSet;
use fisca_simulation::PlainEvaluator;
use fisca_situations::{Answers, Situation};
use fisca_time::Period;
use fisca_writer::{MemorySink, RunEnd, RunFault};
use fisca_yaml::read;
use std::alloc::Global;

/// The answer to a case of columns: what the call of this name gives under this rule set for these words. Those of a situation are the last two: the
/// default period, or `-` for none, and the input.
pub fn answer(
    alloc: Global,
    operation: &str,
    rules: &RuleSet<'_>,
    words: &[String],
) -> Result<String, CaseFault> {
    match operation {
        "read" => column(alloc, rules, words),
        "key" => key(alloc, rules, words),
        "value" => value(alloc, rules, words),
        _ => Err(malformed()),
    }
}

/// The place of the variable, the member and the period of the key that a column names.
fn column(alloc: Global, rules: &RuleSet<'_>, words: &[String]) -> Result<String, CaseFault> {
    let [text, default, input] = words else {
        return Err(malformed());
    };
    let found = situation(alloc, rules, default.as_str(), input.as_str())?;
    let default = match default.as_str() {
        "-" => None,
        word => Some(Period::read(word)?),
    };
    match read_column(&rules.tables, &found, text.as_str(), default) {
        None => Ok(String::from_str(alloc, "none")?),
        Some(key) => {
            let (variable, member) = (key.variable, key.member);
            let period = key.period.text(alloc)?;
            Ok(format!(in alloc; "{variable} {member} {period}")?)
        }
    }
}

/// The text of the key `VARIABLE MEMBER PERIOD`.
fn key(alloc: Global, rules: &RuleSet<'_>, words: &[String]) -> Result<String, CaseFault> {
    let [variable, member, period, default, input] = words else {
        return Err(malformed());
    };
    let found = situation(alloc, rules, default.as_str(), input.as_str())?;
    let key = key_of(rules, variable.as_str(), member.as_str(), period.as_str())?;
    Ok(key_text(alloc, &rules.tables, &found, &key)?)
}

/// The text of a value of a variable: `true`, `false`, `member PLACE` or a number.
fn value(alloc: Global, rules: &RuleSet<'_>, words: &[String]) -> Result<String, CaseFault> {
    let [variable, rest @ ..] = words else {
        return Err(malformed());
    };
    let Some(variable) = rules.variable(variable.as_str()) else {
        return Err(malformed());
    };
    let value = said(rest)?;
    Ok(value_text(alloc, &rules.tables, variable, value)?)
}

fn said(words: &[String]) -> Result<Value, CaseFault> {
    match words {
        [word] => match word.as_str() {
            "true" => Ok(Value::Bool(true)),
            "false" => Ok(Value::Bool(false)),
            literal => Ok(Value::Number(Fraction::from_decimal(literal)?)),
        },
        [_, place] => Ok(Value::Member(number(place.as_str())?)),
        _ => Err(malformed()),
    }
}

/// The answer to a case of a file of `fisca calc`: the texts of its columns' keys, the lines of its columns, those of an evaluator that is asked once more
/// where memory was refused, or how many formulas were worked out.
pub fn calc(
    alloc: Global,
    operation: &str,
    rules: &RuleSet<'_>,
    words: &[String],
) -> Result<String, CaseFault>
    requires { IsSafeRules (rule_set rules.now) }
{
    match words {
        [text] if operation == "read" => file(alloc, rules, text.as_str()),
        [text] if operation == "values" => values(alloc, rules, text.as_str()),
        [text] if operation == "counts" => counts(alloc, rules, text.as_str()),
        [text] if operation == "again" => again(alloc, rules, text.as_str()),
        _ => Err(malformed()),
    }
}

fn file(alloc: Global, rules: &RuleSet<'_>, text: &str) -> Result<String, CaseFault> {
    let tree = read(alloc, text)?;
    let found = CalcFile::read(alloc, &rules.tables, &tree)?;
    let mut shown = Written::new(alloc);
    if found.columns.as_slice().is_empty() {
        shown.push("no columns");
    }
    for (place, key) in found.columns.as_slice().iter().enumerate() {
        if place != 0 {
            shown.push("\n");
        }
        let text = key_text(alloc, &rules.tables, &found.situation, key)?;
        shown.push(text.as_str());
    }
    Ok(shown.finish()?)
}

/// The lines of the columns of a file, and behind them, where one has no value, the fault and its key: worked out without a memory of values. Where an
/// evaluator that remembers answers anything else, that is told.
fn values(alloc: Global, rules: &RuleSet<'_>, text: &str) -> Result<String, CaseFault>
    requires { IsSafeRules (rule_set rules.now) }
{
    let plain = plain_values(alloc, rules, text)?;
    let (list, _) = remembered_values(alloc, rules, text, ListRecall::new(alloc))?;
    if list != plain {
        return Ok(String::from_str(alloc, "another answer from a list")?);
    }
    let (table, _) = remembered_values(alloc, rules, text, IndexRecall::new(alloc))?;
    if table != plain {
        return Ok(String::from_str(alloc, "another answer from a hash table")?);
    }
    Ok(plain)
}

/// How many formulas are worked out for the columns of a file by an evaluator that remembers: as many with a list as with a hash table.
fn counts(alloc: Global, rules: &RuleSet<'_>, text: &str) -> Result<String, CaseFault>
    requires { IsSafeRules (rule_set rules.now) }
{
    let (_, list) = remembered_values(alloc, rules, text, ListRecall::new(alloc))?;
    let (_, table) = remembered_values(alloc, rules, text, IndexRecall::new(alloc))?;
    if list != table {
        return Ok(String::from_str(alloc, "other counts from a hash table")?);
    }
    let (free, bound, lost) = (table.free(), table.bound(), table.lost());
    Ok(format!(in alloc; "free {free}, bound {bound}, lost {lost}")?)
}

/// The lines of the columns of a file by an evaluator that remembers in a list, below them by one with a hash table: where memory was refused, the same
/// evaluator is asked for all of them once more.
fn again(alloc: Global, rules: &RuleSet<'_>, text: &str) -> Result<String, CaseFault>
    requires { IsSafeRules (rule_set rules.now) }
{
    let mut shown = Written::new(alloc);
    let (list, _) = remembered_values(alloc, rules, text, ListRecall::new(alloc))?;
    let (table, _) = remembered_values(alloc, rules, text, IndexRecall::new(alloc))?;
    shown.push(list.as_str());
    shown.push("\n");
    shown.push(table.as_str());
    Ok(shown.finish()?)
}

/// The lines and what follows them, by an evaluator that remembers nothing.
fn plain_values(alloc: Global, rules: &RuleSet<'_>, text: &str) -> Result<String, CaseFault>
    requires { IsSafeRules (rule_set rules.now) }
{
    calc_inputs_fit();
    let tree = read(alloc, text)?;
    let file = CalcFile::read(alloc, &rules.tables, &tree)?;
    let CalcFile { situation, columns } = file;
    let evaluator = PlainEvaluator::new(alloc, rules, &[], situation);
    let (_, shown) = shown(alloc, rules, columns.as_slice(), evaluator)?;
    Ok(shown)
}

/// The same by one that remembers values in this memory, which is empty, and its counts.
fn remembered_values<R: Recall + Drop>(
    alloc: Global,
    rules: &RuleSet<'_>,
    text: &str,
    recall: R,
) -> Result<(String, Counts), CaseFault>
    requires safe { IsSafeRules (rule_set rules.now) }
    requires empty { (k : meaning.Key) → R.find recall k ≡ None }
{
    calc_inputs_fit();
    let tree = read(alloc, text)?;
    let file = CalcFile::read(alloc, &rules.tables, &tree)?;
    let CalcFile { situation, columns } = file;
    let evaluator = fisca_evaluator::Evaluator::new(alloc, rules, &[], &[], situation, recall);
    let (evaluator, shown) = shown(alloc, rules, columns.as_slice(), evaluator)?;
    Ok((shown, evaluator.counts()))
}

/// The lines of columns by what answers the values of keys, which is given back, and behind them, where one has no value, the fault and its key. Where
/// memory was refused, a line says at which column, and below it stands all that the same evaluator answers when it is asked once more.
fn shown<A: Answers<Fault = EvalFault> + Drop>(
    alloc: Global,
    rules: &RuleSet<'_>,
    columns: &[Key],
    evaluator: A,
) -> Result<(A, String), CaseFault>
    requires { A.ready evaluator }
{
    let mut shown = Written::new(alloc);
    let mut sink = MemorySink::new(alloc);
    let (evaluator, end) = write_columns(
        alloc,
        &rules.tables,
        None,
        None,
        columns,
        evaluator,
        &mut sink,
    );
    let Some(column) = stop_of(&end) else {
        push_answer(
            alloc,
            &mut shown,
            rules,
            evaluator.situation(),
            sink.bytes(),
            end,
        )?;
        return Ok((evaluator, shown.finish()?));
    };
    shown.push(str::from_utf8(sink.bytes()).unwrap_or("no text\n"));
    shown.push("out of memory at ");
    shown.push_number(column);
    shown.push("\n");
    let mut sink = MemorySink::new(alloc);
    let (evaluator, end) = write_columns(
        alloc,
        &rules.tables,
        None,
        None,
        columns,
        evaluator,
        &mut sink,
    );
    push_answer(
        alloc,
        &mut shown,
        rules,
        evaluator.situation(),
        sink.bytes(),
        end,
    )?;
    Ok((evaluator, shown.finish()?))
}

/// The place of the column at which there was no memory, for its value or its line.
fn stop_of(end: &Result<RunEnd, RunFault<EvalFault>>) -> Option<u64> {
    match end {
        Err(RunFault::Write { position } | RunFault::Memory { position }) => Some(*position),
        Err(RunFault::BadPosition | RunFault::Eval { .. }) | Ok(_) => None,
    }
}

/// Appends the lines of columns, and behind them, where one has no value, the fault and its key.
fn push_answer(
    alloc: Global,
    shown: &mut Written,
    rules: &RuleSet<'_>,
    situation: &Situation,
    lines: &[u8],
    end: Result<RunEnd, RunFault<EvalFault>>,
) -> Result<(), CaseFault> {
    let lines = str::from_utf8(lines).unwrap_or("no text\n");
    match end {
        Ok(_) => shown.push(lines.strip_suffix("\n").unwrap_or(lines)),
        Err(fault) => {
            shown.push(lines);
            push_fault(alloc, shown, rules, situation, fault)?;
        }
    }
    Ok(())
}

/// Appends the name of the fault of a key, and the key.
fn push_fault(
    alloc: Global,
    shown: &mut Written,
    rules: &RuleSet<'_>,
    situation: &Situation,
    fault: RunFault<EvalFault>,
) -> Result<(), CaseFault> {
    match fault {
        RunFault::Eval { fault, .. } => {
            shown.push("fault ");
            shown.push(fault.name());
            if let Some(key) = fault.key() {
                shown.push(" ");
                shown.push(key_text(alloc, &rules.tables, situation, &key)?.as_str());
            }
            Ok(())
        }
        RunFault::BadPosition | RunFault::Write { .. } | RunFault::Memory { .. } => {
            Err(no_memory())
        }
    }
}
