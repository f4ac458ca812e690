//! Working out the columns of the files that `bench/texts/evaluation` writes.
ghost use Rattle.std.specs.Prelude.{◌≡◌};
ghost use Rattle.fisca_simulation.specs.Evaluators.{simulation_of};
ghost use Rattle.fisca_evaluator.specs.Evaluators.{IsMemoryOf, marks_in, simulation_of as remembering_in};
ghost use Rattle.fisca_rules.specs.Views.{rule_set};
ghost use Rattle.fisca_situations.specs.Steps.Views.{situation as situation_view};
ghost use Rattle.fisca_simulation.specs.Sound.{InputsFit, IsSafeRules};

use crate::params::{files_of, mixed};
use crate::rules::rules_of;
use crate::{Measurement, list, show};
use fisca_columns::{columns_in, default_in};
use fisca_evaluator::{Evaluator as Remembering, IndexRecall, Recall};
use fisca_model::{EvalFault, Key, Value};
use fisca_params::SourceFile;
use fisca_rules::RuleSet;
use fisca_simulation::{PlainEvaluator, inputs_fit};
use fisca_situations::Situation;
use fisca_yaml::Tree;
use std::alloc::Global;
use std::rt::{Clock, Files};
use std::time::Instant;
use std::{fs, io};

/// What is to be measured: with or without a memory, for how many keys a column asks, and how many keys are to be asked for.
#[derive(Clone, Copy)]
struct Work {
    remembers: bool,
    size: u64,
    count: u64,
}

/// `evaluation [remembered] NAME SIZE COUNT`: the time of working all columns of a file out, so often that COUNT keys, persons, months or formulas are asked for;
/// each time with a memory that begins empty where values are remembered.
pub fn run(
    rt: &(impl Print + Clock + Files + Alloc),
    alloc: Global,
    words: &[String],
) -> io::Result<()> {
    match words {
        [name, size, count] => of_file(rt, alloc, false, [name, size, count]),
        [first, name, size, count] if first.as_str() == "remembered" => {
            of_file(rt, alloc, true, [name, size, count])
        }
        _ => list(rt),
    }
}

/// Measures a file, whose name and size are told, under the rules, as many operations as are told.
fn of_file(
    rt: &(impl Print + Clock + Files + Alloc),
    alloc: Global,
    remembers: bool,
    [name, size, count]: [&String; 3],
) -> io::Result<()> {
    let rules = fs::read_to_string(rt, "bench/out/evaluation/rules")?;
    let files = files_of(alloc, rules.as_str())?;
    let path = format!(in alloc; "bench/out/evaluation/{name}-{size}")?;
    let text = fs::read_to_string(rt, path.as_str())?;
    let size: u64 = size.as_str().parse().unwrap_or(1);
    let count: u64 = count.as_str().parse().unwrap_or(0);
    let work = Work {
        remembers,
        size,
        count,
    };
    match of_texts(rt, alloc, files.as_slice(), text.as_str(), work)? {
        Some(measured) => show(rt, measured),
        None => list(rt),
    }
}

/// Measures the file of a text under the rules of the files.
fn of_texts(
    rt: &impl Clock,
    alloc: Global,
    files: &[SourceFile],
    text: &str,
    work: Work,
) -> io::Result<Option<Measurement>> {
    match rules_of(alloc, files) {
        Some(rules) => of_text(rt, alloc, &rules, text, work),
        None => Ok(None),
    }
}

/// Measures the file of a text under a rule set.
fn of_text(
    rt: &impl Clock,
    alloc: Global,
    rules: &RuleSet<'_>,
    text: &str,
    work: Work,
) -> io::Result<Option<Measurement>>
    requires { IsSafeRules (rule_set rules.now) }
{
    match fisca_yaml::read(alloc, text) {
        Ok(tree) => of_tree(rt, alloc, rules, &tree, work),
        Err(_) => Ok(None),
    }
}

/// Measures the file of a tree.
fn of_tree(
    rt: &impl Clock,
    alloc: Global,
    rules: &RuleSet<'_>,
    tree: &Tree<'_>,
    work: Work,
) -> io::Result<Option<Measurement>>
    requires { IsSafeRules (rule_set rules.now) }
{
    inputs_fit();
    let default = default_in(tree);
    let input = tree.get("input");
    match Situation::read(
        alloc,
        &rules.tables,
        default,
        1,
        input.unwrap_or(&Tree::Null),
    ) {
        Ok(situation) => of_situation(rt, alloc, rules, situation, tree, work),
        Err(_) => Ok(None),
    }
}

/// Measures the columns of a tree in a situation.
fn of_situation(
    rt: &impl Clock,
    alloc: Global,
    rules: &RuleSet<'_>,
    situation: Situation,
    tree: &Tree<'_>,
    work: Work,
) -> io::Result<Option<Measurement>>
    requires safe { IsSafeRules (rule_set rules.now) }
    requires fit { InputsFit (rule_set rules.now) (situation_view situation) }
{
    match columns_in(alloc, &rules.tables, &situation, tree) {
        Ok(columns) => Ok(Some(measured(rt, alloc, rules, situation, columns.as_slice(), work)?)),
        Err(_) => Ok(None),
    }
}

/// Works columns out, one of which asks for as many keys as the size says, where there are not many of them.
fn measured(
    rt: &impl Clock,
    alloc: Global,
    rules: &RuleSet<'_>,
    situation: Situation,
    columns: &[Key],
    work: Work,
) -> io::Result<Measurement>
    requires safe { IsSafeRules (rule_set rules.now) }
    requires fit { InputsFit (rule_set rules.now) (situation_view situation) }
{
    let rounds = rounds_of(columns, work);
    let start = Instant::now(rt)?;
    let checksum = if work.remembers {
        remembered(alloc, rules, situation, columns, rounds)
    } else {
        forgotten(alloc, rules, situation, columns, rounds)
    };
    let nanoseconds = start.elapsed(rt)?.as_nanos();
    Ok(Measurement {
        nanoseconds,
        checksum,
    })
}

/// How often columns are worked out.
fn rounds_of(columns: &[Key], work: Work) -> u64 {
    let asked = if columns.len() > 1 {
        columns.len() as u64
    } else {
        work.size
    };
    work.count.checked_div(asked).unwrap_or(0)
}

/// Works the columns out so often, by one evaluator that remembers nothing. The checksum is of their values.
fn forgotten(
    alloc: Global,
    rules: &RuleSet<'_>,
    situation: Situation,
    columns: &[Key],
    rounds: u64,
) -> u64
    requires safe { IsSafeRules (rule_set rules.now) }
    requires fit { InputsFit (rule_set rules.now) (situation_view situation) }
{
    let mut evaluator = PlainEvaluator::new(alloc, rules, &[], situation);
    worked_out(&mut evaluator, columns, rounds)
}

/// Works the columns out so often. The checksum is of their values.
fn worked_out(evaluator: &mut PlainEvaluator<'_, '_>, columns: &[Key], rounds: u64) -> u64
    requires safe { IsSafeRules (simulation_of evaluator.old).rules }
    requires fit { InputsFit (simulation_of evaluator.old).rules (simulation_of evaluator.old).situation }
{
    let mut checksum = 0;
    for _round in 0..rounds {
        checksum = worked_out_once(evaluator, columns, checksum);
    }
    checksum
}

/// Works the columns out once more.
fn worked_out_once(evaluator: &mut PlainEvaluator<'_, '_>, columns: &[Key], before: u64) -> u64
    requires safe { IsSafeRules (simulation_of evaluator.old).rules }
    requires fit { InputsFit (simulation_of evaluator.old).rules (simulation_of evaluator.old).situation }
    ensures { simulation_of evaluator.new ≡ simulation_of evaluator.old }
{
    let mut checksum = before;
    for key in columns {
        checksum = with_answer(checksum, evaluator.value(*key));
    }
    checksum
}

/// Works the columns out so often, each time with a memory that begins empty. The checksum is of their values.
fn remembered(
    alloc: Global,
    rules: &RuleSet<'_>,
    situation: Situation,
    columns: &[Key],
    rounds: u64,
) -> u64
    requires safe { IsSafeRules (rule_set rules.now) }
    requires fit { InputsFit (rule_set rules.now) (situation_view situation) }
{
    let mut checksum = 0;
    let mut situation = situation;
    for _round in 0..rounds {
        let (back, sum) = remembered_anew(alloc, rules, situation, columns, checksum);
        situation = back;
        checksum = sum;
    }
    checksum
}

/// Works the columns out once more, with a memory that begins empty, and gives the situation back.
fn remembered_anew(
    alloc: Global,
    rules: &RuleSet<'_>,
    situation: Situation,
    columns: &[Key],
    before: u64,
) -> (Situation, u64)
    requires safe { IsSafeRules (rule_set rules.now) }
    requires fit { InputsFit (rule_set rules.now) (situation_view situation) }
    ensures { situation_view result.0 ≡ situation_view situation }
{
    let recall = IndexRecall::new(alloc);
    let mut evaluator = Remembering::new(alloc, rules, &[], &[], situation, recall);
    let checksum = remembered_once(&mut evaluator, columns, before);
    (evaluator.into_situation(), checksum)
}

/// Works the columns out by an evaluator that remembers.
fn remembered_once<R: Recall>(
    evaluator: &mut Remembering<'_, '_, R>,
    columns: &[Key],
    before: u64,
) -> u64
    requires safe { IsSafeRules (remembering_in evaluator.old).rules }
    requires fit { InputsFit (remembering_in evaluator.old).rules (remembering_in evaluator.old).situation }
    requires memory { IsMemoryOf (marks_in evaluator.old) (remembering_in evaluator.old) (R.find evaluator.old.store.recall) evaluator.old.store.counts.free }
    ensures { remembering_in evaluator.new ≡ remembering_in evaluator.old }
{
    let mut checksum = before;
    for key in columns {
        checksum = with_answer(checksum, evaluator.value(*key));
    }
    checksum
}

/// A checksum with one more answer.
fn with_answer(checksum: u64, answer: Result<Value, EvalFault>) -> u64 {
    match answer {
        Ok(value) => with_value(checksum, value),
        Err(fault) => checksum
            .rotate_left(7)
            .wrapping_add(u64::from(fault.number())),
    }
}

/// A checksum with one more value.
fn with_value(checksum: u64, value: Value) -> u64 {
    match value {
        Value::Number(number) => mixed(checksum, number),
        Value::Bool(truth) => checksum.rotate_left(3).wrapping_add(u64::from(truth)),
        Value::Member(place) => checksum.rotate_left(3).wrapping_add(place as u64),
    }
}
