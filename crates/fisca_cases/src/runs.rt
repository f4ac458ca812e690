//! Runs: how many formulas gave values in one, and whether what is remembered changes any.

ghost use Rattle.std.specs.Prelude.{IfOk, None};
ghost use Rattle.fisca_simulation.specs.Sound.{IsSafeRules};
ghost use Rattle.fisca_evaluator.specs.Evaluators.{marks_in, simulation_of};
ghost use Rattle.fisca_grid_run.specs.Begun.{IsBegun, file_in};
ghost use Rattle.fisca_grid_run.specs.Kept.{IsKept, IsRunFile};
ghost use Rattle.fisca_rules.specs.Views.{rule_set};
ghost use Rattle.fisca_run_file.specs.Positions.{IsBeginning};
ghost use Rattle.fisca_run_file.specs.Views.{run_file as run_file_view, run_start as run_start_view};
ghost use Rattle.fisca_situations.specs.Steps.Views.{situation as situation_view};

use crate::axes::are_put_in;
use crate::fault::{CaseFault, malformed, no_memory};
use fisca_cases_base::{Written, limit, number, three};
use fisca_evaluator::{Counts, Evaluator, ListRecall, Recall};
use fisca_grid_run::{RowStyle, evaluator_of, run_anew, run_grid, run_with};
use fisca_model::EvalFault;
use fisca_rules::RuleSet;
use fisca_run_file::{RunFile, RunRequest, RunStart};
use fisca_situations::Slot;
use fisca_writer::{Limit, MemorySink, RunEnd, RunFault};
use fisca_yaml::{Tree, read};
use std::alloc::Global;

/// The answer to a case of runs: what the call of this name gives under this rule set and the words `FROM ROWS TEXT` of a run file, where `-` stands for
/// no limit.
pub fn answer(
    alloc: Global,
    operation: &str,
    rules: &RuleSet<'_>,
    words: &[String],
) -> Result<String, CaseFault>
    requires { IsSafeRules (rule_set rules.now) }
{
    let (from, rows, text) = three(words)?;
    let (from, rows) = (number(from)?, limit(rows)?);
    let tree = read(alloc, text)?;
    match operation {
        "anew" => anew(alloc, rules, &tree, from, rows),
        "counts" => counts(alloc, rules, &tree, from, rows),
        _ => Err(malformed()),
    }
}

/// Whether the run, with one situation and one evaluator, writes and answers the same as that which begins anew at each position, and the axes of the file,
/// put into its situation one by one, leave what a run begins with.
fn anew(
    alloc: Global,
    rules: &RuleSet<'_>,
    tree: &Tree<'_>,
    from: u64,
    rows: Option<u64>,
) -> Result<String, CaseFault>
    requires { IsSafeRules (rule_set rules.now) }
{
    let is_same = are_the_same(alloc, rules, tree, from, rows)? && are_put_in(alloc, rules, tree)?;
    Ok(String::from_str(alloc, if is_same { "the same" } else { "differs" })?)
}

/// The end of the run, and behind it how many formulas gave values; or the fault that stopped it.
fn counts(
    alloc: Global,
    rules: &RuleSet<'_>,
    tree: &Tree<'_>,
    from: u64,
    rows: Option<u64>,
) -> Result<String, CaseFault>
    requires { IsSafeRules (rule_set rules.now) }
{
    let run = read_run(alloc, rules, tree)?;
    let mut sink = MemorySink::new(alloc);
    let mut shown = Written::new(alloc);
    let limit = Limit { to: None, rows };
    match run_grid(
        alloc,
        rules,
        run,
        RowStyle::Plain,
        &mut false,
        from,
        limit,
        &mut sink,
    ) {
        Ok((end, counts)) => push_counts(&mut shown, end, counts),
        Err(RunFault::BadPosition) => shown.push("BadPosition"),
        Err(RunFault::Eval { position, fault }) => push_stop(&mut shown, position, fault),
        Err(RunFault::Write { .. } | RunFault::Memory { .. }) => return Err(no_memory()),
    }
    Ok(shown.finish()?)
}

fn push_stop(shown: &mut Written, position: u64, fault: EvalFault) {
    push_count(shown, "position ", position);
    shown.push(": ");
    shown.push(fault.name());
}

fn push_counts(shown: &mut Written, end: RunEnd, counts: Counts) {
    match end {
        RunEnd::End => shown.push("end"),
        RunEnd::More(position) => push_count(shown, "more ", position),
    }
    push_count(shown, ", free ", counts.free());
    push_count(shown, ", bound ", counts.bound());
    push_count(shown, ", lost ", counts.lost());
}

fn push_count(shown: &mut Written, word: &str, count: u64) {
    shown.push(word);
    shown.push_number(count);
}

/// The run file that a tree says under a rule set.
pub fn read_run(alloc: Global, rules: &RuleSet<'_>, tree: &Tree<'_>) -> Result<RunFile, CaseFault>
    requires { IsSafeRules (rule_set rules.now) }
    ensures accepted { IfOk result (λ run. IsRunFile rules.now (run_file_view run)) }
    ensures begins { IfOk result (λ run. IsBeginning rules.now.tables (run_file_view run) (situation_view run.situation)) }
{
    match RunFile::read(alloc, &rules.tables, tree) {
        Ok(run) => Ok(run),
        Err(fault) => Err(CaseFault::RunFile(fault)),
    }
}

/// Whether both runs write and answer the same.
fn are_the_same(
    alloc: Global,
    rules: &RuleSet<'_>,
    tree: &Tree<'_>,
    from: u64,
    rows: Option<u64>,
) -> Result<bool, CaseFault>
    requires { IsSafeRules (rule_set rules.now) }
{
    let mut kept = MemorySink::new(alloc);
    let mut anew = MemorySink::new(alloc);
    let run = read_run(alloc, rules, tree)?;
    let limit = Limit { to: None, rows };
    let answer = run_grid(
        alloc,
        rules,
        run,
        RowStyle::Plain,
        &mut false,
        from,
        limit,
        &mut kept,
    );
    let run = read_run(alloc, rules, tree)?;
    let expected = run_anew(alloc, rules, run, RowStyle::Plain, from, limit, &mut anew);
    if without_counts(answer) != expected || kept.bytes() != anew.bytes() {
        return Ok(false);
    }
    is_the_same_twice(alloc, rules, tree, from, rows, &expected, anew.bytes())
}

/// Whether an evaluator that remembers in a list, handed in twice, writes and answers this both times.
fn is_the_same_twice(
    alloc: Global,
    rules: &RuleSet<'_>,
    tree: &Tree<'_>,
    from: u64,
    rows: Option<u64>,
    expected: &Result<RunEnd, RunFault<EvalFault>>,
    lines: &[u8],
) -> Result<bool, CaseFault>
    requires { IsSafeRules (rule_set rules.now) }
{
    let run = read_run(alloc, rules, tree)?;
    match run.start(alloc, &rules.tables) {
        Ok(begun) => Ok(are_the_same_twice(alloc, rules, begun, from, rows, expected, lines)),
        Err(_) => Ok(false),
    }
}

/// The same, from what the run begins with. No value that reads no axis is worked out the second time.
fn are_the_same_twice(
    alloc: Global,
    rules: &RuleSet<'_>,
    begun: RunStart,
    from: u64,
    rows: Option<u64>,
    expected: &Result<RunEnd, RunFault<EvalFault>>,
    lines: &[u8],
) -> bool
    requires { IsBegun rules.now (run_start_view begun) begun }
{
    let RunStart {
        situation,
        slots,
        wheels,
        request,
    } = begun;
    let recall = ListRecall::new(alloc);
    let (slots, wheels) = (slots.as_slice(), wheels.as_slice());
    let mut evaluator = evaluator_of(alloc, rules, &request, slots, wheels, situation, recall);
    runs_twice(
        alloc,
        rules,
        &mut evaluator,
        slots,
        &request,
        from,
        rows,
        expected,
        lines,
    )
}

/// Whether an evaluator that is handed in twice writes and answers this both times.
fn runs_twice<'t, R: Recall>(
    alloc: Global,
    rules: &RuleSet<'t>,
    evaluator: &mut Evaluator<'_, 't, R>,
    slots: &[Slot],
    request: &RunRequest,
    from: u64,
    rows: Option<u64>,
    expected: &Result<RunEnd, RunFault<EvalFault>>,
    lines: &[u8],
) -> bool
    requires { IsKept rules.now (file_in (simulation_of evaluator.old) request.now) slots.now None (marks_in evaluator.old) (simulation_of evaluator.old) (R.find evaluator.old.store.recall) evaluator.old.store.counts.free }
{
    let mut once = MemorySink::new(alloc);
    let mut twice = MemorySink::new(alloc);
    let limit = Limit { to: None, rows };
    let first = run_with(
        alloc,
        &*rules,
        evaluator,
        &*slots,
        &*request,
        RowStyle::Plain,
        &mut false,
        from,
        limit,
        &mut once,
    );
    let free = evaluator.counts().free();
    let second = run_with(
        alloc,
        &*rules,
        evaluator,
        &*slots,
        &*request,
        RowStyle::Plain,
        &mut false,
        from,
        limit,
        &mut twice,
    );
    first == *expected
        && second == *expected
        && once.bytes() == lines
        && twice.bytes() == lines
        && evaluator.counts().free() == free
}

fn without_counts(
    answer: Result<(RunEnd, Counts), RunFault<EvalFault>>,
) -> Result<RunEnd, RunFault<EvalFault>> {
    match answer {
        Ok((end, _)) => Ok(end),
        Err(fault) => Err(fault),
    }
}
