//! Answers the cases on standard input: each names a public call of a library and its words, and behind it, or below it,
//! stands what the call answers. So a row of a test costs the prover nothing.
//!
//! A case is a line `LAYER OPERATION WORD..`. A word has no blank, or stands in double quotes, with the escapes `\n`, `\r`,
//! `\t`, `\"` and `\\`. Lines below it that begin with two blanks are the text that is its last word. Empty lines and lines
//! with `#` are copied. `file PATH TEXT` adds a file to the rule set that later cases are about, and `rules` begins a new one.
//! Layers below rule sets are answered by `fisca_cases_base` and `fisca_cases_texts`.
#![tactic(auto)]

ghost use Rattle.fisca_simulation.specs.Sound.{IsSafeRules};
ghost use Rattle.fisca_rules.specs.Views.{rule_set};

mod axes;
mod columns;
mod commands;
mod fault;
mod narrow;
mod refusals;
mod rule_sets;
mod runs;
mod situations;

use fault::{CaseFault, malformed};
use fisca_cases_base::{Case, two};
use fisca_params::SourceFile;
use fisca_rules::RuleSet;
use rule_sets::rules_of;
use std::alloc::{AllocError, Global};
use std::io;

fn main(rt: HostRuntime) -> io::Result<()> {
    let mut files = Vec::new(rt.alloc());
    let mut open = None;
    for line in rt.lines(rt.alloc()) {
        open = take_line(&rt, &mut files, open, line?)?;
    }
    close(&rt, &mut files, open)
}

/// Takes the next line: it belongs to the open case, or ends it.
fn take_line(
    rt: &HostRuntime,
    files: &mut Vec<SourceFile>,
    open: Option<Case>,
    line: String,
) -> io::Result<Option<Case>> {
    if let Some(mut case) = open {
        if case.takes(rt.alloc(), line.as_str())? {
            return Ok(Some(case));
        }
        close(rt, files, Some(case))?;
    }
    if line.is_empty() || line.as_str().starts_with('#') {
        println!(rt; "{line}")?;
        return Ok(None);
    }
    Ok(Some(Case::new(line)))
}

/// Prints a case and its answer.
fn close(rt: &HostRuntime, files: &mut Vec<SourceFile>, open: Option<Case>) -> io::Result<()> {
    let Some(case) = open else { return Ok(()) };
    let words = case.words(rt.alloc())?;
    let answer = match answer(rt.alloc(), files, words.as_slice()) {
        Ok(answer) => answer,
        Err(fault) => fault.told(rt.alloc())?,
    };
    let shown = case.shown(rt.alloc(), answer.as_str())?;
    println!(rt; "{shown}")
}

/// What the call of a case answers.
fn answer(
    alloc: Global,
    files: &mut Vec<SourceFile>,
    words: &[String],
) -> Result<String, CaseFault> {
    match words {
        [] => Err(malformed()),
        [first, rest @ ..] => match first.as_str() {
            "rules" => begin(alloc, files),
            "file" => add(alloc, files, rest),
            layer => ask(alloc, layer, files.as_slice(), rest),
        },
    }
}

/// Begins a new rule set.
fn begin(alloc: Global, files: &mut Vec<SourceFile>) -> Result<String, CaseFault> {
    files.clear();
    Ok(String::from_str(alloc, "no files")?)
}

/// Adds the file `PATH TEXT` to the rule set, and answers its place.
fn add(alloc: Global, files: &mut Vec<SourceFile>, words: &[String]) -> Result<String, CaseFault> {
    let (path, text) = two(words)?;
    let place = files.len();
    let path = String::from_str(alloc, path)?;
    let text = String::from_str(alloc, text)?;
    files.push(SourceFile::new(path, text))?;
    Ok(format!(in alloc; "file {place}")?)
}

/// What an operation of a layer answers.
fn ask(
    alloc: Global,
    layer: &str,
    files: &[SourceFile],
    words: &[String],
) -> Result<String, CaseFault> {
    match words {
        [] => Err(malformed()),
        [operation, rest @ ..] => match layer {
            "rule_sets" | "situations" | "columns" | "calc" | "run" => {
                let rules = rules_of(alloc, files)?;
                ask_rules(alloc, layer, operation.as_str(), &rules, rest)
            }
            "refusals" => refusals::answer(alloc, operation.as_str(), rest),
            "again" => commands::again(alloc, operation.as_str(), files, rest),
            "failing" => commands::failing(alloc, operation.as_str(), files, rest),
            other => match fisca_cases_texts::answer(
                alloc,
                other,
                operation.as_str(),
                files,
                rest,
            ) {
                Some(answer) => Ok(answer?),
                None => Err(malformed()),
            },
        },
    }
}

/// What an operation of a layer answers under a rule set, which is made once for all of them: to hold one costs the prover a minute in each function.
fn ask_rules(
    alloc: Global,
    layer: &str,
    operation: &str,
    rules: &RuleSet<'_>,
    words: &[String],
) -> Result<String, CaseFault>
    requires { IsSafeRules (rule_set rules.now) }
{
    match layer {
        "rule_sets" => rule_sets::answer(alloc, operation, rules),
        "situations" => situations::answer(alloc, operation, rules, words),
        "columns" => columns::answer(alloc, operation, rules, words),
        "calc" => columns::calc(alloc, operation, rules, words),
        "run" => runs::answer(alloc, operation, rules, words),
        _ => Err(malformed()),
    }
}
