//! Building the rule sets that `bench/texts/rules` writes, beside reading their modules.
ghost use Rattle.std.specs.Prelude.{IfSome};
ghost use Rattle.fisca_rules.specs.Views.{rule_set};
ghost use Rattle.fisca_simulation.specs.Sound.{IsSafeRules};

use crate::params::files_of;
use crate::{Measurement, list, show};
use fisca_ast::Module;
use fisca_params::{ParamTree, SourceFile};
use fisca_parser::read_module;
use fisca_rules::RuleSet;
use fisca_simulation::rule_sets_are_safe;
use std::alloc::Global;
use std::rt::{Clock, Files};
use std::time::Instant;
use std::{fs, io};

/// `rules read|build NAME COUNT`: the time of reading the modules so often, or of building the rule set of what was read.
pub fn run(
    rt: &(impl Print + Clock + Files + Alloc),
    alloc: Global,
    words: &[String],
) -> io::Result<()> {
    let [operation, name, count] = words else {
        return list(rt);
    };
    let path = format!(in alloc; "bench/out/rules/{name}")?;
    let text = fs::read_to_string(rt, path.as_str())?;
    let files = files_of(alloc, text.as_str())?;
    let count: u64 = count.as_str().parse().unwrap_or(0);
    let measured = match operation.as_str() {
        "read" => read(rt, alloc, files.as_slice(), count)?,
        "build" => build(rt, alloc, files.as_slice(), count)?,
        _ => return list(rt),
    };
    show(rt, measured)
}

/// The rule set of the files.
pub(crate) fn rules_of<'a>(alloc: Global, files: &'a [SourceFile]) -> Option<RuleSet<'a>>
    ensures { IfSome result (λ rules. IsSafeRules (rule_set rules)) }
{
    rule_sets_are_safe();
    let parameters = ParamTree::read(alloc, files).ok()?;
    match RuleSet::build(alloc, parameters, modules(alloc, files)) {
        Ok(rules) => Some(rules),
        Err(_) => None,
    }
}

/// The modules among the files, as they stand there, or none where one cannot be read.
pub(crate) fn modules<'a>(alloc: Global, files: &'a [SourceFile]) -> Vec<Module<'a>> {
    let mut modules = Vec::new(alloc);
    for file in files {
        if file.path().ends_with(".py") {
            match read_module(alloc, file.text()) {
                Ok(module) => {
                    if modules.push(module).is_err() {
                        return Vec::new(alloc);
                    }
                }
                Err(_) => return Vec::new(alloc),
            }
        }
    }
    modules
}

/// Reads the modules so often, each time dropped outside the time. The checksum is of their statements.
fn read(
    rt: &impl Clock,
    alloc: Global,
    files: &[SourceFile],
    count: u64,
) -> io::Result<Measurement> {
    let mut checksum = 0;
    let mut nanoseconds = 0u128;
    for _run in 0..count {
        let start = Instant::now(rt)?;
        let read = modules(alloc, files);
        nanoseconds = nanoseconds.saturating_add(start.elapsed(rt)?.as_nanos());
        checksum = statements(read.as_slice());
    }
    Ok(Measurement {
        nanoseconds,
        checksum,
    })
}

fn statements(modules: &[Module<'_>]) -> u64 {
    let mut sum = 0u64;
    for module in modules {
        sum = sum.wrapping_add(module.statements.len() as u64);
    }
    sum
}

/// Builds the rule set so often, each time of modules and parameters that were read before, and dropped outside the time. The
/// checksum is of its variables.
fn build(
    rt: &impl Clock,
    alloc: Global,
    files: &[SourceFile],
    count: u64,
) -> io::Result<Measurement> {
    let mut checksum = 0;
    let mut nanoseconds = 0u128;
    for _run in 0..count {
        let Ok(parameters) = ParamTree::read(alloc, files) else {
            break;
        };
        let read = modules(alloc, files);
        let start = Instant::now(rt)?;
        let rules = RuleSet::build(alloc, parameters, read).ok();
        nanoseconds = nanoseconds.saturating_add(start.elapsed(rt)?.as_nanos());
        checksum = built(rules);
    }
    Ok(Measurement {
        nanoseconds,
        checksum,
    })
}

fn built(rules: Option<RuleSet<'_>>) -> u64 {
    match rules {
        Some(rules) => rules.tables.variables.as_slice().len() as u64,
        None => u64::MAX,
    }
}
