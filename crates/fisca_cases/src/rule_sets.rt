//! Rule sets.

ghost use Rattle.std.specs.Prelude.{IfOk};
ghost use Rattle.fisca_rules.specs.Views.{rule_set};
ghost use Rattle.fisca_simulation.specs.Sound.{IsSafeRules};

use crate::fault::{CaseFault, malformed};
use fisca_ast::Module;
use fisca_params::{ParamTree, SourceFile};
use fisca_parser::read_module;
use fisca_rules::RuleSet;
use fisca_simulation::rule_sets_are_safe;
use std::alloc::Global;

/// The answer to a case of rule sets: what the call of this name gives of this one.
pub fn answer(alloc: Global, operation: &str, rules: &RuleSet<'_>) -> Result<String, CaseFault> {
    match operation {
        "build" => build(alloc, rules),
        _ => Err(malformed()),
    }
}

/// The modules among the files, as they stand there.
fn modules<'a>(alloc: Global, files: &'a [SourceFile]) -> Result<Vec<Module<'a>>, CaseFault> {
    let mut modules = Vec::new(alloc);
    for file in files {
        if file.path().ends_with(".py") {
            modules.push(read_module(alloc, file.text())?)?;
        }
    }
    Ok(modules)
}

/// The rule set of the files.
pub fn rules_of<'a>(alloc: Global, files: &'a [SourceFile]) -> Result<RuleSet<'a>, CaseFault>
    ensures { IfOk result (λ rules. IsSafeRules (rule_set rules)) }
{
    rule_sets_are_safe();
    let parameters = ParamTree::read(alloc, files)?;
    let modules = modules(alloc, files)?;
    match RuleSet::build(alloc, parameters, modules) {
        Ok(rules) => Ok(rules),
        Err(fault) => Err(CaseFault::Build(fault)),
    }
}

/// How many entities, variables and parameters the rule set of the files has.
fn build(alloc: Global, rules: &RuleSet<'_>) -> Result<String, CaseFault> {
    let entities = rules.tables.entities.as_slice().len();
    let variables = rules.tables.variables.as_slice().len();
    let parameters = rules.tables.parameters.count();
    Ok(format!(in alloc; "entities {entities}, variables {variables}, parameters {parameters}")?)
}
