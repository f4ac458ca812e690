//! The modules of a rule set.

ghost use Rattle.std.specs.Prelude.{◌≡◌, IfOk, map, slice_get};
ghost use Rattle.fisca_rule_files.specs.Modules as spec;
ghost use Rattle.fisca_rule_files.specs.Steps.Modules as steps;
ghost use Rattle.fisca_rule_files.specs.Modules.{IsFaultOf, TellsFile};
ghost use Rattle.fisca_rules.specs.Views.{rule_set};
ghost use Rattle.fisca_ast.specs.ModuleViews.{statements};
ghost use Rattle.fisca_params.specs.Steps.Files.{in_path_order};

use crate::Refusal;
use fisca_ast::{FormulaFault, FormulaKind, Module};
use fisca_folder::is_module;
use fisca_params::{ParamTree, SourceFile, in_path_order};
use fisca_parser::read_module;
use fisca_rules::{BuildFault, RuleSet};
use std::alloc::{AllocError, Global};
use std::collections::BTreeMap;

/// The modules among files in order of their paths.
fn modules_in<'a>(
    alloc: Global,
    sorted: &BTreeMap<(&'a str, usize), &'a SourceFile>,
) -> Result<Vec<&'a SourceFile>, AllocError>
    ensures { IfOk result (λ fs. map (λ f. f.now) fs.items ≡ steps.modules_in (map (λ e. (e.0.1, e.1.now)) sorted.now.entries)) }
{
    let mut modules = Vec::new(alloc);
    for (_place, file) in sorted.iter() {
        if is_module(file.path()) {
            modules.push(*file)?;
        }
    }
    Ok(modules)
}

/// The modules among files, in order of their paths: each place of a module in the rule set that the files make is one among these.
pub fn modules_of(alloc: Global, files: &[SourceFile]) -> Result<Vec<&SourceFile>, AllocError>
    ensures { IfOk result (λ fs. map (λ f. f.now) fs.items ≡ steps.modules_in (in_path_order files.now)) }
{
    let sorted = in_path_order(alloc, files)?;
    modules_in(alloc, &sorted)
}

/// What a module declares, or its first fault with its path.
fn read_file<'a>(alloc: Global, file: &'a SourceFile) -> Result<Module<'a>, Refusal>
    ensures { TellsFile statements (spec.declared_in file.now) result }
{
    match read_module(alloc, file.text()) {
        Ok(module) => Ok(module),
        Err(fault) if fault.kind == FormulaKind::Memory => Err(Refusal::Memory),
        Err(fault) => Err(refuse(alloc, file.path(), fault)),
    }
}

/// What each of these modules declares, or the fault of the first that cannot be read.
fn read_modules<'a>(alloc: Global, files: &[&'a SourceFile]) -> Result<Vec<Module<'a>>, Refusal>
    ensures { TellsFile (λ ms. map statements ms.items) (spec.declared_by (map (λ f. f.now) files.now)) result }
{
    let mut modules = Vec::new(alloc);
    for file in files {
        modules.push(read_file(alloc, file)?)?;
    }
    Ok(modules)
}

/// The path of the module at a place; where there is none, of the file that is to declare the persons.
fn path_at<'a>(files: &[&'a SourceFile], place: usize) -> &'a str
    ensures { result.now ≡ spec.path_or (slice_get (map (λ f. f.now) files.now) place) }
{
    match files.get(place) {
        Some(file) => file.path(),
        None => "entities.py",
    }
}

/// The rule set of these modules beside parameters, or its first fault with the path of its module.
fn build<'a>(
    alloc: Global,
    parameters: ParamTree,
    files: &[&'a SourceFile],
) -> Result<RuleSet<'a>, Refusal>
    ensures { TellsFile rule_set (spec.rules_in parameters (map (λ f. f.now) files.now)) result }
{
    let modules = read_modules(alloc, files)?;
    match RuleSet::build(alloc, parameters, modules) {
        Ok(rules) => Ok(rules),
        Err(fault) if fault.kind == FormulaKind::Memory => Err(Refusal::Memory),
        Err(BuildFault { module, line, kind }) => {
            let fault = FormulaFault { line, kind };
            Err(refuse(alloc, path_at(files, module), fault))
        }
    }
}

/// The rule set that the modules among files in order of their paths make beside parameters. Else the first fault is told: of a
/// module that cannot be read, in that order, or of what all of them declare (`RuleSet::build` says in which order).
pub(crate) fn build_rules<'a>(
    alloc: Global,
    parameters: ParamTree,
    sorted: &BTreeMap<(&'a str, usize), &'a SourceFile>,
) -> Result<RuleSet<'a>, Refusal>
    ensures { TellsFile rule_set (spec.rules_in parameters (steps.modules_in (map (λ e. (e.0.1, e.1.now)) sorted.now.entries))) result }
{
    let modules = modules_in(alloc, sorted)?;
    build(alloc, parameters, modules.as_slice())
}

/// The refusal of the module at this path for a fault.
fn refuse(alloc: Global, path: &str, fault: FormulaFault) -> Refusal
    ensures { IsFaultOf (path.now, fault) result }
{
    let FormulaFault { line, kind } = fault;
    match String::from_str(alloc, path) {
        Ok(path) => Refusal::Formula { path, line, kind },
        Err(_) => Refusal::Memory,
    }
}
