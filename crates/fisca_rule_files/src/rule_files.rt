//! The rule set that files make together.

ghost use Rattle.std.specs.Prelude.{◌≡◌, nat_lt, ℕ, ◌<◌, IfOk, IfErr, IfSome, length};
ghost use Rattle.fisca_params.specs.Answers.{file_of, Refuses};
ghost use Rattle.fisca_params.specs.Steps.Files.{tree_of};
ghost use Rattle.fisca_rules.specs.Views.{rule_set};
ghost use Rattle.fisca_rule_files.specs.RuleFiles.{count_of_files, IsAccepted, IsToldAt, IsToldOf, RefusesFiles};

use super::modules::build_rules;
use crate::Refusal;
use fisca_folder::is_rule_path;
use fisca_params::{ParamFault, ParamTree, SourceFile, in_path_order};
use fisca_rules::RuleSet;
use std::alloc::Global;

/// A rule set has at most so many files.
const MOST_FILES: usize = 1000;

/// How many of the files belong to the rule set, as parameter files or as modules; others are ignored.
fn count_files(files: &[SourceFile]) -> usize
    ensures { result ≡ count_of_files files.now }
{
    files
        .iter()
        .filter(|file| is_rule_path(file.path()))
        .count()
}

/// Whether a rule set has more files than are read.
fn are_too_many(files: &[SourceFile]) -> bool
    ensures { result ≡ nat_lt 1000 (count_of_files files.now) }
{
    files.len() > MOST_FILES && count_files(files) > MOST_FILES
}

/// The refusal of parameter files for a fault, with the path of the file that it names.
fn refuse(alloc: Global, files: &[SourceFile], fault: ParamFault) -> Refusal
    requires file { IfSome (file_of fault) (λ file. file < length files.now) }
    requires told { Refuses fault (tree_of files.now) }
    ensures { IsToldOf files.now fault result }
{
    match fault {
        ParamFault::Yaml { file, fault: yaml } => {
            tell(alloc, files[file].path(), yaml.line, fault)
        }
        ParamFault::BadParameter { file, line } | ParamFault::DuplicateName { file, line } => {
            tell(alloc, files[file].path(), line, fault)
        }
        ParamFault::Memory => Refusal::Memory,
        ParamFault::BadScale | ParamFault::Undefined | ParamFault::Number(_) => unreachable!(),
    }
}

/// The refusal of the file at this path for a fault at this line.
fn tell(alloc: Global, path: &str, line: usize, fault: ParamFault) -> Refusal
    ensures { IsToldAt path.now line fault result }
{
    match String::from_str(alloc, path) {
        Ok(path) => Refusal::Params { path, line, fault },
        Err(_) => Refusal::Memory,
    }
}

/// The rule set that files make together. The first refusal in this order is told:
///
/// - `TooManyFiles` exactly where more than 1,000 of the files are not ignored.
/// - `Params` exactly where the parameter files make no tree: what is wrong with the first file, in order of the paths,
///   that makes none with those before it, its path, and the line that the fault names.
/// - `Formula` exactly where the parameter files make a tree and the modules no rule set beside it: the path, the line and the kind of
///   the first fault.
/// - `Memory` only where memory was refused.
pub fn rules_of(alloc: Global, files: &[SourceFile]) -> Result<RuleSet<'_>, Refusal>
    ensures ok { IfOk result (λ rules. IsAccepted files.now (rule_set rules)) }
    ensures err { IfErr result (RefusesFiles files.now) }
{
    if are_too_many(files) {
        return Err(Refusal::TooManyFiles);
    }
    let sorted = in_path_order(alloc, files)?;
    match ParamTree::read_in_order(alloc, &sorted) {
        Ok(tree) => build_rules(alloc, tree, &sorted),
        Err(fault) => Err(refuse(alloc, files, fault)),
    }
}
