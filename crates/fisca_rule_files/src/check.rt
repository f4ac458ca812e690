//! `fisca check`: whether the files of a rule set are accepted, and what they hold.

ghost use Rattle.std.specs.Prelude.{◌≡◌, IfOk, string_bytes};
ghost use Rattle.fisca_writer.specs.Sink.{CountsFailure};
ghost use Rattle.fisca_rules.specs.Views.{rule_set};
ghost use Rattle.fisca_rule_files.specs.Check.{IsCheck, IsWritten};
ghost use Rattle.fisca_rule_files.specs.Steps.Check.{text_of, text_of_counts};
ghost use Rattle.fisca_rule_files.specs.Refusal.{is_write};

use super::rule_files::rules_of;
use crate::Refusal;
use fisca_params::SourceFile;
use fisca_rules::RuleSet;
use fisca_writer::{RowSink, hand_over};
use std::alloc::{AllocError, Global};

/// The line that `fisca check` prints of so many entities, variables, and parameters with scales.
fn text_of_counts(
    alloc: Global,
    entities: usize,
    variables: usize,
    parameters: usize,
) -> Result<String, AllocError>
    ensures { IfOk result (λ text. string_bytes text ≡ text_of_counts entities variables parameters) }
{
    format!(in alloc; "entities {entities}, variables {variables}, parameters {parameters}\n")
}

/// The line of a rule set.
fn text_of(alloc: Global, rules: &RuleSet<'_>) -> Result<String, AllocError>
    ensures { IfOk result (λ text. string_bytes text ≡ text_of (rule_set rules.now)) }
{
    let tables = &rules.tables;
    text_of_counts(
        alloc,
        tables.entities.as_slice().len(),
        tables.variables.as_slice().len(),
        tables.parameters.count(),
    )
}

/// Writes the line of a rule set: `Memory` before anything is written, `Write` where the sink failed.
fn write_counts<S: RowSink>(alloc: Global, rules: &RuleSet<'_>, sink: &mut S) -> Result<(), Refusal>
    ensures answer { IsWritten (text_of (rule_set rules.now)) (S.taken sink.old) (S.taken sink.new) result }
    ensures failures { CountsFailure (is_write result) (S.failures sink.old) (S.failures sink.new) }
{
    let text = text_of(alloc, rules)?;
    match hand_over(sink, text.as_bytes()) {
        Ok(()) => Ok(()),
        Err(_) => Err(Refusal::Write),
    }
}

/// Checks the files of a rule set, and writes one line: how many entities, variables and dated parameters with scales
/// it has.
///
/// The first refusal in this order is told, and nothing is written before it:
///
/// - `TooManyFiles` exactly where more than 1,000 of the files are not ignored.
/// - `Params` exactly where the parameter files make no tree: what is wrong with the first file, in order of the paths,
///   that makes none with those before it, its path, and the line that the fault names.
/// - `Formula` exactly where the parameter files make a tree and the modules no rule set beside it: the path, the line and the kind of
///   the first fault. Modules that cannot be read come first, in order of their paths, and then what all of them declare (`RuleSet::build`
///   says in which order). That the persons are missing is told of `entities.py` where there is no module.
/// - `Write` only where the sink failed in this call: it has a proper beginning of the line.
/// - `Memory` only where memory was refused.
///
/// The files are those of the OpenFisca documentation; the limits and the line are this project's own.
pub fn check_rules<S: RowSink>(
    alloc: Global,
    files: &[SourceFile],
    sink: &mut S,
) -> Result<(), Refusal>
    ensures answer { IsCheck files.now (S.taken sink.old) (S.taken sink.new) result }
    ensures failures { CountsFailure (is_write result) (S.failures sink.old) (S.failures sink.new) }
{
    let rules = rules_of(alloc, files)?;
    write_counts(alloc, &rules, sink)
}
