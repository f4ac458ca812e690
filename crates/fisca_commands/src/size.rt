//! `fisca size`: the number of positions of a run file.

ghost use Rattle.std.specs.Prelude.{IfOk, IfErr};
ghost use Rattle.fisca_writer.specs.Sink.{CountsFailure};
ghost use Rattle.fisca_grid_run.specs.Run.{RefusesRunText};
ghost use Rattle.fisca_commands.specs.Size.{IsSize, IsSizeIn};
ghost use Rattle.fisca_rule_files.specs.Refusal.{is_write};

use fisca_grid_run::{read_run, read_tree};
use fisca_params::SourceFile;
use fisca_rule_files::{Refusal, rules_of};
use fisca_rules::RuleSet;
use fisca_run::write_size;
use fisca_writer::RowSink;
use std::alloc::Global;

/// The number of positions of the run file that a text says under a rule set.
fn read_size(alloc: Global, rules: &RuleSet<'_>, text: &str) -> Result<u64, Refusal>
    ensures ok { IfOk result (IsSizeIn rules.now text.now) }
    ensures err { IfErr result (RefusesRunText rules.now text.now) }
{
    let tree = read_tree(alloc, text)?;
    let run = read_run(alloc, rules, &tree)?;
    Ok(run.request.axes.size())
}

/// Writes the number of positions of the grid of a run file under a rule set, and a line feed. Nothing is worked out.
///
/// The first refusal in this order is told, and nothing is written before:
///
/// - `TooManyFiles`, `Params` and `Formula` as of `check_rules`: the files make no rule set.
/// - `Yaml` exactly where the text has no tree, with the line and the kind that `fisca_yaml::read` tells.
/// - `RunFile` exactly where the tree is no run file under the rule set, with the line and the kind of its first fault.
/// - `Write` only where the sink failed in this call: it has a proper beginning of the line.
/// - `Memory` only where memory was refused.
///
/// This project's own rule.
pub fn size_rules<S: RowSink>(
    alloc: Global,
    files: &[SourceFile],
    text: &str,
    sink: &mut S,
) -> Result<(), Refusal>
    ensures answer { IsSize files.now text.now (S.taken sink.old) (S.taken sink.new) result }
    ensures failures { CountsFailure (is_write result) (S.failures sink.old) (S.failures sink.new) }
{
    let rules = rules_of(alloc, files)?;
    let size = read_size(alloc, &rules, text)?;
    match write_size(size, sink) {
        Ok(()) => Ok(()),
        Err(_) => Err(Refusal::Write),
    }
}
