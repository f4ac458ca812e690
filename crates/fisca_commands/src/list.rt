//! `fisca list`: the variables of a rule set.

ghost use Rattle.std.specs.Prelude.{map};
ghost use Rattle.fisca_commands.specs.Listed.{AreListed, IsList};
ghost use Rattle.fisca_rule_files.specs.Listing.{listing};
ghost use Rattle.fisca_rule_files.specs.Refusal.{is_write};
ghost use Rattle.fisca_rules.specs.Views.{rule_set};
ghost use Rattle.fisca_writer.specs.Sink.{CountsFailure};

use fisca_command_line::TableForm;
use fisca_forms::LineForm;
use fisca_grid_run::begin_table;
use fisca_params::SourceFile;
use fisca_rule_files::{
    Refusal, each_variable_has_its_line, list_names, modules_of, rules_of, write_listing,
};
use fisca_rules::RuleSet;
use fisca_writer::RowSink;
use std::alloc::Global;

/// Writes the lines of the variables of a rule set, of these modules, in a form.
fn write_variables<S: RowSink>(
    alloc: Global,
    form: &LineForm,
    modules: &[&SourceFile],
    rules: &RuleSet<'_>,
    sink: &mut S,
) -> Result<(), Refusal>
    ensures answer { AreListed (listing form.now (map (λ f. f.now) modules.now) (rule_set rules.now)) (S.taken sink.old) (S.taken sink.new) result }
    ensures failures { CountsFailure (is_write result) (S.failures sink.old) (S.failures sink.new) }
{
    each_variable_has_its_line();
    match write_listing(alloc, form, modules, rules, sink) {
        Ok(_) => Ok(()),
        Err(fault) => Err(Refusal::from(fault)),
    }
}

/// Lists the variables of a rule set, one line each, in the order in which its modules declare them, which is that of their paths and of the lines in
/// each: the variable, the key of its entity, its type, its definition period, `input` or the first days of its formulas, its unit, its label, and the
/// module and the line on which it begins, with tabs between them, or these as cells of the form that is asked for, behind a line with their names where
/// it is asked for. Nothing is worked out.
///
/// The first refusal in this order is told, and nothing is written before the first line:
///
/// - `TooManyFiles`, `Params` and `Formula` as of `check_rules`: the files make no rule set.
/// - `Write` only where the sink failed in this call: it has a proper beginning of the line of the names.
/// - `Run` with `Write` only where the sink failed in this call: it has the lines of the variables before the one that is named, and a proper beginning
///   of the line there.
/// - `Run` with `Memory`, or `Memory`, only where memory was refused: the sink has the lines of some of the first variables, each whole.
///
/// This project's own rule.
pub fn list_rules<S: RowSink>(
    alloc: Global,
    files: &[SourceFile],
    form: TableForm,
    sink: &mut S,
) -> Result<(), Refusal>
    ensures answer { IsList files.now form (S.taken sink.old) (S.taken sink.new) result }
    ensures failures { CountsFailure (is_write result) (S.failures sink.old) (S.failures sink.new) }
{
    let rules = rules_of(alloc, files)?;
    let modules = modules_of(alloc, files)?;
    let names = list_names(alloc)?;
    let form = begin_table(alloc, form, names, sink)?;
    write_variables(alloc, &form, modules.as_slice(), &rules, sink)
}
