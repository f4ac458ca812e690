//! `fisca calc`: the values of the columns of a file.

ghost use Rattle.std.specs.Prelude.{◌≡◌, IfOk, IfErr, map, option_map, string_bytes};
ghost use Rattle.fisca_columns.specs.Views.{calc};
ghost use Rattle.fisca_simulation.specs.Told.{IsReady};
ghost use Rattle.fisca_writer.specs.Sink.{CountsFailure};
ghost use Rattle.fisca_situations.specs.Steps.Views.{situation as situation_view};
ghost use Rattle.fisca_commands.specs.Calc.{IsAsked, IsCalc, IsCalculated, IsKeyTold, RefusesText, calc_names, simulation_of};
ghost use Rattle.fisca_grid_run.specs.Forms.{shown_form};
ghost use Rattle.fisca_rule_files.specs.Refusal.{is_write};
ghost use Rattle.fisca_run.specs.Cells.{named_first};

use crate::calc_inputs_fit;
use fisca_columns::{CalcFile, RunFileKind, write_columns};
use fisca_command_line::TableForm;
use fisca_evaluator::{Evaluator, IndexRecall};
use fisca_forms::LineForm;
use fisca_grid_run::{begin_table, read_tree, unanswered};
use fisca_model::EvalFault;
use fisca_params::SourceFile;
use fisca_rule_files::{Refusal, rules_of};
use fisca_rules::RuleSet;
use fisca_run::first_name;
use fisca_simulation::rule_sets_are_safe;
use fisca_situations::Situation;
use fisca_writer::{RowSink, RunFault};
use std::alloc::{AllocError, Global};

/// What a text asks for under a rule set.
pub(crate) fn read_file(alloc: Global, rules: &RuleSet<'_>, text: &str) -> Result<CalcFile, Refusal>
    ensures ok { IfOk result (λ file. IsAsked rules.now text.now (calc file)) }
    ensures err { IfErr result (RefusesText rules.now text.now) }
{
    let tree = read_tree(alloc, text)?;
    match CalcFile::read(alloc, &rules.tables, &tree) {
        Ok(file) => Ok(file),
        Err(fault) if fault.kind == RunFileKind::Memory => Err(Refusal::Memory),
        Err(fault) => Err(Refusal::RunFile(fault)),
    }
}

/// The refusal of a column that has no value, with the text of the key that its fault is told of.
pub(crate) fn tell(
    alloc: Global,
    rules: &RuleSet<'_>,
    situation: &Situation,
    fault: EvalFault,
) -> Refusal
    ensures { IsKeyTold rules.now (situation_view situation.now).members fault result }
{
    match unanswered(alloc, rules, situation, &fault) {
        Ok(unanswered) => Refusal::Eval(unanswered),
        Err(_) => Refusal::Memory,
    }
}

/// A form that is not plain.
fn shown_of(form: &LineForm) -> Option<&LineForm>
    ensures { option_map (λ form. form.now) result ≡ shown_form form.now }
{
    if form.is_plain() { None } else { Some(form) }
}

/// Writes the lines of the columns that a file asks for under a rule set, in a form, each behind this number, if there is one.
pub(crate) fn write_values<S: RowSink>(
    alloc: Global,
    rules: &RuleSet<'_>,
    file: CalcFile,
    form: &LineForm,
    lead: Option<u64>,
    sink: &mut S,
) -> Result<(), Refusal>
    requires { IsReady (simulation_of (record { rules = rules.now; asked = calc file })) }
    ensures answer { IsCalculated (record { rules = rules.now; asked = calc file }) (shown_form form.now) lead (S.taken sink.old) (S.taken sink.new) result }
    ensures failures { CountsFailure (is_write result) (S.failures sink.old) (S.failures sink.new) }
{
    let CalcFile { situation, columns } = file;
    let recall = IndexRecall::new(alloc);
    let evaluator = Evaluator::new(alloc, rules, &[], &[], situation, recall);
    let (tables, shown) = (&rules.tables, shown_of(form));
    let columns = columns.as_slice();
    let (evaluator, end) = write_columns(alloc, tables, shown, lead, columns, evaluator, sink);
    match end {
        Ok(_) => Ok(()),
        Err(RunFault::Eval { fault, .. }) => {
            Err(tell(alloc, rules, evaluator.situation(), fault))
        }
        Err(RunFault::Write { .. }) => Err(Refusal::Write),
        Err(RunFault::Memory { .. }) => Err(Refusal::Memory),
        Err(RunFault::BadPosition) => unreachable!(),
    }
}

/// The names of the cells, behind a first one, if it is given.
pub(crate) fn calc_names(alloc: Global, first: Option<&str>) -> Result<Vec<String>, AllocError>
    ensures { IfOk result (λ names. map (λ name. string_bytes name) names.items ≡ named_first (option_map (λ t. t.now) first.entry) calc_names) }
{
    let mut names = first_name(alloc, first)?;
    names.push(String::from_str(alloc, "variable")?)?;
    names.push(String::from_str(alloc, "member")?)?;
    names.push(String::from_str(alloc, "period")?)?;
    names.push(String::from_str(alloc, "value")?)?;
    Ok(names)
}

/// Works out the columns of a file under a rule set, in order, and writes one line for each: the variable, the member's name, the period
/// and the value, with tabs between them, or these as cells of the form that is asked for, behind a line with their names where it is asked
/// for. The text is a map of `period`, `input` and `columns`, as of [`CalcFile::read`].
///
/// The first refusal in this order is told, and nothing is written before the columns:
///
/// - `TooManyFiles`, `Params` and `Formula` as of `check_rules`: the files make no rule set.
/// - `Yaml` exactly where the text has no tree, with the line and the kind that `fisca_yaml::read` tells.
/// - `RunFile` exactly where the tree is no such file under the rule set, with the line and the kind of its first fault.
/// - `Eval` exactly where a column has no value: the fault of the first such column, and the text of the key that the fault names, with single
///   spaces. The sink has the lines of the columns before it.
/// - `Write` only where the sink failed in this call: it has a proper beginning of the line of the names, or that line, the lines of the columns
///   before one, and a proper beginning of the line there.
/// - `Memory` only where memory was refused: the sink has the lines of some of the first columns, each whole.
///
/// The values are those of OpenFisca's rules by exact fractions; the file and the lines are this project's own.
pub fn calc_rules<S: RowSink>(
    alloc: Global,
    files: &[SourceFile],
    text: &str,
    form: TableForm,
    sink: &mut S,
) -> Result<(), Refusal>
    ensures answer { IsCalc files.now text.now form (S.taken sink.old) (S.taken sink.new) result }
    ensures failures { CountsFailure (is_write result) (S.failures sink.old) (S.failures sink.new) }
{
    let rules = rules_of(alloc, files)?;
    let file = read_file(alloc, &rules, text)?;
    rule_sets_are_safe();
    calc_inputs_fit();
    let names = calc_names(alloc, None)?;
    let form = begin_table(alloc, form, names, sink)?;
    write_values(alloc, &rules, file, &form, None, sink)
}
