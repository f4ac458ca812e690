//! Readers and texts that take a rule set.

ghost use Rattle.std.specs.Prelude.{◌≡◌, codes, IfOk, string_bytes};
ghost use Rattle.fisca_api.specs.Views.{situation as situation_view};
ghost use Rattle.fisca_columns.specs.Calc.{calc_of};
ghost use Rattle.fisca_columns.specs.Columns.{column_of};
ghost use Rattle.fisca_columns.specs.Outcomes as files;
ghost use Rattle.fisca_columns.specs.Texts as texts;
ghost use Rattle.fisca_columns.specs.Views.{calc as calc_view};
ghost use Rattle.fisca_grid_run.specs.Kept.{IsRunFile};
ghost use Rattle.fisca_expected.specs.Outcomes as expected;
ghost use Rattle.fisca_expected.specs.Steps.Reading.{outputs_of};
ghost use Rattle.fisca_rules.specs.Views.{rule_set};
ghost use Rattle.fisca_run_file.specs.Positions.{IsBeginning};
ghost use Rattle.fisca_run_file.specs.RunFiles.{run_file_of};
ghost use Rattle.fisca_run_file.specs.Views.{run_file as run_file_view};
ghost use Rattle.fisca_simulation.specs.Sound.{InputsFit, IsSafeRules};
ghost use Rattle.fisca_situations.specs.Steps.Views.{situation as shared_view};
ghost use Rattle.fisca_symbols.specs.Known.{tables as known};
ghost use Rattle.fisca_yaml.specs.Views.{node};

use crate::formula::VarId;
use crate::situation::Situation;
use fisca_columns::{CalcFile, RunFileFault};
use fisca_commands::calc_inputs_fit;
use fisca_expected::{OutputFault, Outputs};
use fisca_model::{Key, Value};
use fisca_rules::RuleSet;
use fisca_run_file::RunFile;
use fisca_time::Period;
use fisca_yaml::Tree;
use std::alloc::{AllocError, Global};

/// The text of a key: the name of its variable, the name of its member and its period, with single spaces between them, as
/// `salary Ann 2017-01`. `AllocError` only where memory was refused.
pub fn key_text(
    alloc: Global,
    rules: &RuleSet<'_>,
    situation: &Situation,
    key: &Key,
) -> Result<String, AllocError>
    ensures { IfOk result (λ text. string_bytes text ≡ texts.key_text (codes " ") (known rules.now.tables) (situation_view situation.now).shared.members key.now) }
{
    fisca_columns::key_text(alloc, &rules.tables, &situation.shared, key)
}

/// The text of a value of a variable: that of a number, `true` or `false`, or the name of the member of its Enum. `AllocError` only where memory was
/// refused.
pub fn value_text(
    alloc: Global,
    rules: &RuleSet<'_>,
    variable: VarId,
    value: Value,
) -> Result<String, AllocError>
    ensures { IfOk result (λ text. string_bytes text ≡ texts.value_text (known rules.now.tables) variable value) }
{
    fisca_columns::value_text(alloc, &rules.tables, variable, value)
}

/// The key that a column names, as [`fisca_columns::read_column`] tells: `NAME`, `NAME#INDEX`, `NAME@PERIOD` or `NAME#INDEX@PERIOD`; `None` where it
/// names none. It takes no memory. This project's own rule.
pub fn read_column(
    rules: &RuleSet<'_>,
    situation: &Situation,
    text: &str,
    default: Option<Period>,
) -> Option<Key>
    ensures { result ≡ column_of (known rules.now.tables) (situation_view situation.now).shared.members default text.now }
{
    fisca_columns::read_column(&rules.tables, &situation.shared, text, default)
}

/// The outputs that a test expects in a situation, as [`fisca_expected::read_outputs`] tells. A fault that no line names is told of line 1.
/// (OpenFisca's tests in YAML; the order of faults is this project's own.)
pub fn read_outputs(
    alloc: Global,
    rules: &RuleSet<'_>,
    situation: &Situation,
    tree: &Tree<'_>,
    default: Option<Period>,
) -> Result<Outputs, OutputFault>
    ensures { expected.Tells (λ o. o) (outputs_of rules.now.tables (situation_view situation.now).shared.members default 1 (node tree.now)) result }
{
    fisca_expected::read_outputs(alloc, &rules.tables, &situation.shared, default, 1, tree)
}

/// What a file of `fisca calc` says under a rule set, or its first fault, as [`CalcFile::read`] tells. Under a rule set that was built its inputs are
/// of the types of their variables.
pub fn read_calc_file(
    alloc: Global,
    rules: &RuleSet<'_>,
    tree: &Tree<'_>,
) -> Result<CalcFile, RunFileFault>
    ensures file { files.Tells calc_view (calc_of rules.now.tables (node tree.now)) result }
    ensures fit { IfOk result (λ file. IsSafeRules (rule_set rules.now) → InputsFit (rule_set rules.now) (calc_view file).situation) }
{
    calc_inputs_fit();
    CalcFile::read(alloc, &rules.tables, tree)
}

/// What a file of `fisca run` says under a rule set, or its first fault, as [`RunFile::read`] tells. Under a rule set that was built it is one that
/// [`run_grid`](crate::grid::run_grid) takes.
pub fn read_run_file(
    alloc: Global,
    rules: &RuleSet<'_>,
    tree: &Tree<'_>,
) -> Result<RunFile, RunFileFault>
    ensures file { files.Tells run_file_view (run_file_of rules.now.tables (node tree.now)) result }
    ensures begins { IfOk result (λ file. IsBeginning rules.now.tables (run_file_view file) (shared_view file.situation)) }
    ensures accepted { IfOk result (λ file. IsSafeRules (rule_set rules.now) → IsRunFile rules.now (run_file_view file)) }
{
    RunFile::read(alloc, &rules.tables, tree)
}
