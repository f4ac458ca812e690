//! `fisca explain`: how the values of columns came about.

ghost use Rattle.std.specs.Prelude.{◌≡◌, ◌⊎◌, IfErr, IfOk, None, Some, map, string_bytes};
ghost use Rattle.fisca_columns.specs.Views.{calc};
ghost use Rattle.fisca_commands.specs.Calc.{simulation_of};
ghost use Rattle.fisca_columns.specs.Steps.Calc.{default_in};
ghost use Rattle.fisca_commands.specs.Explain.{IsEndIn, IsExplain, IsExplainedIn, IsExplainedOrFull, IsTextExplained, form_in, named, picked};
ghost use Rattle.fisca_explain.specs.Ends.{is_failed_write};
ghost use Rattle.fisca_explain.specs.Walks.{explaining_by};
ghost use Rattle.fisca_simulation.specs.Told.{IsReady};
ghost use Rattle.fisca_rule_files.specs.Refusal.{is_write};
ghost use Rattle.fisca_rule_files.specs.RuleFiles.{IsAccepted};
ghost use Rattle.fisca_rules.specs.Views.{rule_set};
ghost use Rattle.fisca_situations.specs.Steps.Views.{situation as situation_view};
ghost use Rattle.fisca_writer.specs.Sink.{CountsFailure};
ghost use Rattle.fisca_yaml.specs.Views.{node};

use super::calc::{read_file, tell};
use crate::calc_inputs_fit;
use fisca_columns::{CalcFile, default_in, read_column};
use fisca_explain::{ExplainFault, Explained, RuleFiles, explain_columns, explain_names};
use fisca_forms::{Format, LineForm};
use fisca_grid_run::read_tree;
use fisca_model::Key;
use fisca_params::SourceFile;
use fisca_rule_files::{Refusal, modules_of, rules_of};
use fisca_rules::RuleSet;
use fisca_simulation::rule_sets_are_safe;
use fisca_situations::Situation;
use fisca_time::Period;
use fisca_writer::RowSink;
use fisca_yaml::Tree;
use std::alloc::Global;

/// What is explained, and how.
#[derive(Clone, Copy, Debug)]
pub struct ExplainOptions<'a> {
    /// The columns, in place of those of the file, where some are given.
    pub columns: &'a [String],
    /// How many keys stand above one another at most, where a number is given.
    pub depth: Option<u64>,
    /// The form of lines; without one they are texts for readers.
    pub format: Option<Format>,
}

/// The keys that words name. `BadWord` where one names none.
fn keys_of(
    alloc: Global,
    rules: &RuleSet<'_>,
    situation: &Situation,
    default: &Option<Period>,
    words: &[String],
) -> Result<Vec<Key>, Refusal>
    ensures ok { IfOk result (λ keys. named rules.now situation.now default.now words.now ≡ Some keys.items) }
    ensures err { IfErr result (λ refusal. (refusal ≡ Refusal.Memory) ⊎ ((refusal ≡ Refusal.BadWord) × (named rules.now situation.now default.now words.now ≡ None))) }
{
    let mut keys = Vec::new(alloc);
    'words: for word in words {
        match read_column(&rules.tables, situation, word.as_str(), *default) {
            Some(key) => keys.push(key)?,
            None => return Err(Refusal::BadWord),
        }
    }
    Ok(keys)
}

/// The columns of a file, or those that are named, if there are any.
fn chosen<'k>(columns: &'k [Key], named: &'k [Key]) -> &'k [Key]
    ensures { result.now ≡ picked columns.now named.now }
{
    if named.is_empty() { columns } else { named }
}

/// The form that is asked for.
fn form_of(alloc: Global, format: Option<Format>) -> Result<Option<LineForm>, Refusal>
    ensures ok { IfOk result (λ form. form ≡ form_in format) }
    ensures err { IfErr result (λ refusal. refusal ≡ Refusal.Memory) }
{
    match format {
        None => Ok(None),
        Some(format) => Ok(Some(LineForm::new(format, None, explain_names(alloc)?))),
    }
}

/// How the lines of columns end.
fn ended(
    alloc: Global,
    rules: &RuleSet<'_>,
    situation: &Situation,
    end: Result<(), ExplainFault>,
) -> Result<(), Refusal>
    ensures end { IsEndIn rules.now (situation_view situation.now).members end result }
    ensures write { is_write result ≡ is_failed_write end }
{
    match end {
        Ok(()) => Ok(()),
        Err(ExplainFault::Eval(fault)) => Err(tell(alloc, rules, situation, fault)),
        Err(ExplainFault::Write) => Err(Refusal::Write),
        Err(ExplainFault::Memory) => Err(Refusal::Memory),
    }
}

/// Explains the columns of a file under a rule set, or those that are named, if there are any.
fn explain_file<'m, 'f, S: RowSink>(
    alloc: Global,
    from: RuleFiles<'m, 'f, '_>,
    tree: &'m Tree<'f>,
    file: CalcFile,
    named: &[Key],
    explained: Explained<'m>,
    sink: &mut S,
) -> Result<(), Refusal>
    requires { IsReady (simulation_of (record { rules = from.rules.now; asked = calc file })) }
    ensures answer { IsExplainedIn (record { rules = from.entry.rules.now; asked = calc file })
        (explaining_by from.entry.rules.now explained.entry (simulation_of (record { rules = from.entry.rules.now; asked = calc file })))
        (picked (calc file).columns named.now) (S.taken sink.old) (S.taken sink.new) result }
    ensures failures { CountsFailure (is_write result) (S.failures sink.old) (S.failures sink.new) }
{
    let CalcFile { situation, columns } = file;
    let keys = chosen(columns.as_slice(), named);
    let (evaluator, end) = explain_columns(alloc, from, tree, situation, keys, explained, sink);
    ended(alloc, from.rules, evaluator.situation(), end)
}

/// Explains the columns of a file that was read, or those that words name, if there are any.
fn explain_named<'m, 'f, S: RowSink>(
    alloc: Global,
    from: RuleFiles<'m, 'f, '_>,
    tree: &'m Tree<'f>,
    file: CalcFile,
    options: &ExplainOptions<'_>,
    sink: &mut S,
) -> Result<(), Refusal>
    requires { IsReady (simulation_of (record { rules = from.rules.now; asked = calc file })) }
    ensures answer { IsExplainedOrFull (record { rules = from.entry.rules.now; asked = calc file }) (default_in (node tree.now)) (map (λ word. string_bytes word) options.now.columns.now) options.now.depth options.now.format (S.taken sink.old) (S.taken sink.new) result }
    ensures failures { CountsFailure (is_write result) (S.failures sink.old) (S.failures sink.new) }
{
    let (rules, words) = (from.rules, options.columns);
    let default = default_in(tree);
    let named = keys_of(alloc, rules, &file.situation, &default, words)?;
    let form = form_of(alloc, options.format)?;
    let (depth, form) = (options.depth, form.as_ref());
    let explained = Explained { depth, form };
    explain_file(alloc, from, tree, file, named.as_slice(), explained, sink)
}

/// Explains the columns of the file of this text under a rule set, or those that words name, if there are any.
fn explain_text<'m, 'f, S: RowSink>(
    alloc: Global,
    from: RuleFiles<'m, 'f, '_>,
    text: &'f str,
    options: &ExplainOptions<'_>,
    sink: &mut S,
) -> Result<(), Refusal>
    requires { IsAccepted from.files.now (rule_set from.rules.now) }
    ensures answer { IsTextExplained from.entry.rules.now text.now (map (λ word. string_bytes word) options.now.columns.now) options.now.depth options.now.format (S.taken sink.old) (S.taken sink.new) result }
    ensures failures { CountsFailure (is_write result) (S.failures sink.old) (S.failures sink.new) }
{
    let file = read_file(alloc, from.rules, text)?;
    let tree = read_tree(alloc, text)?;
    rule_sets_are_safe();
    calc_inputs_fit();
    explain_named(alloc, from, &tree, file, options, sink)
}

/// Explains the columns of a file under a rule set, or those that words name, one after another: a line for each key, with its value and where that
/// came from, and below it, in the order in which its formula needs them, each key that it asks for and each parameter that it reads. A key whose
/// formula was followed above is named alone.
///
/// The first refusal in this order is told, and nothing is written before the first column:
///
/// - as of `calc_rules`, where the files make no rule set, the text has no tree, or the tree is no such file.
/// - `BadWord` where a word names no column.
/// - `Eval` where a column has no value, behind the lines that explain it up to its fault.
/// - `Write` only where the sink failed in this call.
/// - `Memory` only where memory was refused.
///
/// This project's own rule.
pub fn explain_rules<'x, S: RowSink>(
    alloc: Global,
    files: &'x [SourceFile],
    text: &'x str,
    options: &ExplainOptions<'_>,
    sink: &mut S,
) -> Result<(), Refusal>
    ensures answer { IsExplain files.now text.now (map (λ word. string_bytes word) options.now.columns.now) options.now.depth options.now.format (S.taken sink.old) (S.taken sink.new) result }
    ensures failures { CountsFailure (is_write result) (S.failures sink.old) (S.failures sink.new) }
{
    let rules = rules_of(alloc, files)?;
    let modules = modules_of(alloc, files)?;
    let from = RuleFiles {
        files,
        modules: modules.as_slice(),
        rules: &rules,
    };
    explain_text(alloc, from, text, options, sink)
}
