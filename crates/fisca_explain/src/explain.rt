//! The columns of a file, explained.

ghost use Rattle.std.specs.Prelude.{◌≡◌, [], List, Err, OnOk, map};
ghost use Rattle.fisca_evaluator.specs.Evaluators.{CanAnswer, marks_in, simulation_of, work_in};
ghost use Rattle.fisca_explain.specs.Columns.{HasValue, IsExplained, column_told};
ghost use Rattle.fisca_explain.specs.Ends.{is_failed_write, is_write};
ghost use Rattle.fisca_explain.specs.Followed.{HasJust};
ghost use Rattle.fisca_explain.specs.Walks.{CanWalk, IsColumnTold, explaining, explaining_by};
ghost use Rattle.fisca_memo_theory.specs.Entries.{Remembered};
ghost use Rattle.fisca_model.specs.Seen.{key_seen};
ghost use Rattle.fisca_model.specs.Values as meaning;
ghost use Rattle.fisca_model.specs.declared.eval_fault.EvalFault.{EvalFault as Fault};
ghost use Rattle.fisca_rules.specs.Views.{rule_set};
ghost use Rattle.fisca_simulation.specs.Told.{IsReady, told_in};
ghost use Rattle.fisca_situations.specs.Steps.Views.{situation as situation_view};
ghost use Rattle.fisca_writer.specs.Sink.{CountsFailure};

use crate::keys::Followed;
use crate::stated::StatedInputs;
use crate::view::View;
use crate::walk::{LinesFault, Walk};
use fisca_columns::default_in;
use fisca_evaluator::{Evaluator, IndexRecall, Recall};
use fisca_forms::LineForm;
use fisca_model::{EvalFault, Key};
use fisca_params::SourceFile;
use fisca_rule_files::{ParameterPlaces, file_trees};
use fisca_rules::RuleSet;
use fisca_simulation::own_key;
use fisca_situations::Situation;
use fisca_writer::RowSink;
use fisca_yaml::Tree;
use std::alloc::{AllocError, Global};

/// How values are explained.
#[derive(Clone, Copy)]
pub struct Explained<'v> {
    /// How many keys stand above one another at most, where a number is given.
    pub depth: Option<u64>,
    /// The form of lines; without one they are texts for readers.
    pub form: Option<&'v LineForm>,
}

/// Why no more columns are explained.
#[derive(Clone, Copy, Debug, PartialEq, Eq)]
pub enum ExplainFault {
    /// A column has no value.
    Eval(EvalFault),
    /// The sink failed.
    Write,
    /// Memory was refused.
    Memory,
}

impl From<AllocError> for ExplainFault {
    ghost use Rattle.std.specs.Prelude.{◌≡◌};
    ghost use Rattle.fisca_explain.specs.declared.explain.ExplainFault.TheVariants.{Memory};

    ghost from_gives = { λ _ fault. fault ≡ Memory };

    fn from(_error: AllocError) -> ExplainFault {
        ExplainFault::Memory
    }
}

impl From<LinesFault> for ExplainFault {
    ghost use Rattle.std.specs.Prelude.{◌≡◌, Err};
    ghost use Rattle.fisca_explain.specs.Ends.{IsOfLines, is_failed_write, is_write};

    ghost from_gives = { λ fault end. (is_failed_write {X = Unit} (Err end) ≡ is_write {X = Unit} (Err fault)) × IsOfLines end };

    fn from(fault: LinesFault) -> ExplainFault {
        match fault {
            LinesFault::Write => ExplainFault::Write,
            LinesFault::Memory => ExplainFault::Memory,
        }
    }
}

/// The input of a file.
fn input_of<'t, 'a>(tree: &'t Tree<'a>) -> &'t Tree<'a> {
    tree.get("input").unwrap_or(tree)
}

/// Writes the lines that explain a column that was worked out, and that has no value for this reason, if it has none.
fn write_column<'x, R: Recall, S: RowSink>(
    view: &'x View<'_, '_, '_, '_>,
    evaluator: &'x Evaluator<'_, '_, R>,
    followed: &mut Followed,
    key: &Key,
    fault: &EvalFault,
    sink: &mut S,
) -> Result<(), LinesFault>
    requires walk { CanWalk (R.find evaluator.now.store.recall) (simulation_of evaluator.now) }
    requires view { simulation_of evaluator.now ≡ record { rules = rule_set view.now.rules.now; situation = (simulation_of evaluator.now).situation; neutral = [] } }
    requires work { (k : meaning.Key) → work_in evaluator.now key.now k → Remembered (R.find evaluator.now.store.recall) k }
    ensures lines { OnOk result ((before : List meaning.Key) → HasJust before followed.old
        → IsColumnTold (explaining view.now (simulation_of evaluator.now)) fault.now before (key_seen key.now) (S.taken sink.old) (S.taken sink.new)
        × HasJust (column_told (explaining view.now (simulation_of evaluator.now)) before (key_seen key.now)).followed followed.new) }
    ensures failures { CountsFailure (is_write result) (S.failures sink.old) (S.failures sink.new) }
{
    let own = own_key(view.rules, *key);
    let walk = Walk {
        view,
        situation: evaluator.situation(),
        recall: evaluator.recall(),
        fault: *fault,
    };
    walk.explain(0, &own, followed, sink)
}

/// Works a column out, and writes the lines that explain it. `Eval` behind these where it has no value.
fn explain_column<R: Recall, S: RowSink>(
    view: &View<'_, '_, '_, '_>,
    evaluator: &mut Evaluator<'_, '_, R>,
    followed: &mut Followed,
    key: &Key,
    sink: &mut S,
) -> Result<(), ExplainFault>
    requires ready { CanAnswer (marks_in evaluator.old) (simulation_of evaluator.old) (R.find evaluator.old.store.recall) evaluator.old.store.counts.free }
    requires view { simulation_of evaluator.old ≡ record { rules = rule_set view.now.rules.now; situation = (simulation_of evaluator.old).situation; neutral = [] } }
    ensures failures { CountsFailure (is_failed_write result) (S.failures sink.old) (S.failures sink.new) }
    ensures ready { CanAnswer (marks_in evaluator.new) (simulation_of evaluator.new) (R.find evaluator.new.store.recall) evaluator.new.store.counts.free }
    ensures same { simulation_of evaluator.new ≡ simulation_of evaluator.old }
    ensures value { OnOk result (HasValue (explaining view.now (simulation_of evaluator.old)) (key_seen key.now)) }
    ensures lines { OnOk result ((before : List meaning.Key) → HasJust before followed.old
        → IsColumnTold (explaining view.now (simulation_of evaluator.old)) EvalFault.Memory before (key_seen key.now) (S.taken sink.old) (S.taken sink.new)
        × HasJust (column_told (explaining view.now (simulation_of evaluator.old)) before (key_seen key.now)).followed followed.new) }
    ensures fault { (f : Fault) → result ≡ Err (ExplainFault.Eval f) → (told_in (simulation_of evaluator.old) key.now ≡ Err f)
        × ((before : List meaning.Key) → HasJust before followed.old
        → IsColumnTold (explaining view.now (simulation_of evaluator.old)) f before (key_seen key.now) (S.taken sink.old) (S.taken sink.new)) }
{
    match evaluator.value(*key) {
        Ok(_) => {
            write_column(view, evaluator, followed, key, &EvalFault::Memory, sink)?;
            Ok(())
        }
        Err(fault) => match fault {
            EvalFault::Memory => Err(ExplainFault::Memory),
            _ => {
                write_column(view, evaluator, followed, key, &fault, sink)?;
                Err(ExplainFault::Eval(fault))
            }
        },
    }
}

/// Explains columns, one after another.
fn explain_all<R: Recall, S: RowSink>(
    view: &View<'_, '_, '_, '_>,
    evaluator: &mut Evaluator<'_, '_, R>,
    columns: &[Key],
    sink: &mut S,
) -> Result<(), ExplainFault>
    requires ready { CanAnswer (marks_in evaluator.old) (simulation_of evaluator.old) (R.find evaluator.old.store.recall) evaluator.old.store.counts.free }
    requires view { simulation_of evaluator.old ≡ record { rules = rule_set view.now.rules.now; situation = (simulation_of evaluator.old).situation; neutral = [] } }
    ensures failures { CountsFailure (is_failed_write result) (S.failures sink.old) (S.failures sink.new) }
    ensures ready { CanAnswer (marks_in evaluator.new) (simulation_of evaluator.new) (R.find evaluator.new.store.recall) evaluator.new.store.counts.free }
    ensures same { simulation_of evaluator.new ≡ simulation_of evaluator.old }
    ensures lines { IsExplained (explaining view.now (simulation_of evaluator.old)) (map key_seen columns.now) (S.taken sink.old) (S.taken sink.new) result }
{
    let mut followed = Followed::new(view.alloc);
    'columns: for key in columns {
        explain_column(view, evaluator, &mut followed, key, sink)?;
    }
    Ok(())
}

/// A rule set with the files that it was made of.
#[derive(Clone, Copy)]
pub struct RuleFiles<'m, 'f, 'r> {
    /// The files.
    pub files: &'f [SourceFile],
    /// Its modules among them, in order of their paths.
    pub modules: &'m [&'f SourceFile],
    /// The rule set.
    pub rules: &'r RuleSet<'f>,
}

/// Writes the lines that explain columns of a file, whose tree and situation these are, under a rule set, one after another: each key with its value and what that comes from, and
/// below it what its formula asked for and read, in order. A key whose formula was followed before is named alone. The evaluator is given back, with
/// the situation.
///
/// - `Eval` where a column has no value: the first such column, behind the lines that explain it.
/// - `Write` only where the sink failed in this call.
/// - `Memory` only where memory was refused.
///
/// This project's own rule.
pub fn explain_columns<'m, 'f, 'r, S: RowSink>(
    alloc: Global,
    from: RuleFiles<'m, 'f, 'r>,
    tree: &'m Tree<'f>,
    situation: Situation,
    columns: &[Key],
    explained: Explained<'m>,
    sink: &mut S,
) -> (Evaluator<'r, 'f, IndexRecall>, Result<(), ExplainFault>)
    requires ready { IsReady (record { rules = rule_set from.rules.now; situation = situation_view situation; neutral = [] }) }
    ensures failures { CountsFailure (is_failed_write result.1) (S.failures sink.old) (S.failures sink.new) }
    ensures same { simulation_of result.0 ≡ record { rules = rule_set from.entry.rules.now; situation = situation_view situation; neutral = [] } }
    ensures lines { IsExplained (explaining_by from.entry.rules.now explained.entry (record { rules = rule_set from.entry.rules.now; situation = situation_view situation; neutral = [] })) (map key_seen columns.now) (S.taken sink.old) (S.taken sink.new) result.1 }
{
    let recall = IndexRecall::new(alloc);
    let mut evaluator = Evaluator::new(alloc, from.rules, &[], &[], situation, recall);
    let Ok(trees) = file_trees(alloc, from.files) else {
        return (evaluator, Err(ExplainFault::Memory));
    };
    let made = ParameterPlaces::of(alloc, from.rules.parameters(), trees.as_slice());
    let Ok(parameters) = made else {
        return (evaluator, Err(ExplainFault::Memory));
    };
    let view = View {
        alloc,
        rules: from.rules,
        modules: from.modules,
        parameters,
        stated: StatedInputs {
            tree: input_of(tree),
            default: default_in(tree),
        },
        depth: explained.depth,
        form: explained.form,
    };
    let end = explain_all(&view, &mut evaluator, columns, sink);
    (evaluator, end)
}
