//! The evaluator with which a run begins.

ghost use Rattle.std.specs.Prelude.{◌≡◌, None, length};
ghost use Rattle.fisca_model.specs.Values as meaning;
ghost use Rattle.fisca_evaluator.specs.Evaluators.{IsMemoryOf, marks_in, simulation_of};
ghost use Rattle.fisca_evaluator.specs.Recalled.{marks_of};
ghost use Rattle.fisca_evaluator.specs.Counted.{no_counts};
ghost use Rattle.fisca_grid_run.specs.Kept.{IsKept, IsRunFile};
ghost use Rattle.fisca_run_file.specs.Steps.Marks.{wheels_of};
ghost use Rattle.fisca_run_file.specs.Positions.{IsBeginning};
ghost use Rattle.fisca_run_file.specs.Steps.Slots.{slots_of};
ghost use Rattle.fisca_run_file.specs.Views.{file_with};
ghost use Rattle.fisca_situations.specs.Steps.Views.{situation as situation_view};
ghost use Rattle.fisca_situations.specs.Views.{slot_list};

use fisca_evaluator::{Evaluator, Recall};
use fisca_rules::RuleSet;
use fisca_run_file::RunRequest;
use fisca_situations::{Situation, Slot};
use std::alloc::Global;

/// An evaluator that can be handed in to [`run_with`](crate::run_with), with a memory that holds nothing: its situation, the wheels and the slots are
/// those with which a run of the file begins, as [`RunFile::start`](fisca_run_file::RunFile::start) answers them. It has counted nothing. This
/// project's own rule.
pub fn evaluator_of<'r, 't, R: Recall>(
    alloc: Global,
    rules: &'r RuleSet<'t>,
    request: &'r RunRequest,
    slots: &[Slot],
    wheels: &'r [u16],
    situation: Situation,
    recall: R,
) -> Evaluator<'r, 't, R>
    requires empty { (k : meaning.Key) → R.find recall k ≡ None }
    requires accepted { IsRunFile rules.now (file_with (situation_view situation).members request.now) }
    requires situation { IsBeginning rules.now.tables (file_with (situation_view situation).members request.now) (situation_view situation) }
    requires slots { slot_list slots.now ≡ slots_of rules.now.tables (file_with (situation_view situation).members request.now) }
    requires wheels { wheels.now ≡ wheels_of (length rules.now.tables.variables) (slots_of rules.now.tables (file_with (situation_view situation).members request.now)) }
    ensures situation { (simulation_of result).situation ≡ situation_view situation }
    ensures kept { IsKept rules.now (file_with (situation_view situation).members request.now) slots.now None (marks_in result) (simulation_of result) (R.find result.store.recall) result.store.counts.free }
    ensures wheels { marks_in result ≡ marks_of wheels.now }
    ensures memory { IsMemoryOf (marks_in result) (simulation_of result) (R.find result.store.recall) result.store.counts.free }
    ensures counts { result.store.counts ≡ no_counts }
{
    let neutral = request.neutral.as_slice();
    Evaluator::new(alloc, rules, neutral, wheels, situation, recall)
}
