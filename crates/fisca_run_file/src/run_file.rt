//! Files of `fisca run`.

ghost use Rattle.std.specs.Prelude.{◌≡◌, Ok, IfOk, length, map};
ghost use Rattle.fisca_columns.specs.Outcomes.{Tells};
ghost use Rattle.fisca_inputs.specs.Steps.Overlaps.{overlaps as overlaps_spec};
ghost use Rattle.fisca_run_file.specs.Steps.Marks.{wheels_of as wheels_spec};
ghost use Rattle.fisca_run_file.specs.Positions.{IsBeginning};
ghost use Rattle.fisca_run_file.specs.RunFiles as spec;
ghost use Rattle.fisca_run_file.specs.Steps.RunFiles as steps;
ghost use Rattle.fisca_run_file.specs.Steps.Slots.{slots_of as slots_spec};
ghost use Rattle.fisca_run_file.specs.Views.{movement as movement_view, run_file as run_file_view, base_situation as base_situation_view};
ghost use Rattle.fisca_situations.specs.Views.{slot_list};
ghost use Rattle.fisca_situations.specs.Steps.Views.{situation as situation_view};
ghost use Rattle.fisca_yaml.specs.Views.{node};

use crate::base_situation::{BaseSituation, base_situation_in};
use crate::file::{Movement, RunFile, RunRequest, RunStart};
use crate::keys::check_file;
use crate::marks::wheels_of;
use crate::movement::movement_in;
use crate::slots::slots_of;
use fisca_columns::{RunFileFault, columns_in};
use fisca_inputs::overlaps;
use fisca_rows::conditions_in;
use fisca_situations::Situation;
use fisca_symbols::Tables;
use fisca_time::Period;
use fisca_yaml::Tree;
use std::alloc::{AllocError, Global};

/// The columns and the conditions of the file.
#[tactic(auto, unfolding(crate::specs::RunFiles::asked_of))]
fn asked_of(
    alloc: Global,
    tables: &Tables<'_>,
    tree: &Tree<'_>,
    base_situation: BaseSituation,
    movement: Movement,
) -> Result<RunFile, RunFileFault>
    requires inputs { steps.inputs_by tables.now (base_situation_view base_situation) movement.moved ≡ Ok movement.inputs }
    ensures file { Tells run_file_view (spec.asked_of tables.now (node tree.now) (base_situation_view base_situation) (movement_view movement)) result }
    ensures begins { IfOk result (λ f. IsBeginning tables.now (run_file_view f) (situation_view f.situation)) }
{
    let BaseSituation {
        members,
        given,
        neutral,
    } = base_situation;
    let Movement {
        axes,
        lengths,
        moved,
        inputs,
    } = movement;
    let situation = Situation { members, inputs };
    let columns = columns_in(alloc, tables, &situation, tree)?;
    let conditions = conditions_in(alloc, tables, &situation, tree)?;
    Ok(RunFile {
        situation,
        request: RunRequest {
            given,
            neutral,
            axes,
            lengths,
            moved,
            columns,
            conditions,
        },
    })
}

/// The file of this situation.
#[tactic(auto, unfolding(crate::specs::RunFiles::run_file_by))]
fn run_file_by(
    alloc: Global,
    tables: &Tables<'_>,
    tree: &Tree<'_>,
    base_situation: BaseSituation,
) -> Result<RunFile, RunFileFault>
    ensures file { Tells run_file_view (spec.run_file_by tables.now (node tree.now) (base_situation_view base_situation)) result }
    ensures begins { IfOk result (λ f. IsBeginning tables.now (run_file_view f) (situation_view f.situation)) }
{
    let movement = movement_in(alloc, tables, &base_situation, tree)?;
    asked_of(alloc, tables, tree, base_situation, movement)
}

impl RunFile {
    /// What a file of `fisca run` says: a map of `axes`, and perhaps `period`, `input`, `filter`, `columns` and `neutralize`.
    ///
    /// `axes` is a list of groups, each a list of axes, each a map of `name`, `count`, `min`, `max`, and perhaps `period` and `index`. Columns,
    /// conditions and names to neutralise are one scalar or a list of scalars. Values, axes, columns and conditions without a period have that
    /// of the file.
    ///
    /// Else its first fault, in this order:
    ///
    /// - `BadKey` of the first key that is none of these, or has something else, at its line; of a group or an axis of another shape at the line
    ///   of `axes`; of a key that is missing, behind those that are there, and of what is no map, at line 1;
    /// - `BadNeutral` of the first name that is no variable's, or that of a day or a text, at its line;
    /// - `Situation` where the input is none, as `Situation::read` tells;
    /// - `Axes`: the faults of `Axes::build` in their order, then of each axis `UnknownVariable` where its variable is not there or has no
    ///   numbers, `BadIndex` where there is no such member, and `PeriodMismatch` where the variable is given no values for the period; then
    ///   `AxisOverlap` of the first axis that moves what an earlier one does, or what an input says for another period that shares a day with
    ///   its own. The line is that of the axis's item, and for `NoAxes` and `TooLarge` that of `axes`;
    /// - `Situation` at the line of `axes`, where the inputs with those of the axes are refused, as when they are too many;
    /// - `BadColumn` of the first column that `read_column` refuses, at its line;
    /// - `BadCondition` of the first condition that `read_condition` refuses, at its line.
    ///
    /// `Memory`, at line 0, comes only where a growth was refused. This project's own rule.
    #[tactic(auto, unfolding(crate::specs::RunFiles::run_file_of))]
    pub fn read(
        alloc: Global,
        tables: &Tables<'_>,
        tree: &Tree<'_>,
    ) -> Result<RunFile, RunFileFault>
        ensures file { Tells run_file_view (spec.run_file_of tables.now (node tree.now)) result }
        ensures begins { IfOk result (λ f. IsBeginning tables.now (run_file_view f) (situation_view f.situation)) }
    {
        check_file(alloc, tree)?;
        let base_situation = base_situation_in(alloc, tables, tree)?;
        run_file_by(alloc, tables, tree, base_situation)
    }

    /// What a run of the file begins with. `AllocError` only where memory was refused. This project's own rule.
    pub fn start(self, alloc: Global, tables: &Tables<'_>) -> Result<RunStart, AllocError>
        ensures situation { IfOk result (λ s. situation_view s.situation ≡ situation_view self.situation) }
        ensures request { IfOk result (λ s. s.request ≡ self.request) }
        ensures slots { IfOk result (λ s. slot_list s.slots.items ≡ slots_spec tables.now (run_file_view self)) }
        ensures wheels { IfOk result (λ s. s.wheels.items ≡ wheels_spec (length tables.now.variables) (slots_spec tables.now (run_file_view self))) }
    {
        let slots = slots_of(alloc, tables, &self)?;
        let count = tables.variables.as_slice().len();
        let wheels = wheels_of(alloc, count, slots.as_slice())?;
        let RunFile { situation, request } = self;
        Ok(RunStart {
            situation,
            slots,
            wheels,
            request,
        })
    }
}

impl RunRequest {
    /// How many axes there are in each group of the grid, of which the first turns fastest.
    pub fn lengths(&self) -> &[u32]
        ensures { result.now ≡ map length self.now.axes }
    {
        self.lengths.as_slice()
    }

    /// Whether a value is given for this variable and member, and for another period that shares a day with this one, as `overlaps` says.
    pub fn overlaps(&self, variable: usize, member: u32, period: Period) -> bool
        ensures { result ≡ overlaps_spec self.now.given variable member period }
    {
        overlaps(self.given.as_slice(), variable, member, period)
    }
}
