//! The axes of a run file, and what they move.

ghost use Rattle.std.specs.Prelude.{◌≡◌, Ok, IfOk};
ghost use Rattle.fisca_columns.specs.Outcomes.{Tells};
ghost use Rattle.fisca_run_file.specs.RunFiles as spec;
ghost use Rattle.fisca_run_file.specs.Steps.RunFiles as steps;
ghost use Rattle.fisca_run_file.specs.Views.{movement as movement_view, said_axes as said_axes_view, said_list, base_situation as base_situation_view};
ghost use Rattle.fisca_yaml.specs.Views.{node};

use crate::base_situation::BaseSituation;
use crate::file::Movement;
use crate::grids::grid_of;
use crate::moved::{MovedInputs, all_moved, check_apart};
use crate::said::SaidAxes;
use crate::said_axes::axes_said;
use crate::said_axis::SaidAxis;
use crate::sharing::shared_with;
use fisca_columns::{RunFileFault, default_in};
use fisca_inputs::Inputs;
use fisca_symbols::Tables;
use fisca_time::Period;
use fisca_yaml::Tree;
use std::alloc::Global;

/// The inputs that the axes move, each fault of an axis at its line, and all inputs with these.
#[tactic(auto, unfolding(crate::specs::RunFiles::moved_in))]
fn moved_in(
    alloc: Global,
    tables: &Tables<'_>,
    key: usize,
    default: Option<Period>,
    base_situation: &BaseSituation,
    axes: &[SaidAxis],
) -> Result<(MovedInputs, Inputs), RunFileFault>
    ensures moved { Tells (λ m. m.0) (spec.moved_in tables.now key default (base_situation_view base_situation.now) (said_list axes.now)) result }
    ensures inputs { IfOk result (λ m. steps.inputs_by tables.now (base_situation_view base_situation.now) m.0 ≡ Ok m.1) }
{
    let moved = all_moved(alloc, tables, &base_situation.members, &default, axes)?;
    check_apart(base_situation.given.as_slice(), moved.as_slice())?;
    let inputs = shared_with(alloc, tables, key, base_situation, moved.as_slice())?;
    Ok((moved, inputs))
}

/// The grid of the axes, the inputs that they move, and all inputs with these.
#[tactic(auto, unfolding(crate::specs::RunFiles::movement_of))]
fn movement_of(
    alloc: Global,
    tables: &Tables<'_>,
    key: usize,
    default: Option<Period>,
    base_situation: &BaseSituation,
    said: SaidAxes,
) -> Result<Movement, RunFileFault>
    ensures movement { Tells movement_view (spec.movement_of tables.now key default (base_situation_view base_situation.now) (said_axes_view said)) result }
    ensures inputs { IfOk result (λ m. steps.inputs_by tables.now (base_situation_view base_situation.now) m.moved ≡ Ok m.inputs) }
{
    let axes = grid_of(alloc, key, &said)?;
    let (moved, inputs) = moved_in(
        alloc,
        tables,
        key,
        default,
        base_situation,
        said.axes.as_slice(),
    )?;
    let SaidAxes { axes: _, lengths } = said;
    Ok(Movement {
        axes,
        lengths,
        moved,
        inputs,
    })
}

/// What stands at `axes`, whose key stands on this line.
#[tactic(auto, unfolding(crate::specs::RunFiles::movement_at))]
fn movement_at(
    alloc: Global,
    tables: &Tables<'_>,
    key: usize,
    default: Option<Period>,
    base_situation: &BaseSituation,
    tree: &Tree<'_>,
) -> Result<Movement, RunFileFault>
    ensures movement { Tells movement_view (spec.movement_at tables.now key default (base_situation_view base_situation.now) (node tree.now)) result }
    ensures inputs { IfOk result (λ m. steps.inputs_by tables.now (base_situation_view base_situation.now) m.moved ≡ Ok m.inputs) }
{
    let said = axes_said(alloc, key, tree)?;
    movement_of(alloc, tables, key, default, base_situation, said)
}

/// The axes of the file.
pub(crate) fn movement_in(
    alloc: Global,
    tables: &Tables<'_>,
    base_situation: &BaseSituation,
    tree: &Tree<'_>,
) -> Result<Movement, RunFileFault>
    ensures movement { Tells movement_view (spec.movement_in tables.now (node tree.now) (base_situation_view base_situation.now)) result }
    ensures inputs { IfOk result (λ m. steps.inputs_by tables.now (base_situation_view base_situation.now) m.moved ≡ Ok m.inputs) }
{
    let default = default_in(tree);
    match tree.entry("axes") {
        Some(entry) => {
            movement_at(
                alloc,
                tables,
                entry.line,
                default,
                base_situation,
                &entry.value,
            )
        }
        None => movement_at(alloc, tables, 1, default, base_situation, &Tree::Null),
    }
}
