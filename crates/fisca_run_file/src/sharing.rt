//! Inputs with those that axes move.

ghost use Rattle.std.specs.Prelude.{◌≡◌, [], Ok, IfOk};
ghost use Rattle.fisca_columns.specs.Outcomes.{Tells};
ghost use Rattle.fisca_run_file.specs.Moved as spec;
ghost use Rattle.fisca_run_file.specs.Steps.RunFiles as files;
ghost use Rattle.fisca_run_file.specs.Views.{base_situation as base_situation_view};
ghost use Rattle.fisca_situations.specs.AllAxes as all_axes;

use crate::base_situation::BaseSituation;
use fisca_columns::{RunFileFault, RunFileKind};
use fisca_inputs::{Given, Inputs, SituationKind};
use fisca_situations::put_in;
use fisca_symbols::Tables;
use std::alloc::{AllocError, Global};

/// The inputs with these put in.
pub(crate) fn put_all_in(
    alloc: Global,
    given: &[Given],
    moved: &[Given],
) -> Result<Vec<Given>, AllocError>
    ensures { IfOk result (λ v. v.items ≡ all_axes.put_all_in given.now moved.now) }
{
    let mut all = Vec::with_capacity(alloc, given.len())?;
    all.extend_from_slice(given)?;
    for input in moved {
        put_in(&mut all, *input)?;
    }
    Ok(all)
}

/// The inputs with those that axes move, shared, without those of neutralised variables. What refuses them is told of the line of `axes`.
pub(crate) fn shared_with(
    alloc: Global,
    tables: &Tables<'_>,
    key: usize,
    base_situation: &BaseSituation,
    moved: &[Given],
) -> Result<Inputs, RunFileFault>
    ensures checked { Tells (λ _. []) (spec.sharing_checked tables.now key base_situation.now.members base_situation.now.given moved.now) result }
    ensures inputs { IfOk result (λ i. files.inputs_by tables.now (base_situation_view base_situation.now) moved.now ≡ Ok i) }
{
    let all = put_all_in(alloc, base_situation.given.as_slice(), moved)?;
    let counts = base_situation.members.counts(alloc)?;
    let variables = tables.variables.as_slice();
    match Inputs::share(alloc, variables, counts.as_slice(), all.as_slice()) {
        Ok(mut inputs) => {
            inputs.neutralize(base_situation.neutral.as_slice());
            Ok(inputs)
        }
        Err(fault) if fault.kind == SituationKind::Memory => Err(RunFileFault {
            line: fault.line,
            kind: RunFileKind::Memory,
        }),
        Err(fault) => Err(RunFileFault {
            line: key,
            kind: RunFileKind::Situation(fault.kind),
        }),
    }
}
