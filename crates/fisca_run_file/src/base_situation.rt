//! The members and the inputs of a run file without its axes.

ghost use Rattle.std.specs.Prelude.{◌≡◌, map};
ghost use Rattle.fisca_columns.specs.Faults.{told};
ghost use Rattle.fisca_columns.specs.Outcomes.{Tells};
ghost use Rattle.fisca_inputs.specs.Inputs.{inputs_of};
ghost use Rattle.fisca_inputs.specs.Rules.{rule_of};
ghost use Rattle.fisca_groups.specs.Lookup.{counts_of};
ghost use Rattle.fisca_run_file.specs.RunFiles as spec;
ghost use Rattle.fisca_run_file.specs.Views.{base_situation as base_situation_view};
ghost use Rattle.fisca_situations.specs.Steps.Situations.{reading_of as reading_spec};
ghost use Rattle.fisca_yaml.specs.Views.{node};

use crate::neutral::marks_in;
use fisca_columns::{RunFileFault, RunFileKind, default_in};
use fisca_inputs::{Inputs, SituationKind};
use fisca_members::Members;
use fisca_situations::{GivenInputs, Reading, reading_of};
use fisca_symbols::Tables;
use fisca_time::Period;
use fisca_yaml::Tree;
use std::alloc::Global;

/// The members, the inputs as they are given, and the variables that are neutralised.
#[derive(Drop)]
pub(crate) struct BaseSituation {
    /// The members of each entity.
    pub(crate) members: Members,
    /// The inputs as they are given.
    pub(crate) given: GivenInputs,
    /// A mark for each variable that is neutralised, by its place.
    pub(crate) neutral: Vec<bool>,
}

/// What an input says, whose key stands on `line`; a fault is told as one of the file.
fn reading_at(
    alloc: Global,
    tables: &Tables<'_>,
    default: Option<Period>,
    line: usize,
    tree: &Tree<'_>,
) -> Result<Reading, RunFileFault>
    ensures { Tells (λ r. r) (told (reading_spec tables.now default line (node tree.now))) result }
{
    match reading_of(alloc, tables, default, line, tree) {
        Ok(reading) => Ok(reading),
        Err(fault) if fault.kind == SituationKind::Memory => Err(RunFileFault {
            line: fault.line,
            kind: RunFileKind::Memory,
        }),
        Err(fault) => Err(RunFileFault {
            line: fault.line,
            kind: RunFileKind::Situation(fault.kind),
        }),
    }
}

/// What the file's input says.
fn reading_in(alloc: Global, tables: &Tables<'_>, tree: &Tree<'_>) -> Result<Reading, RunFileFault>
    ensures { Tells (λ r. r) (spec.reading_in tables.now (node tree.now)) result }
{
    let default = default_in(tree);
    match tree.entry("input") {
        Some(entry) => reading_at(alloc, tables, default, entry.line, &entry.value),
        None => reading_at(alloc, tables, default, 1, &Tree::Null),
    }
}

/// The inputs of what is read, after sharing; a fault is told as one of the file.
fn inputs_by(
    alloc: Global,
    tables: &Tables<'_>,
    members: &Members,
    given: &GivenInputs,
) -> Result<Inputs, RunFileFault>
    ensures { Tells (λ i. i) (told (inputs_of (map rule_of tables.now.variables) (counts_of members.now) given.now)) result }
{
    let counts = members.counts(alloc)?;
    let variables = tables.variables.as_slice();
    match Inputs::share(alloc, variables, counts.as_slice(), given.as_slice()) {
        Ok(inputs) => Ok(inputs),
        Err(fault) if fault.kind == SituationKind::Memory => Err(RunFileFault {
            line: fault.line,
            kind: RunFileKind::Memory,
        }),
        Err(fault) => Err(RunFileFault {
            line: fault.line,
            kind: RunFileKind::Situation(fault.kind),
        }),
    }
}

/// What is read, with these marks of variables. Inputs that cannot be shared are told of before any axis is looked at.
#[tactic(auto, unfolding(crate::specs::RunFiles::base_situation_of))]
fn base_situation_of(
    alloc: Global,
    tables: &Tables<'_>,
    neutral: Vec<bool>,
    reading: Reading,
) -> Result<BaseSituation, RunFileFault>
    ensures { Tells base_situation_view (spec.base_situation_of tables.now neutral.items reading) result }
{
    let Reading { members, given } = reading;
    let _shared = inputs_by(alloc, tables, &members, &given)?;
    Ok(BaseSituation {
        members,
        given,
        neutral,
    })
}

/// What the file neutralises, and what its input says.
#[tactic(auto, unfolding(crate::specs::RunFiles::base_situation_in))]
pub(crate) fn base_situation_in(
    alloc: Global,
    tables: &Tables<'_>,
    tree: &Tree<'_>,
) -> Result<BaseSituation, RunFileFault>
    ensures { Tells base_situation_view (spec.base_situation_in tables.now (node tree.now)) result }
{
    let neutral = marks_in(alloc, tables, tree)?;
    let reading = reading_in(alloc, tables, tree)?;
    base_situation_of(alloc, tables, neutral, reading)
}
