//! Files of `fisca calc`.

ghost use Rattle.std.specs.Prelude.{◌≡◌};
ghost use Rattle.fisca_columns.specs.Calc as spec;
ghost use Rattle.fisca_columns.specs.Steps.Calc as steps;
ghost use Rattle.fisca_columns.specs.Faults.{told};
ghost use Rattle.fisca_columns.specs.Outcomes.{Tells};
ghost use Rattle.fisca_columns.specs.Views.{calc};
ghost use Rattle.fisca_situations.specs.Steps.Situations.{situation_of};
ghost use Rattle.fisca_situations.specs.Steps.Views.{situation as situation_view};
ghost use Rattle.fisca_yaml.specs.Views.{node};

use crate::columns::{Columns, columns_by};
use crate::fault::{RunFileFault, RunFileKind};
use crate::keys::{check_file, period_in};
use fisca_inputs::SituationKind;
use fisca_situations::Situation;
use fisca_symbols::Tables;
use fisca_time::Period;
use fisca_yaml::Tree;
use std::alloc::Global;

/// What `fisca calc` works out: columns of a situation.
#[derive(Drop)]
pub struct CalcFile {
    /// The situation.
    pub situation: Situation,
    /// The keys of the columns in order.
    pub columns: Columns,
}

/// The situation of an input, whose key stands on `line`; a fault is told as one of the file.
fn situation_at(
    alloc: Global,
    tables: &Tables<'_>,
    default: Option<Period>,
    line: usize,
    tree: &Tree<'_>,
) -> Result<Situation, RunFileFault>
    ensures { Tells situation_view (told (situation_of tables.now default line (node tree.now))) result }
{
    match Situation::read(alloc, tables, default, line, tree) {
        Ok(situation) => Ok(situation),
        Err(fault) if fault.kind == SituationKind::Memory => Err(RunFileFault {
            line: fault.line,
            kind: RunFileKind::Memory,
        }),
        Err(fault) => Err(RunFileFault {
            line: fault.line,
            kind: RunFileKind::Situation(fault.kind),
        }),
    }
}

/// The period of the file, which values, columns and axes without one have.
pub fn default_in(tree: &Tree<'_>) -> Option<Period>
    ensures { result ≡ steps.default_in (node tree.now) }
{
    let found = tree.get("period")?;
    period_in(found)
}

/// The situation of the file's input.
fn situation_in(
    alloc: Global,
    tables: &Tables<'_>,
    tree: &Tree<'_>,
) -> Result<Situation, RunFileFault>
    ensures { Tells situation_view (steps.situation_in tables.now (node tree.now)) result }
{
    let default = default_in(tree);
    match tree.entry("input") {
        Some(entry) => situation_at(alloc, tables, default, entry.line, &entry.value),
        None => situation_at(alloc, tables, default, 1, &Tree::Null),
    }
}

/// The keys that the columns of the file name; none where it has no columns. `BadColumn` of the first column that `read_column` refuses, at its
/// line. `Memory`, at line 0, comes only where a growth was refused. This project's own rule.
pub fn columns_in(
    alloc: Global,
    tables: &Tables<'_>,
    situation: &Situation,
    tree: &Tree<'_>,
) -> Result<Columns, RunFileFault>
    ensures { Tells (λ c. c) (steps.columns_in tables.now (situation_view situation.now).members (node tree.now)) result }
{
    let default = default_in(tree);
    match tree.get("columns") {
        Some(found) => columns_by(alloc, tables, situation, default, found),
        None => columns_by(alloc, tables, situation, default, &Tree::Null),
    }
}

impl CalcFile {
    /// What a file of `fisca calc` says: a map of `period`, `input` and `columns`, each of which may be absent. Columns are one scalar or a
    /// list of scalars (`read_column` says of which form); values and columns without a period have that of the file.
    ///
    /// Else its first fault, in this order: `BadKey` of the first key that is none of these, or that has a period that can't be read or
    /// columns of another shape, at its line, and at line 1 where the file is no map; `Situation` where the input is none, as
    /// `Situation::read` tells; `BadColumn` of the first column that `read_column` refuses, at its line. `Memory`, at line 0, comes only where
    /// a growth was refused. This project's own rule.
    #[tactic(auto, unfolding(crate::specs::Calc::calc_of, crate::specs::Calc::calc_by))]
    pub fn read(
        alloc: Global,
        tables: &Tables<'_>,
        tree: &Tree<'_>,
    ) -> Result<CalcFile, RunFileFault>
        ensures { Tells calc (spec.calc_of tables.now (node tree.now)) result }
    {
        check_file(tree)?;
        let situation = situation_in(alloc, tables, tree)?;
        let columns = columns_in(alloc, tables, &situation, tree)?;
        Ok(CalcFile { situation, columns })
    }
}
