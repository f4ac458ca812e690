//! The conditions of a filter.

ghost use Rattle.std.specs.Prelude.{◌≡◌, [], ◌∷◌, ◌++◌, Ok, OnOk};
ghost use Rattle.fisca_columns.specs.Outcomes.{Answers, Tells};
ghost use Rattle.fisca_num.specs.Results.{and_then};
ghost use Rattle.fisca_rows.specs.Conditions as spec;
ghost use Rattle.fisca_rows.specs.Steps.Conditions as steps;
ghost use Rattle.fisca_situations.specs.Steps.Views.{situation as situation_view};
ghost use Rattle.fisca_symbols.specs.Known.{tables as known};
ghost use Rattle.fisca_yaml.specs.Views.{node, items_view};

use crate::condition::{Condition, read_condition};
use fisca_columns::{RunFileFault, RunFileKind, default_in};
use fisca_situations::Situation;
use fisca_symbols::Tables;
use fisca_time::Period;
use fisca_yaml::{Item, Tree};
use std::alloc::{AllocError, Global};
use std::marker::Model;

/// Conditions in order, seen as a list.
#[derive(Drop)]
pub struct Conditions {
    items: Vec<Condition>,
}

impl Model for Conditions {
    ghost use Rattle.std.specs.Prelude.{List};
    ghost use Rattle.fisca_rows.specs.declared.condition.Condition.{Condition};

    ghost Value = { List Condition };

    ghost view = { λ c. c.items.items };
}

impl Conditions {
    /// The conditions in order.
    pub fn as_slice(&self) -> &[Condition]
        ensures { result.now ≡ self.now }
    {
        self.items.as_slice()
    }
}

/// The condition of a scalar on this line.
fn condition_at(
    tables: &Tables<'_>,
    situation: &Situation,
    default: Option<Period>,
    line: usize,
    text: &str,
) -> Result<Condition, RunFileFault>
    ensures { Answers (λ x. x) (spec.condition_or_fault line (steps.condition_of (known tables.now) (situation_view situation.now).members default text.now)) result }
{
    match read_condition(tables, situation, text, default) {
        Some(condition) => Ok(condition),
        None => Err(RunFileFault {
            line,
            kind: RunFileKind::BadCondition,
        }),
    }
}

/// Puts a condition behind these.
fn push_condition(items: &mut Vec<Condition>, condition: Condition) -> Result<(), AllocError>
    ensures { OnOk result (items.new.items ≡ items.old.items ++ condition ∷ []) }
{
    let Condition {
        key,
        comparison,
        constant,
    } = condition;
    items
        .push(Condition {
            key,
            comparison,
            constant,
        })
        .map_err(AllocError::from)
}

/// The conditions of a list.
fn listed_conditions(
    alloc: Global,
    tables: &Tables<'_>,
    situation: &Situation,
    default: &Option<Period>,
    items: &[Item<'_>],
) -> Result<Conditions, RunFileFault>
    ensures { Tells (λ c. c) (steps.with_conditions tables.now (situation_view situation.now).members default.now [] (items_view items.now)) result }
{
    let mut found = Vec::new(alloc);
    for item in items {
        if let Tree::Scalar { text, line, .. } = &item.value {
            let Condition {
                key,
                comparison,
                constant,
            } = condition_at(tables, situation, *default, *line, text.as_str())?;
            let condition = Condition {
                key,
                comparison,
                constant,
            };
            push_condition(&mut found, condition)?;
        }
    }
    Ok(Conditions { items: found })
}

/// The condition of a scalar on this line, alone.
fn one_condition(
    alloc: Global,
    tables: &Tables<'_>,
    situation: &Situation,
    default: Option<Period>,
    line: usize,
    text: &str,
) -> Result<Conditions, RunFileFault>
    ensures { Tells (λ c. c) (and_then (spec.condition_or_fault line (steps.condition_of (known tables.now) (situation_view situation.now).members default text.now)) (λ x. Ok (x ∷ []))) result }
{
    let Condition {
        key,
        comparison,
        constant,
    } = condition_at(tables, situation, default, line, text)?;
    let condition = Condition {
        key,
        comparison,
        constant,
    };
    let mut found = Vec::new(alloc);
    push_condition(&mut found, condition)?;
    Ok(Conditions { items: found })
}

/// The conditions that one scalar or a list of scalars state.
fn conditions_by(
    alloc: Global,
    tables: &Tables<'_>,
    situation: &Situation,
    default: Option<Period>,
    tree: &Tree<'_>,
) -> Result<Conditions, RunFileFault>
    ensures { Tells (λ c. c) (steps.conditions_by tables.now (situation_view situation.now).members default (node tree.now)) result }
{
    match tree {
        Tree::Scalar { text, line, .. } => {
            one_condition(alloc, tables, situation, default, *line, text.as_str())
        }
        Tree::List(items) => {
            listed_conditions(alloc, tables, situation, &default, items.as_slice())
        }
        Tree::Null | Tree::Map(_) => Ok(Conditions {
            items: Vec::new(alloc),
        }),
    }
}

/// The conditions of the file.
pub fn conditions_in(
    alloc: Global,
    tables: &Tables<'_>,
    situation: &Situation,
    tree: &Tree<'_>,
) -> Result<Conditions, RunFileFault>
    ensures { Tells (λ c. c) (steps.conditions_in tables.now (situation_view situation.now).members (node tree.now)) result }
{
    let default = default_in(tree);
    match tree.get("filter") {
        Some(found) => conditions_by(alloc, tables, situation, default, found),
        None => conditions_by(alloc, tables, situation, default, &Tree::Null),
    }
}
