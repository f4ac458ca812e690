//! The columns of a file.

ghost use Rattle.std.specs.Prelude.{◌≡◌, [], ◌∷◌, ◌++◌, IfOk};
ghost use Rattle.fisca_columns.specs.Steps.Calc as spec;
ghost use Rattle.fisca_columns.specs.Outcomes.{Tells};
ghost use Rattle.fisca_situations.specs.Steps.Views.{situation as situation_view};
ghost use Rattle.fisca_yaml.specs.Views.{node, items_view};

use crate::fault::{RunFileFault, RunFileKind};
use crate::read_column;
use fisca_model::Key;
use fisca_situations::Situation;
use fisca_symbols::Tables;
use fisca_time::Period;
use fisca_yaml::{Item, Tree};
use std::alloc::{AllocError, Global};
use std::marker::Model;

/// The keys of columns in order, seen as a list.
#[derive(Drop)]
pub struct Columns {
    items: Vec<Key>,
}

impl Model for Columns {
    ghost use Rattle.std.specs.Prelude.{List};
    ghost use Rattle.fisca_model.specs.declared.key.Key.{Key};

    ghost Value = { List Key };

    ghost view = { λ c. c.items.items };
}

impl Columns {
    /// None.
    pub(crate) fn new(alloc: Global) -> Columns
        ensures { result ≡ [] }
    {
        Columns {
            items: Vec::new(alloc),
        }
    }

    /// The keys in order.
    pub fn as_slice(&self) -> &[Key]
        ensures { result.now ≡ self.now }
    {
        self.items.as_slice()
    }

    /// One more.
    fn with(self, key: Key) -> Result<Columns, AllocError>
        ensures { IfOk result (λ c. c ≡ self ++ key ∷ []) }
    {
        let mut items = self.items;
        items.push(key).map_err(AllocError::from)?;
        Ok(Columns { items })
    }
}

/// The columns so far and the one of a scalar.
fn with_column(
    tables: &Tables<'_>,
    situation: &Situation,
    default: Option<Period>,
    columns: Columns,
    tree: &Tree<'_>,
) -> Result<Columns, RunFileFault>
    ensures { Tells (λ c. c) (spec.with_column tables.now (situation_view situation.now).members default columns (node tree.now)) result }
{
    let Tree::Scalar { text, line, .. } = tree else {
        return Ok(columns);
    };
    match read_column(tables, situation, text.as_str(), default) {
        Some(key) => Ok(columns.with(key)?),
        None => Err(RunFileFault {
            line: *line,
            kind: RunFileKind::BadColumn,
        }),
    }
}

/// The columns so far and those of a list.
fn with_columns(
    tables: &Tables<'_>,
    situation: &Situation,
    default: &Option<Period>,
    columns: Columns,
    items: &[Item<'_>],
) -> Result<Columns, RunFileFault>
    ensures { Tells (λ c. c) (spec.with_columns tables.now (situation_view situation.now).members default.now columns (items_view items.now)) result }
{
    let mut found = columns;
    for item in items {
        found = with_column(tables, situation, *default, found, &item.value)?;
    }
    Ok(found)
}

/// The columns that one scalar or a list of scalars name.
pub(crate) fn columns_by(
    alloc: Global,
    tables: &Tables<'_>,
    situation: &Situation,
    default: Option<Period>,
    tree: &Tree<'_>,
) -> Result<Columns, RunFileFault>
    ensures { Tells (λ c. c) (spec.columns_by tables.now (situation_view situation.now).members default (node tree.now)) result }
{
    let none = Columns::new(alloc);
    match tree {
        Tree::Scalar { .. } => with_column(tables, situation, default, none, tree),
        Tree::List(items) => with_columns(tables, situation, &default, none, items.as_slice()),
        Tree::Null | Tree::Map(_) => Ok(none),
    }
}
