//! Locals that a table finds.
ghost use Rattle.std.specs.Prelude.{◌≡◌, ◌++◌, ◌∷◌, [], IfOk, option_map, reverse};
ghost use Rattle.std.specs.Bool.{OnTrue};
ghost use Rattle.fisca_check_calls.specs.Locals.{first_named, latest_place};

use crate::local::Local;
use crate::name::Name;
use indexmap::IndexMap;
use std::alloc::{AllocError, Global};
use std::marker::Model;

/// Locals in the order in which they are assigned, seen as a list. The latest of each name is found by it.
#[derive(Drop)]
pub(crate) struct Table<'a> {
    items: Vec<Local<'a>>,
    places: IndexMap<Name<'a>, usize>,
}

impl<'a> Model for Table<'a> {
    ghost use Rattle.std.specs.Prelude.{List};
    ghost use Rattle.fisca_check_calls.specs.declared.local.Local.{Local};
    ghost use Rattle.fisca_check_calls.specs.Locals.{AreFound};
    ghost use Rattle.fisca_ir.specs.contracts.node.Node as n;
    ghost use Rattle.std.specs.Coded.{codes};

    ghost Value = { List Local };

    ghost coded = { Prim.hlevel (codes, n.the_row.coded) };

    ghost view = { λ l. l.items.items };

    ghost invariant = { λ l. AreFound l.items.items l.places };
}

impl<'a> Table<'a> {
    /// No local.
    pub(crate) fn new(alloc: Global) -> Table<'a>
        ensures { result ≡ [] }
    {
        Table {
            items: Vec::new(alloc),
            places: IndexMap::new(alloc),
        }
    }

    /// Whether there is no local.
    pub(crate) fn is_empty(&self) -> bool
        ensures { OnTrue result (self.now ≡ []) }
    {
        self.items.is_empty()
    }

    /// One local more, which stands before earlier ones of its name.
    pub(crate) fn with(self, local: Local<'a>) -> Result<Table<'a>, AllocError>
        ensures { IfOk result (λ l. l ≡ self.entry ++ local.entry ∷ []) }
    {
        let Table {
            mut items,
            mut places,
        } = self;
        let name = Name::new(local.name.as_bytes());
        places.insert(name, items.len()).map_err(AllocError::from)?;
        items.push(local)?;
        Ok(Table { items, places })
    }

    /// Where the latest local of this name stands.
    fn place_of(&self, name: &[u8]) -> Option<usize>
        ensures { result ≡ latest_place name.now (reverse self.now) }
    {
        self.places.get(&Name::new(name)).copied()
    }

    /// The latest local of this name.
    #[tactic(auto, using(crate::proofs::Latest::found_none))]
    pub(crate) fn of_name(&self, name: &[u8]) -> Option<&Local<'a>>
        ensures { option_map (λ l. l.now) result ≡ first_named (reverse self.now) name.now }
    {
        match self.place_of(name) {
            Some(place) => match self.items.get(place) {
                Some(local) => Some(local),
                None => None,
            },
            None => None,
        }
    }
}
