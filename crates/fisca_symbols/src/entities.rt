//! The entities of a rule set.

ghost use Rattle.std.specs.Prelude.{◌≡◌, map, IfOk};
ghost use Rattle.std.specs.Str.{bytes_eq};
ghost use Rattle.fisca_symbols.specs.KnownEntities.{entities};
ghost use Rattle.fisca_model.specs.Tables.{place_in, is_group_of, is_person};

use crate::entity::{
    Entity, first_person, keys_of, places_of_constants, places_of_groups, plurals_of,
};
use crate::names::Names;
use crate::text::SourceText;
use indexmap::IndexMap;
use std::alloc::{AllocError, Global};
use std::marker::Model;

/// Entities in the order of the modules, seen as a list. Each is found by its constant, by its plural and by its key, and
/// each group by its key.
#[derive(Drop)]
pub struct Entities<'a> {
    items: Vec<Entity<'a>>,
    constants: IndexMap<SourceText<'a>, usize>,
    groups: IndexMap<SourceText<'a>, usize>,
    person: Option<usize>,
    plurals: Names<'a>,
    keys: Names<'a>,
}

impl<'a> Model for Entities<'a> {
    ghost use Rattle.std.specs.Prelude.{List};
    ghost use Rattle.fisca_symbols.specs.declared.entity.Entity.{Entity};
    ghost use Rattle.fisca_symbols.specs.KnownEntities.{AreFound};

    ghost Value = { List Entity };

    ghost view = { λ e. e.items.items };

    ghost invariant = { λ e. AreFound e.items.items e.constants e.groups e.person e.plurals e.keys };
}

impl<'a> Entities<'a> {
    /// These entities.
    pub fn new(alloc: Global, items: Vec<Entity<'a>>) -> Result<Entities<'a>, AllocError>
        ensures { IfOk result (λ e. e ≡ items.entry.items) }
    {
        let constants = places_of_constants(alloc, items.as_slice())?;
        let groups = places_of_groups(alloc, items.as_slice())?;
        let person = first_person(items.as_slice());
        let plurals = plurals_of(alloc, items.as_slice())?;
        let keys = keys_of(alloc, items.as_slice())?;
        Ok(Entities {
            items,
            constants,
            groups,
            person,
            plurals,
            keys,
        })
    }

    /// The entities in order.
    pub fn as_slice(&self) -> &[Entity<'a>]
        ensures { result.now ≡ self.now }
    {
        self.items.as_slice()
    }

    /// The place of the first entity with this constant.
    pub fn of_constant(&self, constant: &str) -> Option<usize>
        ensures { result ≡ place_in (λ e. bytes_eq e.constant constant.now) (entities self.now) }
    {
        self.constants.get(&SourceText::borrowed(constant)).copied()
    }

    /// The place of the first group with this key.
    pub fn group_of_key(&self, key: &str) -> Option<usize>
        ensures { result ≡ place_in (is_group_of key.now) (entities self.now) }
    {
        self.groups.get(&SourceText::borrowed(key)).copied()
    }

    /// The place of the first entity of persons.
    pub fn person(&self) -> Option<usize>
        ensures { result ≡ place_in is_person (entities self.now) }
    {
        self.person
    }

    /// Their plurals, in order.
    pub fn plurals(&self) -> &Names<'a>
        ensures { result.now ≡ map (λ e. e.plural) (entities self.now) }
    {
        &self.plurals
    }

    /// Their keys, in order.
    pub fn keys(&self) -> &Names<'a>
        ensures { result.now ≡ map (λ e. e.key) (entities self.now) }
    {
        &self.keys
    }
}
