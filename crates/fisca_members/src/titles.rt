//! The names under which inputs speak of entities.

ghost use Rattle.std.specs.Prelude.{◌≡◌, map};
ghost use Rattle.std.specs.Str.{bytes_eq};
ghost use Rattle.fisca_symbols.specs.KnownEntities.{entities as known, entity as known_entity};
ghost use Rattle.fisca_model.specs.Tables.{place_in};
ghost use Rattle.fisca_members.specs.Naming.{name_by};
ghost use Rattle.fisca_members.specs.Steps.Sections as spec;

use crate::few::FEW;
use crate::section::Named;
use fisca_symbols::{Entities, Entity, Names};
use std::marker::Model;

/// Which name of an entity is meant.
#[derive(Clone, Copy)]
pub enum Naming {
    /// That of all its members.
    Plural,
    /// That of one of them.
    Key,
}

/// The plurals of entities or their keys, in order, seen as a list. A few are looked through, more are found by the rule set's table.
#[derive(Drop)]
pub struct EntityNames<'e, 'r> {
    items: &'e [Entity<'r>],
    naming: Naming,
    names: Option<&'e Names<'r>>,
}

impl<'e, 'r> Model for EntityNames<'e, 'r> {
    ghost use Rattle.std.specs.Prelude.{◌≡◌, ℕ, List, map, IfSome};
    ghost use Rattle.fisca_members.specs.Naming.{name_by};
    ghost use Rattle.fisca_symbols.specs.KnownEntities.{entities};

    ghost Value = { List (List ℕ) };

    ghost view = { λ n. map (name_by n.naming) (entities n.items.now) };

    ghost invariant = { λ n. IfSome n.names (λ ns. ns.now ≡ map (name_by n.naming) (entities n.items.now)) };
}

/// The plurals and the keys of all entities, in order.
#[derive(Drop)]
pub struct Titles<'e, 'r> {
    /// The names of all members of an entity.
    pub plurals: EntityNames<'e, 'r>,
    /// The names of one of them.
    pub keys: EntityNames<'e, 'r>,
}

/// A name of an entity.
fn name_of<'e>(entity: &'e Entity<'_>, naming: Naming) -> &'e str
    ensures { result.now ≡ name_by naming (known_entity entity.now) }
{
    match naming {
        Naming::Plural => entity.plural.as_str(),
        Naming::Key => entity.key.as_str(),
    }
}

/// The names of entities.
fn names_of<'e, 'r>(entities: &'e Entities<'r>, naming: Naming) -> &'e Names<'r>
    ensures { result.now ≡ map (name_by naming) (known entities.now) }
{
    match naming {
        Naming::Plural => entities.plurals(),
        Naming::Key => entities.keys(),
    }
}

/// The place of the first entity of this name.
fn place_among(entities: &[Entity<'_>], naming: Naming, name: &str) -> Option<usize>
    ensures { result ≡ place_in (λ k. bytes_eq k name.now) (map (name_by naming) (known entities.now)) }
{
    for (place, entity) in entities.iter().enumerate() {
        if name_of(entity, naming) == name {
            return Some(place);
        }
    }
    None
}

impl<'e, 'r> EntityNames<'e, 'r> {
    /// Those of these entities.
    fn of(entities: &'e Entities<'r>, naming: Naming) -> EntityNames<'e, 'r>
        ensures { result ≡ map (name_by naming) (known entities.now) }
    {
        let items = entities.as_slice();
        let names = if items.len() > FEW {
            Some(names_of(entities, naming))
        } else {
            None
        };
        EntityNames {
            items,
            naming,
            names,
        }
    }

    /// The first place of a name.
    fn place_of(&self, name: &str) -> Option<usize>
        ensures { result ≡ place_in (λ k. bytes_eq k name.now) self.now }
    {
        match self.names {
            Some(names) => names.place_of(name),
            None => place_among(self.items, self.naming, name),
        }
    }
}

/// The names under which inputs speak of these entities.
pub fn titles_of<'e, 'r>(entities: &'e Entities<'r>) -> Titles<'e, 'r>
    ensures { result ≡ spec.titles_of (known entities.now) }
{
    Titles {
        plurals: EntityNames::of(entities, Naming::Plural),
        keys: EntityNames::of(entities, Naming::Key),
    }
}

impl Titles<'_, '_> {
    /// The entity that a key names: by its plural, which stands for all its members, or by its key, which stands for the only one.
    pub fn named(&self, key: &str) -> Option<Named>
        ensures { result ≡ spec.named self.now key.now }
    {
        if let Some(entity) = self.plurals.place_of(key) {
            return Some(Named {
                entity,
                is_plural: true,
            });
        }
        let entity = self.keys.place_of(key)?;
        Some(Named {
            entity,
            is_plural: false,
        })
    }
}
