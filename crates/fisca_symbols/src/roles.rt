//! The roles of a group.

ghost use Rattle.std.specs.Prelude.{◌≡◌, map, IfOk, slice_get};
ghost use Rattle.fisca_symbols.specs.KnownRoles.{role, roles, title};
ghost use Rattle.fisca_model.specs.Tables.{role_of_constant, role_of_key, if_single, is_single};

use crate::names::Names;
use crate::role::{Role, places_of_roles, titles_of};
use crate::text::{SourceText, Spelling};
use fisca_model::RolePlace;
use indexmap::IndexMap;
use std::alloc::{AllocError, Global};
use std::marker::Model;

/// The roles of a group in order, seen as a list. Each is found by its key, by its constant and by its title.
#[derive(Drop)]
pub struct Roles<'a> {
    items: Vec<Role<'a>>,
    keys: IndexMap<SourceText<'a>, RolePlace>,
    constants: IndexMap<SourceText<'a>, RolePlace>,
    titles: Names<'a>,
}

impl<'a> Model for Roles<'a> {
    ghost use Rattle.std.specs.Prelude.{List};
    ghost use Rattle.fisca_symbols.specs.declared.role.Role.{Role};
    ghost use Rattle.fisca_symbols.specs.KnownRoles.{AreFound};

    ghost Value = { List Role };

    ghost view = { λ r. r.items.items };

    ghost invariant = { λ r. AreFound r.items.items r.keys r.constants r.titles };
}

impl<'a> Roles<'a> {
    /// These roles.
    pub fn new(alloc: Global, items: Vec<Role<'a>>) -> Result<Roles<'a>, AllocError>
        ensures { IfOk result (λ r. r ≡ items.entry.items) }
    {
        let keys = places_of_roles(alloc, items.as_slice(), Spelling::Written)?;
        let constants = places_of_roles(alloc, items.as_slice(), Spelling::Capitals)?;
        let titles = titles_of(alloc, items.as_slice())?;
        Ok(Roles {
            items,
            keys,
            constants,
            titles,
        })
    }

    /// The roles in order.
    pub fn as_slice(&self) -> &[Role<'a>]
        ensures { result.now ≡ self.now }
    {
        self.items.as_slice()
    }

    /// The names that inputs give them, in order.
    pub fn titles(&self) -> &Names<'a>
        ensures { result.now ≡ map title (roles self.now) }
    {
        &self.titles
    }

    /// The first role or subrole with this key.
    pub fn of_key(&self, key: &str) -> Option<RolePlace>
        ensures { result ≡ role_of_key (roles self.now) key.now }
    {
        self.keys.get(&SourceText::borrowed(key)).copied()
    }

    /// The first role or subrole whose key is this one, small letters written as capitals.
    pub fn of_constant(&self, constant: &str) -> Option<RolePlace>
        ensures { result ≡ role_of_constant (roles self.now) constant.now }
    {
        self.constants.get(&SourceText::borrowed(constant)).copied()
    }

    /// Whether one person at most has a role: a subrole, or a role with a maximum of 1.
    pub fn is_single(&self, place: RolePlace) -> bool
        ensures { result ≡ is_single (roles self.now) place }
    {
        if place.subrole.is_some() {
            return true;
        }
        match self.items.get(place.role) {
            Some(role) => role.most() == Some(1),
            None => false,
        }
    }

    /// The first role or subrole with this key, where one person at most has it.
    pub fn single_of_key(&self, key: &str) -> Option<RolePlace>
        ensures { result ≡ if_single (roles self.now) (role_of_key (roles self.now) key.now) }
    {
        let place = self.of_key(key)?;
        if self.is_single(place) {
            Some(place)
        } else {
            None
        }
    }
}
