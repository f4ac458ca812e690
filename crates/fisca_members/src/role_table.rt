//! The roles of a group, by the names that inputs give them.

ghost use Rattle.std.specs.Prelude.{◌≡◌, ◌<◌, [], map, length, option_map, slice_get};
ghost use Rattle.fisca_symbols.specs.KnownRoles.{role as known_role, roles as known_roles};
ghost use Rattle.fisca_members.specs.Steps.Groups as spec;

use crate::few::FEW;
use fisca_model::RolePlace;
use fisca_symbols::{Names, Role, Roles};
use std::marker::Model;

/// The roles of a group, seen as a list. Each is found by its title: a few are looked through, more found by the rule set's table.
#[derive(Drop)]
pub struct RoleTable<'e, 'r> {
    items: &'e [Role<'r>],
    names: Option<&'e Names<'r>>,
}

impl<'e, 'r> Model for RoleTable<'e, 'r> {
    ghost use Rattle.std.specs.Prelude.{◌≡◌, List, IfSome};
    ghost use Rattle.fisca_model.specs.Tables.{Role};
    ghost use Rattle.fisca_symbols.specs.KnownRoles.{roles};
    ghost use Rattle.fisca_members.specs.Steps.Groups.{role_titles};

    ghost Value = { List Role };

    ghost view = { λ t. roles t.items.now };

    ghost invariant = { λ t. IfSome t.names (λ n. n.now ≡ role_titles (roles t.items.now)) };
}

/// The place of the first role of this name.
fn place_among(roles: &[Role<'_>], name: &str) -> Option<usize>
    ensures { result ≡ spec.role_named (known_roles roles.now) name.now }
{
    for (place, role) in roles.iter().enumerate() {
        if role.title().as_str() == name {
            return Some(place);
        }
    }
    None
}

/// The place of a role that is taken by a person behind so many others: persons of a role with subroles take these in order.
pub(crate) fn taken(place: usize, role: &Role<'_>, count: usize) -> RolePlace
    ensures { result ≡ spec.taken place (known_role role.now) count }
{
    let subrole = if role.subroles.as_slice().is_empty() {
        None
    } else {
        Some(count)
    };
    RolePlace {
        role: place,
        subrole,
    }
}

/// The first role, or its first subrole.
pub(crate) fn first_role(roles: &[Role<'_>]) -> RolePlace
    ensures { result ≡ spec.first_role (known_roles roles.now) }
{
    match roles.first() {
        Some(role) => taken(0, role, 0),
        None => RolePlace {
            role: 0,
            subrole: None,
        },
    }
}

impl<'e, 'r> RoleTable<'e, 'r> {
    /// No roles.
    pub fn none() -> RoleTable<'e, 'r>
        ensures { result ≡ [] }
    {
        RoleTable {
            items: &[],
            names: None,
        }
    }

    /// These roles.
    pub fn new(roles: &'e Roles<'r>) -> RoleTable<'e, 'r>
        ensures { result ≡ known_roles roles.now }
    {
        let items = roles.as_slice();
        let names = if items.len() > FEW {
            Some(roles.titles())
        } else {
            None
        };
        RoleTable { items, names }
    }

    /// The place of the role of this name.
    pub fn of_name(&self, name: &str) -> Option<usize>
        ensures { result ≡ spec.role_named self.now name.now }
    {
        match self.names {
            Some(names) => names.place_of(name),
            None => place_among(self.items, name),
        }
    }

    /// The role at a place.
    pub(crate) fn get(&self, place: usize) -> Option<&'e Role<'r>>
        ensures { option_map (λ r. known_role r.now) result ≡ slice_get self.now place }
    {
        self.items.get(place)
    }
}
