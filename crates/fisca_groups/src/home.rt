//! Where persons belong.

ghost use Rattle.std.specs.Prelude.{◌≡◌, ◌≤◌, length, replicate, slice_get, Some, None, IfOk};
ghost use Rattle.fisca_groups.specs.Homes as spec;
ghost use Rattle.fisca_groups.specs.Steps.Homes as steps;
ghost use Rattle.fisca_groups.specs.Lookup.{if_held};

use fisca_model::RolePlace;
use std::alloc::{AllocError, Global};
use std::marker::Model;

/// The group that a person belongs to, and the role there.
#[derive(Clone, Copy, Debug, PartialEq, Eq)]
pub struct Home {
    /// The place of the group among those of its kind.
    pub group: u32,
    /// The role, or the subrole.
    pub role: RolePlace,
}

/// For each person in order the group of a kind that holds it, where one does, of at most 1,000 persons; seen as a list.
#[derive(Drop)]
pub struct Homes {
    items: Vec<Option<Home>>,
}

impl Model for Homes {
    ghost use Rattle.std.specs.Prelude.{◌≤◌, List, Option, length};
    ghost use Rattle.fisca_groups.specs.declared.home.Home.{Home};

    ghost Value = { List (Option Home) };

    ghost view = { λ h. h.items.items };

    ghost invariant = { λ h. length h.items.items ≤ 1000 };
}

impl Homes {
    /// So many persons that no group holds.
    pub fn new(alloc: Global, count: usize) -> Result<Homes, AllocError>
        requires { count ≤ 1000 }
        ensures { IfOk result (λ h. h ≡ replicate count None) }
    {
        Ok(Homes {
            items: vec![in alloc; None; count]?,
        })
    }

    /// A copy of these. `AllocError` only where memory was refused.
    pub fn copied(&self, alloc: Global) -> Result<Homes, AllocError>
        ensures { IfOk result (λ h. h ≡ self.now) }
    {
        let mut items = Vec::with_capacity(alloc, self.items.len())?;
        items.extend_from_slice(self.items.as_slice())?;
        Ok(Homes { items })
    }

    /// For each person the group that holds it, and the role there.
    pub fn as_slice(&self) -> &[Option<Home>]
        ensures value { result.now ≡ self.now }
        ensures most { length result.now ≤ 1000 }
    {
        self.items.as_slice()
    }

    /// The group that holds a person, and the role there.
    pub fn get(&self, person: usize) -> Option<Home>
        ensures { result ≡ if_held (slice_get self.now person) }
    {
        match self.items.as_slice().get(person) {
            Some(home) => *home,
            None => None,
        }
    }

    /// Whether a group holds this person.
    pub fn is_held(&self, person: usize) -> bool
        ensures { result ≡ steps.is_held self.now person }
    {
        match self.items.as_slice().get(person) {
            Some(home) => home.is_some(),
            None => false,
        }
    }

    /// A person is held by this group.
    pub fn hold(&mut self, person: usize, home: Home)
        ensures { self.new ≡ spec.held_by self.old person home }
    {
        if person < self.items.len() {
            self.items[person] = Some(home);
        }
    }
}
