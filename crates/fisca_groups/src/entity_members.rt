//! The members of one entity.

ghost use Rattle.std.specs.Prelude.{◌≡◌, ◌<◌, ◌≤◌, [], ◌∷◌, ◌++◌, length, map, slice_get, option_map, IfOk, OnOk, string_bytes};

use crate::home::Homes;
use std::alloc::{AllocError, Global};
use std::marker::Model;

/// Names of members in order, which are UTF-8, at most 1,000 of them, seen as a list.
#[derive(Drop)]
pub struct MemberNames {
    items: Vec<String>,
}

impl Model for MemberNames {
    ghost use Rattle.std.specs.Prelude.{◌≤◌, ℕ, List, map, length, string_bytes};

    ghost Value = { List (List ℕ) };

    ghost view = { λ n. map (λ s. string_bytes s) n.items.items };

    ghost invariant = { λ n. length n.items.items ≤ 1000 };
}

/// Copies of names.
fn copies_of(alloc: Global, names: &[String]) -> Result<MemberNames, AllocError>
    requires { length names.now ≤ 1000 }
    ensures { IfOk result (λ n. n ≡ map (λ s. string_bytes s) names.now) }
{
    let mut copies = MemberNames::with_capacity(alloc, names.len())?;
    for name in names {
        copies.push(alloc, name.as_str())?;
    }
    Ok(copies)
}

impl MemberNames {
    /// No names.
    pub fn new(alloc: Global) -> MemberNames
        ensures { result ≡ [] }
    {
        MemberNames {
            items: Vec::new(alloc),
        }
    }

    /// No names, with room for so many.
    pub fn with_capacity(alloc: Global, capacity: usize) -> Result<MemberNames, AllocError>
        ensures { IfOk result (λ n. n ≡ []) }
    {
        Ok(MemberNames {
            items: Vec::with_capacity(alloc, capacity)?,
        })
    }

    /// One name more.
    pub fn push(&mut self, alloc: Global, name: &str) -> Result<(), AllocError>
        requires { length self.old < 1000 }
        ensures { OnOk result (self.new ≡ self.old ++ name.now ∷ []) }
    {
        let copy = String::from_str(alloc, name)?;
        self.items.push(copy).map_err(AllocError::from)
    }

    /// A copy of these. `AllocError` only where memory was refused.
    pub fn copied(&self, alloc: Global) -> Result<MemberNames, AllocError>
        ensures { IfOk result (λ n. n ≡ self.now) }
    {
        copies_of(alloc, self.items.as_slice())
    }

    /// How many there are.
    pub fn len(&self) -> usize
        ensures value { result ≡ length self.now }
        ensures most { result ≤ 1000 }
    {
        self.items.as_slice().len()
    }

    /// The name of the member at a place.
    pub fn get(&self, place: usize) -> Option<&str>
        ensures { option_map (λ n. n.now) result ≡ slice_get self.now place }
    {
        match self.items.as_slice().get(place) {
            Some(name) => Some(name.as_str()),
            None => None,
        }
    }
}

/// The members of one entity: their names in order and, of groups, for each person the group that holds it, where one does.
#[derive(Drop)]
pub struct EntityMembers {
    /// The names.
    pub names: MemberNames,
    /// Where each person belongs; nowhere among persons.
    pub homes: Homes,
}

impl EntityMembers {
    /// A copy of these. `AllocError` only where memory was refused.
    pub fn copied(&self, alloc: Global) -> Result<EntityMembers, AllocError>
        ensures { IfOk result (λ m. m ≡ self.now) }
    {
        Ok(EntityMembers {
            names: self.names.copied(alloc)?,
            homes: self.homes.copied(alloc)?,
        })
    }
}
