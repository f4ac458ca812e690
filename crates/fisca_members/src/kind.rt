//! The members of one entity: as they are told, or each person in a group of its own.

ghost use Rattle.std.specs.Prelude.{◌≡◌, [], slice_get, IfOk};
ghost use Rattle.fisca_groups.specs.Lookup.{holders_from, if_held};
ghost use Rattle.fisca_members.specs.Owned.{kind_in};

use fisca_groups::{EntityMembers, Home, Homes, MemberNames, Roster};
use fisca_model::RolePlace;
use std::alloc::{AllocError, Global};
use std::marker::Model;

/// Members as they are told, with the persons of each group; seen as the members.
#[derive(Drop)]
pub(crate) struct Told {
    members: EntityMembers,
    roster: Roster,
}

impl Model for Told {
    ghost use Rattle.fisca_groups.specs.Rosters.{IsRoster};
    ghost use Rattle.fisca_groups.specs.declared.entity_members.EntityMembers.{EntityMembers};

    ghost Value = { EntityMembers };

    ghost view = { λ t. t.members };

    ghost invariant = { λ t. IsRoster t.members.homes t.roster };
}

/// The members of one entity: as they are told, or each person in a group of its own with this role. Who has groups of
/// their own is told once for all kinds.
#[derive(Drop)]
pub(crate) enum Kind {
    Told(Told),
    Own(RolePlace),
}

impl Told {
    /// These members.
    pub(crate) fn of(alloc: Global, members: EntityMembers) -> Result<Told, AllocError>
        ensures { IfOk result (λ t. t ≡ members) }
    {
        let roster = Roster::of(alloc, &members.homes)?;
        Ok(Told { members, roster })
    }

    /// No members.
    pub(crate) fn none(alloc: Global) -> Result<Told, AllocError>
        ensures { IfOk result (λ t. t ≡ record { names = []; homes = [] }) }
    {
        let members = EntityMembers {
            names: MemberNames::new(alloc),
            homes: Homes::new(alloc, 0)?,
        };
        Told::of(alloc, members)
    }

    /// A copy of these. `AllocError` only where memory was refused.
    pub(crate) fn copied(&self, alloc: Global) -> Result<Told, AllocError>
        ensures { IfOk result (λ t. t ≡ self.now) }
    {
        Told::of(alloc, self.members.copied(alloc)?)
    }

    /// Their names.
    fn names(&self) -> &MemberNames
        ensures { result.now ≡ self.now.names }
    {
        &self.members.names
    }

    /// The group that holds a person, and the role there.
    fn home(&self, person: usize) -> Option<Home>
        ensures { result ≡ if_held (slice_get self.now.homes person) }
    {
        self.members.homes.get(person)
    }

    /// The persons of a group, in order.
    fn persons(&self, group: u32) -> &[u32]
        ensures { result.now ≡ holders_from group 0 self.now.homes }
    {
        self.roster.persons(group)
    }
}

impl Kind {
    /// A copy of this. `AllocError` only where memory was refused.
    pub(crate) fn copied(&self, alloc: Global) -> Result<Kind, AllocError>
        ensures { IfOk result (λ k. k ≡ self.now) }
    {
        match self {
            Kind::Told(told) => Ok(Kind::Told(told.copied(alloc)?)),
            Kind::Own(role) => Ok(Kind::Own(*role)),
        }
    }

    /// The names, where these have groups of their own.
    pub(crate) fn names<'k>(&'k self, owners: &'k Told) -> &'k MemberNames
        ensures { result.now ≡ (kind_in owners.now self.now).names }
    {
        match self {
            Kind::Told(told) => told.names(),
            Kind::Own(_) => owners.names(),
        }
    }

    /// The group that holds a person, and the role there, where these have groups of their own.
    #[tactic(auto, using(crate::proofs::Retold::home_some, crate::proofs::Retold::home_none))]
    pub(crate) fn home(&self, owners: &Told, person: usize) -> Option<Home>
        ensures { result ≡ if_held (slice_get (kind_in owners.now self.now).homes person) }
    {
        match self {
            Kind::Told(told) => told.home(person),
            Kind::Own(role) => match owners.home(person) {
                Some(home) => Some(Home {
                    group: home.group,
                    role: *role,
                }),
                None => None,
            },
        }
    }

    /// The persons of a group, in order, where these have groups of their own.
    pub(crate) fn persons<'k>(&'k self, owners: &'k Told, group: u32) -> &'k [u32]
        ensures { result.now ≡ holders_from group 0 (kind_in owners.now self.now).homes }
    {
        match self {
            Kind::Told(told) => told.persons(group),
            Kind::Own(_) => owners.persons(group),
        }
    }
}
