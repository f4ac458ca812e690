//! Roles of groups.

ghost use Rattle.std.specs.Prelude.{◌≡◌, ℕ, List, Some, None, map, IfOk, OnOk, option_map, if◌then◌else◌};
ghost use Rattle.std.specs.Str.{bytes_eq};
ghost use Rattle.fisca_symbols.specs.KnownRoles.{role, roles, title};
ghost use Rattle.fisca_symbols.specs.Steps.Spelling.{spelled};
ghost use Rattle.fisca_model.specs.Tables.{most, otherwise, place_in, role_from, subrole_of, whole_role};
ghost use Rattle.indexmap.specs.IndexMap.{get};

use crate::index::note;
use crate::names::Names;
use crate::text::{SourceText, Spelling};
use crate::texts::Texts;
use fisca_model::RolePlace;
use indexmap::IndexMap;
use std::alloc::{AllocError, Global};

/// A role of a group.
#[derive(Drop)]
pub struct Role<'a> {
    /// The name of one who has it.
    pub key: SourceText<'a>,
    /// The name of all who have it.
    pub plural: Option<SourceText<'a>>,
    /// What is told of it.
    pub label: Option<SourceText<'a>>,
    /// What is told of it at length.
    pub doc: Option<SourceText<'a>>,
    /// How many persons have it at most; of a role with subroles their number counts instead.
    pub max: Option<u64>,
    /// The keys of its subroles, which persons take in order.
    pub subroles: Texts<'a>,
}

impl<'a> Role<'a> {
    /// How many persons have it at most, where there is a limit: as many as it has subroles, or its maximum.
    pub fn most(&self) -> Option<u64>
        ensures { result ≡ most (role self.now) }
    {
        let subroles = self.subroles.as_slice();
        if subroles.is_empty() {
            self.max
        } else {
            Some(subroles.len() as u64)
        }
    }

    /// The name that inputs give it: its plural, or its key if it has none.
    pub fn title(&self) -> &SourceText<'a>
        ensures { result.now ≡ title (role self.now) }
    {
        match &self.plural {
            Some(plural) => plural,
            None => &self.key,
        }
    }
}

/// Notes the subroles of the role at this place.
#[tactic(auto, using(crate::proofs::Noted::noted))]
fn note_subroles<'a>(
    alloc: Global,
    places: &mut IndexMap<SourceText<'a>, RolePlace>,
    subroles: &[SourceText<'a>],
    role: usize,
    spelling: Spelling,
) -> Result<(), AllocError>
    ensures { OnOk result ((t : List ℕ) → get bytes_eq places.new t ≡
        otherwise (get bytes_eq places.old t)
        (option_map (subrole_of role) (place_in (λ key. bytes_eq (spelled spelling key) t) subroles.now))) }
{
    for (at, key) in subroles.iter().enumerate() {
        let place = RolePlace {
            role,
            subrole: Some(at),
        };
        note(places, key.spelled(alloc, spelling)?, place)?;
    }
    Ok(())
}

/// Notes the role at this place, and its subroles.
fn note_role<'a>(
    alloc: Global,
    places: &mut IndexMap<SourceText<'a>, RolePlace>,
    item: &Role<'a>,
    at: usize,
    spelling: Spelling,
) -> Result<(), AllocError>
    ensures { OnOk result ((t : List ℕ) → get bytes_eq places.new t ≡
        otherwise (otherwise (get bytes_eq places.old t) (if bytes_eq (spelled spelling item.now.key) t then Some (whole_role at) else None))
        (option_map (subrole_of at) (place_in (λ key. bytes_eq (spelled spelling key) t) item.now.subroles))) }
{
    let whole = RolePlace {
        role: at,
        subrole: None,
    };
    note(places, item.key.spelled(alloc, spelling)?, whole)?;
    note_subroles(alloc, places, item.subroles.as_slice(), at, spelling)?;
    Ok(())
}

/// Where each key of a role or a subrole stands first, keys being compared in this spelling.
pub(crate) fn places_of_roles<'a>(
    alloc: Global,
    items: &[Role<'a>],
    spelling: Spelling,
) -> Result<IndexMap<SourceText<'a>, RolePlace>, AllocError>
    ensures { IfOk result (λ m. (t : List ℕ) → get bytes_eq m t ≡ role_from (λ key. bytes_eq (spelled spelling key) t) 0 (roles items.now)) }
{
    let mut places = IndexMap::new(alloc);
    for (at, item) in items.iter().enumerate() {
        note_role(alloc, &mut places, item, at, spelling)?;
    }
    Ok(places)
}

/// The names that inputs give roles.
pub(crate) fn titles_of<'a>(alloc: Global, items: &[Role<'a>]) -> Result<Names<'a>, AllocError>
    ensures { IfOk result (λ n. n ≡ map title (roles items.now)) }
{
    let mut names = Names::new(alloc);
    for item in items {
        names = names.with(alloc, item.title().copied(alloc)?)?;
    }
    Ok(names)
}
