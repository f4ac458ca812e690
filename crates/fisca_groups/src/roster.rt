//! The persons of groups.

ghost use Rattle.std.specs.Prelude.{◌≡◌, ◌≤◌, ◌<◌, ℕ, [], ◌∷◌, ◌++◌, length, get_or, false, if◌then◌else◌, IfOk, OnOk};
ghost use Rattle.fisca_groups.specs.Lookup.{holders_from, is_in};
ghost use Rattle.fisca_groups.specs.Rosters.{IsRoster};

use crate::home::{Home, Homes};
use std::alloc::{AllocError, Global};
use std::cmp::max;
use std::marker::Model;

/// Places of persons in order, seen as a list.
#[derive(Drop)]
struct PersonList {
    items: Vec<u32>,
}

impl Model for PersonList {
    ghost use Rattle.std.specs.Prelude.{ℕ, List};

    ghost Value = { List ℕ };

    ghost view = { λ p. p.items.items };
}

impl PersonList {
    /// No persons.
    fn new(alloc: Global) -> PersonList
        ensures { result ≡ [] }
    {
        PersonList {
            items: Vec::new(alloc),
        }
    }

    /// One person more.
    fn push(&mut self, person: u32) -> Result<(), AllocError>
        ensures { OnOk result (self.new ≡ self.old ++ person ∷ []) }
    {
        self.items.push(person).map_err(AllocError::from)
    }

    /// The persons in order.
    fn as_slice(&self) -> &[u32]
        ensures { result.now ≡ self.now }
    {
        self.items.as_slice()
    }
}

/// The persons of each group of a kind, seen as a list of lists.
#[derive(Drop)]
pub struct Roster {
    rows: Vec<PersonList>,
}

impl Model for Roster {
    ghost use Rattle.std.specs.Prelude.{ℕ, List};

    ghost Value = { List (List ℕ) };

    ghost view = { λ r. r.rows.items };
}

/// So many groups without persons.
#[tactic(auto, using(crate::proofs::RosterLemmas::none_more))]
fn empty_rows(alloc: Global, count: usize) -> Result<Vec<PersonList>, AllocError>
    ensures count { IfOk result (λ r. length r.items ≡ count) }
    ensures empty { IfOk result (λ r. (g : ℕ) → get_or r.items g [] ≡ []) }
{
    let mut rows = Vec::with_capacity(alloc, count)?;
    for _ in 0..count {
        rows.push(PersonList::new(alloc)).map_err(AllocError::from)?;
    }
    Ok(rows)
}

/// A person is put into the group that holds it.
fn put(rows: &mut Vec<PersonList>, home: &Option<Home>, person: u32) -> Result<(), AllocError>
    ensures count { OnOk result (length rows.new.items ≡ length rows.old.items) }
    ensures rows { OnOk result ((g : ℕ) → g < length rows.old.items → get_or rows.new.items g [] ≡
        get_or rows.old.items g [] ++ (if is_in g home.now then person ∷ [] else [])) }
{
    let Some(home) = home else {
        return Ok(());
    };
    let group = home.group as usize;
    if group < rows.len() {
        rows[group].push(person)?;
    }
    Ok(())
}

/// A number of groups past which no group holds a person.

fn group_count(homes: &[Option<Home>]) -> usize
    ensures { (g : ℕ) → result ≤ g → holders_from g 0 homes.now ≡ [] }
{
    let mut count = 0;
    for home in homes {
        count = count_with(count, home);
    }
    count
}

/// The same with one more person.
fn count_with(count: usize, home: &Option<Home>) -> usize
    ensures more { count ≤ result }
    ensures none { (g : ℕ) → result ≤ g → is_in g home.now ≡ false }
{
    match home {
        Some(home) => max(count, home.group as usize + 1),
        None => count,
    }
}

impl Roster {
    /// The persons of each group, by where persons belong.
    #[tactic(auto, using(crate::proofs::RosterLemmas::holder_step))]
    pub fn of(alloc: Global, homes: &Homes) -> Result<Roster, AllocError>
        ensures { IfOk result (λ r. IsRoster homes.now r) }
    {
        let homes = homes.as_slice();
        let mut rows = empty_rows(alloc, group_count(homes))?;
        for (person, home) in homes.iter().enumerate() {
            put(&mut rows, home, person as u32)?;
        }
        Ok(Roster { rows })
    }

    /// The persons of a group, in order.
    pub fn persons(&self, group: u32) -> &[u32]
        ensures { result.now ≡ get_or self.now group [] }
    {
        match self.rows.get(group as usize) {
            Some(persons) => persons.as_slice(),
            None => &[],
        }
    }
}
