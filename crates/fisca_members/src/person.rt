//! Persons.

ghost use Rattle.std.specs.Prelude.{◌≡◌, ◌<◌, ◌≤◌, [], ◌∷◌, ◌++◌, length, IfOk, IfSome};
ghost use Rattle.fisca_members.specs.Persons as spec;
ghost use Rattle.fisca_members.specs.Steps.Persons as steps;

use crate::few::FEW;
use fisca_symbols::{Names, SourceText};
use std::alloc::{AllocError, Global};
use std::marker::Model;

/// A person.
#[derive(Drop)]
pub struct Person<'t> {
    /// The name.
    pub name: SourceText<'t>,
    /// The line of the name.
    pub line: usize,
}

/// Persons in order, at most 1,000 of them, seen as a list. Each is found by its name: a few are looked through, more found by a table.
#[derive(Drop)]
pub struct Persons<'t> {
    items: Vec<Person<'t>>,
    names: Option<Names<'t>>,
}

impl<'t> Model for Persons<'t> {
    ghost use Rattle.std.specs.Prelude.{◌≡◌, ◌≤◌, List, length, IfSome};
    ghost use Rattle.fisca_members.specs.declared.person.Person.{Person};
    ghost use Rattle.fisca_members.specs.Steps.Persons.{names_of};

    ghost Value = { List Person };

    ghost view = { λ p. p.items.items };

    ghost invariant = { λ p. IfSome p.names (λ n. n ≡ names_of p.items.items) × (length p.items.items ≤ 1000) };
}

/// The names of persons.
fn names_of<'t>(alloc: Global, persons: &[Person<'t>]) -> Result<Names<'t>, AllocError>
    ensures { IfOk result (λ n. n ≡ steps.names_of persons.now) }
{
    let mut names = Names::new(alloc);
    for person in persons {
        names = names.with(alloc, person.name.copied(alloc)?)?;
    }
    Ok(names)
}

/// The table of persons, the last of whom it has not yet; none of a few.
fn table_of<'t>(
    alloc: Global,
    names: Option<Names<'t>>,
    name: &'t str,
    persons: &[Person<'t>],
) -> Result<Option<Names<'t>>, AllocError>
    requires { IfSome names (λ n. n ++ name.now ∷ [] ≡ steps.names_of persons.now) }
    ensures { IfOk result (λ o. IfSome o (λ n. n ≡ steps.names_of persons.now)) }
{
    match names {
        Some(names) => Ok(Some(names.with(alloc, SourceText::borrowed(name))?)),
        None if persons.len() > FEW => Ok(Some(names_of(alloc, persons)?)),
        None => Ok(None),
    }
}

/// The place of the first person of this name.
fn place_among(persons: &[Person<'_>], name: &str) -> Option<usize>
    ensures { result ≡ steps.person_named persons.now name.now }
{
    for (place, person) in persons.iter().enumerate() {
        if person.name.as_str() == name {
            return Some(place);
        }
    }
    None
}

impl<'t> Persons<'t> {
    /// No persons.
    pub(crate) fn new(alloc: Global) -> Persons<'t>
        ensures { result ≡ [] }
    {
        Persons {
            items: Vec::new(alloc),
            names: None,
        }
    }

    /// One person more.
    pub(crate) fn with(
        self,
        alloc: Global,
        name: &'t str,
        line: usize,
    ) -> Result<Persons<'t>, AllocError>
        requires { length self < 1000 }
        ensures { IfOk result (λ p. p ≡ self.entry ++ spec.person_at name.now line ∷ []) }
    {
        let mut items = self.items;
        let person = Person {
            name: SourceText::borrowed(name),
            line,
        };
        items.push(person).map_err(AllocError::from)?;
        let names = table_of(alloc, self.names, name, items.as_slice())?;
        Ok(Persons { items, names })
    }

    /// The persons in order.
    pub fn as_slice(&self) -> &[Person<'t>]
        ensures value { result.now ≡ self.now }
        ensures most { length result.now ≤ 1000 }
    {
        self.items.as_slice()
    }

    /// How many there are.
    pub fn len(&self) -> usize
        ensures value { result ≡ length self.now }
        ensures most { result ≤ 1000 }
    {
        self.items.as_slice().len()
    }

    /// The place of the person of this name.
    pub fn of_name(&self, name: &str) -> Option<usize>
        ensures { result ≡ steps.person_named self.now name.now }
    {
        match &self.names {
            Some(names) => names.place_of(name),
            None => place_among(self.items.as_slice(), name),
        }
    }
}
