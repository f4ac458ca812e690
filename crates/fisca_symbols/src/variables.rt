//! The variables of a rule set.

ghost use Rattle.std.specs.Prelude.{◌≡◌, IfOk, IfSome, map, option_map};
ghost use Rattle.std.specs.Str.{bytes_eq};
ghost use Rattle.fisca_symbols.specs.KnownVariables.{variable};
ghost use Rattle.fisca_model.specs.Tables.{place_in, first_where};

use crate::text::SourceText;
use crate::variable::{Variable, places_of_variables};
use indexmap::IndexMap;
use std::alloc::{AllocError, Global};
use std::marker::Model;

/// Variables in the order of the modules, seen as a list. Each is found by its name.
#[derive(Drop)]
pub struct Variables<'a> {
    items: Vec<Variable<'a>>,
    names: IndexMap<SourceText<'a>, usize>,
}

impl<'a> Model for Variables<'a> {
    ghost use Rattle.std.specs.Prelude.{List};
    ghost use Rattle.fisca_symbols.specs.declared.variable.Variable.{Variable};
    ghost use Rattle.fisca_symbols.specs.KnownVariables.{AreFound};

    ghost Value = { List Variable };

    ghost view = { λ v. v.items.items };

    ghost invariant = { λ v. AreFound v.items.items v.names };
}

impl<'a> Variables<'a> {
    /// These variables.
    pub fn new(alloc: Global, items: Vec<Variable<'a>>) -> Result<Variables<'a>, AllocError>
        ensures { IfOk result (λ v. v ≡ items.entry.items) }
    {
        let names = places_of_variables(alloc, items.as_slice())?;
        Ok(Variables { items, names })
    }

    /// The variables in order.
    pub fn as_slice(&self) -> &[Variable<'a>]
        ensures { result.now ≡ self.now }
    {
        self.items.as_slice()
    }

    /// The place of the first variable of this name.
    fn place_of(&self, name: &str) -> Option<usize>
        ensures { result ≡ place_in (λ v. bytes_eq v.name name.now) (map variable self.now) }
    {
        self.names.get(&SourceText::borrowed(name)).copied()
    }

    /// The first variable of this name, and its place.
    #[tactic(auto, using(crate::proofs::First::first_none))]
    pub fn of_name(&self, name: &str) -> Option<(usize, &Variable<'a>)>
        ensures { option_map (λ p. (p.0, variable p.1.now)) result ≡ first_where (λ v. bytes_eq v.name name.now) 0 (map variable self.now) }
    {
        match self.place_of(name) {
            Some(place) => match self.items.get(place) {
                Some(variable) => Some((place, variable)),
                None => None,
            },
            None => None,
        }
    }
}
