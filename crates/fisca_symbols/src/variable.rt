//! Variables.

ghost use Rattle.std.specs.Prelude.{◌≡◌, ℕ, List, IfOk, map};
ghost use Rattle.std.specs.Str.{bytes_eq};
ghost use Rattle.fisca_symbols.specs.KnownVariables.{variable};
ghost use Rattle.fisca_model.specs.Tables.{place_in};
ghost use Rattle.indexmap.specs.IndexMap.{get};

use crate::index::note;
use crate::text::SourceText;
use fisca_num::Fraction;
use fisca_time::{Instant, Unit};
use indexmap::IndexMap;
use std::alloc::{AllocError, Global};

/// The type that a variable is declared with.
#[derive(Clone, Copy, Debug, PartialEq, Eq)]
pub enum DeclaredType {
    /// A number.
    Float,
    /// A whole number.
    Int,
    /// `True` or `False`.
    Bool,
    /// A day, which formulas do not use.
    Date,
    /// A text, which formulas do not use.
    Text,
    /// A member of the Enum at this place among all.
    Enum(usize),
}

/// The value of a variable where it has neither an input nor a formula. Days and texts may have none.
#[derive(Drop)]
pub enum DefaultValue<'a> {
    /// A number.
    Number(Fraction),
    /// `True` or `False`.
    Bool(bool),
    /// The member at this place of the variable's Enum.
    Member(usize),
    /// A day.
    Date(Option<Instant>),
    /// A text.
    Text(Option<SourceText<'a>>),
}

/// How an input of more than the definition period is shared.
#[derive(Clone, Copy, Debug, PartialEq, Eq)]
pub enum SetInput {
    /// Its parts have equal shares.
    DivideByPeriod,
    /// Each of its parts has the whole value.
    DispatchByPeriod,
}

/// A variable, as who gives or asks for its values knows it.
#[derive(Drop)]
pub struct Variable<'a> {
    /// The name.
    pub name: SourceText<'a>,
    /// The place of its entity among all.
    pub entity: usize,
    /// The type of its values.
    pub value_type: DeclaredType,
    /// What its values are for.
    pub definition_period: Unit,
    /// Its value where nothing else says one.
    pub default_value: DefaultValue<'a>,
    /// The last day on which it has formulas.
    pub end: Option<Instant>,
    /// How longer inputs are shared.
    pub set_input: Option<SetInput>,
}

/// Where each name of a variable stands first.
#[tactic(auto, using(crate::proofs::Noted::noted))]
pub(crate) fn places_of_variables<'a>(
    alloc: Global,
    items: &[Variable<'a>],
) -> Result<IndexMap<SourceText<'a>, usize>, AllocError>
    ensures { IfOk result (λ m. (t : List ℕ) → get bytes_eq m t ≡ place_in (λ v. bytes_eq v.name t) (map variable items.now)) }
{
    let mut places = IndexMap::new(alloc);
    for (place, item) in items.iter().enumerate() {
        note(&mut places, item.name.copied(alloc)?, place)?;
    }
    Ok(places)
}
