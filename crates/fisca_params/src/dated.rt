//! The values of a date map.
ghost use Rattle.std.specs.Prelude.{◌≡◌, IfOk, map};
ghost use Rattle.fisca_yaml.specs.Views.{node};
ghost use Rattle.fisca_params.specs.Steps.Content.{read_value, dates_by};
ghost use Rattle.fisca_params.specs.Written.{seen};

use crate::written::Written;
use fisca_num::Fraction;
use fisca_scales::{Dated, Dates};
use fisca_yaml::Tree;
use std::alloc::{AllocError, Global};

/// A kind of value that a parameter may have.
pub(crate) trait DatedValue: Copy {
    ghost use Rattle.std.specs.Prelude.{◌≡◌, Option};
    ghost use Rattle.fisca_yaml.specs.Node.{Node};
    ghost use Rattle.fisca_yaml.specs.Views.{node};

    ghost reads: { Node → Option Self };

    /// The value that a tree says, where it says one.
    fn read(tree: &Tree<'_>) -> Option<Self>
        ensures { result ≡ reads (node tree.now) };
}

impl DatedValue for Fraction {
    ghost use Rattle.fisca_yaml.specs.Steps.Find.{as_number};

    ghost reads = { as_number };

    fn read(tree: &Tree<'_>) -> Option<Fraction> {
        tree.as_number()
    }
}

impl DatedValue for bool {
    ghost use Rattle.fisca_yaml.specs.Steps.Find.{as_bool};

    ghost reads = { as_bool };

    fn read(tree: &Tree<'_>) -> Option<bool> {
        tree.as_bool()
    }
}

/// The values of a date map in order of time, where each is null or of this kind.
pub(crate) fn dates_in<V: DatedValue>(
    alloc: Global,
    written: &[Written<'_, '_>],
) -> Result<Option<Dates<V>>, AllocError>
    ensures { IfOk result (λ dates. dates ≡ dates_by V.reads (map seen written.now)) }
{
    let mut items = Vec::with_capacity(alloc, written.len())?;
    for one in written {
        let Some(value) = read_value::<V>(one.value) else {
            return Ok(None);
        };
        items.push(Dated::new(one.date, value))?;
    }
    Ok(Some(Dates::in_time(alloc, items)?))
}

/// What stands at a date: nothing for a null, else a value of this kind.
fn read_value<V: DatedValue>(tree: &Tree<'_>) -> Option<Option<V>>
    ensures { result ≡ read_value V.reads (node tree.now) }
{
    match tree {
        Tree::Null => Some(None),
        value => Some(Some(V::read(value)?)),
    }
}
