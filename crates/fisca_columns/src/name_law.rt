//! Laws of the names in texts, each as the contract of a function that changes nothing.

ghost use Rattle.std.specs.Prelude.{IsUtf8, slice_get};
ghost use Rattle.fisca_columns.specs.Steps.Texts as spec;
ghost use Rattle.fisca_situations.specs.Steps.Views.{situation as situation_view};
ghost use Rattle.fisca_symbols.specs.Known.{tables as known};

use crate::texts::{choice_at, names_of};
use fisca_model::Key;
use fisca_situations::Situation;
use fisca_symbols::Tables;

/// Law: the names of a key's variable and member are UTF-8, so that they are written as they are.
pub fn names_of_keys_are_utf8<'t>(tables: &'t Tables<'_>, situation: &'t Situation, key: &Key)
    ensures variable { IsUtf8 (spec.name_of (slice_get (known tables.now).variables key.now.variable)) }
    ensures member { IsUtf8 (spec.member_of (situation_view situation.now).members key.now.member (slice_get (known tables.now).variables key.now.variable)) }
{
    let (name, member) = names_of(tables, situation, key);
    let _name = name.as_bytes();
    let _member = member.as_bytes();
}

/// Law: the name of the member of an Enum that is a value of the variable at a place is UTF-8.
pub fn names_of_values_are_utf8(tables: &Tables<'_>, variable: usize, place: usize)
    ensures { IsUtf8 (spec.choice_at (known tables.now) (slice_get (known tables.now).variables variable) place) }
{
    let name = choice_at(tables, variable, place);
    let _bytes = name.as_bytes();
}
