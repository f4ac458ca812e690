//! Members of Enums as default values.

ghost use Rattle.std.specs.Prelude.{◌≡◌, Some, slice_get};
ghost use Rattle.std.specs.Str.{bytes_eq};
ghost use Rattle.fisca_model.specs.Tables.{place_in};
ghost use Rattle.fisca_ast.specs.Views.{tree};
ghost use Rattle.fisca_ast.specs.Outcomes.{Gives};
ghost use Rattle.fisca_declarations.specs.Steps.VariableForms as spec;

use crate::declared::Declared;
use fisca_ast::{Expr, FormulaKind};
use fisca_attributes::{Dotted, dotted_value};
use fisca_symbols::{Choices, DefaultValue};

/// The place of the first member of this name.
fn member_named(choices: &Choices<'_>, name: &str) -> Option<usize>
    ensures { result ≡ place_in (λ m. bytes_eq m.0 name.now) choices.now.members }
{
    choices.members.of_name(name)
}

/// The place of a member of this Enum.
fn member_place(choices: &Choices<'_>, dotted: &Dotted<'_>) -> Option<usize>
    ensures { result ≡ spec.member_place choices.now dotted.now }
{
    if dotted.left.as_bytes() == choices.name.as_bytes() {
        member_named(choices, dotted.right.as_str())
    } else {
        None
    }
}

/// The place of a member of the Enum at a place.
fn member_of(declared: &Declared<'_>, choices: usize, dotted: &Dotted<'_>) -> Option<usize>
    ensures { result ≡ spec.member_of (slice_get declared.now.enums choices) dotted.now }
{
    match declared.enums.as_slice().get(choices) {
        Some(found) => member_place(found, dotted),
        None => None,
    }
}

/// A member of the Enum at a place.
fn member_default<'a>(
    declared: &Declared<'_>,
    choices: usize,
    value: &Expr<'_>,
) -> Result<DefaultValue<'a>, FormulaKind>
    ensures { Gives (λ d. d) (spec.enum_default declared.now (Some choices) (tree value.now)) result }
{
    let dotted = dotted_value(value)?;
    match member_of(declared, choices, &dotted) {
        Some(place) => Ok(DefaultValue::Member(place)),
        None => Err(FormulaKind::BadAttribute),
    }
}

/// A member of this Enum; any, where it is unknown which Enum.
pub(crate) fn enum_default<'a>(
    declared: &Declared<'_>,
    choices: Option<usize>,
    value: &Expr<'_>,
) -> Result<DefaultValue<'a>, FormulaKind>
    ensures { Gives (λ d. d) (spec.enum_default declared.now choices (tree value.now)) result }
{
    match choices {
        Some(place) => member_default(declared, place, value),
        None => {
            dotted_value(value)?;
            Ok(DefaultValue::Member(0))
        }
    }
}
