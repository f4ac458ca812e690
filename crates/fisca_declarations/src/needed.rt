//! Entities and Enums that attributes name, and what lines say of a type.

ghost use Rattle.std.specs.Prelude.{◌≡◌, codes, map};
ghost use Rattle.fisca_ast.specs.Views.{tree};
ghost use Rattle.fisca_ast.specs.ModuleViews.{item};
ghost use Rattle.fisca_attributes.specs.Steps.AttributeForms as forms;
ghost use Rattle.fisca_attributes.specs.Values.{needed};
ghost use Rattle.fisca_declarations.specs.VariableForms as spec;
ghost use Rattle.fisca_declarations.specs.Steps.VariableForms as steps;

use crate::declared::Declared;
use fisca_ast::{ClassLine, Expr, FormulaKind};
use fisca_attributes::{TypeName, name_value, period_value, type_value, value_at};
use fisca_time::Unit;

/// The place of the first entity with this constant.
fn entity_named(declared: &Declared<'_>, constant: &str) -> Option<usize>
    ensures { result ≡ spec.place_of_constant declared.now constant.now }
{
    declared.constants.place_of(constant)
}

/// The place of the entity that a value names, or `UnknownName`; `BadAttribute` for what is no name.
pub(crate) fn entity_value(declared: &Declared<'_>, value: &Expr<'_>) -> Result<usize, FormulaKind>
    ensures { result ≡ steps.entity_value declared.now (tree value.now) }
{
    let name = name_value(value)?;
    match entity_named(declared, name.as_str()) {
        Some(place) => Ok(place),
        None => Err(FormulaKind::UnknownName),
    }
}

/// The place of the first Enum of this name.
fn enum_named(declared: &Declared<'_>, name: &str) -> Option<usize>
    ensures { result ≡ spec.place_of_enum declared.now name.now }
{
    declared.enums.of_name(name)
}

/// The place of the Enum that a value names, or `UnknownName`; `BadAttribute` for what is no name.
pub(crate) fn enum_value(declared: &Declared<'_>, value: &Expr<'_>) -> Result<usize, FormulaKind>
    ensures { result ≡ steps.enum_value declared.now (tree value.now) }
{
    let name = name_value(value)?;
    match enum_named(declared, name.as_str()) {
        Some(place) => Ok(place),
        None => Err(FormulaKind::UnknownName),
    }
}

/// The name of the type, which has to be there.
pub(crate) fn needed_type(items: &[ClassLine<'_>]) -> Result<TypeName, FormulaKind>
    ensures { result ≡ needed forms.type_value (forms.value_at (codes "value_type") (map item items.now)) }
{
    match value_at(b"value_type".as_slice(), items) {
        Some(value) => type_value(value),
        None => Err(FormulaKind::BadAttribute),
    }
}

/// The definition period, which has to be there.
pub(crate) fn needed_period(items: &[ClassLine<'_>]) -> Result<Unit, FormulaKind>
    ensures { result ≡ needed forms.period_value (forms.value_at (codes "definition_period") (map item items.now)) }
{
    match value_at(b"definition_period".as_slice(), items) {
        Some(value) => period_value(value),
        None => Err(FormulaKind::BadAttribute),
    }
}

/// The Enum of possible values, which has to be there.
pub(crate) fn needed_enum(
    declared: &Declared<'_>,
    items: &[ClassLine<'_>],
) -> Result<usize, FormulaKind>
    ensures { result ≡ needed (steps.enum_value declared.now) (forms.value_at (codes "possible_values") (map item items.now)) }
{
    match value_at(b"possible_values".as_slice(), items) {
        Some(value) => enum_value(declared, value),
        None => Err(FormulaKind::BadAttribute),
    }
}
