//! What the lines of a variable say of its type, and what types allow.

ghost use Rattle.std.specs.Prelude.{◌≡◌, map};
ghost use Rattle.fisca_ast.specs.ModuleViews.{item};
ghost use Rattle.fisca_declarations.specs.VariableForms as spec;
ghost use Rattle.fisca_declarations.specs.Steps.VariableForms as steps;

use crate::declared::Declared;
use crate::needed::{needed_enum, needed_period, needed_type};
use fisca_ast::{ClassLine, FormulaKind};
use fisca_attributes::TypeName;
use fisca_time::Unit;

/// What the lines of a variable say of its type, wherever they stand: other lines are judged by it. What is not said, or is of
/// another form, is `BadAttribute`.
#[derive(Clone, Copy, Debug, PartialEq, Eq)]
pub struct TypeLines {
    /// The name of the type of its values.
    pub value_type: Result<TypeName, FormulaKind>,
    /// The place of its Enum among all; `UnknownName` where there is none of that name.
    pub possible_values: Result<usize, FormulaKind>,
    /// What its values are for.
    pub definition_period: Result<Unit, FormulaKind>,
}

/// What these lines say of the type.
pub fn type_lines(declared: &Declared<'_>, items: &[ClassLine<'_>]) -> TypeLines
    ensures { result ≡ steps.type_lines declared.now (map item items.now) }
{
    TypeLines {
        value_type: needed_type(items),
        possible_values: needed_enum(declared, items),
        definition_period: needed_period(items),
    }
}

/// Whether a type has possible values; an unknown one may have.
pub(crate) fn allows_enum(value_type: Option<TypeName>) -> bool
    ensures { result ≡ spec.allows spec.is_enum value_type }
{
    match value_type {
        None | Some(TypeName::Enum) => true,
        Some(TypeName::Float | TypeName::Int | TypeName::Bool | TypeName::Date | TypeName::Text) =>
            false,
    }
}

/// Whether values of a type are divided; of an unknown one they may be.
pub(crate) fn allows_division(value_type: Option<TypeName>) -> bool
    ensures { result ≡ spec.allows spec.is_float value_type }
{
    match value_type {
        None | Some(TypeName::Float) => true,
        Some(TypeName::Int | TypeName::Bool | TypeName::Date | TypeName::Text | TypeName::Enum) => {
            false
        }
    }
}

/// Whether variables of a type have formulas; of an unknown one they may.
fn allows_formulas(value_type: Option<TypeName>) -> bool
    ensures { result ≡ spec.allows spec.has_formulas value_type }
{
    match value_type {
        None | Some(TypeName::Float | TypeName::Int | TypeName::Bool | TypeName::Enum) => true,
        Some(TypeName::Date | TypeName::Text) => false,
    }
}

/// Whether values are for all time.
fn is_eternal(period: Option<Unit>) -> bool
    ensures { result ≡ steps.is_eternal period }
{
    match period {
        Some(Unit::Eternity) => true,
        None | Some(Unit::Day | Unit::Month | Unit::Year) => false,
    }
}

/// Whether a variable of this type may have formulas.
pub(crate) fn may_have_formulas(types: TypeLines) -> bool
    ensures { result ≡ steps.may_have_formulas types }
{
    allows_formulas(types.value_type.ok()) && !is_eternal(types.definition_period.ok())
}
