//! A variable, by its attributes and formulas.

ghost use Rattle.std.specs.Prelude.{◌≡◌, map};
ghost use Rattle.fisca_ast.specs.Outcomes.{Gives};
ghost use Rattle.fisca_ast.specs.ModuleViews.{item};
ghost use Rattle.fisca_declarations.specs.VariableForms as spec;
ghost use Rattle.fisca_declarations.specs.Steps.VariableForms as steps;

use crate::attributes::Attributes;
use crate::declaration::Declaration;
use crate::defaults::no_default;
use crate::formulas::Formulas;
use crate::types::TypeLines;
use fisca_ast::{ClassLine, FormulaKind};
use fisca_attributes::TypeName;
use fisca_symbols::{DeclaredType, DefaultValue, SourceText, Texts, Variable};
use std::alloc::Global;

/// The type as it is declared: an Enum has possible values.
fn declared_type(
    value_type: TypeName,
    choices: Result<usize, FormulaKind>,
) -> Result<DeclaredType, FormulaKind>
    ensures { result ≡ steps.declared_type value_type choices }
{
    match value_type {
        TypeName::Float => Ok(DeclaredType::Float),
        TypeName::Int => Ok(DeclaredType::Int),
        TypeName::Bool => Ok(DeclaredType::Bool),
        TypeName::Date => Ok(DeclaredType::Date),
        TypeName::Text => Ok(DeclaredType::Text),
        TypeName::Enum => Ok(DeclaredType::Enum(choices?)),
    }
}

/// The default value that is said, or else that of the type.
fn default_or_none<'a>(
    value_type: TypeName,
    said: Option<DefaultValue<'a>>,
) -> Result<DefaultValue<'a>, FormulaKind>
    ensures { Gives (λ d. d) (steps.default_or_none value_type said.entry) result }
{
    match said {
        Some(found) => Ok(found),
        None => no_default(value_type),
    }
}

/// The references that are said, or none.
fn references_or_none<'a>(alloc: Global, said: Option<Texts<'a>>) -> Texts<'a>
    ensures { result ≡ spec.or_none said.entry }
{
    match said {
        Some(found) => found,
        None => Texts::new(Vec::new(alloc)),
    }
}

/// A variable and its declaration, of this name and this line of the module at a place, by what its lines say; or `BadAttribute`
/// where something is missing.
#[tactic(auto, using(crate::proofs::DatedFormulas::formulas_written))]
pub fn variable_of<'a>(
    alloc: Global,
    place: usize,
    line: usize,
    name: SourceText<'a>,
    types: TypeLines,
    said: Attributes<'a>,
    items: Vec<ClassLine<'a>>,
) -> Result<(Variable<'a>, Declaration<'a>), FormulaKind>
    ensures { Gives spec.both_written (steps.variable_of place line name.entry types said.entry (map item items.entry.items)) result }
{
    let value_type = types.value_type?;
    let entity = said.entity.ok_or(FormulaKind::BadAttribute)?;
    let definition_period = types.definition_period?;
    let declared = declared_type(value_type, types.possible_values)?;
    let default_value = default_or_none(value_type, said.default_value)?;
    let variable = Variable {
        name,
        entity,
        value_type: declared,
        definition_period,
        default_value,
        end: said.end,
        set_input: said.set_input,
    };
    let declaration = Declaration {
        module: place,
        line,
        label: said.label,
        documentation: said.documentation,
        unit: said.unit,
        reference: references_or_none(alloc, said.reference),
        formulas: Formulas::new(items),
    };
    Ok((variable, declaration))
}
