//! What the attributes of a variable say, line by line.

ghost use Rattle.fisca_ast.specs.Outcomes.{Gives};
ghost use Rattle.fisca_ast.specs.Views.{tree};
ghost use Rattle.fisca_declarations.specs.Lines as spec;
ghost use Rattle.fisca_declarations.specs.VariableForms as forms;
ghost use Rattle.fisca_declarations.specs.Steps.VariableForms as forms_steps;

use crate::declared::Declared;
use crate::defaults::default_said;
use crate::needed::entity_value;
use crate::types::{TypeLines, allows_division, allows_enum};
use fisca_ast::{Expr, FormulaKind};
use fisca_attributes::{
    instant_value, map_of, references_value, sharing_value, text_value, truth_value, whole_value,
};
use fisca_symbols::{DefaultValue, SetInput, SourceText, Texts};
use fisca_time::Instant;
use std::alloc::Global;

/// What the lines of a variable say so far, but for its type, its Enum and its definition period.
#[derive(Drop)]
pub struct Attributes<'a> {
    /// The place of its entity among all.
    pub entity: Option<usize>,
    /// Its value where nothing else says one. It is left out where the type is not known.
    pub default_value: Option<DefaultValue<'a>>,
    /// The last day on which it has formulas.
    pub end: Option<Instant>,
    /// How longer inputs are shared.
    pub set_input: Option<SetInput>,
    /// What is told of it.
    pub label: Option<SourceText<'a>>,
    /// What is told of it at length.
    pub documentation: Option<SourceText<'a>>,
    /// What its values are counted in.
    pub unit: Option<SourceText<'a>>,
    /// The law that it follows.
    pub reference: Option<Texts<'a>>,
}

impl<'a> Attributes<'a> {
    ghost use Rattle.std.specs.Prelude.{◌≡◌};
    ghost use Rattle.fisca_declarations.specs.Lines.{nothing_said};

    /// Nothing is said.
    pub fn new() -> Attributes<'a>
        ensures { result ≡ nothing_said }
    {
        Attributes {
            entity: None,
            default_value: None,
            end: None,
            set_input: None,
            label: None,
            documentation: None,
            unit: None,
            reference: None,
        }
    }
}

/// Whether the Enum that is said is one, and the type has possible values.
fn enum_fits(types: TypeLines) -> Result<(), FormulaKind>
    ensures { Gives (λ _. tt) (forms_steps.enum_fits types types.possible_values) result }
{
    types.possible_values?;
    if allows_enum(types.value_type.ok()) {
        Ok(())
    } else {
        Err(FormulaKind::BadAttribute)
    }
}

/// How longer inputs of this type are shared: divided are numbers alone.
fn set_input_said(types: TypeLines, value: &Expr<'_>) -> Result<SetInput, FormulaKind>
    ensures { Gives (λ s. s) (forms_steps.set_input_said types (tree value.now)) result }
{
    match sharing_value(value)? {
        SetInput::DivideByPeriod => {
            if allows_division(types.value_type.ok()) {
                Ok(SetInput::DivideByPeriod)
            } else {
                Err(FormulaKind::BadAttribute)
            }
        }
        SetInput::DispatchByPeriod => Ok(SetInput::DispatchByPeriod),
    }
}

/// Whether an attribute that is passed over is of its form: OpenFisca's packages have it for other programs, and it says nothing
/// here. (An addition of this project.)
#[tactic(auto, unfolding(crate::specs::VariableForms::passed_over))]
fn pass_over(name: &[u8], value: &Expr<'_>) -> Result<(), FormulaKind>
    ensures { Gives (λ _. tt) (forms.passed_over name.now (tree value.now)) result }
{
    if name == b"max_length".as_slice() {
        whole_value(value)?;
        return Ok(());
    }
    if name == b"metadata".as_slice() {
        map_of(value)?;
        return Ok(());
    }
    if name == b"is_period_size_independent".as_slice() {
        truth_value(value)?;
        return Ok(());
    }
    Err(FormulaKind::BadAttribute)
}

/// Reads what is told of a variable; what is passed over says nothing.
#[tactic(auto, unfolding(crate::specs::Lines::with_told))]
fn read_told<'a>(
    alloc: Global,
    said: &mut Attributes<'a>,
    name: &[u8],
    value: &Expr<'a>,
) -> Result<(), FormulaKind>
    ensures { Gives (λ _. said.new) (spec.with_told said.old name.now (tree value.now)) result }
{
    if name == b"label".as_slice() {
        said.label = Some(text_value(alloc, value)?);
        return Ok(());
    }
    if name == b"documentation".as_slice() {
        said.documentation = Some(text_value(alloc, value)?);
        return Ok(());
    }
    if name == b"unit".as_slice() {
        said.unit = Some(text_value(alloc, value)?);
        return Ok(());
    }
    if name == b"reference".as_slice() {
        said.reference = Some(references_value(alloc, value)?);
        return Ok(());
    }
    pass_over(name, value)
}

/// Reads an attribute of this name, which comes for the first time: its value into its field. One that is not known is
/// `BadAttribute`.
#[tactic(auto, unfolding(crate::specs::Lines::with_attribute))]
pub(crate) fn read_attribute<'a>(
    alloc: Global,
    declared: &Declared<'_>,
    types: TypeLines,
    said: &mut Attributes<'a>,
    name: &[u8],
    value: &Expr<'a>,
) -> Result<(), FormulaKind>
    ensures { Gives (λ _. said.new) (spec.with_attribute declared.now types said.old name.now (tree value.now)) result }
{
    if name == b"value_type".as_slice() {
        types.value_type?;
        return Ok(());
    }
    if name == b"entity".as_slice() {
        said.entity = Some(entity_value(declared, value)?);
        return Ok(());
    }
    if name == b"definition_period".as_slice() {
        types.definition_period?;
        return Ok(());
    }
    if name == b"default_value".as_slice() {
        said.default_value = default_said(alloc, declared, types, value)?;
        return Ok(());
    }
    if name == b"possible_values".as_slice() {
        return enum_fits(types);
    }
    if name == b"end".as_slice() {
        said.end = Some(instant_value(alloc, value)?);
        return Ok(());
    }
    if name == b"set_input".as_slice() {
        said.set_input = Some(set_input_said(types, value)?);
        return Ok(());
    }
    read_told(alloc, said, name, value)
}
