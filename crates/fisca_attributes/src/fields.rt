//! Fields: arguments by keyword of a call, and entries of a map.

ghost use Rattle.std.specs.Prelude.{◌≡◌, [], map, option_map};
ghost use Rattle.fisca_ast.specs.Views.{tree, argument_view};
ghost use Rattle.fisca_attributes.specs.Fields.{labels, field_view};
ghost use Rattle.fisca_ast.specs.Outcomes.{Gives};
ghost use Rattle.fisca_attributes.specs.Values as spec;
ghost use Rattle.fisca_attributes.specs.Steps.Values as steps;

use crate::values::text_value;
use fisca_ast::{Argument, Expr, FormulaKind};
use fisca_symbols::SourceText;
use std::alloc::Global;

/// A label, and the value behind it.
#[derive(Drop)]
pub(crate) struct Field<'e, 'a> {
    pub label: SourceText<'a>,
    pub value: &'e Expr<'a>,
}

/// What has the fields.
#[derive(Clone, Copy, Debug, PartialEq, Eq)]
pub(crate) enum Form {
    /// A role.
    Role,
    /// An entity.
    Entity,
}

/// Whether a field of this form may have this label.
fn is_label(form: Form, label: &[u8]) -> bool
    ensures { result ≡ spec.is_among (labels form) label.now }
{
    if label == b"key".as_slice()
        || label == b"plural".as_slice()
        || label == b"label".as_slice()
        || label == b"doc".as_slice()
    {
        return true;
    }
    match form {
        Form::Role => label == b"max".as_slice() || label == b"subroles".as_slice(),
        Form::Entity => label == b"is_person".as_slice() || label == b"roles".as_slice(),
    }
}

/// The field that an argument is.
fn field_of<'e, 'a>(alloc: Global, argument: &'e Argument<'a>) -> Result<Field<'e, 'a>, FormulaKind>
    ensures { Gives field_view (steps.field (argument_view argument.now)) result }
{
    match argument {
        Argument::Positional(_) => Err(FormulaKind::BadAttribute),
        Argument::Keyword(label, value) => Ok(Field {
            label: SourceText::borrowed(label.as_str()),
            value,
        }),
        Argument::Entry(label, value) => Ok(Field {
            label: text_value(alloc, label)?,
            value,
        }),
    }
}

/// Whether one of these has this label.
fn is_labelled(label: &[u8], fields: &[Field<'_, '_>]) -> bool
    ensures { result ≡ steps.is_labelled label.now (map field_view fields.now) }
{
    for field in fields {
        if field.label.as_bytes() == label {
            return true;
        }
    }
    false
}

/// The field, where it is known and did not come before.
fn if_new<'e, 'a>(
    form: Form,
    earlier: &[Field<'e, 'a>],
    field: Field<'e, 'a>,
) -> Result<Field<'e, 'a>, FormulaKind>
    ensures { Gives field_view (steps.if_new (labels form) (map field_view earlier.now) (field_view field.entry)) result }
{
    let known = is_label(form, field.label.as_bytes());
    if !known || is_labelled(field.label.as_bytes(), earlier) {
        return Err(FormulaKind::BadAttribute);
    }
    Ok(field)
}

/// The fields in order, where each has a known label and none comes twice.
pub(crate) fn read_fields<'e, 'a>(
    alloc: Global,
    form: Form,
    items: &'e [Argument<'a>],
) -> Result<Vec<Field<'e, 'a>>, FormulaKind>
    ensures { Gives (λ v. map field_view v.items) (steps.fields_from (labels form) [] (map argument_view items.now)) result }
{
    let mut found = Vec::new(alloc);
    for argument in items {
        let one = field_of(alloc, argument)?;
        found.push(if_new(form, found.as_slice(), one)?)?;
    }
    Ok(found)
}

/// The value behind a label.
pub(crate) fn value_of<'e, 'a>(label: &[u8], fields: &[Field<'e, 'a>]) -> Option<&'e Expr<'a>>
    ensures { option_map (λ e. tree e.now) result ≡ steps.value_of label.now (map field_view fields.now) }
{
    for field in fields {
        if field.label.as_bytes() == label {
            return Some(field.value);
        }
    }
    None
}
