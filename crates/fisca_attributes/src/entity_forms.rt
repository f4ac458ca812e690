//! Entities and their roles, as they are written.

ghost use Rattle.std.specs.Prelude.{◌≡◌, ◌==◌, [], false, length, map, option_map};
ghost use Rattle.fisca_ast.specs.Steps.Groups.{bare as bare_tree};
ghost use Rattle.fisca_ast.specs.Views.{tree, argument_view};
ghost use Rattle.fisca_ast.specs.ModuleViews.{assigned};
ghost use Rattle.fisca_attributes.specs.EntityForms as spec;
ghost use Rattle.fisca_attributes.specs.Steps.EntityForms as steps;
ghost use Rattle.fisca_attributes.specs.Fields.{field_view};
ghost use Rattle.fisca_ast.specs.Outcomes.{Gives};
ghost use Rattle.fisca_attributes.specs.Values.{each, needed, or_else, perhaps, list_value};
ghost use Rattle.fisca_attributes.specs.Steps.Values.{text_value as text_said, truth_value as truth_said, count_value as count_said, texts_value as texts_said};

use crate::fields::{Field, Form, read_fields, value_of};
use crate::lists::{items_of, list_of, positional, texts_value};
use crate::values::{count_value, text_value, truth_value};
use fisca_ast::{Argument, Assignment, Delimiter, Expr, FormulaKind, bare};
use fisca_symbols::{Entity, Role, Roles, SourceText, Texts};
use std::alloc::Global;

/// A text that has to be there.
fn needed_text<'a>(alloc: Global, value: Option<&Expr<'a>>) -> Result<SourceText<'a>, FormulaKind>
    ensures { Gives (λ t. t) (needed text_said (option_map (λ e. tree e.now) value.entry)) result }
{
    match value {
        Some(found) => text_value(alloc, found),
        None => Err(FormulaKind::BadAttribute),
    }
}

/// A text that may be there.
fn perhaps_text<'a>(
    alloc: Global,
    value: Option<&Expr<'a>>,
) -> Result<Option<SourceText<'a>>, FormulaKind>
    ensures { Gives (λ t. t) (perhaps text_said (option_map (λ e. tree e.now) value.entry)) result }
{
    match value {
        Some(found) => Ok(Some(text_value(alloc, found)?)),
        None => Ok(None),
    }
}

/// A whole number from 1 that may be there.
fn perhaps_count(value: Option<&Expr<'_>>) -> Result<Option<u64>, FormulaKind>
    ensures { Gives (λ n. n) (perhaps count_said (option_map (λ e. tree e.now) value.entry)) result }
{
    match value {
        Some(found) => Ok(Some(count_value(found)?)),
        None => Ok(None),
    }
}

/// Subroles, or none.
fn subroles_value<'a>(alloc: Global, value: Option<&Expr<'a>>) -> Result<Texts<'a>, FormulaKind>
    ensures { Gives (λ t. t) (or_else [] texts_said (option_map (λ e. tree e.now) value.entry)) result }
{
    match value {
        Some(found) => texts_value(alloc, found),
        None => Ok(Texts::new(Vec::new(alloc))),
    }
}

/// `True` or `False`, which may be there.
fn person_value(value: Option<&Expr<'_>>) -> Result<bool, FormulaKind>
    ensures { Gives (λ b. b) (or_else false truth_said (option_map (λ e. tree e.now) value.entry)) result }
{
    match value {
        Some(found) => truth_value(found),
        None => Ok(false),
    }
}

/// A role, by its fields.
fn role_of_fields<'a>(alloc: Global, fields: &[Field<'_, 'a>]) -> Result<Role<'a>, FormulaKind>
    ensures { Gives (λ r. r) (steps.role_of_fields (map field_view fields.now)) result }
{
    let key = needed_text(alloc, value_of(b"key".as_slice(), fields))?;
    let plural = perhaps_text(alloc, value_of(b"plural".as_slice(), fields))?;
    let label = perhaps_text(alloc, value_of(b"label".as_slice(), fields))?;
    let doc = perhaps_text(alloc, value_of(b"doc".as_slice(), fields))?;
    let max = perhaps_count(value_of(b"max".as_slice(), fields))?;
    let subroles = subroles_value(alloc, value_of(b"subroles".as_slice(), fields))?;
    Ok(Role {
        key,
        plural,
        label,
        doc,
        max,
        subroles,
    })
}

/// What stands in curly brackets.
pub fn map_of<'e, 'a>(value: &'e Expr<'a>) -> Result<&'e [Argument<'a>], FormulaKind>
    ensures { Gives (λ xs. map argument_view xs.now) (spec.mapped (tree value.now)) result }
{
    match bare(value) {
        Expr::Bracketed(Delimiter::Curly, inside) => { Ok(items_of(inside)) }
        Expr::Bracketed(Delimiter::Round | Delimiter::Square, _)
        | Expr::Name(_)
        | Expr::Number(_)
        | Expr::Text(_)
        | Expr::Attribute(_)
        | Expr::Applied(_, _)
        | Expr::Prefixed(_, _)
        | Expr::Binary(_, _)
        | Expr::Compare(_, _) => Err(FormulaKind::BadAttribute),
    }
}

/// A role: a map `{"key": "..", ..}`.
fn role_value<'a>(alloc: Global, value: &Expr<'a>) -> Result<Role<'a>, FormulaKind>
    ensures { Gives (λ r. r) (steps.role_value (tree value.now)) result }
{
    let found = read_fields(alloc, Form::Role, map_of(value)?)?;
    role_of_fields(alloc, found.as_slice())
}

/// Roles in order.
fn each_role<'a>(alloc: Global, items: &[Argument<'a>]) -> Result<Vec<Role<'a>>, FormulaKind>
    ensures { Gives (λ v. v.items) (each steps.role_value (map argument_view items.now)) result }
{
    let mut roles = Vec::new(alloc);
    for argument in items {
        roles.push(role_value(alloc, positional(argument)?)?)?;
    }
    Ok(roles)
}

/// A list of roles, or none.
fn roles_value<'a>(alloc: Global, value: Option<&Expr<'a>>) -> Result<Roles<'a>, FormulaKind>
    ensures { Gives (λ r. r) (or_else [] (list_value steps.role_value) (option_map (λ e. tree e.now) value.entry)) result }
{
    let items = match value {
        Some(found) => each_role(alloc, list_of(found)?)?,
        None => Vec::new(alloc),
    };
    Ok(Roles::new(alloc, items)?)
}

/// Whether a group has a role, and persons have none.
fn roles_fit(is_person: bool, roles: &[Role<'_>]) -> bool
    ensures { result ≡ spec.same is_person (length roles.now == 0) }
{
    if is_person {
        roles.is_empty()
    } else {
        !roles.is_empty()
    }
}

/// An entity, by its fields.
fn entity_of_fields<'a>(
    alloc: Global,
    constant: SourceText<'a>,
    fields: &[Field<'_, 'a>],
) -> Result<Entity<'a>, FormulaKind>
    ensures { Gives (λ e. e) (steps.entity_of_fields constant.entry (map field_view fields.now)) result }
{
    let key = needed_text(alloc, value_of(b"key".as_slice(), fields))?;
    let plural = needed_text(alloc, value_of(b"plural".as_slice(), fields))?;
    let label = perhaps_text(alloc, value_of(b"label".as_slice(), fields))?;
    let doc = perhaps_text(alloc, value_of(b"doc".as_slice(), fields))?;
    let is_person = person_value(value_of(b"is_person".as_slice(), fields))?;
    let roles = roles_value(alloc, value_of(b"roles".as_slice(), fields))?;
    if !roles_fit(is_person, roles.as_slice()) {
        return Err(FormulaKind::BadAttribute);
    }
    Ok(Entity {
        constant,
        key,
        plural,
        label,
        doc,
        is_person,
        roles,
    })
}

/// The arguments of a call, perhaps in parentheses.
fn arguments_of<'e, 'a>(value: &'e Expr<'a>) -> &'e [Argument<'a>]
    ensures { map argument_view result.now ≡ steps.arguments_of (bare_tree (tree value.now)) }
{
    match bare(value) {
        Expr::Applied(_, call) => items_of(&call.behind),
        Expr::Name(_)
        | Expr::Number(_)
        | Expr::Text(_)
        | Expr::Bracketed(_, _)
        | Expr::Attribute(_)
        | Expr::Prefixed(_, _)
        | Expr::Binary(_, _)
        | Expr::Compare(_, _) => &[],
    }
}

/// `NAME = build_entity(..)`
pub fn entity_of<'a>(alloc: Global, written: &Assignment<'a>) -> Result<Entity<'a>, FormulaKind>
    ensures { Gives (λ e. e) (steps.entity_of (assigned written.now)) result }
{
    let found = read_fields(alloc, Form::Entity, arguments_of(&written.value))?;
    entity_of_fields(
        alloc,
        SourceText::borrowed(written.name.as_str()),
        found.as_slice(),
    )
}
