//! Entities, of which just one is the persons.

ghost use Rattle.std.specs.Prelude.{◌≡◌};
ghost use Rattle.fisca_rules.specs.Build as spec;
ghost use Rattle.fisca_rules.specs.Steps.Build as steps;
ghost use Rattle.fisca_rules.specs.FoundViews.{found as found_view};
ghost use Rattle.fisca_rules.specs.Outcomes.{Tells};
ghost use Rattle.fisca_attributes.specs.Steps.EntityForms.{entity_of as entity_written};
ghost use Rattle.fisca_rules.specs.FirstPass.{told_at};
ghost use Rattle.fisca_ast.specs.Outcomes.{Gives};
ghost use Rattle.fisca_num.specs.Results.{and_then};
ghost use Rattle.fisca_ast.specs.ModuleViews.{assigned};

use crate::BuildFault;
use crate::faults::fault_at;
use crate::found::Found;
use fisca_ast::{Assignment, FormulaKind};
use fisca_attributes::entity_of;
use fisca_symbols::Entity;
use std::alloc::Global;

/// Nothing is found yet.
pub(crate) fn nothing_found<'a>(alloc: Global) -> Found<'a>
    ensures { found_view result ≡ spec.none_yet }
{
    Found {
        entities: Vec::new(alloc),
        has_person: false,
        variables: Vec::new(alloc),
        declarations: Vec::new(alloc),
    }
}

/// One entity more, unless it is the persons once more.
fn with_entity<'a>(found: Found<'a>, entity: Entity<'a>) -> Result<Found<'a>, FormulaKind>
    ensures { Gives found_view (steps.with_entity (found_view found.entry) entity.entry) result }
{
    let Found {
        mut entities,
        has_person,
        variables,
        declarations,
    } = found;
    if entity.is_person && has_person {
        return Err(FormulaKind::BadAttribute);
    }
    let persons = has_person || entity.is_person;
    entities.push(entity)?;
    Ok(Found {
        entities,
        has_person: persons,
        variables,
        declarations,
    })
}

/// What is found behind `NAME = build_entity(..)`.
fn behind_entity<'a>(
    alloc: Global,
    found: Found<'a>,
    written: &Assignment<'a>,
) -> Result<Found<'a>, FormulaKind>
    ensures { Gives found_view (and_then (entity_written (assigned written.now)) (steps.with_entity (found_view found.entry))) result }
{
    let entity = entity_of(alloc, written)?;
    with_entity(found, entity)
}

/// The same, with the line of its fault.
pub(crate) fn entity_found<'a>(
    alloc: Global,
    found: Found<'a>,
    place: usize,
    written: &Assignment<'a>,
) -> Result<Found<'a>, BuildFault>
    ensures { Tells found_view
        (told_at place written.now.line (and_then (entity_written (assigned written.now)) (steps.with_entity (found_view found.entry)))) result }
{
    match behind_entity(alloc, found, written) {
        Ok(next) => Ok(next),
        Err(kind) => Err(fault_at(place, written.line, kind)),
    }
}

/// The same, where the persons are among the entities; or else a fault of the first line of the first module.
pub(crate) fn with_person(found: Found<'_>) -> Result<Found<'_>, BuildFault>
    ensures { Tells found_view (steps.with_person (found_view found.entry)) result }
{
    if !found.has_person {
        return Err(BuildFault {
            module: 0,
            line: 1,
            kind: FormulaKind::BadAttribute,
        });
    }
    Ok(found)
}
