//! Statements from top to bottom, module by module.

ghost use Rattle.std.specs.Prelude.{List, [], ◌∷◌, ◌++◌, Result, map};
ghost use Rattle.fisca_rules.specs.FirstPass.{Placed, names_from, placed_from, placed_in, told_at};
ghost use Rattle.fisca_rules.specs.declared.build_fault.BuildFault.{BuildFault};
ghost use Rattle.fisca_ast.specs.ModuleViews.{assigned, item, statement as statement_view, statements as statements_view};
ghost use Rattle.fisca_num.specs.Results.{and_then};
ghost use Rattle.fisca_rules.specs.Build as spec;
ghost use Rattle.fisca_rules.specs.Steps.Build as steps;
ghost use Rattle.fisca_rules.specs.Walk as walk;
ghost use Rattle.fisca_rules.specs.FoundViews.{found as found_view};
ghost use Rattle.fisca_rules.specs.Outcomes.{Tells};

use crate::entities::entities_fit;
use crate::enums::members_fit;
use crate::faults::fault_at;
use crate::found::Found;
use crate::lines::variable_in;
use crate::persons::{entity_found, nothing_found, with_person};
use crate::{BuildFault, Seen};
use fisca_ast::{Assignment, EnumClass, FormulaKind, Module, Statement, VariableClass};
use fisca_declarations::Declared;
use std::alloc::Global;

/// Whether a list of entities is right, or its fault.
fn entities_told(
    declared: &Declared<'_>,
    place: usize,
    written: &Assignment<'_>,
) -> Result<(), BuildFault>
    ensures { Tells (λ _. tt) (told_at place written.now.line (steps.entities_fit declared.now (assigned written.now))) result }
{
    match entities_fit(declared, written) {
        Ok(()) => Ok(()),
        Err(kind) => Err(fault_at(place, written.line, kind)),
    }
}

/// Whether the members of an Enum are right, or its fault.
fn enum_told(place: usize, class: &EnumClass<'_>) -> Result<(), BuildFault>
    ensures { Tells (λ _. tt) (told_at place class.now.line (steps.members_fit class.now.members.items)) result }
{
    match members_fit(class.members.as_slice()) {
        Ok(()) => Ok(()),
        Err(kind) => Err(fault_at(place, class.line, kind)),
    }
}

/// What is found behind a variable, or its first fault.
fn variable_found<'a>(
    alloc: Global,
    declared: &Declared<'_>,
    found: Found<'a>,
    place: usize,
    class: VariableClass<'a>,
) -> Result<Found<'a>, BuildFault>
    ensures { Tells found_view (spec.behind_variable (found_view found.entry)
        (steps.variable_in declared.now place class.entry.line class.entry.name (map item class.entry.items.items))) result }
{
    let (variable, declaration) = variable_in(alloc, declared, place, class)?;
    let Found {
        entities,
        has_person,
        mut variables,
        mut declarations,
    } = found;
    variables.push(variable)?;
    declarations.push(declaration)?;
    Ok(Found {
        entities,
        has_person,
        variables,
        declarations,
    })
}

/// What is found behind a statement, or its first fault.
fn statement_found<'a>(
    alloc: Global,
    declared: &Declared<'_>,
    found: Found<'a>,
    place: usize,
    statement: Statement<'a>,
) -> Result<Found<'a>, BuildFault>
    ensures { Tells found_view (steps.statement_found declared.now (found_view found.entry) place (statement_view statement.entry)) result }
{
    match statement {
        Statement::Entity(written) => entity_found(alloc, found, place, &written),
        Statement::Entities(written) => {
            entities_told(declared, place, &written)?;
            Ok(found)
        }
        Statement::Enum(class) => {
            enum_told(place, &class)?;
            Ok(found)
        }
        Statement::Variable(class) => variable_found(alloc, declared, found, place, class),
    }
}

/// What is found behind a statement, where what was found before it has no fault.
fn found_behind<'a>(
    alloc: Global,
    declared: &Declared<'_>,
    found: Result<Found<'a>, BuildFault>,
    place: usize,
    statement: Statement<'a>,
) -> Result<Found<'a>, BuildFault>
    ensures { (outcome : Result spec.Found BuildFault) → Tells found_view outcome found.entry
        → Tells found_view (and_then outcome (λ f. steps.statement_found declared.now f place (statement_view statement.entry))) result }
{
    match found {
        Ok(found) => statement_found(alloc, declared, found, place, statement),
        Err(fault) => Err(fault),
    }
}

/// Goes on by a statement: notes its names, or tells that one came before, whatever is found; and finds what it declares, where
/// no statement before it has a fault.
fn walk_statement<'a>(
    alloc: Global,
    seen: &mut Seen<'a>,
    declared: &Declared<'_>,
    found: Result<Found<'a>, BuildFault>,
    place: usize,
    statement: Statement<'a>,
) -> Result<Result<Found<'a>, BuildFault>, BuildFault>
    ensures { (names : Result (Unit {0}) BuildFault) (whole : Result spec.Found BuildFault) (left : List Placed)
        → walk.Reached declared.now seen.old found.entry names whole (record { «module» = place; statement = statement_view statement.entry } ∷ left)
        → walk.Goes declared.now seen.new names whole left result }
{
    if let Some(line) = seen.second_name(alloc, &statement)? {
        return Err(BuildFault {
            module: place,
            line,
            kind: FormulaKind::DuplicateName,
        });
    }
    Ok(found_behind(alloc, declared, found, place, statement))
}

/// Goes on by the statements of a module.
fn walk_module<'a>(
    alloc: Global,
    seen: &mut Seen<'a>,
    declared: &Declared<'_>,
    found: Result<Found<'a>, BuildFault>,
    place: usize,
    statements: Vec<Statement<'a>>,
) -> Result<Result<Found<'a>, BuildFault>, BuildFault>
    ensures { (names : Result (Unit {0}) BuildFault) (whole : Result spec.Found BuildFault) (left : List Placed)
        → walk.Reached declared.now seen.old found.entry names whole (placed_in place (map statement_view statements.entry.items) ++ left)
        → walk.Goes declared.now seen.new names whole left result }
{
    let mut behind = found;
    for statement in statements {
        behind = walk_statement(alloc, seen, declared, behind, place, statement)?;
    }
    Ok(behind)
}

/// The first two passes in one walk: what is found in all modules, or its first fault; or the first name that comes a second time.
fn walk_modules<'a>(
    alloc: Global,
    declared: &Declared<'_>,
    modules: Vec<Module<'a>>,
) -> Result<Result<Found<'a>, BuildFault>, BuildFault>
    ensures { walk.Ends (names_from [] (placed_from 0 (map statements_view modules.entry.items)))
        (steps.found_from declared.now spec.none_yet (placed_from 0 (map statements_view modules.entry.items))) result }
{
    let mut seen = Seen::new(alloc);
    let mut found = Ok(nothing_found(alloc));
    let mut place: usize = 0;
    for module in modules {
        found = walk_module(alloc, &mut seen, declared, found, place, module.statements)?;
        place += 1;
    }
    Ok(found)
}

/// What is found in all modules with the persons among it, or the first fault: of names, and then of what is declared.
pub(crate) fn whole_found<'a>(
    alloc: Global,
    declared: &Declared<'_>,
    modules: Vec<Module<'a>>,
) -> Result<Found<'a>, BuildFault>
    ensures { Tells found_view (and_then (names_from [] (placed_from 0 (map statements_view modules.entry.items)))
        (λ _. and_then (steps.found_from declared.now spec.none_yet (placed_from 0 (map statements_view modules.entry.items))) steps.with_person)) result }
{
    let found = walk_modules(alloc, declared, modules)??;
    with_person(found)
}
