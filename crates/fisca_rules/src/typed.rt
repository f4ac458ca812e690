//! The third pass: the formulas of all variables.
ghost use Rattle.std.specs.Prelude.{◌≡◌, [], ◌∷◌, ◌++◌, map, OnOk, Some};
ghost use Rattle.fisca_declarations.specs.VariableForms.{written};
ghost use Rattle.fisca_check.specs.Formulas.{formula_view as seen, Tells as TellsPlace};
ghost use Rattle.fisca_rules.specs.Rules as spec;
ghost use Rattle.fisca_rules.specs.Steps.Rules as steps;
ghost use Rattle.fisca_check.specs.Views.{names as names_of};
ghost use Rattle.fisca_rules.specs.Outcomes.{Tells};
ghost use Rattle.fisca_rules.specs.Views.{dated};
ghost use Rattle.fisca_ast.specs.ModuleViews.{formula_view};
ghost use Rattle.fisca_symbols.specs.Known.{tables as known};
ghost use Rattle.fisca_symbols.specs.KnownVariables.{value_type as known_type};
ghost use Rattle.fisca_typing.specs.Formulas as typing;

use crate::BuildFault;
use crate::dated::DatedFormula;
use crate::formulas::TypedFormulas;
use fisca_ast::{ClassLine, Formula};
use fisca_check::{FormulaRefusal, FormulaScope, Rows, TypedFormula as Typed, formula_of};
use fisca_check_calls::Locals;
use fisca_declarations::Declaration;
use fisca_model::ValueType;
use fisca_symbols::{DeclaredType, Tables, Variable};
use std::alloc::{AllocError, Global};

/// The line of the local at this place, or of the return behind them all.
fn line_at(formula: &Formula<'_>, place: usize) -> usize
    ensures { result ≡ steps.line_at (formula_view formula.now) place }
{
    match formula.locals.as_slice().get(place) {
        Some(local) => local.line,
        None => formula.returned.line,
    }
}

/// A fault of a formula, told of the line of its statement.
fn told(place: usize, formula: &Formula<'_>, refusal: FormulaRefusal) -> BuildFault
    ensures { result ≡ record { «module» = place; line = steps.line_at (formula_view formula.now) refusal.place; kind = refusal.kind } }
{
    BuildFault {
        module: place,
        line: line_at(formula, refusal.place),
        kind: refusal.kind,
    }
}

/// What is known in a formula of a variable before its first local.
fn names_for<'n, 'a>(
    alloc: Global,
    tables: &'n Tables<'a>,
    variable: &'n Variable<'a>,
    formula: &'n Formula<'a>,
) -> FormulaScope<'n, 'a>
    ensures names { names_of result ≡ steps.names_for (known tables.now) variable.now.entity (formula_view formula.now) }
    ensures none { result.locals ≡ [] }
{
    FormulaScope {
        tables,
        entity: variable.entity,
        asker_name: formula.signature.entity.as_bytes(),
        period_name: formula.signature.period.as_bytes(),
        reader_name: match &formula.signature.parameters {
            Some(name) => Some(name.as_bytes()),
            None => None,
        },
        locals: Locals::new(alloc),
    }
}

/// What a formula of a variable of a type works out, or its first fault.
#[tactic(auto, using(crate::proofs::Each::locals_are))]
fn typed<'n, 'a>(
    alloc: Global,
    tables: &'n Tables<'a>,
    variable: &'n Variable<'a>,
    value_type: ValueType,
    formula: &'n Formula<'a>,
    rows: &mut Rows,
) -> Result<Typed, FormulaRefusal>
    requires { rows.old ≡ known tables.now }
    ensures formula { TellsPlace seen (typing.formula_of (steps.names_for (known tables.now) variable.now.entity (formula_view formula.now)) value_type (map spec.assigned_of (formula_view formula.now).locals) (formula_view formula.now).returned.value) result }
    ensures same { rows.new ≡ rows.old }
{
    let names = names_for(alloc, tables, variable, formula);
    let locals = formula.locals.as_slice();
    formula_of(
        alloc,
        names,
        value_type,
        locals,
        &formula.returned.value,
        rows,
    )
}

/// The same, of the module at a place, with the day from which on it is in force.
fn dated_of<'n, 'a>(
    alloc: Global,
    tables: &'n Tables<'a>,
    variable: &'n Variable<'a>,
    place: usize,
    value_type: ValueType,
    formula: &'n Formula<'a>,
    rows: &mut Rows,
) -> Result<DatedFormula, BuildFault>
    requires { rows.old ≡ known tables.now }
    ensures formula { Tells dated (steps.dated_of (known tables.now) place variable.now.entity value_type (formula_view formula.now)) result }
    ensures same { rows.new ≡ rows.old }
{
    match typed(alloc, tables, variable, value_type, formula, rows) {
        Ok(made) => Ok(DatedFormula {
            start: formula.start,
            formula: made,
        }),
        Err(refusal) => Err(told(place, formula, refusal)),
    }
}

/// Puts a formula behind the others of its variable.
fn push_dated(made: &mut Vec<DatedFormula>, dated: DatedFormula) -> Result<(), AllocError>
    ensures { OnOk result (made.new.items ≡ made.old.items ++ dated ∷ []) }
{
    if made.is_empty() {
        // most variables have one formula
        made.reserve_exact(1).map_err(AllocError::from)?;
    }
    made.push(dated).map_err(AllocError::from)?;
    Ok(())
}

/// The formulas of a variable of a type and a declaration, from top to bottom, or the first fault.
#[tactic(auto, using(crate::proofs::Each::all_behind_none))]
fn formulas_by<'n, 'a>(
    alloc: Global,
    tables: &'n Tables<'a>,
    variable: &'n Variable<'a>,
    declaration: &'n Declaration<'a>,
    value_type: ValueType,
    rows: &mut Rows,
) -> Result<Vec<DatedFormula>, BuildFault>
    requires { rows.old ≡ known tables.now }
    ensures formulas { Tells (λ fs. map dated fs.items) (steps.formulas_by (known tables.now) variable.now.entity (written declaration.now) (Some value_type)) result }
    ensures same { rows.new ≡ rows.old }
{
    let mut made = Vec::new(alloc);
    for line in declaration.formulas.lines() {
        match line {
            ClassLine::Formula(formula) => {
                push_dated(
                    &mut made,
                    dated_of(
                        alloc,
                        tables,
                        variable,
                        declaration.module,
                        value_type,
                        formula,
                        rows,
                    )?,
                )?;
            }
            ClassLine::Attribute(_) => {}
        }
    }
    Ok(made)
}

/// The same, so that the one in force can be found.
fn formulas_made<'n, 'a>(
    alloc: Global,
    tables: &'n Tables<'a>,
    variable: &'n Variable<'a>,
    declaration: &'n Declaration<'a>,
    value_type: ValueType,
    rows: &mut Rows,
) -> Result<TypedFormulas, BuildFault>
    requires { rows.old ≡ known tables.now }
    ensures formulas { Tells (λ fs. map dated fs.items.items) (steps.formulas_by (known tables.now) variable.now.entity (written declaration.now) (Some value_type)) result }
    ensures same { rows.new ≡ rows.old }
{
    let made = formulas_by(alloc, tables, variable, declaration, value_type, rows)?;
    Ok(TypedFormulas::of(alloc, made)?)
}

/// The type of a variable's values in formulas. Days and texts have none.
fn type_in_formulas(value_type: DeclaredType) -> Option<ValueType>
    ensures { result ≡ known_type value_type }
{
    match value_type {
        DeclaredType::Float | DeclaredType::Int => Some(ValueType::Number),
        DeclaredType::Bool => Some(ValueType::Bool),
        DeclaredType::Date | DeclaredType::Text => None,
        DeclaredType::Enum(choices) => Some(ValueType::Enum(choices)),
    }
}

/// The formulas of a variable of this declaration, or the first fault. Those of days and texts have none.
fn formulas_of<'n, 'a>(
    alloc: Global,
    tables: &'n Tables<'a>,
    variable: &'n Variable<'a>,
    declaration: &'n Declaration<'a>,
    rows: &mut Rows,
) -> Result<TypedFormulas, BuildFault>
    requires { rows.old ≡ known tables.now }
    ensures formulas { Tells (λ fs. map dated fs.items.items) (steps.formulas_of (known tables.now) (variable.now, written declaration.now)) result }
    ensures same { rows.new ≡ rows.old }
{
    match type_in_formulas(variable.value_type) {
        Some(value_type) => formulas_made(alloc, tables, variable, declaration, value_type, rows),
        None => Ok(TypedFormulas::none(alloc)),
    }
}

/// The formulas of each variable, with its declaration beside it, or the first fault.
#[tactic(auto, using(crate::proofs::Each::all_behind_none))]
pub(crate) fn formulas_of_all<'n, 'a>(
    alloc: Global,
    tables: &'n Tables<'a>,
    declarations: &'n [Declaration<'a>],
) -> Result<Vec<TypedFormulas>, BuildFault>
    ensures { Tells (λ fs. map (λ gs. map dated gs.items.items) fs.items) (steps.all_formulas (known tables.now) tables.now.variables (map written declarations.now)) result }
{
    let variables = tables.variables.as_slice();
    let mut made = Vec::with_capacity(alloc, variables.len())?;
    let mut rows = Rows::new(alloc, tables);
    for (variable, declaration) in variables.iter().zip(declarations) {
        made.push(formulas_of(alloc, tables, variable, declaration, &mut rows)?)?;
    }
    Ok(made)
}
