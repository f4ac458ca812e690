//! Formulas: locals, each of which sees those before it, and what is returned.
ghost use Rattle.std.specs.Prelude.{◌≡◌, [], IfOk, map};
ghost use Rattle.fisca_ast.specs.Views.{tree as tree_of};
ghost use Rattle.fisca_check.specs.Formulas.{Tells, assigned, formula_view, returned_as, scope as scope_view};
ghost use Rattle.fisca_check.specs.Views.{names as names_of};
ghost use Rattle.fisca_ast.specs.Outcomes.{Gives};
ghost use Rattle.fisca_ir.specs.Views.{node, typed};
ghost use Rattle.fisca_typing.specs.Formulas as spec;

use crate::formula::{FormulaRefusal, Scope, TypedFormula};
use crate::rows::Rows;
use crate::scope::FormulaScope;
use crate::typing::thing_of;
use fisca_ast::{Assignment, Expr, FormulaKind, Slice};
use fisca_check_calls::{Local, kept, small_size};
use fisca_ir::{Node, Typed, is_numeric, value_of};
use fisca_model::ValueType;
use fisca_typing::Level;
use std::alloc::Global;

/// The scope behind one more local, or the first fault; `TooDeep` comes last.
#[tactic(auto, using(crate::proofs::Behind::locals_more, crate::proofs::Behind::sizes_more, crate::proofs::Behind::small_is, crate::proofs::Behind::small_then, crate::proofs::Behind::small_same, crate::proofs::Behind::large_then))]
fn behind_local<'n, 'a>(
    alloc: Global,
    scope: Scope<'n, 'a>,
    local: &Assignment<'a>,
    rows: &mut Rows,
) -> Result<Scope<'n, 'a>, FormulaKind>
    requires { rows.old ≡ (names_of scope.names).tables }
    ensures scope { Gives scope_view (spec.behind_local (scope_view scope.entry) local.now.name (tree_of local.now.value)) result }
    ensures tables { IfOk result (λ s. (names_of s.names).tables ≡ (names_of scope.entry.names).tables) }
    ensures same { rows.new ≡ rows.old }
{
    let Scope { names, mut values } = scope;
    let thing = thing_of(alloc, &local.value, &names, rows)?;
    let held = kept(thing, &mut values)?;
    let Some(size) = small_size(&local.value, &names.locals) else {
        return Err(FormulaKind::TooDeep);
    };
    let latest = Local {
        name: Slice::new(local.name.as_str()),
        held,
        size,
    };
    Ok(Scope {
        names: FormulaScope {
            tables: names.tables,
            entity: names.entity,
            asker_name: names.asker_name,
            period_name: names.period_name,
            reader_name: names.reader_name,
            locals: names.locals.with(latest)?,
        },
        values,
    })
}

/// The same, with how many locals come before the fault.
fn behind<'n, 'a>(
    alloc: Global,
    place: usize,
    scope: Scope<'n, 'a>,
    local: &Assignment<'a>,
    rows: &mut Rows,
) -> Result<Scope<'n, 'a>, FormulaRefusal>
    requires { rows.old ≡ (names_of scope.names).tables }
    ensures scope { Tells scope_view (spec.at place (spec.behind_local (scope_view scope.entry) local.now.name (tree_of local.now.value))) result }
    ensures tables { IfOk result (λ s. (names_of s.names).tables ≡ (names_of scope.entry.names).tables) }
    ensures same { rows.new ≡ rows.old }
{
    match behind_local(alloc, scope, local, rows) {
        Ok(next) => Ok(next),
        Err(kind) => Err(FormulaRefusal { place, kind }),
    }
}

/// Whether a formula of a variable of a type may return a value of another.
fn returns(value_type: ValueType, found: ValueType) -> bool
    ensures { result ≡ spec.returns value_type found }
{
    match (value_type, found) {
        (ValueType::Number | ValueType::Bool, _) => is_numeric(found),
        (ValueType::Enum(choices), ValueType::Enum(other)) => choices == other,
        (ValueType::Enum(_), ValueType::Number | ValueType::Bool) => false,
    }
}

/// A value of the formula's entity, as a variable of a type takes it: `BadType`, else `BadLevel`.
fn returned_value(value_type: ValueType, value: Typed) -> Result<Node, FormulaKind>
    ensures { Gives node (returned_as value_type (typed value)) result }
{
    if !returns(value_type, value.value_type) {
        return Err(FormulaKind::BadType);
    }
    match value.level {
        Level::Constant | Level::Own => Ok(value.node),
        Level::Members => Err(FormulaKind::BadLevel),
    }
}

/// What a formula returns, or the first fault; `TooDeep` comes last.
#[tactic(auto, using(crate::proofs::Behind::small_then, crate::proofs::Behind::large_then))]
fn returned(
    alloc: Global,
    scope: &Scope,
    value_type: ValueType,
    tree: &Expr,
    rows: &mut Rows,
) -> Result<Node, FormulaKind>
    requires { rows.old ≡ (names_of scope.now.names).tables }
    ensures node { Gives node (spec.returned (scope_view scope.now) value_type (tree_of tree.now)) result }
    ensures same { rows.new ≡ rows.old }
{
    let value = value_of(thing_of(alloc, tree, &scope.names, rows)?)?;
    let node = returned_value(value_type, value)?;
    match small_size(tree, &scope.names.locals) {
        Some(_) => Ok(node),
        None => Err(FormulaKind::TooDeep),
    }
}

/// The formula with these locals, or the fault of what it returns.
fn made_of(
    alloc: Global,
    place: usize,
    scope: Scope,
    value_type: ValueType,
    tree: &Expr,
    rows: &mut Rows,
) -> Result<TypedFormula, FormulaRefusal>
    requires { rows.old ≡ (names_of scope.names).tables }
    ensures formula { Tells formula_view (spec.formula_from place (scope_view scope.entry) value_type [] (tree_of tree.now)) result }
    ensures same { rows.new ≡ rows.old }
{
    match returned(alloc, &scope, value_type, tree, rows) {
        Ok(result) => Ok(TypedFormula {
            values: scope.values,
            result,
        }),
        Err(kind) => Err(FormulaRefusal { place, kind }),
    }
}

/// The typed formula of a variable of a type, or its first fault: locals in order, each of which sees those before it,
/// and then what is returned. `BadType` for a local that is no number, bool, member of an Enum, period, parameters or
/// scale, and for what the variable does not take; `BadLevel` for values of a group's persons; `TooDeep` for an expression
/// of more than 120 levels or 20,000 nodes with the locals put in.
pub fn formula_of<'n, 'a>(
    alloc: Global,
    names: FormulaScope<'n, 'a>,
    value_type: ValueType,
    locals: &[Assignment<'a>],
    returned: &Expr<'a>,
    rows: &mut Rows,
) -> Result<TypedFormula, FormulaRefusal>
    requires none { names.locals ≡ [] }
    requires known { rows.old ≡ (names_of names).tables }
    ensures formula { Tells formula_view (spec.formula_of (names_of names.entry) value_type (map assigned locals.now) (tree_of returned.now)) result }
    ensures same { rows.new ≡ rows.old }
{
    let mut scope = Scope {
        names,
        values: Vec::new(alloc),
    };
    for (place, local) in locals.iter().enumerate() {
        scope = behind(alloc, place, scope, local, rows)?;
    }
    made_of(alloc, locals.len(), scope, value_type, returned, rows)
}
