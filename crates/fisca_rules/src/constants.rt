//! Constants of entities.

ghost use Rattle.std.specs.Prelude.{◌≡◌, ◌++◌, IfOk, map};
ghost use Rattle.fisca_rules.specs.FirstPass.{placed_from};
ghost use Rattle.fisca_ast.specs.ModuleViews.{statement as statement_view, statements as statements_view};
ghost use Rattle.fisca_rules.specs.Build as spec;
ghost use Rattle.fisca_rules.specs.Steps.Build as steps;
ghost use Rattle.fisca_rules.specs.Scans as scans;

use crate::enums::enums_in;
use fisca_ast::{Module, Statement};
use fisca_declarations::Declared;
use fisca_symbols::{Names, SourceText};
use std::alloc::{AllocError, Global};

/// The constants so far, and that of this statement where it has one.
fn with_constant<'a>(
    alloc: Global,
    constants: Names<'a>,
    statement: &Statement<'a>,
) -> Result<Names<'a>, AllocError>
    ensures { IfOk result (λ ns. ns ≡ constants.entry ++ spec.constant_of (statement_view statement.now)) }
{
    match statement {
        Statement::Entity(written) => {
            constants.with(alloc, SourceText::borrowed(written.name.as_str()))
        }
        Statement::Entities(_) | Statement::Enum(_) | Statement::Variable(_) => Ok(constants),
    }
}

/// The constants so far and those of a module.
fn with_constants<'a>(
    alloc: Global,
    constants: Names<'a>,
    statements: &[Statement<'a>],
) -> Result<Names<'a>, AllocError>
    ensures { IfOk result (λ ns. ns ≡ constants.entry ++ scans.constants_of (map statement_view statements.now)) }
{
    let mut found = constants;
    for statement in statements {
        found = with_constant(alloc, found, statement)?;
    }
    Ok(found)
}

/// The constants of all modules, in order.
fn constants_in<'a>(alloc: Global, modules: &[Module<'a>]) -> Result<Names<'a>, AllocError>
    ensures { IfOk result (λ ns. ns ≡ scans.all_constants (map statements_view modules.now)) }
{
    let mut found = Names::new(alloc);
    for module in modules {
        found = with_constants(alloc, found, module.statements.as_slice())?;
    }
    Ok(found)
}

/// What modules declare that others may name.
pub(crate) fn declared_in<'a>(
    alloc: Global,
    modules: &[Module<'a>],
) -> Result<Declared<'a>, AllocError>
    ensures { IfOk result (λ d. d ≡ steps.declared_in (placed_from 0 (map statements_view modules.now))) }
{
    Ok(Declared {
        constants: constants_in(alloc, modules)?,
        enums: enums_in(alloc, modules)?,
    })
}
