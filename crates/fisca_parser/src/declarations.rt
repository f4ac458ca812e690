//! The statements of a module.

ghost use Rattle.std.specs.Prelude.{◌≡◌, length, map, option_map};
ghost use Rattle.fisca_parser.specs.Reading as spec;
ghost use Rattle.fisca_parser.specs.Reading.{Takes};
ghost use Rattle.fisca_ast.specs.ModuleViews.{statement};

use crate::bodies::{keep, read_items, read_members};
use crate::forms::declared;
use crate::heading::Base;
use crate::line::Line;
use crate::lines::Lines;
use crate::shape::{Shape, shape_of};
use crate::statement::{read_assignment, read_class_heading};
use fisca_ast::{Assignment, EnumClass, FormulaFault, FormulaKind, Statement, VariableClass};
use fisca_expr_parser::Mode;
use std::alloc::Global;

/// A class.
#[tactic(auto, unfolding(crate::specs::Reading::class_at))]
fn read_class<'a>(
    alloc: Global,
    text: &'a str,
    end: usize,
    line: &Line,
    lines: &mut Lines,
) -> Result<Statement<'a>, FormulaFault>
    ensures { Takes statement (spec.class_at text.now end line.now lines.old) result lines.new }
{
    let (name, base) = read_class_heading(text, line)?;
    let indent = lines.deeper(end, line.indent())?;
    match base {
        Base::Enum => Ok(Statement::Enum(EnumClass {
            line: line.number(),
            name,
            members: read_members(alloc, text, indent, lines)?,
        })),
        Base::Variable => Ok(Statement::Variable(VariableClass {
            line: line.number(),
            name,
            items: read_items(alloc, text, end, indent, lines)?,
        })),
    }
}

/// What a line of a module declares, and the lines below it, or nothing.
#[tactic(auto, unfolding(crate::specs::Reading::module_line))]
fn read_statement<'a>(
    alloc: Global,
    text: &'a str,
    end: usize,
    line: &Line,
    lines: &mut Lines,
) -> Result<Option<Statement<'a>>, FormulaFault>
    ensures { Takes (option_map statement) (spec.module_line text.now end line.now lines.old) result lines.new }
{
    match shape_of(text, line.tokens()) {
        Shape::Import | Shape::Text => Ok(None),
        Shape::Assignment => {
            let (name, value) = read_assignment(alloc, text, line, Mode::Value)?;
            match declared(Assignment {
                line: line.number(),
                name,
                value,
            }) {
                Some(statement) => Ok(Some(statement)),
                None => Err(line.refuse(FormulaKind::Unsupported)),
            }
        }
        Shape::Class => Ok(Some(read_class(alloc, text, end, line, lines)?)),
        Shape::Pass | Shape::Definition | Shape::Return => Err(line.refuse(
            FormulaKind::Unsupported,
        )),
        Shape::Other(kind) => Err(line.refuse(kind)),
    }
}

/// What the next line of a module declares, and the lines below it, if there is a next line.
fn next_statement<'a>(
    alloc: Global,
    text: &'a str,
    end: usize,
    lines: &mut Lines,
) -> Result<Option<Option<Statement<'a>>>, FormulaFault>
    ensures { Takes (option_map (option_map statement)) (spec.turn 0 (spec.module_line text.now end) lines.old) result lines.new }
{
    match lines.next_at(0)? {
        Some(line) => Ok(Some(read_statement(alloc, text, end, &line, lines)?)),
        None => Ok(None),
    }
}

/// The statements of a module.
pub(crate) fn read_statements<'a>(
    alloc: Global,
    text: &'a str,
    end: usize,
    lines: &mut Lines,
) -> Result<Vec<Statement<'a>>, FormulaFault>
    ensures { Takes (λ v. map statement v.items) (spec.block 0 (spec.module_line text.now end) (length lines.old) lines.old) result lines.new }
{
    let mut found = Vec::new(alloc);
    for _turn in 0..lines.left() {
        let Some(statement) = next_statement(alloc, text, end, lines)? else {
            return Ok(found);
        };
        keep(&mut found, statement)?;
    }
    Ok(found)
}
