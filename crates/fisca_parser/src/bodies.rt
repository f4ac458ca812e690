//! Blocks of lines: the bodies of Enums, formulas and variables.

ghost use Rattle.std.specs.Prelude.{◌≡◌, List, ◌++◌, length, map, option_map, OnOk, IfErr};
ghost use Rattle.std.specs.Option.{option_to_list};
ghost use Rattle.fisca_parser.specs.Lines.{Line};
ghost use Rattle.fisca_parser.specs.Reading as spec;
ghost use Rattle.fisca_parser.specs.Reading.{Takes};
ghost use Rattle.fisca_ast.specs.ModuleViews.{assigned, answer, formula_view, item};
ghost use Rattle.fisca_parser.specs.Views.{step};

use crate::forms::is_week_attribute;
use crate::line::Line;
use crate::lines::Lines;
use crate::shape::{Shape, shape_of};
use crate::statement::{
    read_alone, read_assignment, read_definition_heading, read_labelled, read_returned,
};
use fisca_ast::{Assignment, ClassLine, Formula, FormulaFault, FormulaKind, Member, Returned};
use fisca_expr_parser::Mode;
use std::alloc::Global;

/// A line in the body of a formula.
#[derive(Drop)]
pub(crate) enum Step<'a> {
    /// A local.
    Local(Assignment<'a>),
    /// `return`
    Result(Returned<'a>),
}

/// A member of an Enum, or nothing.
#[tactic(auto, unfolding(crate::specs::Reading::enum_line))]
fn read_member<'a>(text: &'a str, line: &Line) -> Result<Option<Member<'a>>, FormulaFault>
    ensures { (ls : List Line) → Takes (λ m. m) (spec.enum_line text.now line.now ls) result ls }
{
    match shape_of(text, line.tokens()) {
        Shape::Text => Ok(None),
        Shape::Pass => {
            read_alone(text, line)?;
            Ok(None)
        }
        Shape::Assignment => {
            let (name, content) = read_labelled(text, line)?;
            Ok(Some(Member {
                line: line.number(),
                name,
                text: content,
            }))
        }
        Shape::Import | Shape::Class | Shape::Definition | Shape::Return => {
            Err(line.refuse(FormulaKind::Unsupported))
        }
        Shape::Other(kind) => Err(line.refuse(kind)),
    }
}

/// A line in the body of a formula, which ends behind `return`.
#[tactic(auto, unfolding(crate::specs::Reading::body_line))]
fn read_step<'a>(
    alloc: Global,
    text: &'a str,
    indent: usize,
    line: &Line,
    lines: &mut Lines,
) -> Result<Step<'a>, FormulaFault>
    ensures { Takes step (spec.body_line text.now indent line.now lines.old) result lines.new }
{
    match shape_of(text, line.tokens()) {
        Shape::Assignment => {
            let (name, value) = read_assignment(alloc, text, line, Mode::Formula)?;
            Ok(Step::Local(Assignment {
                line: line.number(),
                name,
                value,
            }))
        }
        Shape::Return => {
            let value = read_returned(alloc, text, line, Mode::Formula)?;
            if let Some(behind) = lines.next_at(indent)? {
                return Err(behind.refuse(FormulaKind::Unsupported));
            }
            Ok(Step::Result(Returned {
                line: line.number(),
                value,
            }))
        }
        Shape::Import | Shape::Text | Shape::Pass | Shape::Class | Shape::Definition => {
            Err(line.refuse(FormulaKind::Unsupported))
        }
        Shape::Other(kind) => Err(line.refuse(kind)),
    }
}

/// Puts one at the end, if there is one.
pub(crate) fn keep<T: Drop>(found: &mut Vec<T>, one: Option<T>) -> Result<(), FormulaFault>
    ensures value { OnOk result (found.new.items ≡ found.old.items ++ option_to_list one) }
    ensures err { IfErr result (λ f. f.kind ≡ FormulaKind.Memory) }
{
    if let Some(one) = one {
        found.push(one)?;
    }
    Ok(())
}

/// What the next line of an Enum at this indentation has, if there is a next line.
fn next_member<'a>(
    text: &'a str,
    indent: usize,
    lines: &mut Lines,
) -> Result<Option<Option<Member<'a>>>, FormulaFault>
    ensures { Takes (λ m. m) (spec.turn indent (spec.enum_line text.now) lines.old) result lines.new }
{
    match lines.next_at(indent)? {
        Some(line) => Ok(Some(read_member(text, &line)?)),
        None => Ok(None),
    }
}

/// The members of an Enum, at this indentation.
pub(crate) fn read_members<'a>(
    alloc: Global,
    text: &'a str,
    indent: usize,
    lines: &mut Lines,
) -> Result<Vec<Member<'a>>, FormulaFault>
    ensures { Takes (λ v. v.items) (spec.block indent (spec.enum_line text.now) (length lines.old) lines.old) result lines.new }
{
    let mut found = Vec::new(alloc);
    for _turn in 0..lines.left() {
        let Some(member) = next_member(text, indent, lines)? else {
            return Ok(found);
        };
        keep(&mut found, member)?;
    }
    Ok(found)
}

/// The next line of a formula's body at this indentation.
fn next_step<'a>(
    alloc: Global,
    text: &'a str,
    end: usize,
    indent: usize,
    lines: &mut Lines,
) -> Result<Step<'a>, FormulaFault>
    ensures { Takes step (spec.step_at text.now end indent lines.old) result lines.new }
{
    match lines.next_at(indent)? {
        Some(line) => read_step(alloc, text, indent, &line, lines),
        None => Err(lines.missing(end)),
    }
}

/// The locals of a formula, at this indentation, and what it returns.
fn read_body<'a>(
    alloc: Global,
    text: &'a str,
    end: usize,
    indent: usize,
    lines: &mut Lines,
) -> Result<(Vec<Assignment<'a>>, Returned<'a>), FormulaFault>
    ensures { Takes (λ b. (map assigned b.0.items, answer b.1)) (spec.body text.now end indent (length lines.old) lines.old) result lines.new }
{
    let mut locals = Vec::new(alloc);
    for _turn in 0..lines.left() {
        match next_step(alloc, text, end, indent, lines)? {
            Step::Local(local) => locals.push(local)?,
            Step::Result(returned) => return Ok((locals, returned)),
        }
    }
    Err(lines.missing(end))
}

/// A formula.
#[tactic(auto, unfolding(crate::specs::Reading::formula_at))]
fn read_formula<'a>(
    alloc: Global,
    text: &'a str,
    end: usize,
    line: &Line,
    lines: &mut Lines,
) -> Result<Formula<'a>, FormulaFault>
    ensures { Takes formula_view (spec.formula_at text.now end line.now lines.old) result lines.new }
{
    let (start, signature) = read_definition_heading(text, line)?;
    let indent = lines.deeper(end, line.indent())?;
    lines.pass_text(text);
    let (locals, returned) = read_body(alloc, text, end, indent, lines)?;
    Ok(Formula {
        line: line.number(),
        start,
        signature,
        locals,
        returned,
    })
}

/// What a line of a variable has, and the lines below it, or nothing.
#[tactic(auto, unfolding(crate::specs::Reading::variable_line))]
fn read_item<'a>(
    alloc: Global,
    text: &'a str,
    end: usize,
    line: &Line,
    lines: &mut Lines,
) -> Result<Option<ClassLine<'a>>, FormulaFault>
    ensures { Takes (option_map item) (spec.variable_line text.now end line.now lines.old) result lines.new }
{
    match shape_of(text, line.tokens()) {
        Shape::Text => Ok(None),
        Shape::Pass => {
            read_alone(text, line)?;
            Ok(None)
        }
        Shape::Assignment => {
            let (name, value) = read_assignment(alloc, text, line, Mode::Value)?;
            let attribute = Assignment {
                line: line.number(),
                name,
                value,
            };
            if is_week_attribute(&attribute) {
                return Err(line.refuse(FormulaKind::Unsupported));
            }
            Ok(Some(ClassLine::Attribute(attribute)))
        }
        Shape::Definition => {
            let formula = read_formula(alloc, text, end, line, lines)?;
            Ok(Some(ClassLine::Formula(Box::new(alloc, formula)?)))
        }
        Shape::Import | Shape::Class | Shape::Return => Err(line.refuse(FormulaKind::Unsupported)),
        Shape::Other(kind) => Err(line.refuse(kind)),
    }
}

/// What the next line of a variable at this indentation has, and the lines below it, if there is a next line.
fn next_item<'a>(
    alloc: Global,
    text: &'a str,
    end: usize,
    indent: usize,
    lines: &mut Lines,
) -> Result<Option<Option<ClassLine<'a>>>, FormulaFault>
    ensures { Takes (option_map (option_map item)) (spec.turn indent (spec.variable_line text.now end) lines.old) result lines.new }
{
    match lines.next_at(indent)? {
        Some(line) => Ok(Some(read_item(alloc, text, end, &line, lines)?)),
        None => Ok(None),
    }
}

/// What a variable has, at this indentation.
pub(crate) fn read_items<'a>(
    alloc: Global,
    text: &'a str,
    end: usize,
    indent: usize,
    lines: &mut Lines,
) -> Result<Vec<ClassLine<'a>>, FormulaFault>
    ensures { Takes (λ v. map item v.items) (spec.block indent (spec.variable_line text.now end) (length lines.old) lines.old) result lines.new }
{
    let mut found = Vec::new(alloc);
    for _turn in 0..lines.left() {
        let Some(item) = next_item(alloc, text, end, indent, lines)? else {
            return Ok(found);
        };
        keep(&mut found, item)?;
    }
    Ok(found)
}
