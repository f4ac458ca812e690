//! Single lines: what stands on them, or the first fault with its line.

ghost use Rattle.std.specs.Prelude.{◌≡◌};
ghost use Rattle.fisca_ast.specs.Views.{tree};
ghost use Rattle.fisca_parser.specs.Headings as heading;
ghost use Rattle.fisca_parser.specs.Steps.Lines.{on_line};
ghost use Rattle.fisca_parser.specs.Reading.{Tells};

use crate::heading::{
    Base, alone, assignment, class_heading, definition_heading, labelled, returned,
};
use crate::line::Line;
use fisca_ast::{Expr, FormulaFault, Signature, Slice};
use fisca_expr_parser::Mode;
use fisca_time::Instant;
use std::alloc::Global;

/// A word alone.
pub(crate) fn read_alone(text: &str, line: &Line) -> Result<(), FormulaFault>
    ensures { Tells (λ _. tt) (on_line text.now heading.alone line.now) result }
{
    let mut cursor = line.cursor(text);
    match alone(&mut cursor) {
        Ok(()) => Ok(()),
        Err(refusal) => Err(line.placed(refusal)),
    }
}

/// `NAME = expression`
pub(crate) fn read_assignment<'a>(
    alloc: Global,
    text: &'a str,
    line: &Line,
    mode: Mode,
) -> Result<(Slice<'a>, Expr<'a>), FormulaFault>
    ensures { Tells (λ p. (p.0, tree p.1)) (on_line text.now (heading.assignment mode) line.now) result }
{
    let mut cursor = line.cursor(text);
    match assignment(alloc, &mut cursor, mode) {
        Ok(found) => Ok(found),
        Err(refusal) => Err(line.placed(refusal)),
    }
}

/// `return expression`
pub(crate) fn read_returned<'a>(
    alloc: Global,
    text: &'a str,
    line: &Line,
    mode: Mode,
) -> Result<Expr<'a>, FormulaFault>
    ensures { Tells tree (on_line text.now (heading.returned mode) line.now) result }
{
    let mut cursor = line.cursor(text);
    match returned(alloc, &mut cursor, mode) {
        Ok(found) => Ok(found),
        Err(refusal) => Err(line.placed(refusal)),
    }
}

/// `NAME = STRING`
pub(crate) fn read_labelled<'a>(
    text: &'a str,
    line: &Line,
) -> Result<(Slice<'a>, Slice<'a>), FormulaFault>
    ensures { Tells (λ p. p) (on_line text.now heading.labelled line.now) result }
{
    let mut cursor = line.cursor(text);
    match labelled(&mut cursor) {
        Ok(found) => Ok(found),
        Err(refusal) => Err(line.placed(refusal)),
    }
}

/// `class NAME(BASE):`
pub(crate) fn read_class_heading<'a>(
    text: &'a str,
    line: &Line,
) -> Result<(Slice<'a>, Base), FormulaFault>
    ensures { Tells (λ p. p) (on_line text.now heading.class_heading line.now) result }
{
    let mut cursor = line.cursor(text);
    match class_heading(&mut cursor) {
        Ok(found) => Ok(found),
        Err(refusal) => Err(line.placed(refusal)),
    }
}

/// `def NAME(a, b):` or `def NAME(a, b, c):`
pub(crate) fn read_definition_heading<'a>(
    text: &'a str,
    line: &Line,
) -> Result<(Instant, Signature<'a>), FormulaFault>
    ensures { Tells (λ p. p) (on_line text.now heading.definition_heading line.now) result }
{
    let mut cursor = line.cursor(text);
    match definition_heading(&mut cursor) {
        Ok(found) => Ok(found),
        Err(refusal) => Err(line.placed(refusal)),
    }
}
