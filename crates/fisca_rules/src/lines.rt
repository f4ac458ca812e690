//! Variables: their lines from top to bottom, and then what they say together.

ghost use Rattle.std.specs.Prelude.{◌≡◌, map};
ghost use Rattle.fisca_rules.specs.FirstPass.{told_at};
ghost use Rattle.fisca_ast.specs.ModuleViews.{item};
ghost use Rattle.fisca_declarations.specs.Lines as lines;
ghost use Rattle.fisca_declarations.specs.Steps.Lines as lines_steps;
ghost use Rattle.fisca_declarations.specs.VariableForms as forms;
ghost use Rattle.fisca_rules.specs.Build as spec;
ghost use Rattle.fisca_rules.specs.Steps.Build as steps;
ghost use Rattle.fisca_rules.specs.Steps.Passes as passes;
ghost use Rattle.fisca_rules.specs.Outcomes.{Tells};

use crate::BuildFault;
use crate::faults::fault_at;
use fisca_ast::{ClassLine, VariableClass};
use fisca_declarations::{
    Attributes, Before, Declaration, Declared, TypeLines, behind_line, type_lines, variable_of,
};
use fisca_symbols::{SourceText, Variable};
use std::alloc::Global;

/// The line on which an attribute or a formula begins.
fn line_of(line: &ClassLine<'_>) -> usize
    ensures { result ≡ spec.line_of_item (item line.now) }
{
    match line {
        ClassLine::Attribute(attribute) => attribute.line,
        ClassLine::Formula(formula) => formula.line,
    }
}

/// What is known behind a line of a variable and what is said with it, or its fault.
fn behind_told<'a>(
    alloc: Global,
    declared: &Declared<'_>,
    place: usize,
    types: TypeLines,
    said: &mut Attributes<'a>,
    before: Before<'a>,
    line: &ClassLine<'a>,
) -> Result<Before<'a>, BuildFault>
    ensures { Tells (λ b. (lines.before b, said.new)) (told_at place (spec.line_of_item (item line.now))
        (lines_steps.behind_line declared.now types (lines.before before.entry) said.old (item line.now))) result }
{
    match behind_line(alloc, declared, types, said, before, line) {
        Ok(next) => Ok(next),
        Err(kind) => Err(fault_at(place, line_of(line), kind)),
    }
}

/// What the lines of a variable of this type say, each by itself and beside the others; or the first fault.
fn lines_read<'a>(
    alloc: Global,
    declared: &Declared<'_>,
    place: usize,
    types: TypeLines,
    items: &[ClassLine<'a>],
) -> Result<Attributes<'a>, BuildFault>
    ensures { Tells (λ s. s) (passes.lines_read declared.now place types lines.nothing_before lines.nothing_said (map item items.now)) result }
{
    let mut said = Attributes::new();
    let mut before = Before::new(alloc);
    for line in items {
        before = behind_told(alloc, declared, place, types, &mut said, before, line)?;
    }
    Ok(said)
}

/// The same as it is said of all lines before each.
fn items_read<'a>(
    alloc: Global,
    declared: &Declared<'_>,
    place: usize,
    items: &[ClassLine<'a>],
) -> Result<(TypeLines, Attributes<'a>), BuildFault>
    ensures { Tells (λ p. p) (spec.items_said declared.now place (map item items.now)) result }
{
    let types = type_lines(declared, items);
    let said = lines_read(alloc, declared, place, types, items)?;
    Ok((types, said))
}

/// A variable of the module at a place, and its declaration: the first fault of its lines, or of the class where something is missing.
pub(crate) fn variable_in<'a>(
    alloc: Global,
    declared: &Declared<'_>,
    place: usize,
    class: VariableClass<'a>,
) -> Result<(Variable<'a>, Declaration<'a>), BuildFault>
    ensures { Tells forms.both_written (steps.variable_in declared.now place class.entry.line class.entry.name (map item class.entry.items.items)) result }
{
    let (types, said) = items_read(alloc, declared, place, class.items.as_slice())?;
    let VariableClass { line, name, items } = class;
    let named = SourceText::borrowed(name.as_str());
    match variable_of(alloc, place, line, named, types, said, items) {
        Ok(made) => Ok(made),
        Err(kind) => Err(fault_at(place, line, kind)),
    }
}
