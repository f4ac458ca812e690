//! The lines of a variable from top to bottom.

ghost use Rattle.std.specs.List.{list_any};
ghost use Rattle.std.specs.Prelude.{◌≡◌};
ghost use Rattle.std.specs.Str.{bytes_eq};
ghost use Rattle.fisca_ast.specs.Outcomes.{Gives};
ghost use Rattle.fisca_ast.specs.ModuleViews.{assigned, formula_view, item};
ghost use Rattle.fisca_declarations.specs.Lines as spec;
ghost use Rattle.fisca_declarations.specs.Steps.Lines as steps;
ghost use Rattle.fisca_declarations.specs.Steps.VariableForms as forms;

use crate::attributes::{Attributes, read_attribute};
use crate::before::Before;
use crate::days::with_day;
use crate::declared::Declared;
use crate::types::{TypeLines, may_have_formulas};
use fisca_ast::{Assignment, ClassLine, Formula, FormulaKind, Slice};
use std::alloc::Global;

impl<'a> Before<'a> {
    ghost use Rattle.std.specs.Prelude.{◌≡◌};
    ghost use Rattle.fisca_declarations.specs.Lines.{before, nothing_before};

    /// Nothing came before.
    pub fn new(alloc: Global) -> Before<'a>
        ensures { before result ≡ nothing_before }
    {
        Before {
            names: Vec::new(alloc),
            days: None,
        }
    }
}

/// Whether a name is one of these.
fn is_among(names: &[Slice<'_>], name: &[u8]) -> bool
    ensures { result ≡ list_any (λ k. bytes_eq k name.now) names.now }
{
    names.iter().any(|known| known.as_bytes() == name)
}

/// What is known behind an attribute, which came for the first time and is right, or `BadAttribute` or `UnknownName`; what it
/// says is put beside what was said.
fn behind_attribute<'a>(
    alloc: Global,
    declared: &Declared<'_>,
    types: TypeLines,
    said: &mut Attributes<'a>,
    before: Before<'a>,
    attribute: &Assignment<'a>,
) -> Result<Before<'a>, FormulaKind>
    ensures { Gives (λ b. (spec.before b, said.new))
        (steps.behind_attribute declared.now types (spec.before before.entry) said.old (assigned attribute.now)) result }
{
    let name = attribute.name.as_bytes();
    if is_among(before.names.as_slice(), name) {
        return Err(FormulaKind::BadAttribute);
    }
    read_attribute(alloc, declared, types, said, name, &attribute.value)?;
    let Before { mut names, days } = before;
    names.push(Slice::new(attribute.name.as_str()))?;
    Ok(Before { names, days })
}

/// What is known behind a formula, where there may be one and none came before with the same start; or `BadAttribute`.
#[tactic(auto, using(crate::proofs::Came::day_came, crate::proofs::Came::day_new))]
fn behind_formula<'a>(
    alloc: Global,
    types: TypeLines,
    before: Before<'a>,
    formula: &Formula<'a>,
) -> Result<Before<'a>, FormulaKind>
    ensures { Gives spec.before (steps.behind_formula (forms.may_have_formulas types) (spec.before before.entry) (formula_view formula.now)) result }
{
    if !may_have_formulas(types) {
        return Err(FormulaKind::BadAttribute);
    }
    let Before { names, days } = before;
    match with_day(alloc, days, formula.start)? {
        Some(found) => Ok(Before {
            names,
            days: Some(found),
        }),
        None => Err(FormulaKind::BadAttribute),
    }
}

/// What is known behind a line of a variable of this type, and what is said with it; or the fault of the line.
pub fn behind_line<'a>(
    alloc: Global,
    declared: &Declared<'_>,
    types: TypeLines,
    said: &mut Attributes<'a>,
    before: Before<'a>,
    line: &ClassLine<'a>,
) -> Result<Before<'a>, FormulaKind>
    ensures { Gives (λ b. (spec.before b, said.new))
        (steps.behind_line declared.now types (spec.before before.entry) said.old (item line.now)) result }
{
    match line {
        ClassLine::Attribute(attribute) => {
            behind_attribute(alloc, declared, types, said, before, attribute)
        }
        ClassLine::Formula(formula) => behind_formula(alloc, types, before, formula),
    }
}
