//! Formulas of a variable, as they are written.

use fisca_ast::ClassLine;
use std::marker::Model;

/// The formulas of a variable from top to bottom, seen as a list. They stay among its lines, so that nothing is moved.
#[derive(Drop)]
pub struct Formulas<'a> {
    lines: Vec<ClassLine<'a>>,
}

impl<'a> Model for Formulas<'a> {
    ghost use Rattle.std.specs.Prelude.{List};
    ghost use Rattle.fisca_ast.specs.declared.module.Formula.{Formula};
    ghost use Rattle.fisca_ast.specs.contracts.tree.Expr as e;
    ghost use Rattle.fisca_declarations.specs.FormulaLines.{formulas_in};
    ghost use Rattle.std.specs.Coded.{codes};
    ghost use denote.Signature.{static_lft};

    ghost Value = { List Formula };

    ghost coded = { Prim.hlevel (codes, (e.the_row static_lft).coded) };

    ghost view = { λ f. formulas_in f.lines.items };
}

impl<'a> Formulas<'a> {
    ghost use Rattle.std.specs.Prelude.{◌≡◌};
    ghost use Rattle.fisca_declarations.specs.FormulaLines.{formulas_in};

    /// The formulas among these lines.
    pub fn new(lines: Vec<ClassLine<'a>>) -> Formulas<'a>
        ensures { result ≡ formulas_in lines.entry.items }
    {
        Formulas { lines }
    }

    /// The lines that they stand among, from top to bottom.
    pub fn lines(&self) -> &[ClassLine<'a>]
        ensures { formulas_in result.now ≡ self.now }
    {
        self.lines.as_slice()
    }
}
