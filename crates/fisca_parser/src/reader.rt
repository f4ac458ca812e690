//! Modules, read from their texts.

ghost use Rattle.std.specs.Prelude.{List, IfOk};
ghost use Rattle.fisca_parser.specs.Grammar.{IsModule};
ghost use Rattle.fisca_ast.specs.Modules.{Statement};
ghost use Rattle.fisca_parser.specs.Reading as spec;
ghost use Rattle.fisca_parser.specs.Reading.{Tells};
ghost use Rattle.fisca_ast.specs.ModuleViews.{statements};
ghost use Rattle.fisca_parser.specs.Views.{Finds};

use crate::declarations::read_statements;
use crate::line::{last_line, lines};
use crate::lines::Lines;
use fisca_ast::{FormulaFault, Module};
use fisca_lexer::{Token, join_texts, tokens};
use std::alloc::Global;

/// The module that these tokens of a text are.
fn read_tokens<'a>(
    alloc: Global,
    text: &'a str,
    tokens: Vec<Token>,
) -> Result<Module<'a>, FormulaFault>
    ensures { Tells statements (spec.of_joined text.now tokens.items) result }
{
    let end = last_line(tokens.as_slice());
    let mut left = Lines::new(lines(alloc, tokens)?);
    let statements = read_statements(alloc, text, end, &mut left)?;
    Ok(Module { statements })
}

/// What a text declares, or its first fault.
fn read_text<'a>(alloc: Global, text: &'a str) -> Result<Module<'a>, FormulaFault>
    ensures { Tells statements (spec.module_of text.now) result }
{
    let mut found = tokens(alloc, text)?;
    join_texts(&mut found);
    read_tokens(alloc, text, found)
}

/// The module that a text is: import lines and texts that stand alone, which declare nothing; `NAME = build_entity(..)`;
/// `entities = [NAME, ..]`; classes `class NAME(Enum):` with members `NAME = STRING`; and classes `class NAME(Variable):` with
/// attributes `NAME = expression` and formulas `def formula(a, b):`, in which locals come before one `return`. (Python's
/// statements, a subset, as OpenFisca's country packages use them.)
///
/// Else the first fault is told with its line. Those of the tokens come before all others (`tokens` has their list). Then,
/// from top to bottom and on a line from left to right: `Indent` for a line that is deeper than its block; `Unsupported` for
/// any other statement of Python; `Syntax` for a token that does not fit, and, told of the line that follows or of the last
/// one, for a body or a `return` that is missing; and the faults of expressions (`read_expression` has their list), which are
/// read up to height 120: `TooDeep` is told of the line on which the statement begins. `Memory`, at line 0, comes only where a
/// growth was refused.
#[tactic(auto, using(crate::proofs::Laws::text_found, crate::proofs::Laws::text_only))]
pub fn read_module<'a>(alloc: Global, text: &'a str) -> Result<Module<'a>, FormulaFault>
    // What is read is declared there.
    ensures found { IfOk result (λ m. IsModule text.now (statements m)) }
    // What is declared there is read, unless memory runs out.
    ensures only { (ss : List Statement) → IsModule text.now ss → Finds ss result }
    // It is this module, or else the fault is the first one, with its line.
    ensures told { Tells statements (spec.module_of text.now) result }
{
    read_text(alloc, text)
}
