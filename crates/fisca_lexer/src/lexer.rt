//! The tokens of a text.

ghost use Rattle.std.specs.Prelude.{◌≡◌, ◌≢◌, ◌≤◌, ◌<◌, ◌+◌, ◌^◌, length, MatchResult, OnOk, IfErr, Err};
ghost use Rattle.fisca_lexer.specs.Layout.{start, step};
ghost use Rattle.fisca_lexer.specs.declared.layout.Layout.{Layout as State};
ghost use Rattle.fisca_lexer.specs.Tokens as spec;
ghost use Rattle.fisca_lexer.specs.Steps.Tokens as steps;
ghost use Rattle.fisca_lexer.specs.Tokens.{Lexes, Lexed};

use crate::front::front;
use crate::layout::{Layout, Margin};
use crate::token::{Form, Piece, Token};
use fisca_ast::{FormulaFault, FormulaKind};
use std::alloc::Global;

/// The most bytes of a text.
const LONGEST: usize = 1 << 20;

/// Puts a token at the end.
#[tactic(auto, using(crate::proofs::Steps::put_more))]
fn keep(found: &mut Vec<Token>, token: Token) -> Result<(), FormulaFault>
    ensures value { OnOk result ((o : Lexed) → spec.behind found.new.items o ≡ spec.behind found.old.items (spec.in_front token o)) }
    ensures err { IfErr result (λ f. f.kind ≡ FormulaKind.Memory) }
{
    found.push(token)?;
    Ok(())
}

/// Goes past a piece at this place, and puts it at the end if it is a token.
fn take(
    found: &mut Vec<Token>,
    layout: &mut Layout,
    at: usize,
    piece: Piece,
) -> Result<(), FormulaFault>
    requires place { at + piece.length < 2 ^ 32 }
    requires line { layout.old.line + piece.lines < 2 ^ 32 }
    requires depth { layout.old.depth < 2 ^ 63 }
    ensures value { MatchResult result (λ _. (others : State → Lexed) → spec.behind found.new.items (others layout.new) ≡ spec.behind found.old.items (spec.after_step others (step at layout.old piece)))
        (λ f. f.kind ≢ FormulaKind.Memory → step at layout.old piece ≡ Err f) }
    ensures line { OnOk result (layout.new.line ≤ layout.old.line + piece.lines) }
    ensures depth { OnOk result (layout.new.depth ≤ layout.old.depth + 1) }
{
    match piece.form {
        Form::Token(class) => {
            let token = layout.token(at, piece, class)?;
            keep(found, token)?;
        }
        Form::Spaces => layout.pass_blanks(Margin::Spaces(piece.length as u32)),
        Form::Tabs => layout.pass_blanks(Margin::Tabs),
        Form::Comment => {}
        Form::LineEnd => layout.end_line(piece.lines),
    }
    Ok(())
}

/// The tokens of a text, in order: words (ASCII letters, digits and `_`), decimal literals, texts in quotes (`'`, `"`, `'''`
/// or `"""`, perhaps behind `u` or `r`) and marks. Each has its place in the text and its line, counted from 1, and the first
/// of a line outside brackets has its indentation. (Python's tokens, a subset.)
///
/// The first fault in the text is told with its line, of a text in quotes that of its beginning: `Syntax` where no token of
/// Python begins or a text in quotes is not closed; `Unsupported` for `%`, a backslash, a letter past ASCII, a text behind
/// `f`, an exponent, and a number outside the limits; `Indent` where a line stands at an indentation that is not open, or
/// behind a tab. `TooLong`, at line 1, comes before all others, where the text has more than 1 MiB. `Memory`, at line 0,
/// comes only where a growth was refused.
pub fn tokens(alloc: Global, text: &str) -> Result<Vec<Token>, FormulaFault>
    ensures { Lexes result (steps.tokens text.now) }
{
    let bytes = text.as_bytes();
    if bytes.len() > LONGEST {
        return Err(FormulaFault {
            line: 1,
            kind: FormulaKind::TooLong,
        });
    }
    read(alloc, bytes)
}

/// The tokens of a text whose places fit into 32 bits.
fn read(alloc: Global, bytes: &[u8]) -> Result<Vec<Token>, FormulaFault>
    requires { length bytes.now < 2 ^ 31 }
    ensures { Lexes result (spec.tokens_from (length bytes.now) 0 start bytes.now) }
{
    let mut found = Vec::new(alloc);
    let mut layout = Layout::new(alloc);
    let mut at = 0;
    while at < bytes.len() {
        let piece = match front(bytes.split_at(at).1) {
            Ok(piece) => piece,
            Err(kind) => {
                return Err(FormulaFault {
                    line: layout.line as usize,
                    kind,
                });
            }
        };
        take(&mut found, &mut layout, at, piece)?;
        at += piece.length;
    }
    Ok(found)
}
