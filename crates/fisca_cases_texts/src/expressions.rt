//! Expressions of modules.

use fisca_ast::{
    Argument, Arguments, Comparison, Delimiter, Expr, Operator, Prefix, Slice, Suffix,
};
use fisca_cases_base::{BaseFault, Written, one};
use fisca_expr_parser::{Mode, read_expression};
use fisca_lexer::{join_texts, tokens};
use std::alloc::Global;

/// How high an expression may be.
const HEIGHT: usize = 120;

/// The answer to a case of expressions: what the call of this name gives for these words.
pub fn answer(alloc: Global, operation: &str, words: &[String]) -> Result<String, BaseFault> {
    match operation {
        "formula" => read(alloc, one(words)?, Mode::Formula),
        "value" => read(alloc, one(words)?, Mode::Value),
        _ => Err(BaseFault::Malformed),
    }
}

/// The expression that a text is.
fn read(alloc: Global, source: &str, mode: Mode) -> Result<String, BaseFault> {
    let mut found = tokens(alloc, source)?;
    join_texts(&mut found);
    let expr = read_expression(alloc, source, &found, mode, HEIGHT)?;
    let mut shown = Written::new(alloc);
    show(&mut shown, &expr);
    Ok(shown.finish()?)
}

/// Appends an expression with each operation in parentheses, and a letter before brackets that begin one.
#[cycle(show)]
fn show(shown: &mut Written, expr: &Expr<'_>) {
    match expr {
        Expr::Name(word) | Expr::Number(word) | Expr::Text(word) => push(shown, word),
        Expr::Bracketed(bracket, inside) => {
            shown.push(beginning(*bracket));
            show_arguments(shown, inside);
            shown.push(">");
        }
        Expr::Attribute(access) => {
            show(shown, &access.front);
            shown.push(".");
            push(shown, &access.name);
        }
        Expr::Applied(suffix, application) => {
            show(shown, &application.front);
            shown.push(opening(*suffix));
            show_arguments(shown, &application.behind);
            shown.push(closing(*suffix));
        }
        Expr::Prefixed(prefix, value) => {
            shown.push(prefix_name(*prefix));
            show(shown, value);
        }
        Expr::Binary(operator, operands) => {
            shown.push("(");
            show(shown, &operands.left);
            shown.push(operator_name(*operator));
            show(shown, &operands.right);
            shown.push(")");
        }
        Expr::Compare(comparison, operands) => {
            shown.push("(");
            show(shown, &operands.left);
            shown.push(comparison_name(*comparison));
            show(shown, &operands.right);
            shown.push(")");
        }
    }
}

#[cycle(show)]
fn show_arguments(shown: &mut Written, inside: &Arguments<'_>) {
    match inside {
        Arguments::One(argument) => show_argument(shown, argument),
        Arguments::Several(items, comma) => {
            show_each(shown, items.as_slice());
            shown.push(if *comma && !items.is_empty() { "," } else { "" });
        }
    }
}

#[cycle(show)]
fn show_each(shown: &mut Written, items: &[Argument<'_>]) {
    let mut is_first = true;
    for argument in items {
        shown.push(if is_first { "" } else { " " });
        show_argument(shown, argument);
        is_first = false;
    }
}

#[cycle(show)]
fn show_argument(shown: &mut Written, argument: &Argument<'_>) {
    match argument {
        Argument::Positional(value) => show(shown, value),
        Argument::Keyword(key, value) => {
            push(shown, key);
            shown.push("=");
            show(shown, value);
        }
        Argument::Entry(key, value) => {
            show(shown, key);
            shown.push(":");
            show(shown, value);
        }
    }
}

fn push(shown: &mut Written, slice: &Slice<'_>) {
    shown.push(slice.as_str());
}

fn beginning(bracket: Delimiter) -> &'static str {
    match bracket {
        Delimiter::Round => "r<",
        Delimiter::Square => "s<",
        Delimiter::Curly => "c<",
    }
}

fn opening(suffix: Suffix) -> &'static str {
    match suffix {
        Suffix::Call => "(",
        Suffix::Subscript => "[",
    }
}

fn closing(suffix: Suffix) -> &'static str {
    match suffix {
        Suffix::Call => ")",
        Suffix::Subscript => "]",
    }
}

fn prefix_name(prefix: Prefix) -> &'static str {
    match prefix {
        Prefix::Plus => "Plus ",
        Prefix::Minus => "Minus ",
        Prefix::Not => "Not ",
    }
}

fn operator_name(operator: Operator) -> &'static str {
    match operator {
        Operator::Or => " Or ",
        Operator::And => " And ",
        Operator::Add => " Add ",
        Operator::Subtract => " Subtract ",
        Operator::Multiply => " Multiply ",
        Operator::Divide => " Divide ",
    }
}

fn comparison_name(comparison: Comparison) -> &'static str {
    match comparison {
        Comparison::Less => " Less ",
        Comparison::LessEqual => " LessEqual ",
        Comparison::Greater => " Greater ",
        Comparison::GreaterEqual => " GreaterEqual ",
        Comparison::Equal => " Equal ",
        Comparison::NotEqual => " NotEqual ",
    }
}
