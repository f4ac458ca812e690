//! Reading of modules, which `bench/texts/modules` and `fuzz/run modules` write.
use crate::{Measurement, list, show};
use fisca_ast::{
    Argument, Arguments, Assignment, ClassLine, Expr, Formula, Member, Slice, Statement,
};
use fisca_parser::read_module;
use std::alloc::{AllocError, Global};
use std::rt::{Clock, Files};
use std::time::Instant;
use std::{fs, io};

/// `modules NAME COUNT`, or `modules FILE`, which writes a line for each of the texts in a file, between which the byte 30
/// stands: the checksum of its module, or `!` with the line and the word of its fault.
pub fn run(
    rt: &(impl Print + Clock + Files + Alloc),
    alloc: Global,
    words: &[String],
) -> io::Result<()> {
    match words {
        [name, count] => {
            let path = format!(in alloc; "bench/out/modules/{name}.py")?;
            let text = fs::read_to_string(rt, path.as_str())?;
            let count: u64 = count.as_str().parse().unwrap_or(0);
            show(rt, measure(rt, alloc, text.as_str(), count)?)
        }
        [path] => {
            let texts = fs::read_to_string(rt, path.as_str())?;
            for text in texts.split('\u{1e}') {
                let line = line_of(alloc, text)?;
                println!(rt; "{line}")?;
            }
            Ok(())
        }
        _ => list(rt),
    }
}

/// The line of a text.
fn line_of(alloc: Global, text: &str) -> Result<String, AllocError> {
    match read_module(alloc, text) {
        Ok(module) => {
            let checksum = statements(&module.statements);
            format!(in alloc; "{checksum}")
        }
        Err(fault) => {
            let name = fault.kind.name();
            let line = fault.line;
            format!(in alloc; "! {line} {name}")
        }
    }
}

/// Reads a text so often. The checksum is of what the module has, with lines and lengths.
fn measure(rt: &impl Clock, alloc: Global, text: &str, count: u64) -> io::Result<Measurement> {
    let mut checksum = 0;
    let start = Instant::now(rt)?;
    for _run in 0..count {
        checksum = match read_module(alloc, text) {
            Ok(module) => statements(&module.statements),
            Err(_) => u64::MAX,
        };
    }
    let nanoseconds = start.elapsed(rt)?.as_nanos();
    Ok(Measurement {
        nanoseconds,
        checksum,
    })
}

fn statements(all: &[Statement<'_>]) -> u64 {
    let mut sum = 0u64;
    for one in all {
        sum = sum.wrapping_add(statement(one));
    }
    sum
}

fn statement(one: &Statement<'_>) -> u64 {
    match one {
        Statement::Entity(assigned) | Statement::Entities(assigned) => assignment(assigned),
        Statement::Enum(class) => {
            let mut sum = placed(class.line, &class.name);
            for found in &class.members {
                sum = sum.wrapping_add(member(found));
            }
            sum
        }
        Statement::Variable(class) => {
            let mut sum = placed(class.line, &class.name);
            for found in &class.items {
                sum = sum.wrapping_add(item(found));
            }
            sum
        }
    }
}

fn length(slice: &Slice<'_>) -> u64 {
    slice.as_bytes().len() as u64
}

fn placed(line: usize, name: &Slice<'_>) -> u64 {
    (line as u64).wrapping_add(length(name))
}

fn member(found: &Member<'_>) -> u64 {
    placed(found.line, &found.name).wrapping_add(length(&found.text))
}

fn assignment(assigned: &Assignment<'_>) -> u64 {
    placed(assigned.line, &assigned.name).wrapping_add(expression(&assigned.value))
}

fn item(found: &ClassLine<'_>) -> u64 {
    match found {
        ClassLine::Attribute(assigned) => assignment(assigned),
        ClassLine::Formula(one) => formula(one),
    }
}

fn formula(one: &Formula<'_>) -> u64 {
    let start = u64::from(one.start.year())
        + u64::from(one.start.month())
        + u64::from(one.start.day());
    let mut sum = placed(one.line, &one.signature.entity)
        .wrapping_add(start)
        .wrapping_add(length(&one.signature.period));
    if let Some(parameters) = &one.signature.parameters {
        sum = sum.wrapping_add(length(parameters));
    }
    for assigned in &one.locals {
        sum = sum.wrapping_add(assignment(assigned));
    }
    sum.wrapping_add(one.returned.line as u64)
        .wrapping_add(expression(&one.returned.value))
}

#[cycle(checksum)]
fn expression(expr: &Expr<'_>) -> u64 {
    match expr {
        Expr::Name(slice) | Expr::Number(slice) | Expr::Text(slice) => length(slice),
        Expr::Bracketed(_, inside) => arguments(inside).wrapping_add(1),
        Expr::Attribute(access) => expression(&access.front)
            .wrapping_add(1)
            .wrapping_add(length(&access.name)),
        Expr::Applied(_, application) => {
            expression(&application.front)
                .wrapping_add(1)
                .wrapping_add(arguments(&application.behind))
        }
        Expr::Prefixed(_, inside) => expression(inside).wrapping_add(1),
        Expr::Binary(_, operands) | Expr::Compare(_, operands) => {
            expression(&operands.left)
                .wrapping_add(1)
                .wrapping_add(expression(&operands.right))
        }
    }
}

#[cycle(checksum)]
fn arguments(inside: &Arguments<'_>) -> u64 {
    match inside {
        Arguments::One(one) => argument(one),
        Arguments::Several(items, comma) => { arguments_of(items).wrapping_add(u64::from(*comma)) }
    }
}

#[cycle(checksum)]
fn arguments_of(items: &[Argument<'_>]) -> u64 {
    let mut sum = 0u64;
    for one in items {
        sum = sum.wrapping_add(argument(one));
    }
    sum
}

#[cycle(checksum)]
fn argument(one: &Argument<'_>) -> u64 {
    match one {
        Argument::Positional(value) => expression(value),
        Argument::Keyword(key, value) => length(key).wrapping_add(expression(value)),
        Argument::Entry(key, value) => expression(key).wrapping_add(expression(value)),
    }
}
