//! Numbers.

use crate::fault::BaseFault;
use crate::words::{number, one, two};
use fisca_num::{Fraction, NumFault};
use std::alloc::Global;
use std::cmp::Ordering;

/// The answer to a case of numbers: what the call of this name gives for these words.
pub fn answer(alloc: Global, operation: &str, words: &[String]) -> Result<String, BaseFault> {
    match operation {
        "read" => read(alloc, words),
        "new" => new(alloc, words),
        "add" | "sub" | "mul" | "div" => operate(alloc, operation, words),
        "neg" => neg(alloc, words),
        "trunc" => trunc(alloc, words),
        "write" => write(alloc, words),
        "order" => order(alloc, words),
        _ => Err(BaseFault::Malformed),
    }
}

fn shown(alloc: Global, number: Fraction) -> Result<String, BaseFault> {
    Ok(number.text(alloc)?)
}

/// The quotient of the integers of a word `N/D`, or of `N` and 1.
pub fn fraction(word: &str) -> Result<Fraction, BaseFault> {
    let (numerator, denominator) = match word.split_once('/') {
        Some(parts) => parts,
        None => (word, "1"),
    };
    Ok(Fraction::new(number(numerator)?, number(denominator)?)?)
}

fn read(alloc: Global, words: &[String]) -> Result<String, BaseFault> {
    shown(alloc, Fraction::from_decimal(one(words)?)?)
}

fn new(alloc: Global, words: &[String]) -> Result<String, BaseFault> {
    shown(alloc, fraction(one(words)?)?)
}

fn neg(alloc: Global, words: &[String]) -> Result<String, BaseFault> {
    shown(alloc, fraction(one(words)?)?.neg())
}

/// What an operation of two numbers gives.
fn operate(alloc: Global, operation: &str, words: &[String]) -> Result<String, BaseFault> {
    let (left, right) = two(words)?;
    shown(
        alloc,
        operated(operation, fraction(left)?, fraction(right)?)?,
    )
}

fn operated(operation: &str, left: Fraction, right: Fraction) -> Result<Fraction, NumFault> {
    match operation {
        "add" => left.add(right),
        "sub" => left.sub(right),
        "mul" => left.mul(right),
        _ => left.div(right),
    }
}

fn trunc(alloc: Global, words: &[String]) -> Result<String, BaseFault> {
    let whole = fraction(one(words)?)?.trunc();
    Ok(format!(in alloc; "{whole}")?)
}

/// The text of a number behind a line's beginning.
fn write(alloc: Global, words: &[String]) -> Result<String, BaseFault> {
    let (beginning, number) = two(words)?;
    let mut line = String::from_str(alloc, beginning)?;
    fraction(number)?.write_text(&mut line)?;
    Ok(line)
}

/// How each number stands to each, in rows, behind its parts.
fn order(alloc: Global, words: &[String]) -> Result<String, BaseFault> {
    let mut rows = String::new(alloc);
    for word in words {
        let row = row(alloc, fraction(word.as_str())?, words)?;
        rows.push_str(if rows.is_empty() { "" } else { "\n" })?;
        rows.push_str(row.as_str())?;
    }
    Ok(rows)
}

fn row(alloc: Global, left: Fraction, words: &[String]) -> Result<String, BaseFault> {
    let numerator = left.numerator();
    let denominator = left.denominator();
    let mut row = format!(in alloc; "{numerator}/{denominator}:")?;
    for word in words {
        row.push_str(sign(left, fraction(word.as_str())?))?;
    }
    Ok(row)
}

/// `?` where the order and equality disagree.
fn sign(left: Fraction, right: Fraction) -> &'static str {
    match (left.cmp(&right), left == right) {
        (Ordering::Less, false) => " <",
        (Ordering::Equal, true) => " =",
        (Ordering::Greater, false) => " >",
        (Ordering::Equal, false) | (Ordering::Less | Ordering::Greater, true) => " ?",
    }
}
