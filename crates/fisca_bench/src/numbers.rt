//! Arithmetic, order and texts of fractions, on a table of operands that is gone over again and again.
use crate::{Measurement, list, show};
use fisca_num::Fraction;
use std::alloc::{AllocError, Global};
use std::io;
use std::rt::Clock;
use std::time::Instant;

/// How many operations one pass over the table makes.
const TABLE: u64 = 1024;

/// A table of pairs of operands.
type Pairs = Vec<(Fraction, Fraction)>;

/// What operations work on.
#[derive(Drop)]
struct Operands {
    pairs: Pairs,
    texts: Vec<String>,
}

/// The operands of a mix.
#[derive(Clone, Copy)]
enum Mix {
    Whole,
    Hundredths,
    Unlike,
}

/// `numbers OPERATION MIX COUNT`.
pub fn run(rt: &(impl Print + Clock), alloc: Global, words: &[String]) -> io::Result<()> {
    match words {
        [operation, mix, count] => {
            let count: u64 = count.as_str().parse().unwrap_or(0);
            let Some(mix) = mix_of(mix.as_str()) else {
                return list(rt);
            };
            match measure(rt, alloc, operation.as_str(), mix, count / TABLE)? {
                Some(measured) => show(rt, measured),
                None => list(rt),
            }
        }
        _ => list(rt),
    }
}

fn mix_of(word: &str) -> Option<Mix> {
    match word {
        "whole" => Some(Mix::Whole),
        "hundredths" => Some(Mix::Hundredths),
        "unlike" => Some(Mix::Unlike),
        _ => None,
    }
}

/// Measures an operation, going over the table as often as `rounds` says.
fn measure(
    rt: &impl Clock,
    alloc: Global,
    operation: &str,
    mix: Mix,
    rounds: u64,
) -> io::Result<Option<Measurement>> {
    let operands = Operands {
        pairs: pairs_of(alloc, mix)?,
        texts: texts_of(alloc, mix)?,
    };
    let mut line = String::new(alloc);
    let start = Instant::now(rt)?;
    match gone_over(&operands, operation, rounds, &mut line) {
        Some(checksum) => Ok(Some(Measurement {
            nanoseconds: start.elapsed(rt)?.as_nanos(),
            checksum,
        })),
        None => Ok(None),
    }
}

/// The checksum of an operation.
fn gone_over(operands: &Operands, operation: &str, rounds: u64, line: &mut String) -> Option<u64> {
    let pairs = operands.pairs.as_slice();
    match operation {
        "add" => Some(sums(pairs, rounds)),
        "mul" => Some(products(pairs, rounds)),
        "cmp" => Some(comparisons(pairs, rounds)),
        "text" => Some(written(pairs, rounds, line)),
        "decimal" => Some(read(operands.texts.as_slice(), rounds)),
        _ => None,
    }
}

/// The next of a row of numbers that look like random ones.
fn next(state: u64) -> u64 {
    let mut x = state;
    x ^= x << 13;
    x ^= x >> 7;
    x ^= x << 17;
    x
}

/// A number of the mix, from two random ones.
fn operand(mix: Mix, high: u64, low: u64) -> Fraction {
    let (numerator, denominator) = match mix {
        Mix::Whole => ((high % 2_000_001) as i64 - 1_000_000, 1),
        Mix::Hundredths => ((high % 200_000_001) as i64 - 100_000_000, 100),
        Mix::Unlike => (
            (high % 2_000_001) as i64 - 1_000_000,
            (low % 1_000_000) as i64 + 1,
        ),
    };
    Fraction::new(numerator, denominator).unwrap_or(Fraction::zero())
}

fn pairs_of(alloc: Global, mix: Mix) -> Result<Pairs, AllocError> {
    let mut pairs = Vec::with_capacity(alloc, TABLE as usize)?;
    let mut state = 88_172_645_463_325_252u64;
    for _ in 0..TABLE {
        let a = next(state);
        let b = next(a);
        let c = next(b);
        state = next(c);
        pairs.push((operand(mix, a, b), operand(mix, c, state)))?;
    }
    Ok(pairs)
}

/// Literals of the mix: whole numbers, two places, six places.
fn texts_of(alloc: Global, mix: Mix) -> Result<Vec<String>, AllocError> {
    let mut texts = Vec::with_capacity(alloc, TABLE as usize)?;
    let mut state = 88_172_645_463_325_252u64;
    for _ in 0..TABLE {
        let a = next(state);
        state = next(a);
        let whole = (a % 2_000_001) as i64 - 1_000_000;
        let hundredths = state % 100;
        let millionths = state % 1_000_000;
        texts.push(match mix {
            Mix::Whole => format!(in alloc; "{whole}")?,
            Mix::Hundredths => format!(in alloc; "{whole}.{hundredths:02}")?,
            Mix::Unlike => format!(in alloc; "{whole}.{millionths:06}")?,
        })?;
    }
    Ok(texts)
}

/// A checksum with one more number.
fn mixed(checksum: u64, number: Fraction) -> u64 {
    let size = number.numerator().unsigned_abs();
    let sign = u64::from(number.numerator() < 0);
    checksum.rotate_left(5) ^ size.wrapping_add(number.denominator()) ^ sign
}

fn sums(pairs: &[(Fraction, Fraction)], rounds: u64) -> u64 {
    let mut checksum = 0;
    for _ in 0..rounds {
        for (left, right) in pairs {
            if let Ok(sum) = left.add(*right) {
                checksum = mixed(checksum, sum);
            }
        }
    }
    checksum
}

fn products(pairs: &[(Fraction, Fraction)], rounds: u64) -> u64 {
    let mut checksum = 0;
    for _ in 0..rounds {
        for (left, right) in pairs {
            if let Ok(product) = left.mul(*right) {
                checksum = mixed(checksum, product);
            }
        }
    }
    checksum
}

fn comparisons(pairs: &[(Fraction, Fraction)], rounds: u64) -> u64 {
    let mut checksum: u64 = 0;
    for _ in 0..rounds {
        for (left, right) in pairs {
            checksum = checksum.rotate_left(1) ^ u64::from(left < right);
        }
    }
    checksum
}

fn written(pairs: &[(Fraction, Fraction)], rounds: u64, line: &mut String) -> u64 {
    let mut checksum: u64 = 0;
    for _ in 0..rounds {
        for (left, _) in pairs {
            line.clear();
            if left.write_text(line).is_ok() {
                let last = line.as_bytes().last().copied().unwrap_or(0);
                checksum = checksum.rotate_left(5) ^ line.len() as u64 ^ u64::from(last);
            }
        }
    }
    checksum
}

fn read(texts: &[String], rounds: u64) -> u64 {
    let mut checksum = 0;
    for _ in 0..rounds {
        for text in texts {
            if let Ok(number) = Fraction::from_decimal(text.as_str()) {
                checksum = mixed(checksum, number);
            }
        }
    }
    checksum
}
