//! Benchmarks: measures one subject of the crates and prints the nanoseconds that it took and a checksum of its
//! answers. The same work is done by a plain Rust program under `bench/`, which prints the same checksum.
#![tactic(auto)]

mod evaluation;
mod modules;
mod numbers;
mod params;
mod periods;
mod rules;
mod situations;
mod trees;
mod yaml;

use std::alloc::Global;
use std::{env, io};

/// What a run of a benchmark gives: its time, and a checksum of its answers.
pub struct Measurement {
    pub nanoseconds: u128,
    pub checksum: u64,
}

fn main(rt: HostRuntime) -> io::Result<()> {
    let words: Vec<String> = env::args(&rt)?.skip(1).collect(rt.alloc())?;
    match words.as_slice() {
        [] => list(&rt),
        [subject, rest @ ..] => of_texts(&rt, rt.alloc(), subject.as_str(), rest),
    }
}

/// Measures a subject that reads texts.
fn of_texts(rt: &HostRuntime, alloc: Global, subject: &str, words: &[String]) -> io::Result<()> {
    match subject {
        "modules" => modules::run(rt, alloc, words),
        "params" => params::run(rt, alloc, words),
        "trees" => trees::run(rt, alloc, words),
        "yaml" => yaml::run(rt, alloc, words),
        _ => of_rules(rt, alloc, subject, words),
    }
}

/// Measures a subject that needs rules.
fn of_rules(rt: &HostRuntime, alloc: Global, subject: &str, words: &[String]) -> io::Result<()> {
    match subject {
        "evaluation" => evaluation::run(rt, alloc, words),
        "rules" => rules::run(rt, alloc, words),
        "situations" => situations::run(rt, alloc, words),
        _ => of_tables(rt, alloc, subject, words),
    }
}

/// Measures a subject that goes over a table.
fn of_tables(rt: &HostRuntime, alloc: Global, subject: &str, words: &[String]) -> io::Result<()> {
    match subject {
        "numbers" => numbers::run(rt, alloc, words),
        "periods" => periods::run(rt, alloc, words),
        _ => list(rt),
    }
}

/// Lists the benchmarks.
fn list(rt: &impl Print) -> io::Result<()> {
    println!(rt; "fisca_bench SUBJECT WORD.. COUNT")?;
    println!(rt; "evaluation [remembered] NAME SIZE COUNT")?;
    println!(rt; "modules NAME COUNT")?;
    println!(rt; "modules FILE")?;
    println!(rt; "numbers add|mul|cmp|text|decimal whole|hundredths|unlike COUNT")?;
    println!(rt; "params read|value_at|calc [whole|hundredths] COUNT")?;
    println!(rt; "periods read|text|offset|named|sub|compare|hash COUNT")?;
    println!(rt; "rules read|build NAME COUNT")?;
    println!(rt; "situations read|input|absent|turn NAME COUNT")?;
    println!(rt; "trees FILE")?;
    println!(rt; "yaml NAME COUNT")
}

/// Prints what was measured.
fn show(rt: &impl Print, measured: Measurement) -> io::Result<()> {
    let Measurement {
        nanoseconds,
        checksum,
    } = measured;
    println!(rt; "{nanoseconds} {checksum}")
}
