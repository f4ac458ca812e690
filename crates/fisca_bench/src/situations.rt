//! Reading the situations that `bench/texts/situations` writes, and looking their inputs up.
use crate::params::files_of;
use crate::rules::rules_of;
use crate::{Measurement, list, show};
use fisca_model::{Key, Value};
use fisca_params::SourceFile;
use fisca_situations::Situation;
use fisca_symbols::Tables;
use fisca_time::{Period, Unit};
use fisca_yaml::Tree;
use std::alloc::Global;
use std::rt::{Clock, Files};
use std::time::Instant;
use std::{fs, io};

/// `situations read|input|absent|turn NAME COUNT`: the time of reading a situation so often from its YAML tree, of looking each of its
/// inputs up so often, of looking for inputs that are not there, or of giving a few of them other values, as axes do.
pub fn run(
    rt: &(impl Print + Clock + Files + Alloc),
    alloc: Global,
    words: &[String],
) -> io::Result<()> {
    match words {
        [operation, name, count] => {
            let rules = fs::read_to_string(rt, "bench/out/situations/rules")?;
            let files = files_of(alloc, rules.as_str())?;
            let path = format!(in alloc; "bench/out/situations/{name}")?;
            let text = fs::read_to_string(rt, path.as_str())?;
            let count: u64 = count.as_str().parse().unwrap_or(0);
            let operation = operation.as_str();
            match of_files(rt, alloc, files.as_slice(), text.as_str(), operation, count)? {
                Some(measured) => show(rt, measured),
                None => list(rt),
            }
        }
        _ => list(rt),
    }
}

/// Measures the situation of a text under the rules of the files.
fn of_files(
    rt: &impl Clock,
    alloc: Global,
    files: &[SourceFile],
    text: &str,
    operation: &str,
    count: u64,
) -> io::Result<Option<Measurement>> {
    match rules_of(alloc, files) {
        Some(rules) => of_text(rt, alloc, &rules.tables, text, operation, count),
        None => Ok(None),
    }
}

/// Measures the situation of a text.
fn of_text(
    rt: &impl Clock,
    alloc: Global,
    tables: &Tables<'_>,
    text: &str,
    operation: &str,
    count: u64,
) -> io::Result<Option<Measurement>> {
    match fisca_yaml::read(alloc, text) {
        Ok(tree) => of_tree(rt, alloc, tables, &tree, operation, count),
        Err(_) => Ok(None),
    }
}

/// Measures the situation of a tree.
fn of_tree(
    rt: &impl Clock,
    alloc: Global,
    tables: &Tables<'_>,
    tree: &Tree<'_>,
    operation: &str,
    count: u64,
) -> io::Result<Option<Measurement>> {
    match operation {
        "read" => Ok(Some(read(rt, alloc, tables, tree, count)?)),
        "input" => Ok(Some(input(rt, alloc, tables, tree, count)?)),
        "absent" => Ok(Some(absent(rt, alloc, tables, tree, count)?)),
        "turn" => Ok(Some(turn(rt, alloc, tables, tree, count)?)),
        _ => Ok(None),
    }
}

/// Reads the situation so often, each dropped outside the time. The checksum is of its inputs.
fn read(
    rt: &impl Clock,
    alloc: Global,
    tables: &Tables<'_>,
    tree: &Tree<'_>,
    count: u64,
) -> io::Result<Measurement> {
    let mut checksum = 0;
    let mut nanoseconds = 0u128;
    for _run in 0..count {
        let start = Instant::now(rt)?;
        let situation = Situation::read(alloc, tables, None, 1, tree);
        nanoseconds = nanoseconds.saturating_add(start.elapsed(rt)?.as_nanos());
        if let Ok(situation) = situation {
            checksum = inputs(&situation);
        }
    }
    Ok(Measurement {
        nanoseconds,
        checksum,
    })
}

/// Looks each input up so often. The checksum is of what is found.
fn input(
    rt: &impl Clock,
    alloc: Global,
    tables: &Tables<'_>,
    tree: &Tree<'_>,
    count: u64,
) -> io::Result<Measurement> {
    let mut checksum = 0;
    let start = Instant::now(rt)?;
    if let Ok(situation) = Situation::read(alloc, tables, None, 1, tree) {
        for _run in 0..count {
            checksum = inputs(&situation);
        }
    }
    let nanoseconds = start.elapsed(rt)?.as_nanos();
    Ok(Measurement {
        nanoseconds,
        checksum,
    })
}

/// Looks so often for inputs of a variable that has none, behind the reading. The checksum is of what is found.
fn absent(
    rt: &impl Clock,
    alloc: Global,
    tables: &Tables<'_>,
    tree: &Tree<'_>,
    count: u64,
) -> io::Result<Measurement> {
    let (mut checksum, mut nanoseconds) = (0u64, 0u128);
    if let Ok(situation) = Situation::read(alloc, tables, None, 1, tree) {
        let start = Instant::now(rt)?;
        for _run in 0..count {
            checksum = checksum.wrapping_add(inputs_of(&situation, 2));
        }
        nanoseconds = start.elapsed(rt)?.as_nanos();
    }
    Ok(Measurement {
        nanoseconds,
        checksum,
    })
}

/// The sum of what the members of the second kind have of a variable for the months of 2010 to 2017.
fn inputs_of(situation: &Situation, variable: usize) -> u64 {
    let mut sum = 0u64;
    let Ok(years) = Period::read("year:2010:8") else {
        return sum;
    };
    for member in 0..situation.members(1) {
        sum = sum.wrapping_add(of_member(situation, years, variable, member));
    }
    sum
}

/// Gives the inputs of one member for the months of a year one value after another so often, and looks each up. The checksum counts those that are
/// true.
fn turn(
    rt: &impl Clock,
    alloc: Global,
    tables: &Tables<'_>,
    tree: &Tree<'_>,
    count: u64,
) -> io::Result<Measurement> {
    let (mut checksum, mut nanoseconds) = (0u64, 0u128);
    if let Ok(mut situation) = Situation::read(alloc, tables, None, 1, tree) {
        let start = Instant::now(rt)?;
        for run in 0..count {
            checksum = checksum.wrapping_add(turned(&mut situation, run % 2 == 0));
        }
        nanoseconds = start.elapsed(rt)?.as_nanos();
    }
    Ok(Measurement {
        nanoseconds,
        checksum,
    })
}

/// How many of the inputs that are given this value are true then.
fn turned(situation: &mut Situation, value: bool) -> u64 {
    let mut sum = 0u64;
    let Ok(year) = Period::read("2010") else {
        return sum;
    };
    let Ok(count) = year.sub_count(Unit::Month) else {
        return sum;
    };
    for i in 0..count {
        let key = Key {
            variable: 0,
            member: 0,
            period: year.sub(Unit::Month, i),
        };
        situation.inputs.set(&key, Value::Bool(value));
        if let Some(Value::Bool(true)) = situation.input(&key) {
            sum = sum.wrapping_add(1);
        }
    }
    sum
}

/// The sum of what the members of both kinds have for the months of 2010 to 2017: of both variables, which are declared in this order.
fn inputs(situation: &Situation) -> u64 {
    let mut sum = u64::from(situation.members(0));
    let Ok(years) = Period::read("year:2010:8") else {
        return sum;
    };
    for variable in 0..2usize {
        for member in 0..situation.members(1 - variable) {
            sum = sum
                .wrapping_mul(31)
                .wrapping_add(of_member(situation, years, variable, member));
        }
    }
    sum
}

/// The same of a variable and a member.
fn of_member(situation: &Situation, years: Period, variable: usize, member: u32) -> u64 {
    let mut sum = 0u64;
    let Ok(count) = years.sub_count(Unit::Month) else {
        return sum;
    };
    for i in 0..count {
        let key = Key {
            variable,
            member,
            period: years.sub(Unit::Month, i),
        };
        if let Some(value) = situation.input(&key) {
            sum = sum.wrapping_mul(31).wrapping_add(numerator_of(value));
        }
    }
    sum
}

/// The numerator of a number; 0 of any other value.
fn numerator_of(value: Value) -> u64 {
    match value {
        Value::Number(number) => number.numerator().unsigned_abs(),
        Value::Bool(_) | Value::Member(_) => 0,
    }
}
