//! Reading the parameter files that `bench/texts/params` writes, and looking values and sums up in their tree.
ghost use Rattle.std.specs.Prelude.{◌<◌, length, IfSome, IsSome};
ghost use Rattle.fisca_params.specs.Lookup.{scale_in};
ghost use Rattle.fisca_params.specs.Tree.{content_at};

use crate::{Measurement, list, show};
use fisca_num::Fraction;
use fisca_params::{NodeId, NodeKind, ParamTree, ParamValue, SourceFile};
use std::alloc::{AllocError, Global};
use std::rt::{Clock, Files};
use std::time::Instant;
use std::{fs, io};

/// The scale of five brackets whose sums are measured.
const SCALE: &str = "parameters/taxes/income_tax.yaml";

/// On which days values are looked up, and of which numbers sums.
#[derive(Drop)]
struct Asked {
    days: Vec<fisca_time::Instant>,
    bases: Vec<Fraction>,
}

/// `params OPERATION COUNT`, or `params calc MIX COUNT`.
pub fn run(
    rt: &(impl Print + Clock + Files + Alloc),
    alloc: Global,
    words: &[String],
) -> io::Result<()> {
    let (operation, mix, count) = match words {
        [operation, count] => (operation.as_str(), "", count.as_str()),
        [operation, mix, count] => (operation.as_str(), mix.as_str(), count.as_str()),
        _ => return list(rt),
    };
    let text = fs::read_to_string(rt, "bench/out/params/files")?;
    let files = files_of(alloc, text.as_str())?;
    let Ok(tree) = ParamTree::read(alloc, files.as_slice()) else {
        return list(rt);
    };
    let asked = Asked {
        days: days(alloc)?,
        bases: bases(alloc, mix == "hundredths")?,
    };
    let count: u64 = count.parse().unwrap_or(0);
    let start = Instant::now(rt)?;
    let checksum = match operation {
        "read" => read(alloc, files.as_slice(), count),
        "value_at" => values(&tree, files.as_slice(), asked.days.as_slice(), count),
        "calc" => sums(&tree, &asked, count),
        _ => return list(rt),
    };
    let nanoseconds = start.elapsed(rt)?.as_nanos();
    let checksum = checksum ^ told(&tree, files.as_slice());
    show(
        rt,
        Measurement {
            nanoseconds,
            checksum,
        },
    )
}

/// The files of a text that has of each its path and its text, each with the byte 1 behind it.
pub(crate) fn files_of(alloc: Global, text: &str) -> Result<Vec<SourceFile>, AllocError> {
    let mut files = Vec::new(alloc);
    let mut path = None;
    for part in text.split('\u{1}') {
        match path {
            None => path = Some(part),
            Some(name) => {
                let name = String::from_str(alloc, name)?;
                let text = String::from_str(alloc, part)?;
                files.push(SourceFile::new(name, text))?;
                path = None;
            }
        }
    }
    Ok(files)
}

/// The first days of the months of 2000 to 2015, three months apart, in no order.
fn days(alloc: Global) -> Result<Vec<fisca_time::Instant>, AllocError> {
    let mut days = Vec::new(alloc);
    for i in 0..64u64 {
        let at = i * 37 % 64;
        let year = 2000 + at / 4;
        let month = 1 + at % 4 * 3;
        let text = format!(in alloc; "{year}-{month:02}-01")?;
        if let Ok(day) = fisca_time::Instant::read(text.as_str()) {
            days.push(day)?;
        }
    }
    Ok(days)
}

/// Numbers from 0 to 14,999, without places or with two.
fn bases(alloc: Global, places: bool) -> Result<Vec<Fraction>, AllocError> {
    let mut bases = Vec::new(alloc);
    let mut state = 88_172_645_463_325_252u64;
    for _ in 0..1024u64 {
        state ^= state << 13;
        state ^= state >> 7;
        state ^= state << 17;
        let hundredths = if places {
            state % 1_500_000
        } else {
            state % 15_000 * 100
        };
        if let Ok(base) = Fraction::new(hundredths as i64, 100) {
            bases.push(base)?;
        }
    }
    Ok(bases)
}

/// The node of a parameter file.
fn find(tree: &ParamTree, path: &str) -> Option<NodeId>
    ensures { IfSome result (λ node. node < length tree.now) }
{
    let path = path.strip_prefix("parameters/")?.strip_suffix(".yaml")?;
    let mut node = tree.root();
    for name in path.split('/') {
        node = tree.child(node, name)?;
    }
    Some(node)
}

/// A checksum with one more number.
pub(crate) fn mixed(checksum: u64, number: Fraction) -> u64 {
    let word = number.numerator().unsigned_abs() ^ (number.denominator() << 32);
    checksum.rotate_left(5).wrapping_add(word)
}

/// A checksum with one more value.
fn with_value(checksum: u64, value: &Option<ParamValue>) -> u64 {
    match value {
        None => checksum.rotate_left(1),
        Some(ParamValue::Bool(value)) => checksum.rotate_left(2).wrapping_add(u64::from(*value)),
        Some(ParamValue::Number(number)) => mixed(checksum, *number),
    }
}

/// What stands at the files' nodes on a day.
fn told(tree: &ParamTree, files: &[SourceFile]) -> u64 {
    let mut checksum = tree.count() as u64;
    let Ok(day) = fisca_time::Instant::read("2010-06-15") else {
        return checksum;
    };
    let Ok(base) = Fraction::new(98_765, 10) else {
        return checksum;
    };
    for file in files {
        if let Some(node) = find(tree, file.path()) {
            checksum = if tree.kind(node) == NodeKind::Scale {
                match tree.calc(node, day, base) {
                    Ok(sum) => mixed(checksum, sum),
                    Err(_) => checksum.rotate_left(1),
                }
            } else {
                with_value(checksum, &tree.value_at(node, day))
            };
        }
    }
    checksum
}

fn read(alloc: Global, files: &[SourceFile], count: u64) -> u64 {
    let mut checksum = 0;
    for _ in 0..count {
        checksum = match ParamTree::read(alloc, files) {
            Ok(tree) => tree.count() as u64,
            Err(_) => 0,
        };
    }
    checksum
}

/// Looks up the values of all parameters of their own file.
fn values(tree: &ParamTree, files: &[SourceFile], days: &[fisca_time::Instant], count: u64) -> u64 {
    let mut checksum = 0;
    for file in files {
        if let Some(node) = find(tree, file.path()) {
            checksum = values_of(tree, node, days, count / 64_000, checksum);
        }
    }
    checksum
}

/// Looks up the values of one node.
fn values_of(
    tree: &ParamTree,
    node: NodeId,
    days: &[fisca_time::Instant],
    rounds: u64,
    before: u64,
) -> u64
    requires { node < length tree.now }
{
    let mut checksum = before;
    for _ in 0..rounds {
        for day in days {
            checksum = with_value(checksum, &tree.value_at(node, *day));
        }
    }
    checksum
}

/// The sums of the scale on each day of each number.
fn sums(tree: &ParamTree, asked: &Asked, count: u64) -> u64 {
    let Some(node) = find(tree, SCALE) else {
        return 0;
    };
    if tree.kind(node) != NodeKind::Scale {
        return 0;
    }
    let mut checksum = 0;
    for _ in 0..count / 65_536 {
        for day in &asked.days {
            checksum = sums_on(tree, node, *day, asked.bases.as_slice(), checksum);
        }
    }
    checksum
}

/// The sums of a scale on a day.
fn sums_on(
    tree: &ParamTree,
    node: NodeId,
    day: fisca_time::Instant,
    bases: &[Fraction],
    before: u64,
) -> u64
    requires { IsSome (scale_in (content_at tree.now node)) }
{
    let mut checksum = before;
    for base in bases {
        if let Ok(sum) = tree.calc(node, day, *base) {
            checksum = mixed(checksum, sum);
        }
    }
    checksum
}
