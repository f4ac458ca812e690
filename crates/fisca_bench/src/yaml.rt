//! Reading of YAML texts, which `bench/texts/yaml` writes.
use crate::{Measurement, list, show};
use fisca_yaml::{Entry, Item, Tree, read};
use std::alloc::Global;
use std::rt::{Clock, Files};
use std::time::Instant;
use std::{fs, io};

/// `yaml NAME COUNT`.
pub fn run(
    rt: &(impl Print + Clock + Files + Alloc),
    alloc: Global,
    words: &[String],
) -> io::Result<()> {
    match words {
        [name, count] => {
            let path = format!(in alloc; "bench/out/yaml/{name}.yaml")?;
            let text = fs::read_to_string(rt, path.as_str())?;
            let count: u64 = count.as_str().parse().unwrap_or(0);
            show(rt, measure(rt, alloc, text.as_str(), count)?)
        }
        _ => list(rt),
    }
}

/// Reads a text so often. The checksum counts its scalars and keys.
fn measure(rt: &impl Clock, alloc: Global, text: &str, count: u64) -> io::Result<Measurement> {
    let mut checksum = 0;
    let start = Instant::now(rt)?;
    for _run in 0..count {
        checksum = match read(alloc, text) {
            Ok(tree) => scalars(&tree),
            Err(_) => 0,
        };
    }
    let nanoseconds = start.elapsed(rt)?.as_nanos();
    Ok(Measurement {
        nanoseconds,
        checksum,
    })
}

/// How many scalars and keys a tree has.
#[cycle(scalars)]
fn scalars(tree: &Tree<'_>) -> u64 {
    match tree {
        Tree::Null => 1,
        Tree::Scalar { .. } => 1,
        Tree::List(items) => scalars_of_items(items),
        Tree::Map(entries) => scalars_of_entries(entries),
    }
}

#[cycle(scalars)]
fn scalars_of_items(items: &[Item<'_>]) -> u64 {
    let mut sum = 0u64;
    for item in items {
        sum = sum.wrapping_add(scalars(&item.value));
    }
    sum
}

#[cycle(scalars)]
fn scalars_of_entries(entries: &[Entry<'_>]) -> u64 {
    let mut sum = 0u64;
    for entry in entries {
        sum = sum.wrapping_add(1).wrapping_add(scalars(&entry.value));
    }
    sum
}
