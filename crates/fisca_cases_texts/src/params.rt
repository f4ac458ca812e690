//! Parameter files, values and scales.
ghost use Rattle.std.specs.Prelude.{◌<◌, length, IfSome};

use fisca_cases_base::{BaseFault, fraction, three, two};
use fisca_num::Fraction;
use fisca_params::{NodeId, NodeKind, ParamTree, ParamValue, SourceFile};
use fisca_time::Instant;
use std::alloc::Global;

/// The answer to a case of parameters: what the call of this name gives for these words.
pub fn answer(
    alloc: Global,
    operation: &str,
    files: &[SourceFile],
    words: &[String],
) -> Result<String, BaseFault> {
    let tree = ParamTree::read(alloc, files)?;
    match operation {
        "count" => count(alloc, &tree),
        "at" => at(alloc, &tree, words),
        "sum" => sum(alloc, &tree, words),
        _ => Err(BaseFault::Malformed),
    }
}

fn count(alloc: Global, tree: &ParamTree) -> Result<String, BaseFault> {
    let count = tree.count();
    Ok(format!(in alloc; "{count}")?)
}

/// The node at a path of names.
fn find(tree: &ParamTree, path: &str) -> Option<NodeId>
    ensures { IfSome result (λ node. node < length tree.now) }
{
    let mut node = tree.root();
    for name in path.split('/') {
        node = tree.child(node, name)?;
    }
    Some(node)
}

fn no_node(alloc: Global) -> Result<String, BaseFault> {
    Ok(String::from_str(alloc, "no node")?)
}

/// What stands at a path on a day: the kind and the value.
fn at(alloc: Global, tree: &ParamTree, words: &[String]) -> Result<String, BaseFault> {
    let (path, date) = two(words)?;
    let day = Instant::read(date)?;
    let Some(node) = find(tree, path) else {
        return no_node(alloc)
    };
    let kind = tree.kind(node);
    let value = shown(alloc, &tree.value_at(node, day))?;
    Ok(format!(in alloc; "{kind:?}, {value}")?)
}

fn shown(alloc: Global, value: &Option<ParamValue>) -> Result<String, BaseFault> {
    match value {
        Some(ParamValue::Number(number)) => Ok(number.text(alloc)?),
        Some(ParamValue::Bool(value)) => Ok(format!(in alloc; "{value}")?),
        None => Ok(String::from_str(alloc, "none")?),
    }
}

/// The sum of the scale at a path on a day, for a base.
fn sum(alloc: Global, tree: &ParamTree, words: &[String]) -> Result<String, BaseFault> {
    let (path, date, base) = three(words)?;
    let day = Instant::read(date)?;
    let base = fraction(base)?;
    let Some(node) = find(tree, path) else {
        return no_node(alloc)
    };
    match tree.kind(node) {
        NodeKind::Scale => Ok(tree.calc(node, day, base)?.text(alloc)?),
        _ => Ok(String::from_str(alloc, "no scale")?),
    }
}
