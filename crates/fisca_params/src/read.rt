//! Reading parameter files.
ghost use Rattle.std.specs.Prelude.{◌≡◌, ◌≢◌, ◌<◌, Ok, Some, length, map, IfOk, IfErr, IfSome, OnOk};
ghost use Rattle.fisca_params.specs.Answers.{Refuses, file_of};
ghost use Rattle.fisca_params.specs.Files.{with_file, after_file, with_files, root_alone};
ghost use Rattle.fisca_params.specs.Steps.Files.{tree_of, in_path_order};

use crate::build::put_below;
use crate::nodes::Nodes;
use crate::source::parameter_path;
use crate::tree::ParamTree;
use crate::{ParamFault, SourceFile};
use fisca_yaml::{YamlFault, YamlKind, read};
use std::alloc::{AllocError, Global};
use std::collections::BTreeMap;

impl ParamTree {
    /// Reads the parameter files among these files, in order of the bytes of their paths, and files of one path in the
    /// order in which they stand here. All other files are skipped.
    ///
    /// `Yaml` where a file's text has no YAML tree or passes a limit, `DuplicateName` where two files, or a file and a
    /// folder, have one name in a folder, `BadParameter` where a file's tree is no parameter, scale or map of such, and
    /// `Memory`. It is the fault of the first file that has one.
    pub fn read(alloc: Global, files: &[SourceFile]) -> Result<ParamTree, ParamFault>
        // What is read is the tree of these files.
        ensures tree { IfOk result (λ t. tree_of files.now ≡ Ok t) }
        // A fault but `Memory` tells which file has none with those before it, and why.
        ensures refused { IfErr result (λ fault. Refuses fault (tree_of files.now)) }
        ensures file { IfErr result (λ fault. IfSome (file_of fault) (λ file. file < length files.now)) }
    {
        let sorted = in_path_order(alloc, files)?;
        ParamTree::read_in_order(alloc, &sorted)
    }

    /// The same of files that [`in_path_order`] has put in order.
    pub fn read_in_order(
        alloc: Global,
        sorted: &BTreeMap<(&str, usize), &SourceFile>,
    ) -> Result<ParamTree, ParamFault>
        ensures tree { IfOk result (λ t. with_files root_alone (map (λ e. (e.0.1, e.1.now)) sorted.now.entries) ≡ Ok t) }
        ensures refused { IfErr result (λ fault. Refuses fault (with_files root_alone (map (λ e. (e.0.1, e.1.now)) sorted.now.entries))) }
    {
        let mut nodes = Nodes::new(alloc)?;
        for (key, source) in sorted.iter() {
            put_source(&mut nodes, alloc, key.1, source)?;
        }
        Ok(ParamTree { nodes })
    }
}

/// The files in order of the bytes of their paths, those of one path as they stand here. Each has its place here in its key.
/// `AllocError` only where memory was refused. The order is this project's own.
pub fn in_path_order<'f>(
    alloc: Global,
    files: &'f [SourceFile],
) -> Result<BTreeMap<(&'f str, usize), &'f SourceFile>, AllocError>
    ensures { IfOk result (λ sorted. map (λ e. (e.0.1, e.1.now)) sorted.entries ≡ in_path_order files.now) }
{
    let mut sorted = BTreeMap::new(alloc);
    for (place, file) in files.iter().enumerate() {
        sorted.insert((file.path(), place), file)?;
    }
    Ok(sorted)
}

/// Puts the nodes of the file at this place into the tree, where it is a parameter file.
fn put_source(
    nodes: &mut Nodes,
    alloc: Global,
    file: usize,
    source: &SourceFile,
) -> Result<(), ParamFault>
    ensures put { OnOk result (with_file nodes.old source.now ≡ Ok nodes.new) }
    ensures refused { IfErr result (λ fault. (next : _) → Refuses fault (after_file file (with_file nodes.old source.now) next)) }
{
    let Some(path) = parameter_path(source.path()) else {
        return Ok(());
    };
    let tree = match read(alloc, source.text()) {
        Ok(tree) => tree,
        Err(fault) => return Err(text_fault(file, fault)),
    };
    match put_below(nodes, alloc, path, &tree) {
        Ok(()) => Ok(()),
        Err(fault) => Err(fault.in_file(file)),
    }
}

/// The fault of the text of the file at this place.
fn text_fault(file: usize, fault: YamlFault) -> ParamFault
    ensures memory { fault.kind ≡ YamlKind.Memory → result ≡ ParamFault.Memory }
    ensures text { fault.kind ≢ YamlKind.Memory → result ≡ ParamFault.Yaml file fault }
{
    if fault.kind == YamlKind::Memory {
        ParamFault::Memory
    } else {
        ParamFault::Yaml { file, fault }
    }
}
