//! Where parameters and scales stand in files.

use fisca_params::{NodeId, NodeKind, ParamTree, SourceFile, is_parameter_path};
use fisca_time::Instant;
use fisca_yaml::{Entry, Tree, YamlKind, read};
use indexmap::IndexMap;
use std::alloc::{AllocError, Global};

/// A parameter file and its tree.
#[derive(Drop)]
pub struct FileTree<'f> {
    /// The path.
    path: &'f str,
    /// The tree.
    tree: Tree<'f>,
}

/// The trees of the parameter files among files; one that has none is left out.
pub fn file_trees<'f>(
    alloc: Global,
    files: &'f [SourceFile],
) -> Result<Vec<FileTree<'f>>, AllocError> {
    let mut trees = Vec::new(alloc);
    for file in files {
        if is_parameter_path(file.path()) {
            match read(alloc, file.text()) {
                Ok(tree) => trees.push(FileTree {
                    path: file.path(),
                    tree,
                })?,
                Err(fault) if fault.kind == YamlKind::Memory => return Err(AllocError),
                Err(_) => {}
            }
        }
    }
    Ok(trees)
}

/// Where a parameter or a scale stands.
#[derive(Drop)]
pub struct ParameterPlace<'t, 'f> {
    /// Its path, with points between the names.
    pub path: String,
    /// Its file.
    pub file: &'f str,
    /// The line of its key.
    pub line: usize,
    /// What stands there.
    pub tree: &'t Tree<'f>,
}

/// Where parameters and scales stand, by their nodes.
#[derive(Drop)]
pub struct ParameterPlaces<'t, 'f> {
    places: IndexMap<NodeId, ParameterPlace<'t, 'f>>,
}

/// A path with one name more.
fn path_below(alloc: Global, path: &str, name: &str) -> Result<String, AllocError> {
    let mut below = String::from_str(alloc, path)?;
    if !path.is_empty() {
        below.push('.')?;
    }
    below.push_str(name)?;
    Ok(below)
}

impl<'t, 'f> ParameterPlaces<'t, 'f> {
    /// Where the parameters and scales of these files stand.
    pub fn of(
        alloc: Global,
        parameters: &ParamTree,
        trees: &'t [FileTree<'f>],
    ) -> Result<ParameterPlaces<'t, 'f>, AllocError> {
        let mut places = ParameterPlaces {
            places: IndexMap::new(alloc),
        };
        for tree in trees {
            places.put_file(alloc, parameters, tree)?;
        }
        Ok(places)
    }

    /// Where a parameter or a scale stands.
    pub fn find(&self, node: NodeId) -> Option<&ParameterPlace<'t, 'f>> {
        self.places.get(&node)
    }

    /// Puts what stands in a file.
    fn put_file(
        &mut self,
        alloc: Global,
        parameters: &ParamTree,
        file: &'t FileTree<'f>,
    ) -> Result<(), AllocError> {
        let mut node = parameters.root();
        let mut path = String::new(alloc);
        let inner = file.path.strip_prefix("parameters/").unwrap_or(file.path);
        for name in inner.split('/') {
            let name = without_ending(name);
            let Some(child) = parameters.child(node, name) else {
                return Ok(());
            };
            node = child;
            path = path_below(alloc, path.as_str(), name)?;
        }
        self.put_node(
            alloc,
            parameters,
            node,
            path.as_str(),
            file.path,
            1,
            &file.tree,
        )
    }

    /// Puts what stands at a node, and below it.
    #[cycle(put)]
    fn put_node(
        &mut self,
        alloc: Global,
        parameters: &ParamTree,
        node: NodeId,
        path: &str,
        file: &'f str,
        line: usize,
        tree: &'t Tree<'f>,
    ) -> Result<(), AllocError> {
        if parameters.kind(node) == NodeKind::Node {
            return self.put_children(alloc, parameters, node, path, file, tree);
        }
        let place = ParameterPlace {
            path: String::from_str(alloc, path)?,
            file,
            line,
            tree,
        };
        self.places.insert(node, place)?;
        Ok(())
    }

    /// Puts what stands below a node.
    #[cycle(put)]
    fn put_children(
        &mut self,
        alloc: Global,
        parameters: &ParamTree,
        node: NodeId,
        path: &str,
        file: &'f str,
        tree: &'t Tree<'f>,
    ) -> Result<(), AllocError> {
        let Tree::Map(entries) = tree else {
            return Ok(());
        };
        for entry in entries {
            if let Some(child) = parameters.child(node, entry.key.as_str()) {
                let below = path_below(alloc, path, entry.key.as_str())?;
                self.put_node(
                    alloc,
                    parameters,
                    child,
                    below.as_str(),
                    file,
                    entry.line,
                    &entry.value,
                )?;
            }
        }
        Ok(())
    }
}

/// A file's name without its ending.
fn without_ending(name: &str) -> &str {
    match name.strip_suffix(".yaml") {
        Some(stem) => stem,
        None => name.strip_suffix(".yml").unwrap_or(name),
    }
}

/// A value of a parameter as its file has it.
#[derive(Clone, Copy)]
pub struct EntryInForce<'t, 'f> {
    /// The day from which on it is in force.
    pub since: Instant,
    /// The entry.
    pub entry: &'t Entry<'f>,
}

/// Whether a day comes after what was found.
fn is_after(found: &Option<EntryInForce<'_, '_>>, since: Instant) -> bool {
    match found {
        None => true,
        Some(found) => found.since < since,
    }
}

/// Of the entries of a map of days the last that is not after a day.
pub fn entry_in_force<'t, 'f>(tree: &'t Tree<'f>, day: Instant) -> Option<EntryInForce<'t, 'f>> {
    let Tree::Map(entries) = tree.get("values").unwrap_or(tree) else {
        return None;
    };
    let mut found: Option<EntryInForce<'t, 'f>> = None;
    for entry in entries {
        if let Ok(since) = Instant::read(entry.key.as_str()) {
            if since <= day && is_after(&found, since) {
                found = Some(EntryInForce { since, entry });
            }
        }
    }
    found
}
