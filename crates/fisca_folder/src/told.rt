//! How the paths of rule files are told.

ghost use Rattle.std.specs.Prelude.{◌≡◌, IfOk, string_bytes};
ghost use Rattle.fisca_folder.specs.Layers.{path_below, told_at, told_in};

use fisca_params::SourceFile;
use std::alloc::{AllocError, Global};
use std::marker::Model;

/// How the path of a rule file is told: its path in the folder of the rule set, and what is told for it.
#[derive(Debug, Drop)]
pub struct ToldPath {
    path: String,
    told: String,
}

impl Model for ToldPath {
    ghost use Rattle.std.specs.Prelude.{string_bytes};
    ghost use Rattle.fisca_folder.specs.Layers.{Told};

    ghost Value = { Told };

    ghost view = { λ t. record { path = string_bytes t.path; told = string_bytes t.told } };
}

impl ToldPath {
    /// This is told for this path. It takes no memory.
    pub fn new(path: String, told: String) -> ToldPath
        ensures { result ≡ record { path = string_bytes path; told = string_bytes told } }
    {
        ToldPath { path, told }
    }

    /// The path in the folder of the rule set.
    fn path(&self) -> &str
        ensures { result.now ≡ self.now.path }
    {
        self.path.as_str()
    }

    /// What is told for it.
    fn told(&self) -> &str
        ensures { result.now ≡ self.now.told }
    {
        self.told.as_str()
    }
}

/// What is told for a path: what the first of these that has it says, and the path itself where none has it.
pub fn told_path<'a>(told: &'a [ToldPath], path: &'a str) -> &'a str
    ensures { result.now ≡ told_at told.now path.now }
{
    for one in told {
        if one.path() == path {
            return one.told();
        }
    }
    path
}

/// A path in the folder of this name, with one slash between them.
pub(crate) fn path_below(alloc: Global, name: &str, path: &str) -> Result<String, AllocError>
    ensures { IfOk result (λ below. string_bytes below ≡ path_below name.now path.now) }
{
    let folder = name.strip_suffix("/").unwrap_or(name);
    let mut below = String::from_str(alloc, folder)?;
    below.push('/')?;
    below.push_str(path)?;
    Ok(below)
}

/// How the paths of these files are told in the folder of this name.
pub(crate) fn paths_told(
    alloc: Global,
    name: &str,
    files: &[SourceFile],
) -> Result<Vec<ToldPath>, AllocError>
    ensures { IfOk result (λ told. told.items ≡ told_in (record { name = name.now; files = files.now })) }
{
    let mut told = Vec::new(alloc);
    for file in files {
        let path = String::from_str(alloc, file.path())?;
        told.push(ToldPath::new(path, path_below(alloc, name, file.path())?))?;
    }
    Ok(told)
}
