//! The folder of a rule set, and why its files could not be read.

ghost use Rattle.std.specs.Prelude.{◌≡◌, ◌++◌, None, Some, string_bytes, IfOk};
ghost use Rattle.fisca_folder.specs.Shown.{shown};
ghost use Rattle.fisca_folder.specs.Folder.{status_of, line_of};
ghost use Rattle.fisca_folder.specs.Layers.{line_below};

use super::shown::write_shown;
use super::told::path_below;
use std::alloc::{AllocError, AllocFailed, Global};
use std::marker::Model;
use thiserror::Error;

/// An entry of a folder: its name, and whether it leads to a folder, which a machine cannot always tell.
#[derive(Debug, Drop)]
pub struct FolderEntry {
    name: String,
    is_folder: Option<bool>,
}

impl Model for FolderEntry {
    ghost use Rattle.std.specs.Prelude.{string_bytes};
    ghost use Rattle.fisca_folder.specs.Folder.{Entry};

    ghost Value = { Entry };

    ghost view = { λ e. record { name = string_bytes e.name; is_folder = e.is_folder } };
}

impl FolderEntry {
    /// The entry of this name, which leads to a folder or not. It takes no memory.
    pub fn new(name: String, is_folder: bool) -> FolderEntry
        ensures { result ≡ record { name = string_bytes name; is_folder = Some is_folder } }
    {
        FolderEntry {
            name,
            is_folder: Some(is_folder),
        }
    }

    /// The entry of this name that the machine cannot look at: a link that leads nowhere or back to itself, a path that is too
    /// long, or what no right is given to look at. It takes no memory.
    pub fn unknown(name: String) -> FolderEntry
        ensures { result ≡ record { name = string_bytes name; is_folder = None } }
    {
        FolderEntry {
            name,
            is_folder: None,
        }
    }

    /// The name.
    pub fn name(&self) -> &str
        ensures { result.now ≡ self.now.name }
    {
        self.name.as_str()
    }

    /// Whether it leads to a folder; `None` where the machine cannot tell.
    pub fn is_folder(&self) -> Option<bool>
        ensures { result ≡ self.now.is_folder }
    {
        self.is_folder
    }
}

/// The folder of a rule set, as a machine shows it. Paths are relative to it, with `/` between folders.
pub trait RuleFolder {
    ghost use Rattle.std.specs.Prelude.{◌≡◌, ℕ, List, take, Option, option_map, IfOk};
    ghost use Rattle.fisca_folder.specs.Folder.{Folder};

    // whether this is what the machine says; of no folder where it does not tell
    ghost says: { Self → Folder → Type 0 };

    /// The name that the folder is told by.
    fn name(&self) -> &str
        ensures { (folder : Folder) → says self.now folder → result.now ≡ folder.name };

    /// The first `most` entries of a folder, by its path, which is empty for the rule set's own; `None` where it cannot be
    /// listed. Memory is its only error.
    fn entries(&self, path: &str, most: usize) -> Result<Option<Vec<FolderEntry>>, AllocError>
        ensures { (folder : Folder) → says self.now folder → IfOk result (λ entries. option_map (λ found. found.items) entries ≡ option_map (take most) (folder.entries path.now)) };

    /// The first `most` bytes of a file, by its path; `None` where it cannot be read. Memory is its only error.
    fn bytes(&self, path: &str, most: u64) -> Result<Option<Vec<u8>>, AllocError>
        ensures { (folder : Folder) → says self.now folder → IfOk result (λ bytes. option_map (λ found. found.items) bytes ≡ option_map (take most) (folder.bytes path.now)) };
}

/// Why the rule files of a folder could not be read.
#[derive(Debug, Drop, Error)]
pub enum FolderFault {
    /// A folder cannot be listed.
    #[error("cannot list")]
    CannotList,
    /// A file cannot be read, or is not UTF-8.
    #[error("{path}: cannot read")]
    CannotRead { path: String },
    /// A file is longer than 1 MiB.
    #[error("{path}:1: TooLong")]
    TooLong { path: String },
    /// The folders hold more than 100,000 files and folders, or more than 1,000 files of the rule set.
    #[error("TooManyFiles")]
    TooManyFiles,
    /// Memory was refused.
    #[error("Memory")]
    Memory,
}

impl FolderFault {
    /// The exit status of the program: 3 where a file is too long or there are too many, 5 where a folder or a file cannot be
    /// read, 6 for want of memory.
    pub fn status(&self) -> u8
        ensures { result ≡ status_of self.now }
    {
        match self {
            FolderFault::TooLong { .. } | FolderFault::TooManyFiles => 3,
            FolderFault::CannotList | FolderFault::CannotRead { .. } => 5,
            FolderFault::Memory => 6,
        }
    }

    /// The line on standard error, without its line feed, for the folder `rules`. Memory is its only error.
    pub fn line(&self, alloc: Global, rules: &str) -> Result<String, AllocError>
        ensures { IfOk result (λ line. string_bytes line ≡ line_of rules.now self.now) }
    {
        match self {
            FolderFault::CannotList => around(alloc, "fisca: cannot list ", rules, ""),
            FolderFault::CannotRead { path } => {
                around(alloc, "fisca: ", path.as_str(), ": cannot read")
            }
            FolderFault::TooLong { path } => around(alloc, "fisca: ", path.as_str(), ":1: TooLong"),
            FolderFault::TooManyFiles => String::from_str(alloc, "fisca: TooManyFiles"),
            FolderFault::Memory => String::from_str(alloc, "fisca: out of memory"),
        }
    }

    /// The line on standard error, without its line feed, where the paths of files are told in the folder of this name. Memory is its only error.
    pub fn line_below(&self, alloc: Global, name: &str) -> Result<String, AllocError>
        ensures { IfOk result (λ line. string_bytes line ≡ line_below name.now self.now) }
    {
        match self {
            FolderFault::CannotRead { path } => {
                let below = path_below(alloc, name, path.as_str())?;
                around(alloc, "fisca: ", below.as_str(), ": cannot read")
            }
            FolderFault::TooLong { path } => {
                let below = path_below(alloc, name, path.as_str())?;
                around(alloc, "fisca: ", below.as_str(), ":1: TooLong")
            }
            FolderFault::CannotList | FolderFault::TooManyFiles | FolderFault::Memory => {
                self.line(alloc, name)
            }
        }
    }
}

/// A path with these texts before and behind it.
fn around(alloc: Global, before: &str, path: &str, behind: &str) -> Result<String, AllocError>
    ensures { IfOk result (λ line. string_bytes line ≡ before.now ++ (shown path.now ++ behind.now)) }
{
    let mut line = String::from_str(alloc, before)?;
    write_shown(path, &mut line)?;
    line.push_str(behind)?;
    Ok(line)
}

impl From<AllocError> for FolderFault {
    ghost use Rattle.fisca_folder.specs.declared.folder.FolderFault.TheVariants.{Memory};

    ghost from_gives = { λ _ fault. fault ≡ Memory };

    fn from(_error: AllocError) -> FolderFault {
        FolderFault::Memory
    }
}

impl<T: Drop> From<AllocFailed<T>> for FolderFault {
    ghost use Rattle.fisca_folder.specs.declared.folder.FolderFault.TheVariants.{Memory};

    ghost from_gives = { λ _ fault. fault ≡ Memory };

    fn from(_error: AllocFailed<T>) -> FolderFault {
        FolderFault::Memory
    }
}
