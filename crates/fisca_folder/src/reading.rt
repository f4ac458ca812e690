//! The rule files of a folder, read.

ghost use Rattle.std.specs.Prelude.{◌≡◌, ◌≤◌, ◌^◌, length, map, option_map, string_bytes, All, IfOk, MatchResult};
ghost use Rattle.std.specs.Str.{IsUtf8};
ghost use Rattle.fisca_folder.specs.Folder.{Folder, AreFilesOf, AreRead, AreRuleFiles, IsFileFault, IsFirstFault, IsRefused, IsTextOf, path_of};
ghost use Rattle.fisca_folder.specs.FolderSteps.{IsOverlong, IsUnread};

use super::folder::{FolderFault, RuleFolder};
use super::listing::list_rules;
use fisca_params::SourceFile;
use std::alloc::Global;

/// A file may have so many bytes.
pub const LONGEST: u64 = 1 << 20;

/// Reads the files of a rule set in a folder, in order of the bytes of their paths, which are relative to it: `entities.py`,
/// and in eight levels of folders those below its folder `parameters` whose names end in `.yaml` or `.yml`, and those below its
/// folder `variables` whose names end in `.py`. The first fault in this order is told:
///
/// - `CannotList` where a folder cannot be listed, `TooManyFiles` where more than 100,000 files and folders are met, or more
///   than 1,000 files of the rule set: before any file is read.
/// - of the files, in order of their paths: `CannotRead` where one cannot be read or is not UTF-8, `TooLong` where one has
///   more than 1 MiB.
/// - `Memory` only where memory was refused.
///
/// This project's own rule.
pub fn read_rules<F: RuleFolder>(alloc: Global, folder: &F) -> Result<Vec<SourceFile>, FolderFault>
    ensures answer { (known : Folder) → F.says folder.now known → MatchResult result (λ files. AreFilesOf known files.items) (IsRefused known) }
    ensures files { IfOk result (λ files. AreRuleFiles files.items) }
{
    let paths = list_rules(alloc, folder)?;
    read_files(alloc, folder, paths)
}

/// The files of these paths.
fn read_files<F: RuleFolder>(
    alloc: Global,
    folder: &F,
    paths: Vec<String>,
) -> Result<Vec<SourceFile>, FolderFault>
    ensures answer { (known : Folder) → F.says folder.now known → MatchResult result (λ files. AreRead known (map (λ path. string_bytes path) paths.items) files.items) (IsFirstFault known (map (λ path. string_bytes path) paths.items)) }
    ensures paths { IfOk result (λ files. map path_of files.items ≡ map (λ path. string_bytes path) paths.items) }
    ensures texts { IfOk result (λ files. All (λ file. length file.text ≤ LONGEST) files.items) }
{
    let mut files = Vec::new(alloc);
    for path in paths {
        let text = read_text(alloc, folder, path.as_str())?;
        files.push(SourceFile::new(path, text))?;
    }
    Ok(files)
}

/// The text of a file of at most 1 MiB.
fn read_text<F: RuleFolder>(alloc: Global, folder: &F, path: &str) -> Result<String, FolderFault>
    ensures answer { (known : Folder) → F.says folder.now known → IsTextOf path.now (known.bytes path.now) result }
    ensures short { IfOk result (λ text. length (string_bytes text) ≤ LONGEST) }
{
    let bytes = folder.bytes(path, LONGEST + 1)?;
    text_of_file(alloc, path, bytes)
}

/// The text of a file at a path, of whose bytes all were read, or [`LONGEST`] and some more; `None` where it cannot be read. Its length is
/// judged before its encoding:
///
/// - `CannotRead` where it cannot be read or is not UTF-8.
/// - `TooLong` where it has more than 1 MiB.
/// - `Memory` only where memory was refused.
///
/// This project's own rule.
pub fn text_of_file(
    alloc: Global,
    path: &str,
    bytes: Option<Vec<u8>>,
) -> Result<String, FolderFault>
    ensures answer { IsTextOf path.now (option_map (λ found. found.items) bytes) result }
    ensures short { IfOk result (λ text. length (string_bytes text) ≤ LONGEST) }
{
    match bytes {
        None => Err(cannot_read(alloc, path)),
        Some(bytes) if bytes.len() as u64 > LONGEST => Err(too_long(alloc, path)),
        Some(bytes) => text_of(alloc, path, bytes),
    }
}

/// The text of these bytes of the file at a path.
fn text_of(alloc: Global, path: &str, bytes: Vec<u8>) -> Result<String, FolderFault>
    ensures { MatchResult result (λ text. (string_bytes text ≡ bytes.items) × IsUtf8 bytes.items) (λ fault. ¬ (IsUtf8 bytes.items) × IsUnread path.now fault) }
{
    match String::from_utf8(bytes) {
        Ok(text) => Ok(text),
        Err(_) => Err(cannot_read(alloc, path)),
    }
}

/// That a file cannot be read.
fn cannot_read(alloc: Global, path: &str) -> FolderFault
    ensures { IsUnread path.now result }
{
    match String::from_str(alloc, path) {
        Ok(path) => FolderFault::CannotRead { path },
        Err(_) => FolderFault::Memory,
    }
}

/// That a file is too long.
fn too_long(alloc: Global, path: &str) -> FolderFault
    ensures { IsOverlong path.now result }
{
    match String::from_str(alloc, path) {
        Ok(path) => FolderFault::TooLong { path },
        Err(_) => FolderFault::Memory,
    }
}
