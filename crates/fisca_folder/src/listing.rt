//! Which files of a folder are the rule set's.

ghost use Rattle.std.specs.Prelude.{◌≡◌, Some, ◌+◌, ◌++◌, ◌≤◌, ◌&&◌, [], ◌∷◌, if◌then◌else◌, ℕ, length, map, string_bytes, IfOk, OnOk, MatchResult, IsSorted};
ghost use Rattle.std.specs.String.{string_cmp};
ghost use Rattle.std.specs.List.{list_any};
ghost use Rattle.std.specs.Str.{bytes_eq};
ghost use Rattle.fisca_folder.specs.Folder.{Folder, AreRulePaths, IsListFault, IsListRefusal, found_on_top, found_deeper, found_in, top_of, top_files_of, with_folder};
ghost use Rattle.fisca_folder.specs.Steps.Folder.{counts_as_folder};
ghost use Rattle.fisca_folder.specs.FolderSteps.{looked_at, with_entry};

use super::folder::{FolderEntry, FolderFault, RuleFolder};
use super::rule_paths::is_rule_path;
use std::alloc::{AllocError, Global};
use std::marker::Model;

/// So many levels of folders are looked into: `parameters`, `variables` and those below them.
const DEEPEST: usize = 8;

/// So many files and folders are looked at in all, so that links that lead back keep no one waiting.
const MOST_SEEN: usize = 100_000;

/// So many files a rule set may have. More are refused unread.
const MOST_FILES: usize = 1_000;

/// What is found in some levels of folders: the folders one level deeper, the rule set's files, and how many files and folders
/// were looked at.
#[derive(Drop)]
struct Found {
    deeper: Vec<String>,
    files: Vec<String>,
    seen: usize,
}

impl Model for Found {
    ghost use Rattle.std.specs.Prelude.{false, map, string_bytes};
    ghost use Rattle.fisca_folder.specs.Folder.{Found as Seen};

    ghost Value = { Seen };

    ghost view = { λ f. record { deeper = map (λ path. string_bytes path) f.deeper.items; files = map (λ path. string_bytes path) f.files.items; seen = f.seen; is_short = false } };
}

/// The paths of the rule set's files, in order of their bytes. `CannotList` where a folder cannot be listed, `TooManyFiles`
/// where more than 100,000 files and folders are met, or more than 1,000 files of the rule set; all are told before any file is
/// read. `Memory` only where memory was refused.
pub(crate) fn list_rules<F: RuleFolder>(
    alloc: Global,
    folder: &F,
) -> Result<Vec<String>, FolderFault>
    ensures paths { (known : Folder) → F.says folder.now known → MatchResult result (λ paths. AreRulePaths known (map (λ path. string_bytes path) paths.items)) (IsListRefusal (found_in known 8)) }
    ensures order { IfOk result (λ paths. IsSorted string_cmp paths.items) }
    ensures few { IfOk result (λ paths. length paths.items ≤ MOST_FILES) }
{
    let mut found = find_top(alloc, folder)?;
    'levels: for level in 0..DEEPEST {
        found = find_deeper(alloc, folder, found)?;
    }
    let Found {
        files: mut paths,
        ..
    } = found;
    if paths.len() > MOST_FILES {
        return Err(FolderFault::TooManyFiles);
    }
    paths.sort()?;
    Ok(paths)
}

/// The folders `parameters` and `variables` and the file `entities.py`, where they are there.
fn find_top<F: RuleFolder>(alloc: Global, folder: &F) -> Result<Found, FolderFault>
    ensures found { (known : Folder) → F.says folder.now known → MatchResult result (λ found. found ≡ found_on_top known) (IsListFault (found_on_top known)) }
    ensures few { IfOk result (λ found. found.seen ≤ MOST_SEEN) }
{
    let entries = list(folder, "", 0)?;
    Ok(Found {
        deeper: folders_on_top(alloc, entries.as_slice())?,
        files: files_on_top(alloc, entries.as_slice())?,
        seen: entries.len(),
    })
}

/// The folders `parameters` and `variables`, where they are among these entries.
fn folders_on_top(alloc: Global, entries: &[FolderEntry]) -> Result<Vec<String>, AllocError>
    ensures { IfOk result (λ top. map (λ path. string_bytes path) top.items ≡ top_of entries.now) }
{
    let mut top = Vec::new(alloc);
    add_where(
        alloc,
        has_folder(entries, "parameters"),
        "parameters",
        &mut top,
    )?;
    add_where(
        alloc,
        has_folder(entries, "variables"),
        "variables",
        &mut top,
    )?;
    Ok(top)
}

/// The file `entities.py`, where it is among these entries.
fn files_on_top(alloc: Global, entries: &[FolderEntry]) -> Result<Vec<String>, AllocError>
    ensures { IfOk result (λ top. map (λ path. string_bytes path) top.items ≡ top_files_of entries.now) }
{
    let mut top = Vec::new(alloc);
    add_where(alloc, has(entries, "entities.py"), "entities.py", &mut top)?;
    Ok(top)
}

/// Adds this name, where it is there.
fn add_where(
    alloc: Global,
    is_there: bool,
    name: &str,
    paths: &mut Vec<String>,
) -> Result<(), AllocError>
    ensures { OnOk result (map (λ path. string_bytes path) paths.new.items ≡ map (λ path. string_bytes path) paths.old.items ++ (if is_there then name.now ∷ [] else [])) }
{
    if is_there {
        paths.push(String::from_str(alloc, name)?)?;
    }
    Ok(())
}

/// Whether an entry has this name.
fn has(entries: &[FolderEntry], name: &str) -> bool
    ensures { result ≡ list_any (λ entry. bytes_eq entry.name name.now) entries.now }
{
    entries.iter().any(|entry| entry.name() == name)
}

/// Whether a folder has this name. A file that has it is no rule file.
fn has_folder(entries: &[FolderEntry], name: &str) -> bool
    ensures { result ≡ list_any (λ entry. counts_as_folder entry.name entry.is_folder && bytes_eq entry.name name.now) entries.now }
{
    entries.iter().any(|entry| counts_as_folder(entry, entry.name()) && entry.name() == name)
}

/// Whether an entry at this path is taken for a folder. One that cannot be looked at is, so that it is told that it cannot be
/// listed, but for one that is named as a file of the rule set, of which it is told that it cannot be read.
fn counts_as_folder(entry: &FolderEntry, path: &str) -> bool
    ensures { result ≡ counts_as_folder path.now entry.now.is_folder }
{
    match entry.is_folder() {
        Some(is_folder) => is_folder,
        None => !is_rule_path(path),
    }
}

/// What is found in one level more.
fn find_deeper<F: RuleFolder>(alloc: Global, folder: &F, found: Found) -> Result<Found, FolderFault>
    requires { found.seen ≤ MOST_SEEN }
    ensures found { (known : Folder) → F.says folder.now known → MatchResult result (λ deeper. deeper ≡ found_deeper known found) (IsListFault (found_deeper known found)) }
    ensures few { IfOk result (λ deeper. deeper.seen ≤ MOST_SEEN) }
{
    let Found {
        deeper: paths,
        files,
        seen,
    } = found;
    let mut found = Found {
        deeper: Vec::new(alloc),
        files,
        seen,
    };
    for path in paths.as_slice() {
        look_into(alloc, folder, path.as_str(), &mut found)?;
    }
    Ok(found)
}

/// Adds the folders and the rule set's files of a folder.
fn look_into<F: RuleFolder>(
    alloc: Global,
    folder: &F,
    path: &str,
    found: &mut Found,
) -> Result<(), FolderFault>
    requires { found.old.seen ≤ MOST_SEEN }
    ensures found { (known : Folder) → F.says folder.now known → MatchResult result (λ done. found.new ≡ with_folder known found.old path.now) (IsListFault (with_folder known found.old path.now)) }
    ensures few { OnOk result (found.new.seen ≤ MOST_SEEN) }
{
    let entries = list(folder, path, found.seen)?;
    found.seen += entries.len();
    for entry in entries.as_slice() {
        add_entry(alloc, path, entry, found)?;
    }
    Ok(())
}

/// Adds an entry of a folder, if it is a folder or a file of the rule set.
fn add_entry(
    alloc: Global,
    path: &str,
    entry: &FolderEntry,
    found: &mut Found,
) -> Result<(), AllocError>
    ensures { OnOk result (found.new ≡ with_entry path.now found.old entry.now) }
{
    let path = format!(in alloc; "{path}/{}", entry.name())?;
    if counts_as_folder(entry, path.as_str()) {
        found.deeper.push(path)?;
    } else if is_rule_path(path.as_str()) {
        found.files.push(path)?;
    }
    Ok(())
}

/// The entries of a folder, where so many files and folders were seen before.
fn list<F: RuleFolder>(folder: &F, path: &str, seen: usize) -> Result<Vec<FolderEntry>, FolderFault>
    requires { seen ≤ MOST_SEEN }
    ensures listed { (known : Folder) → F.says folder.now known → MatchResult result (λ entries. known.entries path.now ≡ Some entries.items) (IsListFault (looked_at known path.now seen)) }
    ensures few { IfOk result (λ entries. seen + length entries.items ≤ MOST_SEEN) }
{
    let left = MOST_SEEN - seen;
    match folder.entries(path, left + 1)? {
        None => Err(FolderFault::CannotList),
        Some(entries) if entries.len() > left => Err(FolderFault::TooManyFiles),
        Some(entries) => Ok(entries),
    }
}
