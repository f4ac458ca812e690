//! The files of tests that a command line names, read.

use crate::folder::{entries_at, is_folder, read_named};
use fisca_folder::{FolderEntry, FolderFault, LONGEST, LayerFault, text_of_file};
use fisca_params::SourceFile;
use std::alloc::AllocError;
use std::fs::Files;
use std::io::Input;

/// So many levels of folders are looked into: the one that is named, and those below it.
const DEEPEST: usize = 8;

/// So many files and folders are looked at in a folder that is named, so that links that lead back keep no one waiting.
const MOST_SEEN: usize = 100_000;

/// So many files of tests may there be.
const MOST_FILES: usize = 1_000;

/// What is found in some levels of folders: the folders one level deeper, the files of tests, and how many files and folders were looked at.
#[derive(Drop)]
struct Found {
    deeper: Vec<String>,
    files: Vec<String>,
    seen: usize,
}

/// The files at these paths, in order: of a folder those below it whose names end in `.yaml` or `.yml`, in order of the bytes of their paths. Which of the
/// paths could not be read, counted from 0 on, and why.
pub fn read_tests<R: Files + Input + AllocGlobal + Clone + Drop>(
    rt: &R,
    paths: &[String],
) -> Result<Vec<SourceFile>, LayerFault> {
    let mut files = Vec::new(rt.alloc());
    for place in 0..paths.len() {
        match read_path(rt, paths[place].as_str(), &mut files) {
            Ok(()) => {}
            Err(fault) => {
                return Err(LayerFault {
                    folder: place,
                    fault,
                });
            }
        }
    }
    Ok(files)
}

/// Reads the file at a path, or the files of tests in the folder there.
fn read_path<R: Files + Input + AllocGlobal + Clone + Drop>(
    rt: &R,
    path: &str,
    files: &mut Vec<SourceFile>,
) -> Result<(), FolderFault> {
    if !is_folder(rt, path) {
        return read_file(rt, path, files);
    }
    let found = find_tests(rt, path)?;
    for path in found.as_slice() {
        read_file(rt, path.as_str(), files)?;
    }
    Ok(())
}

/// Reads the file at a path.
fn read_file<R: Files + Input + AllocGlobal + Clone + Drop>(
    rt: &R,
    path: &str,
    files: &mut Vec<SourceFile>,
) -> Result<(), FolderFault> {
    if files.len() >= MOST_FILES {
        return Err(FolderFault::TooManyFiles);
    }
    let text = text_of_file(rt.alloc(), path, read_named(rt, path, LONGEST + 1)?)?;
    let path = String::from_str(rt.alloc(), path)?;
    files.push(SourceFile::new(path, text))?;
    Ok(())
}

/// The paths of the files of tests in a folder, in order of their bytes.
fn find_tests<R: Files + AllocGlobal + Clone + Drop>(
    rt: &R,
    folder: &str,
) -> Result<Vec<String>, FolderFault> {
    let mut found = Found {
        deeper: Vec::new(rt.alloc()),
        files: Vec::new(rt.alloc()),
        seen: 0,
    };
    look_into(rt, folder, &mut found)?;
    for _ in 1..DEEPEST {
        found = find_deeper(rt, found)?;
    }
    let Found { mut files, .. } = found;
    if files.len() > MOST_FILES {
        return Err(FolderFault::TooManyFiles);
    }
    files.sort()?;
    Ok(files)
}

/// What is found in one level more.
fn find_deeper<R: Files + AllocGlobal + Clone + Drop>(
    rt: &R,
    found: Found,
) -> Result<Found, FolderFault> {
    let Found {
        deeper: folders,
        files,
        seen,
    } = found;
    let mut found = Found {
        deeper: Vec::new(rt.alloc()),
        files,
        seen,
    };
    for folder in folders.as_slice() {
        look_into(rt, folder.as_str(), &mut found)?;
    }
    Ok(found)
}

/// Adds the folders and the files of tests of a folder.
fn look_into<R: Files + AllocGlobal + Clone + Drop>(
    rt: &R,
    folder: &str,
    found: &mut Found,
) -> Result<(), FolderFault> {
    let left = MOST_SEEN.saturating_sub(found.seen);
    let entries = match entries_at(rt, folder, left + 1)? {
        None => return Err(FolderFault::CannotList),
        Some(entries) if entries.len() > left => return Err(FolderFault::TooManyFiles),
        Some(entries) => entries,
    };
    found.seen = found.seen.saturating_add(entries.len());
    for entry in entries.as_slice() {
        add_entry(rt, folder, entry, found)?;
    }
    Ok(())
}

/// Adds an entry of a folder, if it is a folder or a file of tests. What cannot be looked at is taken for a folder, so that it is told that it cannot be
/// listed, but for one that is named as a file of tests, of which it is told that it cannot be read.
fn add_entry<R: AllocGlobal>(
    rt: &R,
    folder: &str,
    entry: &FolderEntry,
    found: &mut Found,
) -> Result<(), AllocError> {
    let name = entry.name();
    let is_named = name.ends_with(".yaml") || name.ends_with(".yml");
    let above = folder.strip_suffix("/").unwrap_or(folder);
    let path = format!(in rt.alloc(); "{above}/{name}")?;
    if entry.is_folder().unwrap_or(!is_named) {
        found.deeper.push(path)?;
    } else if is_named {
        found.files.push(path)?;
    }
    Ok(())
}
