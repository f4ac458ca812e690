//! The folder of a rule set on this machine.

ghost use Rattle.std.specs.Prelude.{◌≢◌, IfErr};
ghost use Rattle.std.specs.IoError.{error_kind};

use fisca_folder::{FolderEntry, FolderFault, RuleFolder};
use std::alloc::{AllocError, Global};
use std::fs::{Files, OpenFile};
use std::io::{ErrorKind, Input, Read};
use std::path::Path;
use std::{fs, io};

/// The folder of a rule set at a path of this machine. Links are followed; only a regular file can be read.
#[derive(Drop)]
pub struct DiskFolder<'a, R> {
    rt: &'a R,
    rules: &'a str,
}

impl<'a, R: Files + AllocGlobal + Clone + Drop> DiskFolder<'a, R> {
    /// The folder at this path.
    pub fn new(rt: &'a R, rules: &'a str) -> DiskFolder<'a, R> {
        DiskFolder { rt, rules }
    }

    /// A path below the folder, as the machine takes it.
    fn whole(&self, path: &str) -> Result<String, AllocError> {
        if path.is_empty() {
            String::from_str(self.rt.alloc(), self.rules)
        } else {
            format!(in self.rt.alloc(); "{}/{path}", self.rules)
        }
    }
}

impl<R: Files + AllocGlobal + Clone + Drop> RuleFolder for DiskFolder<'_, R> {
    // what a machine's folders hold is not known
    ghost says = { λ _ _. ⊥ };

    fn name(&self) -> &str {
        self.rules
    }

    fn entries(&self, path: &str, most: usize) -> Result<Option<Vec<FolderEntry>>, AllocError> {
        let whole = self.whole(path)?;
        entries_at(self.rt, whole.as_str(), most)
    }

    fn bytes(&self, path: &str, most: u64) -> Result<Option<Vec<u8>>, AllocError> {
        let whole = self.whole(path)?;
        read_bytes(self.rt, whole.as_str(), most)
    }
}

/// What a call of the machine answers, which is made again where a signal interrupts it.
fn retried<T, C: Fn() -> io::Result<T>>(call: C) -> io::Result<T>
    requires { C.IsAlwaysCallable call }
    ensures { IfErr result (λ error. error_kind error ≢ ErrorKind.Interrupted) }
{
    for _ in 0..u64::MAX {
        match call() {
            Ok(answer) => return Ok(answer),
            Err(error) if error.kind() == ErrorKind::Interrupted => {}
            Err(error) => return Err(error),
        }
    }
    Err(io::Error::from(ErrorKind::TimedOut))
}

/// The first `most` entries of a folder at a path of this machine; `None` where it cannot be listed. Memory is its only error.
pub fn entries_at<R: Files + AllocGlobal + Clone + Drop>(
    rt: &R,
    path: &str,
    most: usize,
) -> Result<Option<Vec<FolderEntry>>, AllocError> {
    match retried(|| list(rt, path, most)) {
        Ok(entries) => Ok(Some(entries)),
        Err(error) => none_for(error.kind()),
    }
}

/// Whether a path of this machine leads to a folder; `-` names standard input.
pub fn is_folder<R: Files>(rt: &R, path: &str) -> bool {
    match retried(|| fs::metadata(rt, path)) {
        Ok(found) => path != "-" && found.is_dir(),
        Err(_) => false,
    }
}

/// The first `most` entries of a folder at a path of this machine.
fn list<R: Files + AllocGlobal + Clone + Drop>(
    rt: &R,
    path: &str,
    most: usize,
) -> io::Result<Vec<FolderEntry>> {
    let mut entries = Vec::new(rt.alloc());
    for entry in fs::read_dir(rt, path)? {
        if entries.len() == most {
            break;
        }
        let entry = entry?;
        let name = String::from_str(rt.alloc(), entry.file_name())?;
        entries.push(entry_at(rt, entry.path(), name)?)?;
    }
    Ok(entries)
}

/// The entry of this name, which stands at this path of the machine. Memory is its only error: of an entry that cannot be looked
/// at it is not known what it is.
fn entry_at<R: Files>(rt: &R, path: Path<'_>, name: String) -> io::Result<FolderEntry> {
    match retried(|| fs::metadata(rt, path)) {
        Ok(found) => Ok(FolderEntry::new(name, found.is_dir())),
        Err(error) if error.kind() == ErrorKind::OutOfMemory => Err(error),
        Err(_) => Ok(FolderEntry::unknown(name)),
    }
}

/// The first `most` bytes of a regular file at a path of this machine, or of standard input where the path is `-`; `None` where it cannot be read.
/// Memory is its only error.
pub fn read_named<R: Files + Input + AllocGlobal + Clone + Drop>(
    rt: &R,
    path: &str,
    most: u64,
) -> Result<Option<Vec<u8>>, AllocError> {
    if path == "-" {
        return read_input(rt, most);
    }
    read_bytes(rt, path, most)
}

/// The first `most` bytes of standard input; `None` where it cannot be read. Memory is its only error.
fn read_input<R: Input + AllocGlobal>(rt: &R, most: u64) -> Result<Option<Vec<u8>>, AllocError> {
    let mut bytes = Vec::new(rt.alloc());
    match rt.reader().take(most).read_to_end(&mut bytes) {
        Ok(_) => Ok(Some(bytes)),
        Err(error) => none_for(error.kind()),
    }
}

/// The first `most` bytes of a regular file at a path of this machine; `None` where it cannot be read. Memory is its only error.
fn read_bytes<R: Files + AllocGlobal + Clone + Drop>(
    rt: &R,
    path: &str,
    most: u64,
) -> Result<Option<Vec<u8>>, AllocError> {
    match regular_bytes(rt, path, most) {
        Ok(bytes) => Ok(bytes),
        Err(error) => none_for(error.kind()),
    }
}

/// The first `most` bytes of a file at a path of this machine; `None` where it is no regular file. An interrupted reading is tried again by the
/// library.
fn regular_bytes<R: Files + AllocGlobal + Clone + Drop>(
    rt: &R,
    path: &str,
    most: u64,
) -> io::Result<Option<Vec<u8>>> {
    let Some(file) = open_at(rt, path)? else {
        return Ok(None);
    };
    let mut bytes = Vec::new(rt.alloc());
    file.take(most).read_to_end(&mut bytes)?;
    Ok(Some(bytes))
}

/// The file at a path of this machine, opened; `None` where it is no regular file. An interrupted opening is tried again by the library.
fn open_at<R: Files + AllocGlobal + Clone + Drop>(
    rt: &R,
    path: &str,
) -> io::Result<Option<R::File>> {
    // To open a pipe waits for one who writes into it, so what stands there is looked at before.
    if !retried(|| fs::metadata(rt, path))?.is_file() {
        return Ok(None);
    }
    let file = fs::open(rt, path)?;
    // Something else may stand there since.
    if !retried(|| file.metadata())?.is_file() {
        return Ok(None);
    }
    Ok(Some(file))
}

/// The regular file at a path of this machine, opened. `CannotRead` where it is none or cannot be opened.
pub fn open_regular<R: Files + AllocGlobal + Clone + Drop>(
    rt: &R,
    path: &str,
) -> Result<R::File, FolderFault> {
    match open_at(rt, path) {
        Ok(Some(file)) => Ok(file),
        Ok(None) => Err(unread(rt, path)),
        Err(error) if error.kind() == ErrorKind::OutOfMemory => Err(FolderFault::Memory),
        Err(_) => Err(unread(rt, path)),
    }
}

/// That the file at a path cannot be read.
fn unread<R: AllocGlobal>(rt: &R, path: &str) -> FolderFault {
    match String::from_str(rt.alloc(), path) {
        Ok(path) => FolderFault::CannotRead { path },
        Err(_) => FolderFault::Memory,
    }
}

/// What is answered where the machine fails: an error for want of memory, else that it cannot.
fn none_for<T>(kind: ErrorKind) -> Result<Option<T>, AllocError> {
    if kind == ErrorKind::OutOfMemory {
        Err(AllocError)
    } else {
        Ok(None)
    }
}
