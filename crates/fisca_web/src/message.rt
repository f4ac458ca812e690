//! The parts of a message.

ghost use Rattle.std.specs.Prelude.{◌≡◌, IfOk, IfSome, map, string_bytes};
ghost use Rattle.fisca_web.specs.Message.{file_at, files_of, first_parts, part_of};

use fisca_params::SourceFile;
use std::alloc::{AllocError, AllocFailed, Global};

/// Why a message cannot be taken.
#[derive(Clone, Copy, Debug, PartialEq, Eq)]
pub(crate) enum MessageFault {
    /// A part is missing, ends before it begins or behind the bytes, or is no UTF-8.
    NoText,
    /// Memory was refused.
    Memory,
}

impl From<AllocError> for MessageFault {
    ghost use Rattle.fisca_web.specs.declared.message.MessageFault.TheVariants.{Memory};

    ghost from_gives = { λ _ fault. fault ≡ Memory };

    fn from(_error: AllocError) -> MessageFault {
        MessageFault::Memory
    }
}

impl<T: Drop> From<AllocFailed<T>> for MessageFault {
    ghost use Rattle.fisca_web.specs.declared.message.MessageFault.TheVariants.{Memory};

    ghost from_gives = { λ _ fault. fault ≡ Memory };

    fn from(_error: AllocFailed<T>) -> MessageFault {
        MessageFault::Memory
    }
}

/// A part of a message, if it is a text.
pub(crate) fn part<'a>(bytes: &'a [u8], ends: &[usize], i: usize) -> Option<&'a str>
    ensures { IfSome result (λ text. text.now ≡ part_of bytes.now ends.now i) }
{
    if ends.len() <= i {
        return None;
    }
    let start = if i == 0 { 0 } else { ends[i - 1] };
    let end = ends[i];
    if end < start || bytes.len() < end {
        return None;
    }
    std::str::from_utf8(&bytes[start..end]).ok()
}

/// A copy of a part of a message.
fn copied(alloc: Global, bytes: &[u8], ends: &[usize], i: usize) -> Result<String, MessageFault>
    ensures { IfOk result (λ text. string_bytes text ≡ part_of bytes.now ends.now i) }
{
    match part(bytes, ends, i) {
        Some(text) => Ok(String::from_str(alloc, text)?),
        None => Err(MessageFault::NoText),
    }
}

/// The first parts of a message, so many.
fn words_in(
    alloc: Global,
    bytes: &[u8],
    ends: &[usize],
    words: usize,
) -> Result<Vec<String>, MessageFault>
    ensures { IfOk result (λ found. map (λ word. string_bytes word) found.items ≡ first_parts bytes.now ends.now words) }
{
    let mut found = Vec::new(alloc);
    for i in 0..words {
        found.push(copied(alloc, bytes, ends, i)?)?;
    }
    Ok(found)
}

/// The file whose path is this part of a message, and whose text is the next.
fn file(alloc: Global, bytes: &[u8], ends: &[usize], i: usize) -> Result<SourceFile, MessageFault>
    ensures { IfOk result (λ file. file ≡ file_at bytes.now ends.now i) }
{
    let Some(next) = i.checked_add(1) else {
        return Err(MessageFault::NoText);
    };
    let path = copied(alloc, bytes, ends, i)?;
    Ok(SourceFile::new(path, copied(alloc, bytes, ends, next)?))
}

/// The files of a message with so many words.
fn files_in(
    alloc: Global,
    bytes: &[u8],
    ends: &[usize],
    words: usize,
) -> Result<Vec<SourceFile>, MessageFault>
    ensures { IfOk result (λ files. files.items ≡ files_of bytes.now ends.now words) }
{
    let mut files = Vec::new(alloc);
    if ends.len() <= words {
        return Err(MessageFault::NoText);
    }
    let (first, count) = (words + 1, (ends.len() - (words + 1)) / 2);
    for n in 0..count {
        files.push(file(alloc, bytes, ends, first + 2 * n)?)?;
    }
    Ok(files)
}

/// What stands in a message beside the text.
#[derive(Drop)]
pub(crate) struct Message {
    /// The words.
    pub(crate) words: Vec<String>,
    /// The files.
    pub(crate) files: Vec<SourceFile>,
}

/// A message with so many words.
pub(crate) fn message_in(
    alloc: Global,
    bytes: &[u8],
    ends: &[usize],
    words: usize,
) -> Result<Message, MessageFault>
    ensures words { IfOk result (λ message. map (λ word. string_bytes word) message.words.items ≡ first_parts bytes.now ends.now words) }
    ensures files { IfOk result (λ message. message.files.items ≡ files_of bytes.now ends.now words) }
{
    Ok(Message {
        files: files_in(alloc, bytes, ends, words)?,
        words: words_in(alloc, bytes, ends, words)?,
    })
}
