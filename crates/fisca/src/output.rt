//! Standard output and standard error, up to the limit on the size of files.

use std::fs::Files;
use std::io::{Eprint, ErrorKind, Print, Write};
use std::{fs, io};

/// The bit of an open file's flags by which each write goes to the file's end.
const APPENDS: u64 = 0o2000;

/// A stream of this process.
#[derive(Clone, Copy)]
pub enum Stream {
    /// Standard output.
    Output,
    /// Standard error.
    Error,
}

impl Stream {
    /// The path by which the system leads to what the stream is.
    fn path(self) -> &'static str {
        match self {
            Stream::Output => "/proc/self/fd/1",
            Stream::Error => "/proc/self/fd/2",
        }
    }

    /// The file in which the system tells how the stream is open.
    fn state_path(self) -> &'static str {
        match self {
            Stream::Output => "/proc/self/fdinfo/1",
            Stream::Error => "/proc/self/fdinfo/2",
        }
    }
}

/// Standard output, which fails where the limit on the size of files is reached: to write there would end the program by a
/// signal.
#[derive(Drop)]
pub struct Output<'a, R> {
    rt: &'a R,
    is_limited: bool,
}

impl<'a, R: Files + AllocGlobal> Output<'a, R> {
    /// Standard output. Whether a limit is set is asked once.
    pub fn new(rt: &'a R) -> Output<'a, R> {
        Output {
            rt,
            is_limited: room(rt, Stream::Output).is_some(),
        }
    }

    /// How many of so many bytes can be written.
    fn room_for(&self, count: usize) -> usize {
        if !self.is_limited {
            return count;
        }
        match room(self.rt, Stream::Output) {
            Some(room) => usize::try_from(room).unwrap_or(count).min(count),
            None => count,
        }
    }
}

impl<R: Files + AllocGlobal + Print> Write for Output<'_, R> {
    fn write(&mut self, bytes: &[u8]) -> io::Result<usize> {
        let room = self.room_for(bytes.len());
        if room == 0 && !bytes.is_empty() {
            return Err(io::Error::from(ErrorKind::FileTooLarge));
        }
        io::writer(self.rt).write(&bytes[..room.min(bytes.len())])
    }

    fn flush(&mut self) -> io::Result<()> {
        Ok(())
    }
}

/// Standard error, which fails where the limit on the size of files is reached.
#[derive(Drop)]
pub struct ErrorOutput<'a, R> {
    rt: &'a R,
}

impl<'a, R: Files + AllocGlobal + Eprint> ErrorOutput<'a, R> {
    /// Standard error.
    pub fn new(rt: &'a R) -> ErrorOutput<'a, R> {
        ErrorOutput { rt }
    }
}

impl<R: Files + AllocGlobal + Eprint> Write for ErrorOutput<'_, R> {
    fn write(&mut self, bytes: &[u8]) -> io::Result<usize> {
        if !fits(self.rt, Stream::Error, bytes.len()) {
            return Err(io::Error::from(ErrorKind::FileTooLarge));
        }
        let Ok(text) = str::from_utf8(bytes) else {
            return Err(io::Error::from(ErrorKind::InvalidData));
        };
        eprint!(self.rt; "{text}")?;
        Ok(bytes.len())
    }

    fn flush(&mut self) -> io::Result<()> {
        Ok(())
    }
}

/// Whether a stream takes so many bytes before it meets the limit on the size of files.
pub fn fits<R: Files + AllocGlobal>(rt: &R, stream: Stream, count: usize) -> bool {
    match room(rt, stream) {
        Some(room) => room >= count as u64,
        None => true,
    }
}

/// How many bytes the limit on the size of files leaves a stream; `None` where it is no regular file, no limit is set, or the system
/// does not tell.
fn room<R: Files + AllocGlobal>(rt: &R, stream: Stream) -> Option<u64> {
    let found = fs::metadata(rt, stream.path()).ok()?;
    if !found.is_file() {
        return None;
    }
    let limits = fs::read_to_string(rt, "/proc/self/limits").ok()?;
    let limit = limit_in(limits.as_str())?;
    let state = fs::read_to_string(rt, stream.state_path()).ok()?;
    let place = place_in(state.as_str(), found.len())?;
    Some(limit.saturating_sub(place))
}

/// The limit on the size of files, by what the system tells of the limits of a process; `None` where it is `unlimited`.
fn limit_in(limits: &str) -> Option<u64> {
    let (limit, _) = behind(limits, "Max file size")?.split_once(' ')?;
    limit.parse::<u64>().ok()
}

/// Where in an open file of this length the next byte is written, by what the system tells of how it is open.
fn place_in(state: &str, length: u64) -> Option<u64> {
    let flags = u64::from_str_radix(behind(state, "flags:")?, 8).ok()?;
    if flags & APPENDS != 0 {
        Some(length)
    } else {
        behind(state, "pos:")?.parse::<u64>().ok()
    }
}

/// What stands behind these words at the beginning of a line, without blanks around it.
fn behind<'a>(text: &'a str, words: &str) -> Option<&'a str> {
    for line in text.lines() {
        if let Some(rest) = line.strip_prefix(words) {
            return Some(rest.trim());
        }
    }
    None
}
