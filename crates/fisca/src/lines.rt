//! Lines that are read one after another.

use fisca_commands::{LineFault, LineSource};
use std::io;
use std::io::{BufRead, ErrorKind};

/// The lines of a reader.
#[derive(Drop)]
pub struct ReadLines<B> {
    reader: B,
}

impl<B: BufRead> ReadLines<B> {
    /// The lines that this reader has.
    pub fn new(reader: B) -> ReadLines<B> {
        ReadLines { reader }
    }

    /// Takes a piece of a line, up to `most` bytes of the line in all, and answers how much the reader had of it, and whether the line ends there;
    /// nothing where no byte is left.
    fn take_piece(&mut self, most: u64, line: &mut Vec<u8>) -> io::Result<Option<(usize, bool)>> {
        let piece = self.reader.fill_buf()?;
        if piece.is_empty() {
            return Ok(None);
        }
        let (length, ends) = match piece.iter().position(|b| *b == b'\n') {
            Some(at) => (at, true),
            None => (piece.len(), false),
        };
        let room = usize::try_from(most)
            .unwrap_or(0)
            .saturating_sub(line.len());
        line.extend_from_slice(&piece[..length.min(room)])?;
        Ok(Some((if ends { length + 1 } else { length }, ends)))
    }
}

impl<B: BufRead> LineSource for ReadLines<B> {
    ghost use Rattle.std.specs.Prelude.{None};

    // what a machine's files hold is not known
    ghost left = { λ _. None };

    fn next_line(&mut self, most: u64, line: &mut Vec<u8>) -> Result<bool, LineFault> {
        line.clear();
        let mut found = false;
        for _ in 0..u64::MAX {
            match self.take_piece(most, line) {
                Ok(None) => return Ok(found),
                Ok(Some((length, ends))) => {
                    self.reader.consume(length);
                    found = true;
                    if ends {
                        return Ok(true);
                    }
                }
                Err(error) if error.kind() == ErrorKind::Interrupted => {}
                Err(error) => return Err(fault_of(error.kind())),
            }
        }
        Ok(found)
    }
}

/// Why a line cannot be read.
fn fault_of(kind: ErrorKind) -> LineFault {
    if kind == ErrorKind::OutOfMemory {
        LineFault::Memory
    } else {
        LineFault::Read
    }
}
