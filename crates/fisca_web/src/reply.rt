//! What a page is told beside the bytes.

ghost use Rattle.std.specs.Prelude.{◌≡◌, false};

/// What came of a message.
#[derive(Clone, Copy, Debug, PartialEq, Eq)]
pub enum Outcome {
    /// The task was run.
    Done = 0,
    /// The bytes are no message: a part is missing, ends before it begins or behind the bytes, or is no UTF-8.
    NoMessage = 1,
    /// The task was run, but the room is smaller than what was written and told, of which `reply` has the lengths.
    NoRoom = 2,
    /// Memory was refused.
    NoMemory = 3,
    /// The words ask for help, and `out` has the text.
    Help = 4,
    /// The words are refused, and `out` has the text that tells why.
    Usage = 5,
}

/// What a page is told beside the bytes: four numbers of eight bytes.
#[derive(Debug, Drop)]
#[repr(C)]
pub struct Reply {
    /// The number of the outcome.
    pub outcome: usize,
    /// The exit status.
    pub status: usize,
    /// How many bytes were written, or those of a text for words that ask for no task.
    pub written: usize,
    /// How many bytes stand behind these for standard error: what is told of lines, and the last line without its line feed, if there is one.
    pub told: usize,
}

impl Reply {
    /// Tells why no task was run.
    pub(crate) fn fail(&mut self, outcome: Outcome) -> bool
        ensures { result ≡ false }
    {
        self.outcome = outcome as usize;
        false
    }
}
