//! What the options of commands ask for.

use fisca_forms::{Decimals, Format};
use fisca_writer::Range;

/// In which form lines are written.
#[derive(Clone, Copy, Debug)]
pub struct TableForm {
    /// Whether the first line has the names of the cells.
    pub header: bool,
    /// How many places numbers have; without it they stand as their exact text.
    pub decimals: Option<Decimals>,
    /// The form of lines, where one is asked for.
    pub format: Option<Format>,
}

/// What the options of a run ask for.
#[derive(Clone, Copy, Debug)]
pub struct RunOptions {
    /// The positions that are worked out.
    pub range: Range,
    /// The most lines.
    pub rows: Option<u64>,
    /// The form of the lines.
    pub form: TableForm,
    /// Whether a key without a value does not end the run.
    pub keeps_going: bool,
}
