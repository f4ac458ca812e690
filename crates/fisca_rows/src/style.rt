//! How the rows of a run are written.

use fisca_forms::LineForm;

/// How the rows of a run are written. This project's own rule.
#[derive(Clone, Copy, Debug)]
pub enum RowStyle<'a> {
    /// Cells with tabs between them, with the exact texts of numbers.
    Plain,
    /// In this form.
    Formed(&'a LineForm),
    /// In this form, where what has no value does not end the run: its word stands in the cell.
    Going(&'a LineForm),
}
