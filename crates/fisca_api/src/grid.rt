//! Axes, run files, and runs over their grids.

pub use crate::readers::{read_calc_file, read_run_file};
pub use fisca_columns::{CalcFile, Columns, RunFileFault, RunFileKind};
pub use fisca_forms::{Decimals, Format, LineForm};
pub use fisca_grid::{Axes, AxesFault, AxisSpec, GridCursor};
pub use fisca_grid_run::{RowStyle, evaluator_of, run_grid, run_with};
pub use fisca_run_file::{Condition, Conditions, RunFile, RunRequest, RunStart};
pub use fisca_writer::{
    Limit, MemorySink, Part, Range, RowSink, RunEnd, RunFault, SinkFault, StreamSink,
};
