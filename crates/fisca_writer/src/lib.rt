//! The lines of a run over the positions of a grid, whatever stands there, and the sinks that take them.
#![tactic(auto)]

mod fault;
mod groups;
mod last_line;
mod law;
mod limit;
mod memory_sink;
mod odometer;
mod part;
mod range;
mod range_law;
mod rows;
mod run;
mod sink;
mod stream_sink;

pub use fault::{RowFault, RunEnd, RunFault};
pub use groups::GroupLengths;
pub use last_line::write_end;
pub use law::{positions_rise, runs_continue};
pub use limit::Limit;
pub use memory_sink::MemorySink;
pub use odometer::Odometer;
pub use part::Part;
pub use range::Range;
pub use range_law::{parts_are_the_run, parts_follow, ranges_join};
pub use rows::{Rows, Selection};
pub use run::write_lines;
pub use sink::{RowSink, SinkFault, hand_over};
pub use stream_sink::StreamSink;
