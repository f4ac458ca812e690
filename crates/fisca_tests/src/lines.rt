//! Sinks and the lines of runs.

mod memory_sink;
mod run;
mod stream_sink;
