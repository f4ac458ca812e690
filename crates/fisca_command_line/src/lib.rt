//! The command line: its words, read into work by `clap`.
#![tactic(auto)]

mod arguments;
mod asked;
mod help;
mod misuse;
mod options;
mod subcommands;
mod task;

pub use options::{RunOptions, TableForm};
pub use task::{LinesTask, RuleFolders, Task, TestsTask, Work, read_task};
