//! The words of the program, read into what they ask for.

pub use fisca_command_line::{
    LinesTask, RuleFolders, RunOptions, TableForm, Task, Work, read_task,
};
