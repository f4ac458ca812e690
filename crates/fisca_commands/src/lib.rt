//! The commands of the program, over texts and any sink.
#![tactic(auto)]

mod axes;
mod calc;
mod explain;
mod file_laws;
mod list;
mod many_files;
mod many_tests;
mod size;
mod task;
mod test;

pub use axes::axes_words;
pub use calc::calc_rules;
pub use explain::{ExplainOptions, explain_rules};
pub use file_laws::calc_inputs_fit;
pub use fisca_command_line::{RunOptions, TableForm, Task};
pub use fisca_grid_run::run_rules;
pub use fisca_rule_files::{Ending, Refusal, Unanswered, check_rules};
pub use list::list_rules;
pub use many_files::{LineFault, LineSource, calc_lines};
pub use many_tests::run_tests;
pub use size::size_rules;
pub use task::{run_task, run_test};
pub use test::test_rules;
