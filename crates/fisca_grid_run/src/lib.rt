//! `fisca run` over texts and any sink: the rows of a run file over its grid, and what commands that write lines begin with.
#![tactic(auto)]

mod beginning;
mod forms;
mod grid_run;
mod kept;
mod kept_rows;
mod law;
mod rows;
mod run;
mod text;
mod told_keys;
mod turning;

pub use beginning::evaluator_of;
pub use fisca_rows::{Asked, RowStyle, all_met, meets, write_row};
pub use fisca_run::positions_have_situations;
pub use forms::{begin_table, is_asked, is_table};
pub use grid_run::{run_anew, run_grid};
pub use kept::run_with;
pub use law::runs_are_whole;
pub use run::{read_run, run_rules};
pub use text::read_tree;
pub use told_keys::unanswered;
