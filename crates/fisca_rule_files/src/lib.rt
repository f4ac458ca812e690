//! The rule set that files make together, what is listed of it, where its parameters stand, why a command of the program was refused, and how one ended.
#![tactic(auto)]

mod cells;
mod check;
mod days;
mod ending;
mod law;
mod listing;
mod modules;
mod parameter_files;
mod refusal;
mod rule_files;
mod texts;

pub use cells::list_names;
pub use check::check_rules;
pub use days::write_day;
pub use ending::Ending;
pub use law::each_variable_has_its_line;
pub use listing::write_listing;
pub use modules::modules_of;
pub use parameter_files::{
    EntryInForce, FileTree, ParameterPlace, ParameterPlaces, entry_in_force, file_trees,
};
pub use refusal::{Refusal, Unanswered};
pub use rule_files::rules_of;
pub use texts::{text_of, text_told};
