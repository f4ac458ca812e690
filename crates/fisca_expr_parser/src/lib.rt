//! Expressions of modules: a list of tokens is read as the one tree that is spelled so.
#![tactic(auto)]

mod cursor;
mod law;
mod made;
mod marks;
mod measured;
mod mode;
mod places;
mod reader;
mod refusal;
mod sign;
mod words;

pub use cursor::Cursor;
pub use law::{each_list_of_tokens_has_one_tree, each_token_is_read_whole};
pub use mode::{Mode, Place};
pub use reader::{read_all, read_expression};
pub use refusal::ParseRefusal;
pub use sign::Sign;
