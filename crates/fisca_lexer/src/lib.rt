//! Tokens of modules: a text is cut into pieces, and those that are no blanks, comments or line ends are its tokens.
//! `tokens` answers them, or the text's first fault.
#![tactic(auto)]

mod front;
mod law;
mod layout;
mod levels;
mod lexer;
mod marks;
mod numbers;
mod strings;
mod texts;
mod token;

pub use law::tokens_stand_between_characters;
pub use lexer::tokens;
pub use texts::join_texts;
pub use token::{Class, Mark, Token};
