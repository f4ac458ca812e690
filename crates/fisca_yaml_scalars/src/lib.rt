//! The lines of a YAML text that have content, and the plain and quoted scalars that stand on them.
#![tactic(auto)]

mod line;
mod lines;
mod marks;
mod plain;
mod quoted;
mod split;
mod text;

pub use line::Line;
pub use lines::Lines;
pub use marks::{
    around, begins, ends_line, is_bracket, is_quote, may_begin, past_blanks, trim_end,
};
pub use plain::{ends_key, is_key, is_null_word, value_text, word_len};
pub use quoted::read_quoted;
pub use text::Text;
