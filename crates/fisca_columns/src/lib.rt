//! Columns: the keys that texts name, the texts of keys and values, and the files that say what is worked out of a situation.
#![tactic(auto)]

mod calc_file;
mod column;
mod columns;
mod fault;
mod formed;
mod keys;
mod law;
mod lines;
mod name_law;
mod names;
mod pieces;
mod place;
mod texts;
mod written;

pub use calc_file::{CalcFile, columns_in, default_in};
pub use column::read_column;
pub use columns::Columns;
pub use fault::{RunFileFault, RunFileKind};
pub use formed::write_value_cell;
pub use keys::{are_columns, period_in};
pub use law::{columns_are_read_back, columns_are_written_in_one_way};
pub use lines::write_columns;
pub use name_law::{names_of_keys_are_utf8, names_of_values_are_utf8};
pub use names::column_names;
pub use texts::{key_text, value_text, write_key, write_value};
