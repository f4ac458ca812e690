//! What the arguments and attributes of declarations say, each by itself: values, lists, fields, entities with their roles.
#![tactic(auto)]

mod attributes;
mod dates;
mod dotted;
mod entity_forms;
mod fields;
mod lists;
mod values;

pub use attributes::{TypeName, period_value, sharing_value, type_value, value_at};
pub use dates::{date_value, dotted_value, instant_value};
pub use dotted::Dotted;
pub use entity_forms::{entity_of, map_of};
pub use lists::{items_of, list_of, positional, references_value};
pub use values::{name_value, number_value, text_value, truth_value, whole_value};
