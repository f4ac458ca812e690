//! What the attributes of a variable say, each by itself and beside the others; and its declaration.
#![tactic(auto)]

mod attributes;
mod before;
mod days;
mod declaration;
mod declared;
mod defaults;
mod formulas;
mod lines;
mod members;
mod needed;
mod types;
mod variable;

pub use attributes::Attributes;
pub use before::Before;
pub use declaration::Declaration;
pub use declared::Declared;
pub use formulas::Formulas;
pub use lines::behind_line;
pub use types::{TypeLines, type_lines};
pub use variable::variable_of;
