//! The members of a situation: its persons, the groups that hold them and in which roles, as an input names them.
#![tactic(auto)]

mod draft;
mod fault;
mod few;
mod groups;
mod holders;
mod kind;
mod members;
mod own;
mod person;
mod persons;
mod role_table;
mod section;
mod sections;
mod shapes;
mod titles;

pub use fault::{MembersFault, MembersKind};
pub use fisca_groups::{EntityMembers, Home, Homes, MemberNames};
pub use members::{Members, members_in, members_of};
pub use person::{Person, Persons};
pub use role_table::RoleTable;
pub use section::{Input, Named, Section};
pub use sections::input_of;
pub use titles::{EntityNames, Naming, Titles, titles_of};
