//! Members of one entity by name, where persons belong, and the persons of each group.
#![tactic(auto)]

mod entity_members;
mod home;
mod roster;

pub use entity_members::{EntityMembers, MemberNames};
pub use home::{Home, Homes};
pub use roster::Roster;
