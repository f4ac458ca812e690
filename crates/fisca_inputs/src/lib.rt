//! The inputs of a situation: a value for each key that has one, after longer inputs were shared over their parts and
//! defaults were given beside other members' inputs.
#![tactic(auto)]

mod across;
mod defaults;
mod fault;
mod given;
mod hashed;
mod inputs;
mod law;
mod marks;
mod order;
mod page;
mod periods;
mod runs;
mod share;
mod sharing;
mod table;

pub use across::{meets, overlaps};
pub use fault::{SituationFault, SituationKind};
pub use fisca_key_hash::KeyHasher;
pub use given::Given;
pub use inputs::Inputs;
pub use law::{defaults_stand_beside, shares_add_up};
pub use marks::is_marked;
pub use periods::{key_period, takes};
