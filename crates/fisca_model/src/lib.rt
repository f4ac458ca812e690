//! What all share: keys and values, the types of values, places of roles, and why a key has no value; and what rule sets declare, how groups hold
//! persons and at which periods values are, as definitions have it.
#![tactic(auto)]

mod eval_fault;
mod key;
mod periods;
mod role_place;
mod value;
mod value_type;

pub use eval_fault::EvalFault;
pub use key::{Key, NOTES};
pub use periods::fits;
pub use role_place::RolePlace;
pub use value::Value;
pub use value_type::ValueType;
