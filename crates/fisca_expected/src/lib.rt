//! The values that tests expect of keys, as they are written.
#![tactic(auto)]

mod entries;
mod fault;
mod member_scope;
mod members;
mod outputs;
mod periods;
mod reading;
mod subject;
mod tested;
mod values;
mod variables;
mod whom;

pub use fault::OutputFault;
pub use member_scope::MemberScope;
pub use outputs::{ExpectedOutput, Outputs};
pub use reading::read_outputs;
pub use whom::ExpectedMembers;
