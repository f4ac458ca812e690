//! What inputs become where axes take other values: laws of slots, over the sharing of inputs. Definitions and laws, and no file.
#![tactic(auto)]

mod law;

pub use law::turning_keeps_other_variables;
