//! The machine that works a formula out: step by step, until it has its value, fails, or needs the value of a key.
#![tactic(auto)]

mod ascend;
mod asks;
mod context;
mod descend;
mod found;
mod law;
mod machine;
mod parameters;
mod pending;
mod plan;
mod progress;
mod stack;
mod totals;

pub use context::Context;
pub use law::plans_are_of_operands;
pub use machine::{Control, Machine, Step};
pub use pending::{At, Frame};
pub use plan::{Plan, plan_of};
pub use progress::{Progress, Stop};
