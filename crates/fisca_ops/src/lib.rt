//! The operations of formulas on values, each as the meaning of formulas has it: what one answers once its operands are there.
#![tactic(auto)]

mod defaults;
mod fault;
mod numbers;
mod operands;
mod operations;
mod parameters;
mod periods;
mod persons;
mod questions;
mod results;
mod totals;

pub use defaults::{default_by, default_of};
pub use fault::{OperationFault, fault_of, scale_fault};
pub use numbers::{by, compares, whole};
pub use operands::{member_of, number_of, truth_of};
pub use operations::{arithmetic, comparison, logic, same, unary};
pub use parameters::{parameter_at, scale_sum_at};
pub use periods::{
    counted, has_no_parts, key_period, moved, moved_all, next_part, part_of, start_at,
};
pub use persons::{count_of, first_of, group_of, has, next_person, role_of};
pub use questions::{Share, YearPart, plain_key, share_of, year_part};
pub use results::cast;
pub use totals::{beginning, stepped};
