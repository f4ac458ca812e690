//! Typed formulas in memory: what their expressions work out and stand for.
#![tactic(auto)]

mod made;
mod moves;
mod node;
mod operations;
mod parts;
mod periods;
mod thing;
mod types;

pub use made::{
    arithmetic, ask, choose, comparison, copy_indices, count, date_part, has_role, logic,
    parameter_node, push_index, same, scale_sum, total, unary,
};
pub use moves::Moves;
pub use node::{Ask, Index, Node, Pair, Parameter, ScaleSum, Totalled};
pub use operations::{
    Dyadic, common_all, highest, numeric_of, operated, prefixed_value, unary_of, where_of,
};
pub use parts::{
    instant_of, nodes_of, option_of, period_of, role_of, text_of, things_of, value_of,
};
pub use periods::{offset_by, offset_by_unit, period_attribute, places_of, start_attribute};
pub use thing::{Chosen, Relation, Thing, Typed};
pub use types::{common, higher, is_bool, is_number, is_numeric, is_of_members};
