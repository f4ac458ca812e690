//! Parameters and scales of a rule set, read from its YAML files.
#![tactic(auto)]

mod build;
mod content;
mod dated;
mod fault;
mod law;
mod nodes;
mod parameter;
mod read;
mod source;
mod tree;
mod written;

pub use content::{NodeKind, ParamValue};
pub use fisca_scales::ParamFault;
pub use law::{
    each_node_is_reached_once, files_stand_at_their_paths, files_that_fit_make_a_tree,
    nothing_else_stands,
};
pub use read::in_path_order;
pub use source::{SourceFile, is_parameter_path};
pub use tree::{NodeId, ParamTree};
