//! A subset of YAML 1.1 for rule files: block maps and lists, plain and quoted scalars, and collections in brackets on one line.
//! `read` answers the one tree of a text, and refuses a text only where it has none or passes a limit.
#![tactic(auto)]

mod fault;
mod flow;
mod keys;
mod misfit;
mod reader;
mod tree;
mod value;

pub use fault::{YamlFault, YamlKind};
pub use fisca_yaml_scalars::Text;
pub use reader::read;
pub use tree::{Entry, Item, Tree};
