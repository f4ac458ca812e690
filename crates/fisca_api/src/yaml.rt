//! Trees of YAML texts.

pub use fisca_yaml::{Entry, Item, Text, Tree, YamlFault, YamlKind, read};
