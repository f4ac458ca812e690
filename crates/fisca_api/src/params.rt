//! Parameters and scales.

pub use fisca_params::{NodeId, NodeKind, ParamFault, ParamTree, ParamValue, SourceFile};
