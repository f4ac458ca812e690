//! Situations, and the values of keys in these.

pub use crate::evaluator::Evaluator;
pub use crate::given::AxisValue;
pub use crate::readers::{key_text, read_column, read_outputs, value_text};
pub use crate::situation::Situation;
pub use fisca_evaluator::{Counts, IndexRecall, Known, ListRecall, Recall};
pub use fisca_expected::{ExpectedMembers, ExpectedOutput, OutputFault, Outputs};
pub use fisca_inputs::{SituationFault, SituationKind};
pub use fisca_model::{EvalFault, Key, Value};
pub use fisca_situations::Slot;
