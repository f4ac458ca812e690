//! The folder of a rule set: which of its files belong to it, and their texts.
#![tactic(auto)]

mod folder;
mod layer_laws;
mod layers;
mod listing;
mod reading;
mod rule_paths;
mod shown;
mod told;

pub use folder::{FolderEntry, FolderFault, RuleFolder};
pub use layer_laws::layers_are_laid_over;
pub use layers::{LaidFiles, LayerFault, read_layers};
pub use reading::{LONGEST, read_rules, text_of_file};
pub use rule_paths::{is_module, is_rule_path};
pub use shown::write_shown;
pub use told::{ToldPath, told_path};
