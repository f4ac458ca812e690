//! What explanations are made of.

use crate::stated::StatedInputs;
use fisca_forms::LineForm;
use fisca_params::SourceFile;
use fisca_rule_files::ParameterPlaces;
use fisca_rules::RuleSet;
use std::alloc::Global;

/// A rule set with its modules, where parameters and inputs stand, and how lines are written.
#[derive(Drop)]
pub(crate) struct View<'s, 'q, 'f, 'r> {
    /// Where lines are made.
    pub(crate) alloc: Global,
    /// The rule set.
    pub(crate) rules: &'r RuleSet<'f>,
    /// Its modules in order of their paths.
    pub(crate) modules: &'s [&'f SourceFile],
    /// Where parameters and scales stand.
    pub(crate) parameters: ParameterPlaces<'q, 'f>,
    /// Where inputs are stated.
    pub(crate) stated: StatedInputs<'s, 'f>,
    /// How many keys stand above one another at most, where a number is given.
    pub(crate) depth: Option<u64>,
    /// The form of lines; without one they are texts for readers.
    pub(crate) form: Option<&'s LineForm>,
}
