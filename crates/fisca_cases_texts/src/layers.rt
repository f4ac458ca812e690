//! The layer of texts, and those below it.

use crate::{expressions, params, tokens, yaml};
use fisca_cases_base::BaseFault;
use fisca_params::SourceFile;
use std::alloc::Global;

/// What an operation of one of these layers answers to the words of a case, for the files of the rule set that was begun; `None` for any other layer.
pub fn answer(
    alloc: Global,
    layer: &str,
    operation: &str,
    files: &[SourceFile],
    words: &[String],
) -> Option<Result<String, BaseFault>> {
    match layer {
        "yaml" => Some(yaml::answer(alloc, operation, words)),
        "params" => Some(params::answer(alloc, operation, files, words)),
        "tokens" => Some(tokens::answer(alloc, operation, words)),
        "expressions" => Some(expressions::answer(alloc, operation, words)),
        _ => fisca_cases_base::answer(alloc, layer, operation, words),
    }
}
