//! Whether a value stands without quotes in JSON.

use fisca_model::Value;

/// Whether the text of a value may stand without quotes in JSON: not that of a member of an Enum.
pub(crate) fn may_be_bare(value: &Value) -> bool {
    match value {
        Value::Number(_) | Value::Bool(_) => true,
        Value::Member(_) => false,
    }
}

/// Whether a text that may stand without quotes does: not a fraction.
pub(crate) fn is_bare(may_be: bool, text: &str) -> bool {
    may_be && !text.as_bytes().contains(&b'/')
}
