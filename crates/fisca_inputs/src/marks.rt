//! Marks of variables.

ghost use Rattle.std.specs.Prelude.{◌≡◌};
ghost use Rattle.fisca_inputs.specs.Steps.Inputs.{is_marked as is_marked_at};

/// Whether the variable at this place has a mark, as those have that are neutralised: marks stand by the places of variables, and there is
/// none past the last. This project's own rule.
pub fn is_marked(marks: &[bool], variable: usize) -> bool
    ensures { result ≡ is_marked_at marks.now variable }
{
    match marks.get(variable) {
        Some(mark) => *mark,
        None => false,
    }
}
