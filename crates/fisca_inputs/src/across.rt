//! Inputs whose periods share a day with another.

ghost use Rattle.std.specs.Prelude.{◌≡◌};
ghost use Rattle.fisca_inputs.specs.Overlaps as spec;
ghost use Rattle.fisca_inputs.specs.Steps.Overlaps as steps;

use crate::given::Given;
use fisca_time::Period;

/// Whether two periods share a day.
fn shares_day(ours: Period, theirs: Period) -> bool
    ensures { result ≡ spec.shares_day ours theirs }
{
    ours.overlaps(&theirs)
}

/// Whether a value is given for this variable and member, and for a period that shares a day with this one.
fn is_across(variable: usize, member: u32, period: Period, given: &Given) -> bool
    ensures { result ≡ steps.is_across variable member period given.now }
{
    given.variable == variable && given.member == member && shares_day(given.period, period)
}

/// Whether a value is given for this variable and member, and for a period that shares a day with this one, equal or not. It takes no memory.
/// This project's own rule.
pub fn meets(given: &[Given], variable: usize, member: u32, period: Period) -> bool
    ensures { result ≡ steps.meets given.now variable member period }
{
    for input in given {
        if is_across(variable, member, period, input) {
            return true;
        }
    }
    false
}

/// Whether a value is given for this variable and member, and for another period that shares a day with this one. The periods of an eternal
/// variable are all equal. It takes no memory. This project's own rule.
pub fn overlaps(given: &[Given], variable: usize, member: u32, period: Period) -> bool
    ensures { result ≡ steps.overlaps given.now variable member period }
{
    for input in given {
        if is_across(variable, member, period, input) && input.period != period {
            return true;
        }
    }
    false
}
