//! The condition on an axis's values.

ghost use Rattle.std.specs.Prelude.{◌≡◌, ℕ, ◌<◌, MatchOption, Some, None, length, option_map};
ghost use Rattle.fisca_grid.specs.Condition.{comparison_of, comparison_in, condition_of, is_met_by};
ghost use Rattle.fisca_grid.specs.Steps.Condition.{after, past_spaces};

use fisca_num::Fraction;
use std::cmp::Ordering;

/// How an axis value is compared with a constant.
#[derive(Clone, Copy, Debug, PartialEq, Eq)]
pub enum AxisComparison {
    /// `>=`
    AtLeast,
    /// `<=`
    AtMost,
    /// `==`
    Equal,
    /// `!=`
    NotEqual,
    /// `>`
    Above,
    /// `<`
    Below,
}

impl AxisComparison {
    /// Whether a value meets the comparison, by the value's order to the constant.
    pub fn is_met_by(self, order: Ordering) -> bool
        ensures { result ≡ is_met_by self order }
    {
        match self {
            AxisComparison::AtLeast => order != Ordering::Less,
            AxisComparison::AtMost => order != Ordering::Greater,
            AxisComparison::Equal => order == Ordering::Equal,
            AxisComparison::NotEqual => order != Ordering::Equal,
            AxisComparison::Above => order == Ordering::Greater,
            AxisComparison::Below => order == Ordering::Less,
        }
    }
}

/// The text without this beginning.
fn after<'a>(beginning: &str, text: &'a str) -> Option<&'a str>
    ensures { option_map (λ s. s.now) result ≡ after beginning.now text.now }
{
    text.strip_prefix(beginning)
}

/// The text without its leading spaces.
pub fn past_spaces(text: &str) -> &str
    ensures { result.now ≡ past_spaces text.now }
{
    let mut rest = text;
    'spaces: while let Some(less) = rest.strip_prefix(' ') {
        rest = less;
    }
    rest
}

/// The comparison whose sign begins the text, and what follows the sign.
fn read_comparison(text: &str) -> Option<(AxisComparison, &str)>
    ensures { option_map (λ read. (read.0, read.1.now)) result ≡ comparison_of text.now }
{
    if let Some(rest) = after(">=", text) {
        Some((AxisComparison::AtLeast, rest))
    } else if let Some(rest) = after("<=", text) {
        Some((AxisComparison::AtMost, rest))
    } else if let Some(rest) = after("==", text) {
        Some((AxisComparison::Equal, rest))
    } else if let Some(rest) = after("!=", text) {
        Some((AxisComparison::NotEqual, rest))
    } else if let Some(rest) = after(">", text) {
        Some((AxisComparison::Above, rest))
    } else if let Some(rest) = after("<", text) {
        Some((AxisComparison::Below, rest))
    } else {
        None
    }
}

/// A condition on the values of an axis: how they are compared with a constant.
#[derive(Clone, Copy, Debug, PartialEq, Eq)]
pub struct AxisCondition {
    pub comparison: AxisComparison,
    pub constant: Fraction,
}

/// The comparison and the constant that a text states.
fn read_comparison_in(text: &str) -> Option<AxisCondition>
    ensures { result ≡ comparison_in text.now }
{
    let (comparison, rest) = read_comparison(text)?;
    let constant = Fraction::from_decimal(past_spaces(rest)).ok()?;
    Some(AxisCondition {
        comparison,
        constant,
    })
}

/// The condition that a text states of the axis of this name: the name, one of `>= <= == != > <`, and a decimal
/// literal; spaces may stand around the comparison alone. `None` where the text has not this form or the constant is
/// no number within the limits. This project's own rule.
pub fn read_condition(name: &str, text: &str) -> Option<AxisCondition>
    ensures { result ≡ condition_of name.now text.now }
{
    let rest = after(name, text)?;
    read_comparison_in(past_spaces(rest))
}

/// A condition on the values of an axis, by the axis's index in the grid.
#[derive(Clone, Copy, Debug)]
pub struct Filter {
    pub axis: usize,
    pub condition: AxisCondition,
}
