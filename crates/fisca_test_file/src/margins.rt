//! How far values may be off.

ghost use Rattle.std.specs.Prelude.{◌≡◌, option_and_then};
ghost use Rattle.fisca_yaml.specs.Views.{node};
ghost use Rattle.fisca_test_file.specs.Steps.Tests as spec;

use fisca_num::Fraction;
use fisca_yaml::Tree;

/// How far the values of numbers may be from the expected ones. Where both margins are there both have to hold, and where none is the values
/// have to be equal.
#[derive(Clone, Copy)]
pub struct Margins {
    /// At most so far.
    pub absolute: Option<Fraction>,
    /// At most so far for each unit of the expected value.
    pub relative: Option<Fraction>,
}

/// A number, where it is not below 0.
fn if_margin(number: Fraction) -> Option<Fraction>
    ensures { result ≡ spec.if_margin number }
{
    if number.numerator() < 0 {
        None
    } else {
        Some(number)
    }
}

/// The number from 0 up that a scalar is read as, if it is one.
pub(crate) fn margin_in(tree: &Tree<'_>) -> Option<Fraction>
    ensures { result ≡ spec.margin_in (node tree.now) }
{
    let number = tree.as_number()?;
    if_margin(number)
}

/// The margin at a key.
fn margin_at(key: &str, tree: &Tree<'_>) -> Option<Fraction>
    ensures { result ≡ spec.margin_at key.now (node tree.now) }
{
    let found = tree.get(key)?;
    margin_in(found)
}

/// The margins of a test.
pub(crate) fn margins_in(tree: &Tree<'_>) -> Margins
    ensures { result ≡ spec.margins_in (node tree.now) }
{
    Margins {
        absolute: margin_at("absolute_error_margin", tree),
        relative: margin_at("relative_error_margin", tree),
    }
}
