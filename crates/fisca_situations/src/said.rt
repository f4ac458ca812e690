//! What stands for a value of a variable.

ghost use Rattle.std.specs.Prelude.{◌≡◌, option_map};
ghost use Rattle.fisca_symbols.specs.Known.{tables as known};
ghost use Rattle.fisca_yaml.specs.Views.{node};
ghost use Rattle.fisca_situations.specs.Values as spec;
ghost use Rattle.fisca_situations.specs.Steps.Values as steps;

use fisca_model::Value;
use fisca_num::Fraction;
use fisca_symbols::{DeclaredType, Tables};
use fisca_time::Instant;
use fisca_yaml::Tree;

/// What stands for a value of a variable.
#[derive(Clone, Copy, Debug)]
pub enum Said {
    /// A value of its type.
    Input(Value),
    /// A day or a text, which formulas do not use.
    Unused,
    /// Nothing of its type.
    Unreadable,
}

/// Whether a whole number has 32 bits.
fn fits_int(number: i64) -> bool
    ensures { result ≡ steps.fits_int number }
{
    number >= -2_147_483_648 && number <= 2_147_483_647
}

/// Whether a number is a whole one of 32 bits.
fn is_int(number: Fraction) -> bool
    ensures { result ≡ steps.is_int number }
{
    number.denominator() == 1 && fits_int(number.numerator())
}

/// The bool that a number stands for: 0 or 1.
fn bool_of(number: Fraction) -> Option<bool>
    ensures { result ≡ steps.bool_of number }
{
    if number.denominator() != 1 {
        return None;
    }
    match number.numerator() {
        0 => Some(false),
        1 => Some(true),
        _ => None,
    }
}

/// A bool, in words or as 0 or 1.
fn bool_in(tree: &Tree<'_>) -> Option<bool>
    ensures { result ≡ steps.bool_in (node tree.now) }
{
    if let Some(word) = tree.as_bool() {
        return Some(word);
    }
    let number = tree.as_number()?;
    bool_of(number)
}

/// A whole number of 32 bits.
fn int_in(tree: &Tree<'_>) -> Option<Fraction>
    ensures { result ≡ steps.int_in (node tree.now) }
{
    let number = tree.as_number()?;
    if is_int(number) { Some(number) } else { None }
}

/// The place of the member of an Enum that a text names.
fn member_in(tables: &Tables<'_>, choices: usize, tree: &Tree<'_>) -> Option<usize>
    ensures { result ≡ steps.member_in (known tables.now) choices (node tree.now) }
{
    let name = tree.as_text()?;
    tables.member_named(choices, name)
}

/// Whether a text is a day.
fn is_day(tree: &Tree<'_>) -> bool
    ensures { result ≡ spec.day_in (node tree.now) }
{
    match tree.as_text() {
        Some(text) => Instant::read(text).is_ok(),
        None => false,
    }
}

/// A value, where it can be read.
fn input_or(value: Option<Value>) -> Said
    ensures { result ≡ steps.input_or value }
{
    match value {
        Some(value) => Said::Input(value),
        None => Said::Unreadable,
    }
}

/// What is no input, where it can be read.
fn unused_if(is_read: bool) -> Said
    ensures { result ≡ steps.unused_if is_read }
{
    if is_read {
        Said::Unused
    } else {
        Said::Unreadable
    }
}

/// What stands for a value of a variable of this type: a number; a whole number of 32 bits; a bool, or 0 or 1; a member of an Enum by its
/// name; a day; any scalar for a text.
pub fn said_of(tables: &Tables<'_>, value_type: DeclaredType, tree: &Tree<'_>) -> Said
    ensures { result ≡ spec.said (known tables.now) value_type (node tree.now) }
{
    match value_type {
        DeclaredType::Float => input_or(tree.as_number().map(Value::Number)),
        DeclaredType::Int => input_or(int_in(tree).map(Value::Number)),
        DeclaredType::Bool => input_or(bool_in(tree).map(Value::Bool)),
        DeclaredType::Enum(choices) => input_or(member_in(tables, choices, tree).map(
            Value::Member,
        )),
        DeclaredType::Date => unused_if(is_day(tree)),
        DeclaredType::Text => unused_if(tree.as_text().is_some()),
    }
}
