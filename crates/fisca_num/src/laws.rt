//! Laws of the definitions, each as the contract of a function that does nothing.
ghost use Rattle.std.specs.Prelude.{◌≡◌, ◌≤◌, ◌↔◌, Result, List, ℕ, length, ◌++◌};
ghost use Rattle.std.specs.List.{fold};
ghost use Rattle.std.specs.Hash as fed;
ghost use Rattle.fisca_num.specs.declared.faults.NumFault.{NumFault};
ghost use Rattle.fisca_num.specs.Literal.{number_of_literal};
ghost use Rattle.fisca_num.specs.Number.{Number};
ghost use Rattle.fisca_num.specs.Numeral.{IsNumeralOf, IsTextOf};
ghost use Rattle.fisca_num.specs.Operations.{number_of};
ghost use Rattle.fisca_num.specs.Rational.{Ratio};
ghost use Rattle.fisca_num.specs.Text.{text_of};
ghost use Rattle.fisca_num.specs.Value.{IsNumberOf};

use crate::fractions::Fraction;
use std::hash::{Hash, Hasher};

/// Law: of all answers, `number_of r` is the one that is the rational r in lowest terms within the limits, or
/// says why there is none.
pub fn number_of_is_the_number()
    ensures { (r : Ratio) → (answer : Result Number NumFault) → IsNumberOf r answer ↔ (answer ≡ number_of r) }
{}

/// Law: a number has one numeral at most.
pub fn numerals_are_unique()
    ensures { (v : Number) → (s t : List ℕ) → IsNumeralOf s v → IsNumeralOf t v → s ≡ t }
{}

/// Law: of all texts, `text_of v` is the numeral of v where there is one, else `n/d`.
pub fn text_of_is_the_text()
    ensures { (v : Number) → (text : List ℕ) → IsTextOf text v ↔ (text ≡ text_of v) }
{}

/// Law: a numeral with at most 18 places is a literal of the number that it is the numeral of.
pub fn numerals_are_read_back()
    ensures { (v : Number) → (text : List ℕ) → (numeral : IsNumeralOf text v) → length numeral.places ≤ 18 → number_of_literal text ≡ Ok v }
{}

/// Law: equal fractions hash alike, whatever the hasher: to each they write the numerator and then the denominator.
pub fn equal_fractions_hash_alike<H: Hasher>(
    left: Fraction,
    right: Fraction,
    one: &mut H,
    other: &mut H,
)
    requires same { one.old ≡ other.old }
    requires equal { left ≡ right }
    ensures alike { one.new ≡ other.new }
    ensures written { one.new ≡ fold H.write one.old (fed.i64 left.numerator ++ fed.u64 left.denominator) }
{
    left.hash(one);
    right.hash(other);
}
