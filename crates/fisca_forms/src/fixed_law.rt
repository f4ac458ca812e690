//! Laws of numbers to so many places.

ghost use Rattle.std.specs.Prelude.{◌≡◌, ◌≤◌, ◌==◌, true, ℕ};
ghost use Rattle.fisca_forms.specs.Fixed.{IsNear, count_of, count_text, fixed_text};
ghost use Rattle.fisca_num.specs.Number.{Number};

/// Law: a number that is written to so many places is at most half of 10^-places off, and of two that are half of it off the one away from 0 is
/// written: the next smaller count is further off.
pub fn fixed_numbers_are_near()
    ensures near { (places : ℕ) (v : Number) → IsNear places v (count_of places v) }
    ensures away { (places count : ℕ) (v : Number) → IsNear places v count → count ≤ count_of places v }
{}

/// Law: what is written as 0 has no sign.
pub fn no_zero_has_a_sign()
    ensures { (places : ℕ) (v : Number) → (count_of places v == 0) ≡ true → fixed_text places v ≡ count_text places 0 }
{}
