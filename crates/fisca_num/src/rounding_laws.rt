//! Laws of rounding, each as the contract of a function that does nothing.
ghost use Rattle.std.specs.Prelude.{◌≡◌, ◌<◌, ◌≤◌, ◌^◌, ◌↔◌, ℤ, pos, neg_ℤ, ◌≤ℤ◌, unsigned_abs, Ok, Err};
ghost use Rattle.fisca_num.specs.declared.faults.NumFault.{NumFault};
ghost use Rattle.fisca_num.specs.declared.faults.NumFault.TheVariants.{TooWide};
ghost use Rattle.fisca_num.specs.Nearest.{IsAtMost, IsFloor, IsCeiling, IsNearest, distance};
ghost use Rattle.fisca_num.specs.Number.{Number, ratio_of};
ghost use Rattle.fisca_num.specs.Rational.{Ratio, IsSame, IsTooWide, over};
ghost use Rattle.fisca_num.specs.Rounding.{floor_of, ceil_of, round_of, nearest, times_ten_to, rounded_ratio, rounded_to, number_of_whole};

/// Law: the floor of a number is the whole number k with k ≤ v < k + 1, and the ceiling the one with k - 1 < v ≤ k.
pub fn floor_and_ceiling_enclose()
    ensures floor { (v : Number) → (k : ℤ) → IsFloor (ratio_of v) k ↔ (k ≡ floor_of v) }
    ensures ceiling { (v : Number) → (k : ℤ) → IsCeiling (ratio_of v) k ↔ (k ≡ ceil_of v) }
{}

/// Law: of all whole numbers, `nearest r` is the one that is at most one half off r, and even where it is one half
/// off; none is nearer to r.
pub fn nearest_is_the_nearest()
    ensures only { (r : Ratio) → 0 < r.denominator → (k : ℤ) → IsNearest r k ↔ (k ≡ nearest r) }
    ensures none_nearer { (r : Ratio) → 0 < r.denominator → (k : ℤ) → distance r (nearest r) ≤ distance r k }
{}

/// Law: a whole number is its own floor, ceiling and nearest whole number.
pub fn whole_numbers_stay()
    ensures floor { (v : Number) → v.denominator ≡ 1 → floor_of v ≡ v.numerator }
    ensures ceiling { (v : Number) → v.denominator ≡ 1 → ceil_of v ≡ v.numerator }
    ensures nearest { (v : Number) → v.denominator ≡ 1 → round_of v ≡ v.numerator }
{}

/// Law: of two numbers the larger has no smaller floor, ceiling or nearest whole number.
pub fn rounding_rises()
    ensures floor { (v w : Number) → IsAtMost (ratio_of v) (ratio_of w) → floor_of v ≤ℤ floor_of w }
    ensures ceiling { (v w : Number) → IsAtMost (ratio_of v) (ratio_of w) → ceil_of v ≤ℤ ceil_of w }
    ensures nearest { (v w : Number) → IsAtMost (ratio_of v) (ratio_of w) → round_of v ≤ℤ round_of w }
{}

/// Law: a number rounded to a whole number is within the limits, and rounding to no places is that.
pub fn rounded_to_whole_fits()
    ensures floor { (v : Number) → unsigned_abs (floor_of v) < 2 ^ 63 }
    ensures ceiling { (v : Number) → unsigned_abs (ceil_of v) < 2 ^ 63 }
    ensures nearest { (v : Number) → unsigned_abs (round_of v) < 2 ^ 63 }
    ensures no_places { (v : Number) → rounded_to (pos 0) v ≡ number_of_whole (round_of v) }
{}

/// Law: rounding to places keeps each multiple of 10^-places, and so what it gave.
pub fn multiples_stay()
    ensures multiple { (places k : ℤ) → (v : Number) → IsSame (ratio_of v) (times_ten_to (neg_ℤ places) (over k (pos 1))) → rounded_to places v ≡ Ok v }
    ensures again { (places : ℤ) → (v w : Number) → rounded_to places v ≡ Ok w → rounded_to places w ≡ Ok w }
{}

/// Law: of two numbers the larger is not rounded to a smaller one.
pub fn rounding_to_places_rises()
    ensures { (places : ℤ) → (v w a b : Number) → IsAtMost (ratio_of v) (ratio_of w) → rounded_to places v ≡ Ok a → rounded_to places w ≡ Ok b → IsAtMost (ratio_of a) (ratio_of b) }
{}

/// Law: rounding to places has one fault alone, that the multiple in lowest terms has a part beyond the limits.
pub fn rounding_to_places_fails_where_too_wide()
    ensures { (places : ℤ) → (v : Number) → (fault : NumFault) → rounded_to places v ≡ Err fault → (fault ≡ TooWide) × IsTooWide (rounded_ratio places v) }
{}
