//! Denominators of decimals.
ghost use Rattle.std.specs.Prelude.{ℕ, ◌<◌, ◌^◌, MatchOption};
ghost use Rattle.std.specs.Int.{◌∣◌};
ghost use Rattle.fisca_num.specs.Tens.{IsLeastPower};

/// How many places a fraction over this denominator has as a decimal, or nothing where it is none.
pub(crate) fn decimal_places(denominator: u64) -> Option<u32>
    requires some { 0 < denominator }
    requires below { denominator < 2 ^ 63 }
    ensures { MatchOption result ((k : ℕ) → denominator ∣ 10 ^ k → ⊥) (λ places. IsLeastPower denominator places × (places < 63)) }
{
    let mut rest = denominator;
    let mut twos = 0u32;
    let mut fives = 0u32;
    'twos: while rest % 2 == 0 {
        rest /= 2;
        twos += 1;
    }
    'fives: while rest % 5 == 0 {
        rest /= 5;
        fives += 1;
    }
    if rest == 1 {
        Some(twos.max(fives))
    } else {
        None
    }
}
