//! The order of fractions, which is that of their values.
ghost use Rattle.std.specs.Prelude.{refl};
ghost use Rattle.std.specs.Cmp.{partial_order_from_agreeing_total};
ghost use Rattle.std.specs.Ordering.{as_partial_cmp};
ghost use Rattle.fisca_num.specs.Number.{number_cmp};
ghost use Rattle.fisca_num.specs.Order.{number_total, matches_number_cmp};

use crate::fractions::Fraction;
use std::cmp::Ordering;

impl Ord for Fraction {
    ghost cmp = { number_cmp };

    ghost total = { number_total };

    ghost matches_partial_cmp = { λ _ _. refl };

    ghost matches_eq = { matches_number_cmp };

    fn cmp(&self, other: &Fraction) -> Ordering {
        if self.denominator == other.denominator {
            self.numerator.cmp(&other.numerator)
        } else {
            self.scaled(*other).cmp(&other.scaled(*self))
        }
    }
}

impl PartialOrd for Fraction {
    ghost partial_cmp = { as_partial_cmp number_cmp };

    ghost laws = { partial_order_from_agreeing_total number_cmp number_total (λ _ _. refl) matches_number_cmp };

    fn partial_cmp(&self, other: &Fraction) -> Option<Ordering> {
        Some(self.cmp(other))
    }
}
