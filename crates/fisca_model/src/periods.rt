//! Periods at which keys have values.

ghost use Rattle.std.specs.Prelude.{◌≡◌};
ghost use Rattle.fisca_model.specs.Periods as spec;

use fisca_time::{Period, Unit};

/// Whether a period is just one of this unit; of eternity each is.
pub fn fits(unit: Unit, period: Period) -> bool
    ensures { result ≡ spec.fits unit period }
{
    match unit {
        Unit::Day | Unit::Month | Unit::Year => period.unit() == unit && period.size() == Some(1),
        Unit::Eternity => true,
    }
}
