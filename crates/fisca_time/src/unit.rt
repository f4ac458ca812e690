//! What a period is counted in.
ghost use Rattle.std.specs.Prelude.{◌≡◌, ◌≤◌};
ghost use Rattle.fisca_time.specs.Unit.{months_in, unit_ranked};

use std::cmp::Ordering;

/// What the size of a period is counted in. The smaller unit is the lesser one: a day is less than
/// a month, a month than a year, and a year than eternity.
#[derive(Clone, Copy, Debug, PartialEq, Eq, Hash)]
pub enum Unit {
    /// A day of the calendar.
    Day,
    /// A calendar month.
    Month,
    /// Twelve months, from the first of any month on.
    Year,
    /// All of time.
    Eternity,
}

impl Ord for Unit {
    ghost use Rattle.std.proofs.Common.{rules};
    ghost use Rattle.std.specs.Cmp.Rules.{comparing};
    ghost use Rattle.fisca_time.specs.Unit.{unit_cmp};

    ghost cmp = { unit_cmp };

    ghost total = { Prim.search (comparing, rules) };

    ghost matches_partial_cmp = { Prim.search (comparing, rules) };

    ghost matches_eq = { Prim.search (comparing, rules) };

    fn cmp(&self, other: &Unit) -> Ordering {
        (*self as u8).cmp(&(*other as u8))
    }
}

impl PartialOrd for Unit {
    ghost use Rattle.std.proofs.Common.{rules};
    ghost use Rattle.std.specs.Cmp.{partial_order_from_own_ties};
    ghost use Rattle.std.specs.Cmp.Rules.{comparing};
    ghost use Rattle.std.specs.Ordering.{as_partial_cmp};
    ghost use Rattle.fisca_time.specs.Unit.{unit_cmp};

    ghost partial_cmp = { as_partial_cmp unit_cmp };

    ghost laws = { partial_order_from_own_ties (Prim.search (comparing, rules)) (Prim.search (comparing, rules)) };

    fn partial_cmp(&self, other: &Unit) -> Option<Ordering> {
        Some(self.cmp(other))
    }
}

impl Unit {
    /// The unit at that place among all, from 0 for the smallest.
    pub(crate) fn ranked(rank: u8) -> Unit
        requires { rank ≤ 3 }
        ensures { result ≡ unit_ranked rank }
    {
        // A rank is below 4, and the remainder tells the compiler so.
        match rank % 4 {
            0 => Unit::Day,
            1 => Unit::Month,
            2 => Unit::Year,
            3 => Unit::Eternity,
            _ => unreachable!(),
        }
    }
}

/// The months in one such unit; days and eternity are not counted in months and have 0.
pub(crate) fn months_in(unit: Unit) -> u8
    ensures { result ≡ months_in unit }
{
    const MONTHS: [u8; 4] = [0, 1, 12, 0];
    MONTHS[unit as usize]
}
