//! Scales, and their sums at an instant.
ghost use Rattle.std.specs.Prelude.{◌≡◌};
ghost use Rattle.fisca_scales.specs.Scale.{kind_at, in_order, scale_sum};
ghost use Rattle.fisca_scales.specs.Steps.Scale.{has_amount_at, complete_at};
ghost use Rattle.fisca_scales.specs.Tally.{empty_tally};
ghost use Rattle.fisca_scales.specs.Steps.Tally.{sum_if_rising, sum_if_distinct};
ghost use Rattle.std.specs.List.{filter_map, list_any};

use crate::bracket::{Bracket, ScaleKind};
use crate::fault::ParamFault;
use crate::lowest::lowest_above;
use crate::sorted::sum_sorted;
use crate::tally::Tally;
use fisca_num::Fraction;
use fisca_time::Instant;
use std::alloc::Global;
use std::marker::Model;

/// A scale: its brackets as they are written, and whether it is marked single amount.
#[derive(Debug, Drop)]
pub struct Scale {
    is_single_amount: bool,
    brackets: Vec<Bracket>,
}

impl Model for Scale {
    ghost use Rattle.fisca_scales.specs.Scale.{ScaleText};

    ghost Value = { ScaleText };

    ghost view = { λ s. record { is_single_amount = s.is_single_amount; brackets = s.brackets.items } };
}

impl Scale {
    /// The scale of these brackets.
    pub fn new(is_single_amount: bool, brackets: Vec<Bracket>) -> Scale
        ensures { result ≡ record { is_single_amount = is_single_amount; brackets = brackets.items } }
    {
        Scale {
            is_single_amount,
            brackets,
        }
    }

    /// The sum of a base at an instant.
    ///
    /// `Undefined` where no bracket is complete there, `BadScale` where two complete ones have one threshold, and
    /// `Number` where a part of the sum is too wide.
    pub fn sum(&self, instant: Instant, base: Fraction) -> Result<Fraction, ParamFault>
        ensures { result ≡ scale_sum self.now instant base }
    {
        let kind = self.kind_at(instant);
        match sum_as_written(&self.brackets, kind, instant, base) {
            Some(sum) => sum,
            None => {
                let alloc = *self.brackets.allocator();
                sum_by_threshold(alloc, &self.brackets, kind, instant, base)
            }
        }
    }

    /// How the scale sums at an instant.
    fn kind_at(&self, instant: Instant) -> ScaleKind
        ensures { result ≡ kind_at self.now instant }
    {
        if self.is_single_amount {
            ScaleKind::SingleAmount
        } else if self.has_amount_at(instant) {
            ScaleKind::MarginalAmount
        } else {
            ScaleKind::MarginalRate
        }
    }

    /// Whether some bracket has an amount at an instant.
    fn has_amount_at(&self, instant: Instant) -> bool
        ensures { result ≡ list_any (has_amount_at instant) self.now.brackets }
    {
        self.brackets
            .iter()
            .any(|bracket| bracket.has_amount_at(instant))
    }
}

/// The sum over the complete brackets in the order in which they are written, where their thresholds rise in it.
fn sum_as_written(
    brackets: &[Bracket],
    kind: ScaleKind,
    instant: Instant,
    base: Fraction,
) -> Option<Result<Fraction, ParamFault>>
    ensures { result ≡ sum_if_rising (empty_tally kind base) (filter_map (complete_at kind instant) brackets.now) }
{
    let mut tally = Tally::new(kind, base);
    for bracket in brackets {
        if let Some(next) = bracket.complete_at(kind, instant) {
            if !tally.is_below(next.threshold) {
                return None;
            }
            tally.take(next);
        }
    }
    Some(tally.answer())
}

/// The sum over the complete brackets in order of threshold. `BadScale` where two have one threshold. Where no memory is
/// given to sort them the sum takes longer.
fn sum_by_threshold(
    alloc: Global,
    brackets: &[Bracket],
    kind: ScaleKind,
    instant: Instant,
    base: Fraction,
) -> Result<Fraction, ParamFault>
    ensures { result ≡ sum_if_distinct (empty_tally kind base) (in_order (filter_map (complete_at kind instant) brackets.now)) }
{
    match sum_sorted(alloc, brackets, kind, instant, base) {
        Ok(sum) => sum,
        Err(_) => sum_in_order(brackets, kind, instant, base),
    }
}

/// The same without memory: the lowest bracket is looked for again and again.
fn sum_in_order(
    brackets: &[Bracket],
    kind: ScaleKind,
    instant: Instant,
    base: Fraction,
) -> Result<Fraction, ParamFault>
    ensures { result ≡ sum_if_distinct (empty_tally kind base) (in_order (filter_map (complete_at kind instant) brackets.now)) }
{
    let mut tally = Tally::new(kind, base);
    let mut above = None;
    while let Some(lowest) = lowest_above(brackets, kind, instant, &above) {
        if lowest.is_shared {
            return Err(ParamFault::BadScale);
        }
        above = Some(lowest.threshold());
        tally.take(lowest.bracket());
    }
    tally.answer()
}
