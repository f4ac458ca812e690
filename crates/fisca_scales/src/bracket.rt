//! The brackets of a scale.
ghost use Rattle.std.specs.Prelude.{◌≡◌};
ghost use Rattle.fisca_num.specs.Number.{number_cmp};
ghost use Rattle.fisca_scales.specs.Scale.{after_bracket};
ghost use Rattle.fisca_scales.specs.Steps.Scale.{has_amount_at, complete_at, upper_end};

use crate::dates::Dates;
use fisca_num::{Fraction, NumFault};
use fisca_time::Instant;
use std::cmp::Ordering;

/// Which of its brackets' fields a scale sums, and how.
#[derive(Clone, Copy, Debug, PartialEq, Eq)]
pub(crate) enum ScaleKind {
    MarginalRate,
    MarginalAmount,
    SingleAmount,
}

/// A bracket as its file has it: each field holds from its dates on, and a field that is not given has none.
#[derive(Debug, Drop)]
pub struct Bracket {
    pub threshold: Dates<Fraction>,
    pub rate: Dates<Fraction>,
    pub amount: Dates<Fraction>,
}

/// A bracket as it stands at an instant, with the field that the scale sums.
#[derive(Clone, Copy, Debug)]
pub(crate) struct CompleteBracket {
    pub threshold: Fraction,
    pub value: Fraction,
}

impl Bracket {
    /// Whether it has an amount at an instant.
    pub(crate) fn has_amount_at(&self, instant: Instant) -> bool
        ensures { result ≡ has_amount_at instant self.now }
    {
        self.amount.value_at(instant).is_some()
    }

    /// The bracket at an instant, where it has its threshold and the field summed there.
    pub(crate) fn complete_at(&self, kind: ScaleKind, instant: Instant) -> Option<CompleteBracket>
        ensures { result ≡ complete_at kind instant self.now }
    {
        let threshold = self.threshold.value_at(instant)?;
        let value = match kind {
            ScaleKind::MarginalRate => self.rate.value_at(instant)?,
            ScaleKind::MarginalAmount | ScaleKind::SingleAmount => self.amount.value_at(instant)?,
        };
        Some(CompleteBracket { threshold, value })
    }
}

impl CompleteBracket {
    /// The order of the thresholds.
    pub(crate) fn order(&self, other: &CompleteBracket) -> Ordering
        ensures { result ≡ number_cmp self.now.threshold other.now.threshold }
    {
        self.threshold.cmp(&other.threshold)
    }

    /// The sum with this bracket, where `next` is the threshold after its own.
    pub(crate) fn added_to(
        self,
        kind: ScaleKind,
        base: Fraction,
        sum: Fraction,
        next: Option<Fraction>,
    ) -> Result<Fraction, NumFault>
        ensures { result ≡ after_bracket kind base sum self next }
    {
        match kind {
            ScaleKind::MarginalRate if self.threshold < base => {
                let part = upper_end(base, next).sub(self.threshold)?;
                sum.add(self.value.mul(part)?)
            }
            ScaleKind::MarginalAmount if self.threshold < base => sum.add(self.value),
            ScaleKind::SingleAmount if self.threshold <= base => Ok(self.value),
            _ => Ok(sum),
        }
    }
}

/// The base, or the next threshold where that is less.
fn upper_end(base: Fraction, next: Option<Fraction>) -> Fraction
    ensures { result ≡ upper_end base next }
{
    match next {
        Some(next) if next < base => next,
        _ => base,
    }
}
