//! The lowest of brackets that may be written in any order.
ghost use Rattle.std.specs.Prelude.{◌≡◌, Some};
ghost use Rattle.std.specs.List.{filter_map};
ghost use Rattle.fisca_scales.specs.Steps.Scale.{complete_at};
ghost use Rattle.fisca_scales.specs.Steps.Tally.{is_above};
ghost use Rattle.fisca_scales.specs.Steps.Lowest.{lowest_above, lower_of};

use crate::bracket::{Bracket, CompleteBracket, ScaleKind};
use fisca_num::Fraction;
use fisca_time::Instant;

/// The lowest of some brackets, and whether another has its threshold.
#[derive(Clone, Copy, Debug)]
pub(crate) struct Lowest {
    pub bracket: CompleteBracket,
    pub is_shared: bool,
}

/// The lowest complete bracket above a threshold.
pub(crate) fn lowest_above(
    brackets: &[Bracket],
    kind: ScaleKind,
    instant: Instant,
    above: &Option<Fraction>,
) -> Option<Lowest>
    ensures { result ≡ lowest_above above.now (filter_map (complete_at kind instant) brackets.now) }
{
    let mut lowest = None;
    let mut at = brackets.len();
    while at > 0 {
        at -= 1;
        if let Some(bracket) = brackets[at].complete_at(kind, instant) {
            if is_above(above, bracket.threshold) {
                lowest = Some(bracket.lower_of(lowest));
            }
        }
    }
    lowest
}

/// Above a threshold, where one is given.
pub(crate) fn is_above(above: &Option<Fraction>, threshold: Fraction) -> bool
    ensures { result ≡ is_above above.now threshold }
{
    match above {
        None => true,
        Some(low) => *low < threshold,
    }
}

impl CompleteBracket {
    /// The lowest of this bracket and of others.
    fn lower_of(self, lowest: Option<Lowest>) -> Lowest
        ensures { result ≡ lower_of self lowest }
    {
        match lowest {
            None => Lowest {
                bracket: self,
                is_shared: false,
            },
            Some(other) => other.or(self),
        }
    }
}

impl Lowest {
    /// The bracket.
    pub(crate) fn bracket(&self) -> CompleteBracket
        ensures { result ≡ self.now.bracket }
    {
        self.bracket
    }

    /// Its threshold.
    pub(crate) fn threshold(&self) -> Fraction
        ensures { result ≡ self.now.bracket.threshold }
    {
        self.bracket.threshold
    }

    /// The lowest of these and of one more bracket.
    fn or(self, bracket: CompleteBracket) -> Lowest
        ensures { result ≡ lower_of bracket (Some self) }
    {
        let order = bracket.order(&self.bracket);
        if order.is_gt() {
            return self;
        }
        let is_shared = order.is_eq();
        Lowest { bracket, is_shared }
    }
}
