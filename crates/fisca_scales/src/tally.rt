//! A scale's sum, worked out bracket by bracket in order of threshold.
ghost use Rattle.std.specs.Prelude.{◌≡◌};
ghost use Rattle.fisca_scales.specs.Tally.{empty_tally, threshold_of};
ghost use Rattle.fisca_scales.specs.Steps.Tally.{tally_with, with_last, answer_of, is_above};

use crate::bracket::{CompleteBracket, ScaleKind};
use crate::fault::ParamFault;
use fisca_num::{Fraction, NumFault};

/// The sum of the brackets so far but the last, which counts once the next threshold is known.
#[derive(Clone, Copy, Debug)]
pub(crate) struct Tally {
    kind: ScaleKind,
    base: Fraction,
    last: Option<CompleteBracket>,
    sum: Result<Fraction, NumFault>,
}

impl Tally {
    /// No bracket yet.
    pub(crate) fn new(kind: ScaleKind, base: Fraction) -> Tally
        ensures { result ≡ empty_tally kind base }
    {
        Tally {
            kind,
            base,
            last: None,
            sum: Ok(Fraction::zero()),
        }
    }

    /// Whether the last bracket's threshold, where there is one, is below this one.
    pub(crate) fn is_below(&self, threshold: Fraction) -> bool
        ensures { result ≡ is_above (threshold_of self.now.last) threshold }
    {
        match self.last {
            None => true,
            Some(last) => last.threshold < threshold,
        }
    }

    /// Takes the next bracket in order.
    pub(crate) fn take(&mut self, bracket: CompleteBracket)
        ensures { self.new ≡ tally_with self.old bracket }
    {
        self.sum = self.with_last(Some(bracket.threshold));
        self.last = Some(bracket);
    }

    /// The sum with the last bracket, where `next` is the threshold after its own.
    fn with_last(&self, next: Option<Fraction>) -> Result<Fraction, NumFault>
        ensures { result ≡ with_last self.now next }
    {
        match self.last {
            None => self.sum,
            Some(last) => last.added_to(self.kind, self.base, self.sum?, next),
        }
    }

    /// The sum of all brackets. `Undefined` where there is none.
    pub(crate) fn answer(&self) -> Result<Fraction, ParamFault>
        ensures { result ≡ answer_of self.now }
    {
        if self.last.is_none() {
            return Err(ParamFault::Undefined);
        }
        self.with_last(None).map_err(ParamFault::Number)
    }
}
