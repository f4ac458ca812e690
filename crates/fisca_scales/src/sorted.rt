//! The brackets of a scale sorted by threshold.
ghost use Rattle.std.specs.Prelude.{◌≡◌, IfOk, map};
ghost use Rattle.std.specs.List.{filter_map};
ghost use Rattle.fisca_scales.specs.Scale.{in_order};
ghost use Rattle.fisca_scales.specs.Steps.Scale.{complete_at};
ghost use Rattle.fisca_scales.specs.Sorted.{bracket_of};
ghost use Rattle.fisca_scales.specs.Tally.{empty_tally};
ghost use Rattle.fisca_scales.specs.Steps.Tally.{sum_if_rising, sum_if_distinct};

use crate::bracket::{Bracket, CompleteBracket, ScaleKind};
use crate::fault::ParamFault;
use crate::tally::Tally;
use fisca_num::Fraction;
use fisca_time::Instant;
use std::alloc::{AllocError, Global};
use std::collections::BTreeMap;

/// The value of each complete bracket, by its threshold and its place among the brackets as they are written.
type ByThreshold = BTreeMap<(Fraction, usize), Fraction>;

/// The complete brackets by threshold, those of one threshold as they are written.
fn by_threshold(
    alloc: Global,
    brackets: &[Bracket],
    kind: ScaleKind,
    instant: Instant,
) -> Result<ByThreshold, AllocError>
    ensures { IfOk result (λ sorted. map bracket_of sorted.entries ≡ in_order (filter_map (complete_at kind instant) brackets.now)) }
{
    let mut sorted = BTreeMap::new(alloc);
    let mut at = brackets.len();
    while at > 0 {
        at -= 1;
        if let Some(bracket) = brackets[at].complete_at(kind, instant) {
            sorted.insert((bracket.threshold, at), bracket.value)?;
        }
    }
    Ok(sorted)
}

/// The sum over sorted brackets, where no two have one threshold.
fn sum_if_rising(
    sorted: &ByThreshold,
    kind: ScaleKind,
    base: Fraction,
) -> Option<Result<Fraction, ParamFault>>
    ensures { result ≡ sum_if_rising (empty_tally kind base) (map bracket_of sorted.now.entries) }
{
    let mut tally = Tally::new(kind, base);
    for (key, value) in sorted.iter() {
        if !tally.is_below(key.0) {
            return None;
        }
        tally.take(CompleteBracket {
            threshold: key.0,
            value: *value,
        });
    }
    Some(tally.answer())
}

/// The sum over the complete brackets in order of threshold. `BadScale` where two have one threshold.
///
/// `AllocError` only where no memory was given to sort them.
pub(crate) fn sum_sorted(
    alloc: Global,
    brackets: &[Bracket],
    kind: ScaleKind,
    instant: Instant,
    base: Fraction,
) -> Result<Result<Fraction, ParamFault>, AllocError>
    ensures { IfOk result (λ sum. sum ≡ sum_if_distinct (empty_tally kind base) (in_order (filter_map (complete_at kind instant) brackets.now))) }
{
    let sorted = by_threshold(alloc, brackets, kind, instant)?;
    Ok(sum_if_rising(&sorted, kind, base).unwrap_or(Err(ParamFault::BadScale)))
}
