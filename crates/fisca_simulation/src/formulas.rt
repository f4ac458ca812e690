//! The formula that is in force on a day.

ghost use Rattle.std.specs.Prelude.{◌≡◌, map, option_map, slice_get};
ghost use Rattle.fisca_rules.specs.Steps.InForce as rules_spec;
ghost use Rattle.fisca_rules.specs.Views.{dated as dated_view, rule_set};
ghost use Rattle.fisca_simulation.specs.Steps.InForce as spec;
ghost use Rattle.fisca_simulation.specs.Steps.Simulations.{all_dated};

use fisca_rules::{DatedFormula, RuleSet};
use fisca_time::Instant;

/// Whether there are no formulas on the day, as the last day on which there are lies before it.
pub(crate) fn has_ended(end: Option<Instant>, day: Instant) -> bool
    ensures { result ≡ spec.has_ended end day }
{
    match end {
        Some(end) => end < day,
        None => false,
    }
}

/// The formulas of the variable at a place, from top to bottom.
#[tactic(auto, using(crate::proofs::Lookups::formulas_there))]
pub(crate) fn formulas_at<'r>(rules: &'r RuleSet<'_>, place: usize) -> &'r [DatedFormula]
    ensures { map dated_view result.now ≡ all_dated (slice_get (rule_set rules.now).formulas place) }
{
    match rules.formulas.get(place) {
        Some(formulas) => formulas.items.as_slice(),
        None => &[],
    }
}

/// Of the formulas of the variable at a place that start by the day the one that starts last.
#[tactic(auto, using(crate::proofs::Lookups::formulas_there))]
pub(crate) fn in_force<'r>(
    rules: &'r RuleSet<'_>,
    place: usize,
    day: Instant,
) -> Option<&'r DatedFormula>
    ensures { option_map (λ d. dated_view d.now) result ≡ rules_spec.in_force day (all_dated (slice_get (rule_set rules.now).formulas place)) }
{
    match rules.formulas.get(place) {
        Some(formulas) => formulas.in_force(day),
        None => None,
    }
}
