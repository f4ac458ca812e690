//! The formula of a variable that is in force on a day.

ghost use Rattle.std.specs.Prelude.{◌≡◌, [], map, option_map, IfOk, MatchOption};
ghost use Rattle.fisca_rules.specs.Starts.{AreStarts, IsLastStart, NoneStarts};
ghost use Rattle.fisca_rules.specs.Steps.InForce as spec;
ghost use Rattle.fisca_rules.specs.Views.{dated as dated_view};

use crate::dated::DatedFormula;
use crate::formulas::TypedFormulas;
use fisca_time::Instant;
use std::alloc::{AllocError, Global};
use std::collections::BTreeMap;

/// So many formulas are looked through one by one, which costs less than a search where there are few.
const FEW: usize = 8;

/// Whether the formula starts on the day or before it.
fn has_started(day: Instant, formula: &DatedFormula) -> bool
    ensures { result ≡ spec.has_started day (dated_view formula.now) }
{
    formula.start <= day
}

/// Of two the formula that starts later; of two that start on one day the upper.
fn later<'r>(found: Option<&'r DatedFormula>, formula: &'r DatedFormula) -> &'r DatedFormula
    ensures { dated_view result.now ≡ spec.later (option_map (λ d. dated_view d.now) found.entry) (dated_view formula.now) }
{
    match found {
        Some(upper) => {
            if formula.start > upper.start {
                formula
            } else {
                upper
            }
        }
        None => formula,
    }
}

/// Of the formulas that start by the day the one that starts last, by a look at each.
fn latest_of(day: Instant, formulas: &[DatedFormula]) -> Option<&DatedFormula>
    ensures { option_map (λ d. dated_view d.now) result ≡ spec.in_force day (map dated_view formulas.now) }
{
    let mut found = None;
    for formula in formulas {
        if has_started(day, formula) {
            found = Some(later(found, formula));
        }
    }
    found
}

/// The places of formulas by the days on which they start; of those that start on one day the upper one's.
fn starts_of(
    alloc: Global,
    formulas: &[DatedFormula],
) -> Result<BTreeMap<Instant, usize>, AllocError>
    ensures { IfOk result (λ m. AreStarts m formulas.now) }
{
    let mut starts = BTreeMap::new(alloc);
    let mut place = formulas.len();
    while place > 0 {
        place -= 1;
        starts.insert(formulas[place].start, place)?;
    }
    Ok(starts)
}

/// The place by the last of these days that is not after a day.
fn last_place(starts: &BTreeMap<Instant, usize>, day: Instant) -> Option<usize>
    ensures { MatchOption result (NoneStarts day starts.now) (IsLastStart day starts.now) }
{
    match starts.range(..=day).next_back() {
        Some((_, place)) => Some(*place),
        None => None,
    }
}

/// The formula in force on a day, by the days on which they start.
fn found_by<'r>(
    starts: &BTreeMap<Instant, usize>,
    formulas: &'r [DatedFormula],
    day: Instant,
) -> Option<&'r DatedFormula>
    requires { AreStarts starts.now formulas.now }
    ensures { option_map (λ d. dated_view d.now) result ≡ spec.in_force day (map dated_view formulas.now) }
{
    match last_place(starts, day) {
        Some(place) => match formulas.get(place) {
            Some(formula) => Some(formula),
            None => None,
        },
        None => None,
    }
}

impl TypedFormulas {
    /// No formula.
    pub(crate) fn none(alloc: Global) -> TypedFormulas
        ensures { result.items.items ≡ [] }
    {
        TypedFormulas {
            items: Vec::new(alloc),
            starts: None,
        }
    }

    /// These formulas.
    pub(crate) fn of(alloc: Global, items: Vec<DatedFormula>) -> Result<TypedFormulas, AllocError>
        ensures { IfOk result (λ f. f.items.items ≡ items.items) }
    {
        let starts = if items.len() > FEW {
            Some(starts_of(alloc, items.as_slice())?)
        } else {
            None
        };
        Ok(TypedFormulas { items, starts })
    }

    /// Of the formulas that start by the day the one that starts last; of two that start on one day the upper.
    pub fn in_force(&self, day: Instant) -> Option<&DatedFormula>
        ensures { option_map (λ d. dated_view d.now) result ≡ spec.in_force day (map dated_view self.now.items.items) }
    {
        match &self.starts {
            Some(starts) => found_by(starts, self.items.as_slice(), day),
            None => latest_of(day, self.items.as_slice()),
        }
    }
}
