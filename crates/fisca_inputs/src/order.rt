//! The order in which given inputs are shared.

ghost use Rattle.std.specs.Prelude.{◌≡◌, map, IfOk, OnOk};
ghost use Rattle.std.specs.BTreeMap.{insert_entry};
ghost use Rattle.fisca_inputs.specs.Ranks.{rank_cmp};
ghost use Rattle.fisca_inputs.specs.Steps.Order as spec;
ghost use Rattle.fisca_inputs.specs.Rules.{rule_of};
ghost use Rattle.fisca_time.specs.Period.{start_of, unit_of};

use crate::given::Given;
use fisca_symbols::Variable;
use fisca_time::{Instant, Period, Unit};
use std::alloc::{AllocError, Global};
use std::collections::BTreeMap;

/// What given inputs are put in order by: length, start, unit, and place in the file.
pub(crate) type Rank = (u32, (Option<Instant>, (Unit, usize)));

/// How long a period is: in days for a variable of days, in months for all others, which have 0 of days and of eternity.
fn length_by(unit: Unit, period: Period) -> u32
    ensures { result ≡ spec.length_by unit period }
{
    let length = if unit == Unit::Day {
        period.days()
    } else {
        period.months()
    };
    match length {
        Some(length) => length,
        None => 0,
    }
}

/// How long a given input is for its variable.
fn length_of(variables: &[Variable<'_>], given: &Given) -> u32
    ensures { result ≡ spec.length_of (map rule_of variables.now) given.now }
{
    match variables.get(given.variable) {
        Some(variable) => length_by(variable.definition_period, given.period),
        None => 0,
    }
}

/// What a given input at this place is put in order by.
fn rank_of(variables: &[Variable<'_>], given: &Given, place: usize) -> Rank
    ensures length { result.0 ≡ spec.length_of (map rule_of variables.now) given.now }
    ensures start { result.1.0 ≡ start_of given.now.period }
    ensures unit { result.1.1.0 ≡ unit_of given.now.period }
    ensures place { result.1.1.1 ≡ place }
{
    let length = length_of(variables, given);
    (length, (given.period.start(), (given.period.unit(), place)))
}

/// Puts a given input at its rank. No other has this rank.
fn insert<'g>(
    sorted: &mut BTreeMap<Rank, &'g Given>,
    rank: Rank,
    given: &'g Given,
) -> Result<(), AllocError>
    ensures { OnOk result (sorted.new.entries ≡ insert_entry rank_cmp sorted.old.entries rank given.entry) }
{
    match sorted.insert(rank, given) {
        Ok(_) => Ok(()),
        Err(_) => Err(AllocError),
    }
}

/// The given inputs by length, then start, then unit, the smaller first, and those that agree in all three as they stand here (this
/// project's own order). `AllocError` only where a growth was refused.
pub(crate) fn in_order<'g>(
    alloc: Global,
    variables: &[Variable<'_>],
    givens: &'g [Given],
) -> Result<BTreeMap<Rank, &'g Given>, AllocError>
    ensures { IfOk result (λ sorted. map (λ e. e.1.now) sorted.entries ≡ spec.in_order (map rule_of variables.now) givens.now) }
{
    let mut sorted = BTreeMap::new(alloc);
    for (place, given) in givens.iter().enumerate() {
        let rank = rank_of(variables, given, place);
        insert(&mut sorted, rank, given)?;
    }
    Ok(sorted)
}
