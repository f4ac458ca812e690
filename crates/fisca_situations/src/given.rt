//! What is given for a variable of a member.

ghost use Rattle.std.specs.Prelude.{◌≡◌};
ghost use Rattle.std.specs.Option.{unwrap_or};
ghost use Rattle.fisca_inputs.specs.Outcomes.{Tells};
ghost use Rattle.fisca_yaml.specs.Find.{begins_on};
ghost use Rattle.fisca_yaml.specs.Views.{node, entries_view};
ghost use Rattle.fisca_situations.specs.Steps.Reading as spec;
ghost use Rattle.fisca_situations.specs.Views.{place as place_view};

use crate::given_inputs::GivenInputs;
use crate::place::Place;
use crate::said::{Said, said_of};
use fisca_inputs::{Given, SituationFault, SituationKind, key_period, takes};
use fisca_model::Value;
use fisca_symbols::Tables;
use fisca_time::{Period, TimeFault, Unit};
use fisca_yaml::{Entry, Tree};

/// A fault of a line.
pub(crate) fn fault_at(line: usize, kind: SituationKind) -> SituationFault
    ensures { result ≡ record { line = line; kind = kind } }
{
    SituationFault { line, kind }
}

/// The inputs so far and this value.
fn with_value(
    place: Place<'_, '_>,
    given: GivenInputs,
    line: usize,
    period: Period,
    value: Value,
) -> Result<GivenInputs, SituationFault>
    ensures { Tells (λ g. g) (spec.with_value (place_view place.entry) given line period value) result }
{
    given.with(Given {
        variable: place.variable,
        member: place.member,
        period: key_period(place.declared, period),
        value,
        line,
    })
}

/// The inputs so far and what stands at a period that the variable takes.
fn given_of(
    place: Place<'_, '_>,
    period: Period,
    line: usize,
    said: Said,
    given: GivenInputs,
    tree: &Tree<'_>,
) -> Result<GivenInputs, SituationFault>
    ensures { Tells (λ g. g) (spec.given_of (place_view place.entry) period line said given (node tree.now)) result }
{
    match said {
        Said::Input(value) => with_value(place, given, line, period, value),
        Said::Unused => Ok(given),
        Said::Unreadable => Err(fault_at(tree.line().unwrap_or(line), SituationKind::BadValue)),
    }
}

/// The inputs so far and what stands at a period, whose key or whose variable's key stands on `line`. The period is judged before the
/// value.
#[tactic(auto, unfolding(crate::specs::Steps::Reading::value_given))]
fn value_given(
    tables: &Tables<'_>,
    place: Place<'_, '_>,
    given: GivenInputs,
    line: usize,
    period: Period,
    tree: &Tree<'_>,
) -> Result<GivenInputs, SituationFault>
    ensures { Tells (λ g. g) (spec.value_given tables.now (place_view place.entry) given line period (node tree.now)) result }
{
    if !takes(place.declared, period) {
        return Err(fault_at(line, SituationKind::PeriodMismatch));
    }
    let said = said_of(tables, place.declared.value_type, tree);
    given_of(place, period, line, said, given, tree)
}

/// The inputs so far and what stands at a key that writes a period.
fn read_given(
    tables: &Tables<'_>,
    place: Place<'_, '_>,
    given: GivenInputs,
    line: usize,
    tree: &Tree<'_>,
    period: Result<Period, TimeFault>,
) -> Result<GivenInputs, SituationFault>
    ensures { Tells (λ g. g) (spec.read_given tables.now (place_view place.entry) given line (node tree.now) period) result }
{
    match period {
        Ok(period) => value_given(tables, place, given, line, period, tree),
        Err(_) => Err(fault_at(line, SituationKind::PeriodMismatch)),
    }
}

/// The same; nothing is no input.
#[tactic(auto, unfolding(crate::specs::Steps::Reading::dated_given))]
fn dated_given(
    tables: &Tables<'_>,
    place: Place<'_, '_>,
    given: GivenInputs,
    entry: &Entry<'_>,
) -> Result<GivenInputs, SituationFault>
    ensures { Tells (λ g. g) (spec.dated_given tables.now (place_view place.entry) given entry.now.key entry.now.line (node entry.now.value)) result }
{
    match &entry.value {
        Tree::Null => Ok(given),
        Tree::Scalar { .. } | Tree::List(_) | Tree::Map(_) => {
            let period = Period::read(entry.key.as_str());
            read_given(tables, place, given, entry.line, &entry.value, period)
        }
    }
}

/// The inputs so far and those of a map from periods to values.
fn all_dated(
    tables: &Tables<'_>,
    place: Place<'_, '_>,
    given: GivenInputs,
    entries: &[Entry<'_>],
) -> Result<GivenInputs, SituationFault>
    ensures { Tells (λ g. g) (spec.all_dated tables.now (place_view place.entry) given (entries_view entries.now)) result }
{
    let mut found = given;
    for entry in entries {
        found = dated_given(tables, place, found, entry)?;
    }
    Ok(found)
}

/// The inputs so far and a value without a period: of the default one, which an eternal variable does not need.
fn at_default(
    tables: &Tables<'_>,
    place: Place<'_, '_>,
    given: GivenInputs,
    line: usize,
    tree: &Tree<'_>,
    default: Option<Period>,
) -> Result<GivenInputs, SituationFault>
    ensures { Tells (λ g. g) (spec.at_default tables.now (place_view place.entry) given line (node tree.now) default) result }
{
    match default {
        Some(period) => value_given(tables, place, given, line, period, tree),
        None => match place.declared.definition_period {
            Unit::Eternity => value_given(tables, place, given, line, Period::ETERNITY, tree),
            Unit::Day | Unit::Month | Unit::Year => {
                Err(fault_at(line, SituationKind::PeriodMismatch))
            }
        },
    }
}

/// The inputs so far and what stands at a variable, whose key stands on `line`: nothing, a map from periods to values, or a value.
#[tactic(auto, unfolding(crate::specs::Steps::Reading::variable_given))]
pub(crate) fn variable_given(
    tables: &Tables<'_>,
    default: Option<Period>,
    place: Place<'_, '_>,
    given: GivenInputs,
    line: usize,
    tree: &Tree<'_>,
) -> Result<GivenInputs, SituationFault>
    ensures { Tells (λ g. g) (spec.variable_given tables.now default (place_view place.entry) given line (node tree.now)) result }
{
    match tree {
        Tree::Null => Ok(given),
        Tree::Map(entries) => all_dated(tables, place, given, entries.as_slice()),
        Tree::Scalar { .. } | Tree::List(_) => {
            at_default(tables, place, given, line, tree, default)
        }
    }
}
