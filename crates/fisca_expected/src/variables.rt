//! What is expected of a variable.

ghost use Rattle.std.specs.Prelude.{◌≡◌};
ghost use Rattle.fisca_situations.specs.Steps.Views.{situation as situation_view};
ghost use Rattle.fisca_yaml.specs.Views.{node, entries_view};
ghost use Rattle.fisca_expected.specs.Outcomes.{Tells};
ghost use Rattle.fisca_expected.specs.Steps.Reading as spec;
ghost use Rattle.fisca_expected.specs.Views.{subject as subject_view};

use crate::fault::OutputFault;
use crate::member_scope::MemberScope;
use crate::outputs::Outputs;
use crate::periods::{is_usable, period_at};
use crate::subject::Subject;
use crate::values::values_read;
use crate::whom::ExpectedMembers;
use fisca_situations::Situation;
use fisca_symbols::{Tables, Variable};
use fisca_time::Period;
use fisca_yaml::{Entry, Tree};

/// The outputs so far, and what stands at a period, if the variable can be asked for there.
fn at_period(
    tables: &Tables<'_>,
    subject: &Subject<'_, '_>,
    outputs: Outputs,
    line: usize,
    tree: &Tree<'_>,
    period: Option<Period>,
) -> Result<Outputs, OutputFault>
    ensures { Tells (λ o. o) (spec.at_period tables.now (subject_view subject.now) outputs line (node tree.now) period) result }
{
    match period {
        Some(period) => values_read(tables, subject, outputs, line, period, tree),
        None => Err(OutputFault::BadOutput { line }),
    }
}

/// The outputs so far, and what stands at a key that writes a period.
#[tactic(auto, unfolding(crate::specs::Steps::Reading::dated_read))]
fn dated_read(
    tables: &Tables<'_>,
    subject: &Subject<'_, '_>,
    outputs: Outputs,
    entry: &Entry<'_>,
) -> Result<Outputs, OutputFault>
    ensures { Tells (λ o. o) (spec.dated_read tables.now (subject_view subject.now) outputs entry.now.key entry.now.line (node entry.now.value)) result }
{
    let period = period_at(subject.declared, None, Some(entry.key.as_str()));
    at_period(tables, subject, outputs, entry.line, &entry.value, period)
}

/// The outputs so far, and those of a map from periods to values.
fn all_dated(
    tables: &Tables<'_>,
    subject: &Subject<'_, '_>,
    outputs: Outputs,
    entries: &[Entry<'_>],
) -> Result<Outputs, OutputFault>
    ensures { Tells (λ o. o) (spec.all_dated tables.now (subject_view subject.now) outputs (entries_view entries.now)) result }
{
    let mut found = outputs;
    for entry in entries {
        found = dated_read(tables, subject, found, entry)?;
    }
    Ok(found)
}

/// The outputs so far, and what stands at a variable, whose key stands on `line`: values of the default period, or a map from periods to
/// values.
#[tactic(auto, unfolding(crate::specs::Steps::Reading::variable_read))]
fn variable_read(
    tables: &Tables<'_>,
    default: Option<Period>,
    subject: &Subject<'_, '_>,
    outputs: Outputs,
    line: usize,
    tree: &Tree<'_>,
) -> Result<Outputs, OutputFault>
    ensures { Tells (λ o. o) (spec.variable_read tables.now default (subject_view subject.now) outputs line (node tree.now)) result }
{
    match tree {
        Tree::Map(entries) => all_dated(tables, subject, outputs, entries.as_slice()),
        Tree::Null | Tree::Scalar { .. } | Tree::List(_) => {
            let period = period_at(subject.declared, default, None);
            at_period(tables, subject, outputs, line, tree, period)
        }
    }
}

/// Whose values of a variable are meant; nobody's where its entity is another.
fn whom_of(
    situation: &Situation,
    scope: MemberScope,
    variable: &Variable<'_>,
) -> Option<ExpectedMembers>
    ensures { result ≡ spec.whom_of (situation_view situation.now).members scope variable.now }
{
    match scope {
        MemberScope::All => Some(ExpectedMembers::Each(situation.members(variable.entity))),
        MemberScope::Member { entity, member } => {
            if variable.entity == entity {
                Some(ExpectedMembers::One(member))
            } else {
                None
            }
        }
    }
}

/// The same; days and texts are not asked for.
fn whom_if_usable(
    situation: &Situation,
    scope: MemberScope,
    variable: &Variable<'_>,
) -> Option<ExpectedMembers>
    ensures { result ≡ spec.whom_if_usable (situation_view situation.now).members scope variable.now }
{
    if is_usable(variable.value_type) {
        whom_of(situation, scope, variable)
    } else {
        None
    }
}

/// The place of the variable that a key names.
fn place_of(tables: &Tables<'_>, key: &str) -> Option<usize>
    ensures { result ≡ spec.place_of tables.now key.now }
{
    match tables.variable_named(key) {
        Some((place, _)) => Some(place),
        None => None,
    }
}

/// The outputs so far, and what stands at the variable at a place.
#[tactic(auto, unfolding(crate::specs::Steps::Reading::named_read))]
fn named_read(
    tables: &Tables<'_>,
    situation: &Situation,
    default: Option<Period>,
    scope: MemberScope,
    outputs: Outputs,
    line: usize,
    tree: &Tree<'_>,
    place: Option<usize>,
) -> Result<Outputs, OutputFault>
    ensures { Tells (λ o. o) (spec.named_read tables.now (situation_view situation.now).members default scope outputs line (node tree.now) place) result }
{
    let Some(variable) = place else {
        return Err(OutputFault::BadOutput { line });
    };
    let Some(declared) = tables.variables.as_slice().get(variable) else {
        return Err(OutputFault::BadOutput { line });
    };
    let Some(whom) = whom_if_usable(situation, scope, declared) else {
        return Err(OutputFault::BadOutput { line });
    };
    let subject = Subject {
        variable,
        declared,
        whom,
    };
    variable_read(tables, default, &subject, outputs, line, tree)
}

/// The outputs so far, and what stands at a key that names a variable.
pub(crate) fn variable_at(
    tables: &Tables<'_>,
    situation: &Situation,
    default: Option<Period>,
    scope: MemberScope,
    outputs: Outputs,
    entry: &Entry<'_>,
) -> Result<Outputs, OutputFault>
    ensures { Tells (λ o. o) (spec.named_read tables.now (situation_view situation.now).members default scope outputs entry.now.line (node entry.now.value) (spec.place_of tables.now entry.now.key)) result }
{
    let place = place_of(tables, entry.key.as_str());
    named_read(
        tables,
        situation,
        default,
        scope,
        outputs,
        entry.line,
        &entry.value,
        place,
    )
}
