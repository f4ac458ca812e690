//! What is expected of a variable at a period.

ghost use Rattle.std.specs.Prelude.{◌≡◌, ◌<◌, ◌^◌, ◌==◌, IsTrue, length};
ghost use Rattle.std.specs.Option.{unwrap_or};
ghost use Rattle.fisca_yaml.specs.Find.{begins_on};
ghost use Rattle.fisca_yaml.specs.Node.{list};
ghost use Rattle.fisca_yaml.specs.Views.{node, items_view};
ghost use Rattle.fisca_expected.specs.Outcomes.{Answers, Tells};
ghost use Rattle.fisca_expected.specs.Steps.Reading as spec;
ghost use Rattle.fisca_expected.specs.Reading.{count_of};
ghost use Rattle.fisca_expected.specs.Views.{subject as subject_view};

use crate::fault::{OutputFault, bad};
use crate::outputs::Outputs;
use crate::subject::Subject;
use crate::whom::ExpectedMembers;
use fisca_model::Value;
use fisca_situations::{Said, said_of};
use fisca_symbols::{DeclaredType, Tables};
use fisca_time::Period;
use fisca_yaml::{Item, Tree};

/// The type whose values are expected of variables of a type: of whole numbers any number.
fn expected_type(value_type: DeclaredType) -> DeclaredType
    ensures { result ≡ spec.expected_type value_type }
{
    match value_type {
        DeclaredType::Float | DeclaredType::Int => DeclaredType::Float,
        DeclaredType::Bool => DeclaredType::Bool,
        DeclaredType::Date => DeclaredType::Date,
        DeclaredType::Text => DeclaredType::Text,
        DeclaredType::Enum(choices) => DeclaredType::Enum(choices),
    }
}

/// The value that was read.
fn value_by(line: usize, tree: &Tree<'_>, said: Said) -> Result<Value, OutputFault>
    ensures { Answers (λ v. v) (spec.value_by line (node tree.now) said) result }
{
    match said {
        Said::Input(value) => Ok(value),
        Said::Unused | Said::Unreadable => Err(bad(line, tree)),
    }
}

/// The value that stands there, where the key, the item or the variable's key stands on `line`.
#[tactic(auto, unfolding(crate::specs::Steps::Reading::value_in))]
fn value_in(
    tables: &Tables<'_>,
    subject: &Subject<'_, '_>,
    line: usize,
    tree: &Tree<'_>,
) -> Result<Value, OutputFault>
    ensures { Answers (λ v. v) (spec.value_in tables.now (subject_view subject.now) line (node tree.now)) result }
{
    let expected = expected_type(subject.declared.value_type);
    value_by(line, tree, said_of(tables, expected, tree))
}

/// The outputs so far, and a scalar of each member.
fn scalar_read(
    tables: &Tables<'_>,
    subject: &Subject<'_, '_>,
    outputs: Outputs,
    line: usize,
    period: Period,
    tree: &Tree<'_>,
) -> Result<Outputs, OutputFault>
    ensures { Tells (λ o. o) (spec.scalar_read tables.now (subject_view subject.now) outputs line period (node tree.now)) result }
{
    let value = value_in(tables, subject, line, tree)?;
    Ok(outputs.with_all(subject, period, &value)?)
}

/// The outputs so far, and the items of a list for as many members in order.
fn items_read(
    tables: &Tables<'_>,
    subject: &Subject<'_, '_>,
    period: Period,
    outputs: Outputs,
    items: &[Item<'_>],
) -> Result<Outputs, OutputFault>
    requires { length items.now < 2 ^ 32 }
    ensures { Tells (λ o. o) (spec.items_read tables.now (subject_view subject.now) period 0 outputs (items_view items.now)) result }
{
    let mut found = outputs;
    for (member, item) in items.iter().enumerate() {
        let value = value_in(tables, subject, item.line, &item.value)?;
        found = found.with(subject, period, &value, member as u32)?;
    }
    Ok(found)
}

/// A fault of the line on which a list begins; of one without items, of the one that is given.
fn bad_list(line: usize, items: &[Item<'_>]) -> OutputFault
    ensures { result ≡ OutputFault.BadOutput (unwrap_or (begins_on (list (items_view items.now))) line) }
{
    match items.first() {
        Some(item) => OutputFault::BadOutput { line: item.line },
        None => OutputFault::BadOutput { line },
    }
}

/// Whether a list has so many items.
#[tactic(auto, using(crate::proofs::Counts::count_is_length))]
fn has_count(items: &[Item<'_>], count: u32) -> bool
    ensures value { result ≡ (count_of (items_view items.now) == count) }
    ensures most { IsTrue result → length items.now < 2 ^ 32 }
{
    items.len() == count as usize
}

/// The outputs so far, and those of a list: one value for each member.
fn list_read(
    tables: &Tables<'_>,
    subject: &Subject<'_, '_>,
    outputs: Outputs,
    line: usize,
    period: Period,
    items: &[Item<'_>],
) -> Result<Outputs, OutputFault>
    ensures { Tells (λ o. o) (spec.list_read tables.now (subject_view subject.now) outputs line period (items_view items.now) subject.now.whom) result }
{
    match subject.whom {
        ExpectedMembers::Each(count) => {
            if has_count(items, count) {
                items_read(tables, subject, period, outputs, items)
            } else {
                Err(bad_list(line, items))
            }
        }
        ExpectedMembers::One(_) => Err(bad_list(line, items)),
    }
}

/// The outputs so far, and what stands at a period.
#[tactic(auto, unfolding(crate::specs::Steps::Reading::values_read))]
pub(crate) fn values_read(
    tables: &Tables<'_>,
    subject: &Subject<'_, '_>,
    outputs: Outputs,
    line: usize,
    period: Period,
    tree: &Tree<'_>,
) -> Result<Outputs, OutputFault>
    ensures { Tells (λ o. o) (spec.values_read tables.now (subject_view subject.now) outputs line period (node tree.now)) result }
{
    match tree {
        Tree::List(items) => { list_read(tables, subject, outputs, line, period, items.as_slice()) }
        Tree::Null | Tree::Scalar { .. } | Tree::Map(_) => {
            scalar_read(tables, subject, outputs, line, period, tree)
        }
    }
}
