//! What is expected in a map of variables.

ghost use Rattle.std.specs.Prelude.{◌≡◌};
ghost use Rattle.fisca_situations.specs.Steps.Views.{situation as situation_view};
ghost use Rattle.fisca_yaml.specs.Views.{node, entries_view};
ghost use Rattle.fisca_expected.specs.Outcomes.{Tells};
ghost use Rattle.fisca_expected.specs.Steps.Reading as spec;

use crate::fault::{OutputFault, bad};
use crate::member_scope::MemberScope;
use crate::outputs::Outputs;
use crate::variables::variable_at;
use fisca_members::RoleTable;
use fisca_situations::Situation;
use fisca_symbols::Tables;
use fisca_time::Period;
use fisca_yaml::{Entry, Tree};

/// The outputs so far, and what stands at a key, which names a variable and no role.
#[tactic(auto, unfolding(crate::specs::Steps::Reading::entry_read))]
fn entry_read(
    tables: &Tables<'_>,
    situation: &Situation,
    default: Option<Period>,
    scope: MemberScope,
    roles: &RoleTable<'_, '_>,
    outputs: Outputs,
    entry: &Entry<'_>,
) -> Result<Outputs, OutputFault>
    ensures { Tells (λ o. o) (spec.entry_read tables.now (situation_view situation.now).members default scope roles.now outputs entry.now.key entry.now.line (node entry.now.value)) result }
{
    if roles.of_name(entry.key.as_str()).is_some() {
        return Err(OutputFault::BadOutput { line: entry.line });
    }
    variable_at(tables, situation, default, scope, outputs, entry)
}

/// The outputs so far, and those of entries from top to bottom.
pub(crate) fn entries_read(
    tables: &Tables<'_>,
    situation: &Situation,
    default: &Option<Period>,
    scope: &MemberScope,
    roles: &RoleTable<'_, '_>,
    outputs: Outputs,
    entries: &[Entry<'_>],
) -> Result<Outputs, OutputFault>
    ensures { Tells (λ o. o) (spec.entries_read tables.now (situation_view situation.now).members default.now scope.now roles.now outputs (entries_view entries.now)) result }
{
    let mut found = outputs;
    for entry in entries {
        found = entry_read(tables, situation, *default, *scope, roles, found, entry)?;
    }
    Ok(found)
}

/// The outputs so far, and those of a map of variables, whose key stands on `line`.
pub(crate) fn map_read(
    tables: &Tables<'_>,
    situation: &Situation,
    default: Option<Period>,
    scope: MemberScope,
    roles: &RoleTable<'_, '_>,
    outputs: Outputs,
    line: usize,
    tree: &Tree<'_>,
) -> Result<Outputs, OutputFault>
    ensures { Tells (λ o. o) (spec.map_read tables.now (situation_view situation.now).members default scope roles.now outputs line (node tree.now)) result }
{
    match tree {
        Tree::Map(entries) => entries_read(
            tables,
            situation,
            &default,
            &scope,
            roles,
            outputs,
            entries.as_slice(),
        ),
        Tree::Null | Tree::Scalar { .. } | Tree::List(_) => Err(bad(line, tree)),
    }
}
