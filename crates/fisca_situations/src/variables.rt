//! What is said of a member.

ghost use Rattle.std.specs.Prelude.{◌≡◌, option_map, slice_get};
ghost use Rattle.fisca_inputs.specs.Outcomes.{Tells};
ghost use Rattle.fisca_yaml.specs.Views.{node, entries_view};
ghost use Rattle.fisca_situations.specs.Steps.Reading as spec;

use crate::given::{fault_at, variable_given};
use crate::given_inputs::GivenInputs;
use crate::place::Place;
use fisca_inputs::{SituationFault, SituationKind};
use fisca_members::RoleTable;
use fisca_symbols::{Tables, Variable};
use fisca_time::Period;
use fisca_yaml::{Entry, Tree};

/// Whether a member of an entity has a variable; one person alone has all.
fn has_variable(entity: Option<usize>, variable: &Variable<'_>) -> bool
    ensures { result ≡ spec.has_variable entity variable.now }
{
    match entity {
        Some(entity) => variable.entity == entity,
        None => true,
    }
}

/// The place of the variable that a key names.
fn variable_of(tables: &Tables<'_>, key: &str) -> Option<usize>
    ensures { result ≡ spec.variable_of tables.now key.now }
{
    match tables.variable_named(key) {
        Some((place, _)) => Some(place),
        None => None,
    }
}

/// The inputs so far and what stands at the variable at a place.
#[tactic(auto, unfolding(crate::specs::Steps::Reading::named_given))]
fn named_given(
    tables: &Tables<'_>,
    default: Option<Period>,
    entity: Option<usize>,
    member: u32,
    given: GivenInputs,
    line: usize,
    tree: &Tree<'_>,
    place: Option<usize>,
) -> Result<GivenInputs, SituationFault>
    ensures { Tells (λ g. g) (spec.named_given tables.now default entity member given line (node tree.now) place) result }
{
    let Some(variable) = place else {
        return Err(fault_at(line, SituationKind::UnknownVariable));
    };
    let Some(declared) = tables.variables.as_slice().get(variable) else {
        return Err(fault_at(line, SituationKind::UnknownVariable));
    };
    if !has_variable(entity, declared) {
        return Err(fault_at(line, SituationKind::UnknownVariable));
    }
    let place = Place {
        variable,
        declared,
        member,
    };
    variable_given(tables, default, place, given, line, tree)
}

/// The inputs so far and what stands at a key: of roles nothing, which are read before.
#[tactic(auto, unfolding(crate::specs::Steps::Reading::entry_given))]
fn entry_given(
    tables: &Tables<'_>,
    default: Option<Period>,
    entity: Option<usize>,
    member: u32,
    roles: &RoleTable<'_, '_>,
    given: GivenInputs,
    entry: &Entry<'_>,
) -> Result<GivenInputs, SituationFault>
    ensures { Tells (λ g. g) (spec.entry_given tables.now default entity member roles.now given entry.now.key entry.now.line (node entry.now.value)) result }
{
    let key = entry.key.as_str();
    if roles.of_name(key).is_some() {
        return Ok(given);
    }
    let place = variable_of(tables, key);
    named_given(
        tables,
        default,
        entity,
        member,
        given,
        entry.line,
        &entry.value,
        place,
    )
}

/// The inputs so far and what is said of a member.
pub(crate) fn member_given(
    tables: &Tables<'_>,
    default: &Option<Period>,
    entity: Option<usize>,
    member: u32,
    roles: &RoleTable<'_, '_>,
    given: GivenInputs,
    entries: &[Entry<'_>],
) -> Result<GivenInputs, SituationFault>
    ensures { Tells (λ g. g) (spec.member_given tables.now default.now entity member roles.now given (entries_view entries.now)) result }
{
    let mut found = given;
    for entry in entries {
        found = entry_given(tables, *default, entity, member, roles, found, entry)?;
    }
    Ok(found)
}
