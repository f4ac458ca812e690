//! What an input says.

ghost use Rattle.std.specs.Prelude.{◌≡◌};
ghost use Rattle.fisca_inputs.specs.Outcomes.{Tells};
ghost use Rattle.fisca_members.specs.Steps.Members.{members_in as members_spec};
ghost use Rattle.fisca_members.specs.Steps.Sections.{input_of as input_spec, titles_of as titles_spec};
ghost use Rattle.fisca_members.specs.Views.{input_view};
ghost use Rattle.fisca_symbols.specs.Known.{tables as known};
ghost use Rattle.fisca_yaml.specs.Views.{node};
ghost use Rattle.fisca_situations.specs.Steps.Situations as spec;

use crate::given_inputs::GivenInputs;
use crate::sections::inputs_given;
use fisca_inputs::{SituationFault, SituationKind};
use fisca_members::{Input, Members, MembersFault, MembersKind, input_of, members_in, titles_of};
use fisca_symbols::Tables;
use fisca_time::Period;
use fisca_yaml::Tree;
use std::alloc::Global;

/// What an input says: the members of entities, and what is given of them in the order of the file.
#[derive(Drop)]
pub struct Reading {
    /// The members of each entity.
    pub members: Members,
    /// What is given, before it is shared.
    pub given: GivenInputs,
}

/// The kind of a fault of members.
fn kind_of(kind: MembersKind) -> SituationKind
    ensures { result ≡ spec.kind_of kind }
{
    match kind {
        MembersKind::UnknownEntity => SituationKind::UnknownEntity,
        MembersKind::UnknownPerson => SituationKind::UnknownPerson,
        MembersKind::PersonTwice => SituationKind::PersonTwice,
        MembersKind::RoleFull => SituationKind::RoleFull,
        MembersKind::BadValue => SituationKind::BadValue,
        MembersKind::TooMany => SituationKind::TooMany,
        MembersKind::Memory => SituationKind::Memory,
    }
}

/// A fault of members, as one of a situation.
fn fault_of(fault: MembersFault) -> SituationFault
    ensures { result ≡ spec.fault_of fault }
{
    SituationFault {
        line: fault.line,
        kind: kind_of(fault.kind),
    }
}

/// What the keys of an input name.
fn input_told<'t, 'a>(
    alloc: Global,
    tables: &Tables<'_>,
    line: usize,
    tree: &'t Tree<'a>,
) -> Result<Input<'t, 'a>, SituationFault>
    ensures { Tells input_view (spec.told (input_spec (titles_spec (known tables.now).entities) line (node tree.now))) result }
{
    let titles = titles_of(&tables.entities);
    match input_of(alloc, &titles, line, tree) {
        Ok(input) => Ok(input),
        Err(fault) => Err(fault_of(fault)),
    }
}

/// The members that an input names.
fn members_told(
    alloc: Global,
    tables: &Tables<'_>,
    line: usize,
    input: &Input<'_, '_>,
) -> Result<Members, SituationFault>
    ensures { Tells (λ m. m) (spec.told (members_spec (known tables.now).entities line (input_view input.now))) result }
{
    match members_in(alloc, tables.entities.as_slice(), line, input) {
        Ok(members) => Ok(members),
        Err(fault) => Err(fault_of(fault)),
    }
}

/// What an input says, whose keys are read.
#[tactic(auto, unfolding(crate::specs::Steps::Situations::reading_in))]
fn reading_in(
    alloc: Global,
    tables: &Tables<'_>,
    default: Option<Period>,
    line: usize,
    input: &Input<'_, '_>,
) -> Result<Reading, SituationFault>
    ensures { Tells (λ r. r) (spec.reading_in tables.now default line (input_view input.now)) result }
{
    let members = members_told(alloc, tables, line, input)?;
    let given = inputs_given(alloc, tables, default, input)?;
    Ok(Reading { members, given })
}

/// What an input says, whose key stands on `line`, or its first fault: of entities, as `fisca_members` tells, and then of inputs from top to
/// bottom. Values without a period are of the default one.
///
/// `UnknownVariable` where no variable of the member's entity has the name, at the key's line; `PeriodMismatch` at the line of the period's
/// key, or of the variable's where there is none, where the period can't be read, is neither one of the variable's definition periods nor
/// a longer one with a rule that shares it, or is not there; `BadValue` where the value is not of the variable's type, at its line;
/// `InconsistentInput` where a member has an input for the variable and an equal period already. `Memory` has line 0.
#[tactic(auto, unfolding(crate::specs::Steps::Situations::reading_of))]
pub fn reading_of(
    alloc: Global,
    tables: &Tables<'_>,
    default: Option<Period>,
    line: usize,
    tree: &Tree<'_>,
) -> Result<Reading, SituationFault>
    ensures { Tells (λ r. r) (spec.reading_of tables.now default line (node tree.now)) result }
{
    let input = input_told(alloc, tables, line, tree)?;
    reading_in(alloc, tables, default, line, &input)
}
