//! The outputs of a test.

ghost use Rattle.std.specs.Prelude.{◌≡◌, [], None};
ghost use Rattle.fisca_members.specs.Steps.Sections.{titles_of as titles_spec};
ghost use Rattle.fisca_members.specs.Views.{input_view};
ghost use Rattle.fisca_situations.specs.Steps.Views.{situation as situation_view};
ghost use Rattle.fisca_symbols.specs.Known.{tables as known};
ghost use Rattle.fisca_yaml.specs.Views.{node};
ghost use Rattle.fisca_members.specs.Faults.{entries_in};
ghost use Rattle.fisca_expected.specs.Steps.Faults.{fault_of};
ghost use Rattle.fisca_expected.specs.Outcomes.{Tells};
ghost use Rattle.fisca_expected.specs.Steps.Reading as spec;

use crate::entries::entries_read;
use crate::fault::{OutputFault, bad};
use crate::member_scope::MemberScope;
use crate::members::sections_read;
use crate::outputs::Outputs;
use fisca_members::{Input, MembersFault, MembersKind, RoleTable, input_of, titles_of};
use fisca_situations::Situation;
use fisca_symbols::Tables;
use fisca_time::Period;
use fisca_yaml::Tree;
use std::alloc::Global;

/// A fault of the keys that name entities.
fn fault_of(fault: MembersFault) -> OutputFault
    ensures { result ≡ fault_of fault }
{
    match fault.kind {
        MembersKind::Memory => OutputFault::Memory,
        MembersKind::UnknownEntity
        | MembersKind::UnknownPerson
        | MembersKind::PersonTwice
        | MembersKind::RoleFull
        | MembersKind::BadValue
        | MembersKind::TooMany => OutputFault::BadOutput { line: fault.line },
    }
}

/// What the keys of outputs name, whose own key stands on `line`.
fn form_of<'t, 'a>(
    alloc: Global,
    tables: &Tables<'_>,
    line: usize,
    tree: &'t Tree<'a>,
) -> Result<Input<'t, 'a>, OutputFault>
    ensures { Tells input_view (spec.form_of (titles_spec (known tables.now).entities) line (node tree.now)) result }
{
    match tree {
        Tree::Null => Err(bad(line, tree)),
        Tree::Scalar { .. } | Tree::List(_) | Tree::Map(_) => {
            let titles = titles_of(&tables.entities);
            match input_of(alloc, &titles, line, tree) {
                Ok(input) => Ok(input),
                Err(fault) => Err(fault_of(fault)),
            }
        }
    }
}

/// The outputs of variables alone, of all members.
fn direct_read(
    alloc: Global,
    tables: &Tables<'_>,
    situation: &Situation,
    default: Option<Period>,
    tree: &Tree<'_>,
) -> Result<Outputs, OutputFault>
    ensures { Tells (λ o. o) (spec.entries_read tables.now (situation_view situation.now).members default MemberScope.All [] [] (entries_in (node tree.now))) result }
{
    let none = Outputs::new(alloc);
    let roles = RoleTable::none();
    match tree {
        Tree::Map(entries) => entries_read(
            tables,
            situation,
            &default,
            &MemberScope::All,
            &roles,
            none,
            entries.as_slice(),
        ),
        Tree::Null | Tree::Scalar { .. } | Tree::List(_) => Ok(none),
    }
}

/// The outputs whose keys are read.
#[tactic(auto, unfolding(crate::specs::Steps::Reading::outputs_in))]
fn outputs_in(
    alloc: Global,
    tables: &Tables<'_>,
    situation: &Situation,
    default: Option<Period>,
    input: &Input<'_, '_>,
) -> Result<Outputs, OutputFault>
    ensures { Tells (λ o. o) (spec.outputs_in tables.now (situation_view situation.now).members default (input_view input.now)) result }
{
    match input {
        Input::OnePerson(tree) => direct_read(alloc, tables, situation, default, tree),
        Input::Sections(sections) => {
            let none = Outputs::new(alloc);
            sections_read(tables, situation, &default, none, sections.as_slice())
        }
    }
}

/// The outputs that a test expects in a situation, whose key stands on `line`: of variables, a scalar of each member that has the
/// variable or a list with a value for each; or of members of entities, named as in an input, a scalar of that member. The singular key of an
/// entity means its only member, and a name that several members have the first. Values may be dated, and without a period are of the
/// default one; they are read as inputs are, for variables of whole numbers any number.
///
/// `BadOutput` at the first fault: all keys that name entities come first, as `input_of` tells; then, from top to bottom, at the key's line
/// a name that is none of a member or of a variable of its that formulas use (a role's is none), a singular key where there are more members or none, and a
/// period that can't be read or is not there, or at which the variable can't be asked for; and at its own line, or its key's where it is
/// nothing, what is no value of the variable's type, no map where one has to stand, or a list that is of one member or has not a
/// value for each. `Memory` comes only where a growth was refused. (OpenFisca's tests in YAML; the order of faults and names that come twice are this
/// project's own.)
#[tactic(auto, unfolding(crate::specs::Steps::Reading::outputs_of))]
pub fn read_outputs(
    alloc: Global,
    tables: &Tables<'_>,
    situation: &Situation,
    default: Option<Period>,
    line: usize,
    tree: &Tree<'_>,
) -> Result<Outputs, OutputFault>
    ensures { Tells (λ o. o) (spec.outputs_of tables.now (situation_view situation.now).members default line (node tree.now)) result }
{
    let form = form_of(alloc, tables, line, tree)?;
    outputs_in(alloc, tables, situation, default, &form)
}
