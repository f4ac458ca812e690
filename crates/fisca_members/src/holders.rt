//! Persons that are given a role of a group.

ghost use Rattle.std.specs.Prelude.{◌≡◌};
ghost use Rattle.fisca_yaml.specs.Views.{node, items_view};
ghost use Rattle.fisca_members.specs.Steps.Groups as spec;
ghost use Rattle.fisca_members.specs.Outcomes.{Leaves};
ghost use Rattle.fisca_members.specs.Views.{post as post_view};

use crate::fault::{MembersFault, MembersKind};
use crate::person::Persons;
use crate::role_table::taken;
use crate::shapes::bad_value;
use fisca_groups::{Home, Homes};
use fisca_symbols::Role;
use fisca_yaml::{Item, Tree};

/// A role of a group that persons are given.
#[derive(Clone, Copy)]
pub(crate) struct Post<'e, 'r> {
    /// The place of the group.
    pub(crate) group: u32,
    /// The place of the role.
    pub(crate) place: usize,
    /// The role.
    pub(crate) role: &'e Role<'r>,
}

/// Whether so many persons have a role, and no more can.
fn is_full(most: Option<u64>, count: usize) -> bool
    ensures { result ≡ spec.is_full most count }
{
    match most {
        Some(most) => most <= count as u64,
        None => false,
    }
}

/// The role is given to a person behind so many others.
///
/// `UnknownPerson` where there is no such person, `PersonTwice` where a group of the kind holds it already, `RoleFull` where no more
/// can have the role.
fn given_to(
    post: Post<'_, '_>,
    count: usize,
    homes: &mut Homes,
    line: usize,
    person: Option<usize>,
) -> Result<(), MembersFault>
    ensures { Leaves homes.new (spec.given_to (post_view post.entry) count homes.old line person) result }
{
    let Some(person) = person else {
        return Err(MembersFault {
            line,
            kind: MembersKind::UnknownPerson,
        });
    };
    if homes.is_held(person) {
        return Err(MembersFault {
            line,
            kind: MembersKind::PersonTwice,
        });
    }
    if is_full(post.role.most(), count) {
        return Err(MembersFault {
            line,
            kind: MembersKind::RoleFull,
        });
    }
    let role = taken(post.place, post.role, count);
    homes.hold(
        person,
        Home {
            group: post.group,
            role,
        },
    );
    Ok(())
}

/// The role is given to a name behind so many others; it stands at a key or a dash on `line`.
fn name_given(
    persons: &Persons<'_>,
    post: Post<'_, '_>,
    count: usize,
    homes: &mut Homes,
    line: usize,
    tree: &Tree<'_>,
) -> Result<(), MembersFault>
    ensures { Leaves homes.new (spec.name_given persons.now (post_view post.entry) count homes.old line (node tree.now)) result }
{
    match tree {
        Tree::Scalar { text, line, .. } => {
            let person = persons.of_name(text.as_str());
            given_to(post, count, homes, *line, person)
        }
        Tree::Null | Tree::List(_) | Tree::Map(_) => Err(bad_value(line, tree)),
    }
}

/// The role is given to the names of a list, in order.
fn names_given(
    persons: &Persons<'_>,
    post: Post<'_, '_>,
    homes: &mut Homes,
    items: &[Item<'_>],
) -> Result<(), MembersFault>
    ensures { Leaves homes.new (spec.names_given persons.now (post_view post.entry) 0 homes.old (items_view items.now)) result }
{
    for (count, item) in items.iter().enumerate() {
        name_given(persons, post, count, homes, item.line, &item.value)?;
    }
    Ok(())
}

/// The role is given to a name, or to a list of names, at a key on `line`.
pub(crate) fn role_given(
    persons: &Persons<'_>,
    post: Post<'_, '_>,
    homes: &mut Homes,
    line: usize,
    tree: &Tree<'_>,
) -> Result<(), MembersFault>
    ensures { Leaves homes.new (spec.role_given persons.now (post_view post.entry) homes.old line (node tree.now)) result }
{
    match tree {
        Tree::List(items) => names_given(persons, post, homes, items.as_slice()),
        Tree::Null | Tree::Scalar { .. } | Tree::Map(_) => {
            name_given(persons, post, 0, homes, line, tree)
        }
    }
}
