//! The shapes of what stands at a key.

ghost use Rattle.std.specs.Prelude.{◌≡◌, option_map};
ghost use Rattle.std.specs.Option.{unwrap_or};
ghost use Rattle.fisca_yaml.specs.Find.{begins_on};
ghost use Rattle.fisca_yaml.specs.Views.{node, entries_view};
ghost use Rattle.fisca_members.specs.Steps.Faults as spec;
ghost use Rattle.fisca_members.specs.Outcomes.{Tells};

use crate::fault::{MembersFault, MembersKind};
use fisca_yaml::{Entry, Tree};

/// What is wrong with a tree of another shape, whose key stands on `line`: the fault has the line on which it begins, and of
/// nothing and of a list or a map without any that of its key.
pub(crate) fn bad_value(line: usize, tree: &Tree<'_>) -> MembersFault
    ensures { result ≡ record { line = unwrap_or (begins_on (node tree.now)) line; kind = MembersKind.BadValue } }
{
    MembersFault {
        line: tree.line().unwrap_or(line),
        kind: MembersKind::BadValue,
    }
}

/// The entries of a map, whose key stands on `line`.
pub(crate) fn entries_at<'t, 'a>(
    line: usize,
    tree: &'t Tree<'a>,
) -> Result<&'t [Entry<'a>], MembersFault>
    ensures { Tells (λ es. entries_view es.now) (spec.entries_at line (node tree.now)) result }
{
    match tree {
        Tree::Map(entries) => Ok(entries.as_slice()),
        Tree::Null | Tree::Scalar { .. } | Tree::List(_) => Err(bad_value(line, tree)),
    }
}
