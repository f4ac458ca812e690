//! The keys of an input, from top to bottom.

ghost use Rattle.std.specs.Prelude.{◌≡◌, [], map};
ghost use Rattle.fisca_yaml.specs.Views.{node, entries_view};
ghost use Rattle.fisca_members.specs.Outcomes.{Tells};
ghost use Rattle.fisca_members.specs.Steps.Sections as spec;
ghost use Rattle.fisca_members.specs.Views.{section, input_view};

use crate::fault::{MembersFault, MembersKind};
use crate::section::{Input, Section};
use crate::shapes::bad_value;
use crate::titles::Titles;
use fisca_yaml::{Entry, Tree};
use std::alloc::Global;

/// Whether a key names an entity.
fn names_some(titles: &Titles<'_, '_>, entries: &[Entry<'_>]) -> bool
    ensures { result ≡ spec.names_some titles.now (entries_view entries.now) }
{
    for entry in entries {
        if titles.named(entry.key.as_str()).is_some() {
            return true;
        }
    }
    false
}

/// Whether one of the sections is of this entity.
fn is_given(sections: &[Section<'_, '_>], entity: usize) -> bool
    ensures { result ≡ spec.is_given (map section sections.now) entity }
{
    for section in sections {
        if section.named.entity == entity {
            return true;
        }
    }
    false
}

/// The section that an entry is, behind others: each entity is named once.
fn section_of<'t, 'a>(
    titles: &Titles<'_, '_>,
    sections: &[Section<'t, 'a>],
    entry: &'t Entry<'a>,
) -> Result<Section<'t, 'a>, MembersFault>
    ensures { Tells section (spec.section_by (map section sections.now) entry.now.key entry.now.line (node entry.now.value) (spec.named titles.now entry.now.key)) result }
{
    let key = entry.key.as_str();
    match titles.named(key) {
        Some(named) if !is_given(sections, named.entity) => Ok(Section {
            named,
            key,
            line: entry.line,
            value: &entry.value,
        }),
        _ => Err(MembersFault {
            line: entry.line,
            kind: MembersKind::UnknownEntity,
        }),
    }
}

/// The sections that the entries of an input are.
fn sections_of<'t, 'a>(
    alloc: Global,
    titles: &Titles<'_, '_>,
    entries: &'t [Entry<'a>],
) -> Result<Vec<Section<'t, 'a>>, MembersFault>
    ensures { Tells (λ ss. map section ss.items) (spec.sections_from titles.now [] (entries_view entries.now)) result }
{
    let mut sections = Vec::new(alloc);
    for entry in entries {
        let section = section_of(titles, sections.as_slice(), entry)?;
        sections.push(section)?;
    }
    Ok(sections)
}

/// What an input names, whose key stands on `line`. One that names no entity is of one person, and nothing is one person of whom nothing
/// is said.
///
/// `UnknownEntity` where a key names no entity beside others that do, or one that an earlier key names; `BadValue` where the input is
/// no map.
pub fn input_of<'t, 'a>(
    alloc: Global,
    titles: &Titles<'_, '_>,
    line: usize,
    tree: &'t Tree<'a>,
) -> Result<Input<'t, 'a>, MembersFault>
    ensures { Tells input_view (spec.input_of titles.now line (node tree.now)) result }
{
    match tree {
        Tree::Map(entries) if names_some(titles, entries) => {
            let sections = sections_of(alloc, titles, entries)?;
            Ok(Input::Sections(sections))
        }
        Tree::Null | Tree::Map(_) => Ok(Input::OnePerson(tree)),
        Tree::Scalar { .. } | Tree::List(_) => Err(bad_value(line, tree)),
    }
}
