//! Keys and plurals of roles beside the variables of their entity.

ghost use Rattle.std.specs.Prelude.{[], ◌∷◌, IfOk};
ghost use Rattle.fisca_rules.specs.Seen.{NotesTitles, all_titles_within, same_within, titles_within, within_all};
ghost use Rattle.indexmap.specs.IndexSet.{contains};

use crate::noted::note_within;
use crate::within::Within;
use fisca_symbols::{Role, SourceText};
use indexmap::IndexSet;
use std::alloc::{AllocError, Global};

/// Notes a key or a plural of a role, and says whether a variable of the entity has this name.
fn title_is_variable<'a>(
    alloc: Global,
    titles: &mut IndexSet<Within<'a>>,
    variables: &IndexSet<Within<'a>>,
    constant: &'a str,
    title: &SourceText<'a>,
) -> Result<bool, AllocError>
    ensures { IfOk result (NotesTitles (contains same_within variables.now)
        (contains same_within titles.old) (contains same_within titles.new) (within_all constant.now (title.now ∷ []))) }
{
    let within = Within {
        constant: SourceText::borrowed(constant),
        name: title.copied(alloc)?,
    };
    if variables.contains(&within) {
        return Ok(true);
    }
    note_within(titles, within)?;
    Ok(false)
}

/// Notes the key and the plural of a role, and says whether a variable of the entity has one of these names.
fn role_is_variable<'a>(
    alloc: Global,
    titles: &mut IndexSet<Within<'a>>,
    variables: &IndexSet<Within<'a>>,
    constant: &'a str,
    role: &Role<'a>,
) -> Result<bool, AllocError>
    ensures { IfOk result (NotesTitles (contains same_within variables.now)
        (contains same_within titles.old) (contains same_within titles.new) (titles_within constant.now role.now)) }
{
    if title_is_variable(alloc, titles, variables, constant, &role.key)? {
        return Ok(true);
    }
    match &role.plural {
        Some(plural) => title_is_variable(alloc, titles, variables, constant, plural),
        None => Ok(false),
    }
}

/// Notes the keys and plurals of roles, and says whether a variable of the entity has one of these names.
pub(crate) fn some_is_variable<'a>(
    alloc: Global,
    titles: &mut IndexSet<Within<'a>>,
    variables: &IndexSet<Within<'a>>,
    constant: &'a str,
    roles: &[Role<'a>],
) -> Result<bool, AllocError>
    ensures { IfOk result (NotesTitles (contains same_within variables.now)
        (contains same_within titles.old) (contains same_within titles.new) (all_titles_within constant.now roles.now)) }
{
    for role in roles {
        if role_is_variable(alloc, titles, variables, constant, role)? {
            return Ok(true);
        }
    }
    Ok(false)
}
