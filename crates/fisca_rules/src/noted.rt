//! Names, noted one after another.

ghost use Rattle.std.specs.Prelude.{◌≡◌, [], ◌∷◌, IfOk, OnOk};
ghost use Rattle.std.specs.Str.{bytes_eq};
ghost use Rattle.fisca_rules.specs.Seen.{NotesNames, both, same_within};
ghost use Rattle.fisca_rules.specs.Titles.{Adds};
ghost use Rattle.indexmap.specs.IndexSet.{contains};

use crate::within::Within;
use fisca_symbols::SourceText;
use indexmap::IndexSet;
use std::alloc::AllocError;

/// Notes a name, and says whether it came before.
pub(crate) fn comes_again<'a>(
    names: &mut IndexSet<SourceText<'a>>,
    name: SourceText<'a>,
) -> Result<bool, AllocError>
    ensures told { IfOk result (λ again. again ≡ contains bytes_eq names.old name.entry) }
    ensures noted { OnOk result (Adds bytes_eq (contains bytes_eq names.old) (contains bytes_eq names.new) (name.entry ∷ [])) }
{
    let is_new = names.insert(name)?;
    Ok(!is_new)
}

/// Notes the constant, the key and the plural of an entity, and says whether one of them came before or stands twice.
pub(crate) fn entity_comes_again<'a>(
    names: &mut IndexSet<SourceText<'a>>,
    constant: SourceText<'a>,
    others: Option<(SourceText<'a>, SourceText<'a>)>,
) -> Result<bool, AllocError>
    ensures { IfOk result (NotesNames (contains bytes_eq names.old) (contains bytes_eq names.new) (constant.entry ∷ both others.entry)) }
{
    if comes_again(names, constant)? {
        return Ok(true);
    }
    let Some((key, plural)) = others else {
        return Ok(false);
    };
    if comes_again(names, key)? {
        return Ok(true);
    }
    comes_again(names, plural)
}

/// Notes a name within an entity, which may be there already.
pub(crate) fn note_within<'a>(
    names: &mut IndexSet<Within<'a>>,
    name: Within<'a>,
) -> Result<(), AllocError>
    ensures { OnOk result (Adds same_within (contains same_within names.old) (contains same_within names.new) (name.entry ∷ [])) }
{
    names.insert(name)?;
    Ok(())
}
