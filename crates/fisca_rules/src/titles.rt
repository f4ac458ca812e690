//! Keys and plurals of the roles and subroles of one entity.

ghost use Rattle.std.specs.Prelude.{◌≡◌, [], map, IfOk};
ghost use Rattle.fisca_rules.specs.Clashes.{titles};
ghost use Rattle.fisca_rules.specs.Steps.Clashes.{titles_clash};
ghost use Rattle.fisca_rules.specs.Titles.{Holds, Notes, NotesOne, subrole, titles_of, whole};

use crate::noted::comes_again;
use fisca_symbols::{Role, SourceText};
use indexmap::IndexSet;
use std::alloc::{AllocError, Global};

/// The keys, small letters written as capitals, and the keys and plurals as they are written.
#[derive(Drop)]
struct Titles<'r> {
    capitals: IndexSet<SourceText<'r>>,
    texts: IndexSet<SourceText<'r>>,
}

impl<'r> Titles<'r> {
    /// None.
    fn new(alloc: Global) -> Titles<'r>
        ensures { Holds result [] }
    {
        Titles {
            capitals: IndexSet::new(alloc),
            texts: IndexSet::new(alloc),
        }
    }

    /// Notes a key, and says whether it came before, perhaps in other case.
    fn key_comes_again(&mut self, alloc: Global, key: &'r str) -> Result<bool, AllocError>
        ensures { IfOk result (NotesOne self.old self.new (subrole key.now)) }
    {
        let capitals = SourceText::owned(key.to_ascii_uppercase(alloc)?);
        if comes_again(&mut self.capitals, capitals)? {
            return Ok(true);
        }
        comes_again(&mut self.texts, SourceText::borrowed(key))
    }

    /// Notes the keys of subroles, and says whether one came before.
    fn subrole_comes_again(
        &mut self,
        alloc: Global,
        keys: &'r [SourceText<'_>],
    ) -> Result<bool, AllocError>
        ensures { IfOk result (Notes self.old self.new (map subrole keys.now)) }
    {
        for key in keys {
            if self.key_comes_again(alloc, key.as_str())? {
                return Ok(true);
            }
        }
        Ok(false)
    }

    /// Notes a role without its subroles, and says whether its key or its plural came before. Its plural may be its key.
    fn title_comes_again(&mut self, alloc: Global, role: &'r Role<'_>) -> Result<bool, AllocError>
        ensures { IfOk result (NotesOne self.old self.new (whole role.now)) }
    {
        let key = role.key.as_str();
        if self.key_comes_again(alloc, key)? {
            return Ok(true);
        }
        let Some(plural) = &role.plural else {
            return Ok(false);
        };
        if plural.as_str() == key {
            return Ok(false);
        }
        comes_again(&mut self.texts, SourceText::borrowed(plural.as_str()))
    }

    /// Notes a role, and says whether a key or a plural came before.
    fn role_comes_again(&mut self, alloc: Global, role: &'r Role<'_>) -> Result<bool, AllocError>
        ensures { IfOk result (Notes self.old self.new (titles_of role.now)) }
    {
        if self.title_comes_again(alloc, role)? {
            return Ok(true);
        }
        self.subrole_comes_again(alloc, role.subroles.as_slice())
    }
}

/// Whether a text is a key or a plural of two roles or subroles, or two keys differ only in the case of letters.
pub(crate) fn are_confused(alloc: Global, roles: &[Role<'_>]) -> Result<bool, AllocError>
    ensures { IfOk result (λ confused. confused ≡ titles_clash (titles roles.now)) }
{
    let mut titles = Titles::new(alloc);
    for role in roles {
        if titles.role_comes_again(alloc, role)? {
            return Ok(true);
        }
    }
    Ok(false)
}
