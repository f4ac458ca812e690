//! Members of an Enum.

ghost use Rattle.std.specs.Prelude.{◌≡◌, [], IfOk};
ghost use Rattle.fisca_rules.specs.Steps.Clashes.{repeated_member as first_repeated};

use crate::noted::comes_again;
use fisca_ast::Member;
use fisca_symbols::SourceText;
use indexmap::IndexSet;
use std::alloc::{AllocError, Global};

/// The line of the first member whose name came before; `__order__` is none.
pub(crate) fn repeated_member(
    alloc: Global,
    members: &[Member<'_>],
) -> Result<Option<usize>, AllocError>
    ensures { IfOk result (λ line. line ≡ first_repeated [] members.now) }
{
    let mut names = IndexSet::new(alloc);
    for member in members {
        if member.name.as_bytes() == b"__order__".as_slice() {
            continue;
        }
        let name = member.name.as_str();
        if comes_again(&mut names, SourceText::borrowed(name))? {
            return Ok(Some(member.line));
        }
    }
    Ok(None)
}
