//! The tables of a rule set.

ghost use Rattle.std.specs.Prelude.{◌≡◌, map};
ghost use Rattle.fisca_rules.specs.FirstPass.{placed_from};
ghost use Rattle.fisca_ast.specs.ModuleViews.{statements};
ghost use Rattle.fisca_rules.specs.Steps.Build.{declared_by};
ghost use Rattle.fisca_rules.specs.FoundViews.{whole};
ghost use Rattle.fisca_rules.specs.Outcomes.{Tells};

use crate::BuildFault;
use crate::constants::declared_in;
use crate::found::Found;
use crate::statements::whole_found;
use fisca_ast::Module;
use fisca_declarations::Declaration;
use fisca_symbols::{Entities, Enums, Variables};
use std::alloc::Global;

/// What modules declare: entities, Enums and variables in order, and the declaration of each variable, formulas as they are written. Or
/// the first fault of two passes over the modules in order, each from top to bottom. The first tells `DuplicateName` of the first statement, or member of
/// an Enum, at which a name comes a second time: all names of variables and Enums and all constants, keys and plurals of entities
/// differ; so do the keys and plurals of the roles and subroles of an entity, the keys even with their case left aside, but that a
/// plural may be its own key; so do the keys and plurals of roles from the variables of their entity; and so do the members of an
/// Enum. What declares an entity and cannot be read counts by its constant alone. The second tells `BadAttribute` for an attribute or argument that is
/// missing, repeated or wrong, and where the persons are missing; `UnknownName` for a name of no entity or Enum.
/// `Memory`, at line 0, comes only where a growth was refused.
pub fn tables_found<'a>(
    alloc: Global,
    modules: Vec<Module<'a>>,
) -> Result<(Entities<'a>, Enums<'a>, Variables<'a>, Vec<Declaration<'a>>), BuildFault>
    ensures { Tells whole (declared_by (placed_from 0 (map statements modules.entry.items))) result }
{
    let declared = declared_in(alloc, modules.as_slice())?;
    let Found {
        entities,
        has_person: _,
        variables,
        declarations,
    } = whole_found(alloc, &declared, modules)?;
    let found = Entities::new(alloc, entities)?;
    let named = Variables::new(alloc, variables)?;
    Ok((found, declared.enums, named, declarations))
}
