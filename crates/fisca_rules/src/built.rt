//! What statements that build entities tell of names.

ghost use Rattle.std.specs.Prelude.{◌≡◌, IfOk};
ghost use Rattle.fisca_attributes.specs.Steps.EntityForms.{entity_of as entity_in};
ghost use Rattle.fisca_rules.specs.Clashes.{names_in, roles_in};
ghost use Rattle.fisca_rules.specs.Seen.{both};
ghost use Rattle.fisca_ast.specs.ModuleViews.{assigned};

use fisca_ast::{Assignment, FormulaKind};
use fisca_attributes::entity_of;
use fisca_symbols::{Entity, Roles, SourceText};
use std::alloc::{AllocError, Global};

/// The names and the roles of an entity: none where it can't be read.
#[derive(Drop)]
pub(crate) struct Built<'a> {
    /// The key and the plural.
    pub(crate) names: Option<(SourceText<'a>, SourceText<'a>)>,
    /// The roles.
    pub(crate) roles: Roles<'a>,
}

/// What `NAME = build_entity(..)` tells.
pub(crate) fn built_by<'a>(alloc: Global, written: &Assignment<'a>) -> Result<Built<'a>, AllocError>
    ensures names { IfOk result (λ b. both b.names ≡ names_in (entity_in (assigned written.now))) }
    ensures roles { IfOk result (λ b. b.roles ≡ roles_in (entity_in (assigned written.now))) }
{
    match entity_of(alloc, written) {
        Ok(
            Entity {
                constant: _,
                key,
                plural,
                label: _,
                doc: _,
                is_person: _,
                roles,
            },
        ) => Ok(Built {
            names: Some((key, plural)),
            roles,
        }),
        Err(FormulaKind::Memory) => Err(AllocError),
        Err(_) => Ok(Built {
            names: None,
            roles: Roles::new(alloc, Vec::new(alloc))?,
        }),
    }
}
