//! What was found so far.

ghost use Rattle.std.specs.Prelude.{◌≡◌};
ghost use Rattle.fisca_rules.specs.Build.{has_person as persons_in};

use fisca_declarations::Declaration;
use fisca_symbols::{Entity, Variable};

/// The entities, and the variables with the declaration of each, so far.
#[derive(Drop)]
pub(crate) struct Found<'a> {
    pub(crate) entities: Vec<Entity<'a>>,
    pub(crate) has_person: bool,
    pub(crate) variables: Vec<Variable<'a>>,
    pub(crate) declarations: Vec<Declaration<'a>>,
    ghost persons: { has_person ≡ persons_in entities.items },
}
