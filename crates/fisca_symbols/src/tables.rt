//! What a rule set declares.

ghost use Rattle.std.specs.Prelude.{◌≡◌, option_map};
ghost use Rattle.fisca_symbols.specs.Known as known;
ghost use Rattle.fisca_symbols.specs.KnownVariables.{variable};
ghost use Rattle.fisca_model.specs.Tables as spec;

use crate::entities::Entities;
use crate::enums::Enums;
use crate::variable::Variable;
use crate::variables::Variables;
use fisca_model::RolePlace;
use fisca_params::ParamTree;

/// The entities, Enums and variables that modules declare, and the parameters beside them.
#[derive(Drop)]
pub struct Tables<'a> {
    /// The entities.
    pub entities: Entities<'a>,
    /// The Enums.
    pub enums: Enums<'a>,
    /// The variables.
    pub variables: Variables<'a>,
    /// The parameters.
    pub parameters: ParamTree,
}

impl<'a> Tables<'a> {
    /// The first variable of this name, and its place.
    pub fn variable_named(&self, name: &str) -> Option<(usize, &Variable<'a>)>
        ensures { option_map (λ p. (p.0, variable p.1.now)) result ≡ spec.variable_named (known.tables self.now) name.now }
    {
        self.variables.of_name(name)
    }

    /// The place of the first member of this name of the Enum at a place.
    pub fn member_named(&self, choices: usize, name: &str) -> Option<usize>
        ensures { result ≡ spec.member_named (known.tables self.now) choices name.now }
    {
        match self.enums.as_slice().get(choices) {
            Some(found) => found.members.of_name(name),
            None => None,
        }
    }

    /// Whether the entity at a place is the persons.
    pub fn is_person_at(&self, entity: usize) -> bool
        ensures { result ≡ spec.is_person_at (known.tables self.now) entity }
    {
        match self.entities.as_slice().get(entity) {
            Some(found) => found.is_person,
            None => false,
        }
    }

    /// The first role or subrole of the entity at a place with this key.
    pub fn role_of_key(&self, entity: usize, key: &str) -> Option<RolePlace>
        ensures { result ≡ spec.role_of_key (spec.roles_at (known.tables self.now) entity) key.now }
    {
        self.entities.as_slice().get(entity)?.roles.of_key(key)
    }

    /// The first role or subrole of the entity at a place with this constant.
    pub fn role_of_constant(&self, entity: usize, constant: &str) -> Option<RolePlace>
        ensures { result ≡ spec.role_of_constant (spec.roles_at (known.tables self.now) entity) constant.now }
    {
        self.entities
            .as_slice()
            .get(entity)?
            .roles
            .of_constant(constant)
    }

    /// The first role or subrole of the entity at a place with this key, where one person at most has it.
    pub fn single_of_key(&self, entity: usize, key: &str) -> Option<RolePlace>
        ensures { let roles = spec.roles_at (known.tables self.now) entity in
            result ≡ spec.if_single roles (spec.role_of_key roles key.now) }
    {
        self.entities
            .as_slice()
            .get(entity)?
            .roles
            .single_of_key(key)
    }
}
