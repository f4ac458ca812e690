//! What the keys of an input name.

use fisca_yaml::Tree;

/// An entity, by its plural or by its key.
#[derive(Clone, Copy, Debug, PartialEq, Eq)]
pub struct Named {
    /// The place of the entity among all.
    pub entity: usize,
    /// Whether all its members are named, each by its name, and not the only one.
    pub is_plural: bool,
}

/// What stands at a key that names an entity.
#[derive(Drop)]
pub struct Section<'t, 'a> {
    /// The entity.
    pub named: Named,
    /// The key.
    pub key: &'t str,
    /// The line of the key.
    pub line: usize,
    /// What stands there.
    pub value: &'t Tree<'a>,
}

/// An input: the variables of the only person, or the members of entities.
#[derive(Drop)]
pub enum Input<'t, 'a> {
    /// A map of the variables of the only person, or nothing.
    OnePerson(&'t Tree<'a>),
    /// The members of entities, from top to bottom.
    Sections(Vec<Section<'t, 'a>>),
}
