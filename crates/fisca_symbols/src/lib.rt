//! What a rule set declares: entities with their roles, Enums and variables, each found by its names.
#![tactic(auto)]

mod choices;
mod entities;
mod entity;
mod enums;
mod index;
mod members;
mod names;
mod role;
mod roles;
mod tables;
mod text;
mod texts;
mod variable;
mod variables;

pub use choices::Choices;
pub use entities::Entities;
pub use entity::Entity;
pub use enums::Enums;
pub use members::EnumMembers;
pub use names::Names;
pub use role::Role;
pub use roles::Roles;
pub use tables::Tables;
pub use text::SourceText;
pub use texts::Texts;
pub use variable::{DeclaredType, DefaultValue, SetInput, Variable};
pub use variables::Variables;
