//! The names of the statements so far.

ghost use Rattle.std.specs.Prelude.{◌≡◌, [], ◌∷◌, map, Some, None, IfOk, if◌then◌else◌};
ghost use Rattle.fisca_rules.specs.Seen.{Holds, Notes, TellsOne};
ghost use Rattle.fisca_rules.specs.Steps.Seen.{entity_named as entity_named_in};
ghost use Rattle.fisca_ast.specs.Modules.{choices, entity, variable};
ghost use Rattle.fisca_ast.specs.ModuleViews.{assigned, item, statement as statement_view};

use crate::built::{Built, built_by};
use crate::meets::some_is_variable;
use crate::members::repeated_member;
use crate::noted::{comes_again, entity_comes_again, note_within};
use crate::titles::are_confused;
use crate::within::Within;
use fisca_ast::{Assignment, ClassLine, EnumClass, Statement, VariableClass};
use fisca_attributes::{name_value, value_at};
use fisca_symbols::SourceText;
use indexmap::IndexSet;
use std::alloc::{AllocError, Global};

/// The names of the statements so far, for the first pass over the modules of a rule set.
///
/// All names of variables and Enums and all constants, keys and plurals of entities differ; so do the keys and plurals of the
/// roles and subroles of an entity, the keys even with their case left aside, but that a plural may be its own key; so do the
/// keys and plurals of roles from the variables of their entity; and so do the members of an Enum. What declares an entity and
/// cannot be read counts by its constant alone. (This project's own rule.)
#[derive(Drop)]
pub struct Seen<'a> {
    /// Names of variables and Enums, and constants, keys and plurals of entities.
    names: IndexSet<SourceText<'a>>,
    /// Keys and plurals of roles.
    titles: IndexSet<Within<'a>>,
    /// Variables that name their entity.
    variables: IndexSet<Within<'a>>,
}

/// The constant of its entity that a variable names.
fn entity_named<'a>(items: &[ClassLine<'a>]) -> Option<SourceText<'a>>
    ensures { result ≡ entity_named_in (map item items.now) }
{
    match value_at(b"entity".as_slice(), items) {
        Some(value) => name_value(value).ok(),
        None => None,
    }
}

/// This line, where there is a clash.
fn line_if(clashes: bool, line: usize) -> Option<usize>
    ensures { result ≡ (if clashes then Some line else None) }
{
    if clashes { Some(line) } else { None }
}

impl<'a> Seen<'a> {
    /// None.
    pub fn new(alloc: Global) -> Seen<'a>
        ensures { Holds result [] }
    {
        Seen {
            names: IndexSet::new(alloc),
            titles: IndexSet::new(alloc),
            variables: IndexSet::new(alloc),
        }
    }

    /// Notes an entity, and says whether a name clashes.
    fn entity_clashes(
        &mut self,
        alloc: Global,
        written: &Assignment<'a>,
    ) -> Result<bool, AllocError>
        ensures { IfOk result (Notes self.old self.new (entity (assigned written.now))) }
    {
        let Built { names, roles } = built_by(alloc, written)?;
        let constant = written.name.as_str();
        if entity_comes_again(&mut self.names, SourceText::borrowed(constant), names)? {
            return Ok(true);
        }
        if are_confused(alloc, roles.as_slice())? {
            return Ok(true);
        }
        some_is_variable(
            alloc,
            &mut self.titles,
            &self.variables,
            constant,
            roles.as_slice(),
        )
    }

    /// Notes a variable, and says whether its name came before, or is the key or plural of a role of its entity.
    fn variable_clashes(&mut self, class: &VariableClass<'a>) -> Result<bool, AllocError>
        ensures { IfOk result (Notes self.old self.new (variable class.now.line class.now.name (map item class.now.items.items))) }
    {
        let name = class.name.as_str();
        if comes_again(&mut self.names, SourceText::borrowed(name))? {
            return Ok(true);
        }
        let Some(constant) = entity_named(class.items.as_slice()) else {
            return Ok(false);
        };
        let within = Within {
            constant,
            name: SourceText::borrowed(name),
        };
        if self.titles.contains(&within) {
            return Ok(true);
        }
        note_within(&mut self.variables, within)?;
        Ok(false)
    }

    /// Notes an Enum: the line at which a name comes a second time.
    fn enum_clashes(
        &mut self,
        alloc: Global,
        class: &EnumClass<'a>,
    ) -> Result<Option<usize>, AllocError>
        ensures { IfOk result (TellsOne self.old self.new (choices class.now.line class.now.name class.now.members.items)) }
    {
        if comes_again(&mut self.names, SourceText::borrowed(class.name.as_str()))? {
            return Ok(Some(class.line));
        }
        repeated_member(alloc, class.members.as_slice())
    }

    /// Notes a statement, or tells the line, of it or of the member of an Enum, at which a name comes a second time. Memory may
    /// run out.
    pub fn second_name(
        &mut self,
        alloc: Global,
        statement: &Statement<'a>,
    ) -> Result<Option<usize>, AllocError>
        ensures { IfOk result (TellsOne self.old self.new (statement_view statement.now)) }
    {
        match statement {
            Statement::Entity(written) => {
                let clashes = self.entity_clashes(alloc, written)?;
                Ok(line_if(clashes, written.line))
            }
            Statement::Entities(_) => Ok(None),
            Statement::Enum(class) => self.enum_clashes(alloc, class),
            Statement::Variable(class) => {
                let clashes = self.variable_clashes(class)?;
                Ok(line_if(clashes, class.line))
            }
        }
    }
}
