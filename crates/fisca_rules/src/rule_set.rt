//! Rule sets.
ghost use Rattle.std.specs.Prelude.{◌≡◌, map};
ghost use Rattle.fisca_rules.specs.Names.{entity_named, variable_named};
ghost use Rattle.fisca_rules.specs.Steps.Rules as spec;
ghost use Rattle.fisca_rules.specs.Outcomes.{Tells};
ghost use Rattle.fisca_rules.specs.Views.{rule_set};
ghost use Rattle.fisca_ast.specs.ModuleViews.{statements};

use crate::formulas::TypedFormulas;
use crate::typed::formulas_of_all;
use crate::{BuildFault, tables_found};
use fisca_ast::Module;
use fisca_declarations::Declaration;
use fisca_params::ParamTree;
use fisca_symbols::{Choices, Entity, Tables, Variable};
use std::alloc::Global;

/// What the modules of a rule set declare beside its parameters, with typed formulas.
#[derive(Drop)]
pub struct RuleSet<'a> {
    /// The entities, Enums and variables, each found by its names, and the parameters.
    pub tables: Tables<'a>,
    /// Where each variable is declared, what is told of it, and its formulas as they are written, in the order of the variables.
    pub declarations: Vec<Declaration<'a>>,
    /// The formulas of each variable, in the order of the variables, from top to bottom.
    pub formulas: Vec<TypedFormulas>,
}

impl<'a> RuleSet<'a> {
    /// The rule set that modules, in the order of their paths, make beside parameters. Both are taken.
    ///
    /// Else the first fault of the first of three passes over all modules that has one, with the place of its module and the line of
    /// its statement:
    ///
    /// - `DuplicateName` where a name of the rule set, of an entity's roles or of an Enum comes a second time.
    /// - `BadAttribute` where an attribute or an argument is missing, unknown, given twice or not of its form, and at line 1 of the
    ///   first module where no entity is the persons; `UnknownName` where an entity or an Enum is named that there is not.
    /// - the faults of a formula (`formula_of` has their list).
    ///
    /// `Memory`, at line 0, comes only where a growth was refused. (OpenFisca's entities, variables and Enums, a subset; the order of
    /// faults is this project's own.)
    pub fn build(
        alloc: Global,
        parameters: ParamTree,
        modules: Vec<Module<'a>>,
    ) -> Result<RuleSet<'a>, BuildFault>
        ensures { Tells rule_set (spec.rules_of parameters (map statements modules.entry.items)) result }
    {
        let (entities, enums, variables, declarations) = tables_found(alloc, modules)?;
        let tables = Tables {
            entities,
            enums,
            variables,
            parameters,
        };
        let formulas = formulas_of_all(alloc, &tables, declarations.as_slice())?;
        Ok(RuleSet {
            tables,
            declarations,
            formulas,
        })
    }

    /// The entities in the order of the modules.
    pub fn entities(&self) -> &[Entity<'a>]
        ensures { result.now ≡ (rule_set self.now).entities }
    {
        self.tables.entities.as_slice()
    }

    /// The place of the entity that this is the key or the plural of, among `entities`.
    pub fn entity(&self, name: &str) -> Option<usize>
        ensures { result ≡ entity_named (rule_set self.now) name.now }
    {
        for (place, entity) in self.entities().iter().enumerate() {
            if entity.key.as_bytes() == name.as_bytes()
                || entity.plural.as_bytes() == name.as_bytes()
            {
                return Some(place);
            }
        }
        None
    }

    /// The variables in the order of the modules; `declarations` has the declaration of each, and `formulas` its typed formulas.
    pub fn variables(&self) -> &[Variable<'a>]
        ensures { result.now ≡ (rule_set self.now).variables }
    {
        self.tables.variables.as_slice()
    }

    /// The place of the variable of this name, among `variables`.
    pub fn variable(&self, name: &str) -> Option<usize>
        ensures { result ≡ variable_named (rule_set self.now) name.now }
    {
        match self.tables.variables.of_name(name) {
            Some((place, _)) => Some(place),
            None => None,
        }
    }

    /// The Enums in the order of the modules.
    pub fn enums(&self) -> &[Choices<'a>]
        ensures { result.now ≡ (rule_set self.now).enums }
    {
        self.tables.enums.as_slice()
    }

    /// The parameters and scales.
    pub fn parameters(&self) -> &ParamTree
        ensures { result.now ≡ (rule_set self.now).parameters }
    {
        &self.tables.parameters
    }
}
