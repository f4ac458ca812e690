//! Situations.

ghost use Rattle.std.specs.Prelude.{◌≡◌, option_map};
ghost use Rattle.fisca_inputs.specs.Entries.{value_at};
ghost use Rattle.fisca_inputs.specs.Inputs.{without_marked};
ghost use Rattle.fisca_inputs.specs.Outcomes.{Tells};
ghost use Rattle.fisca_groups.specs.Lookup.{count_at, name_at};
ghost use Rattle.fisca_situations.specs.Steps.Situations as spec;
ghost use Rattle.fisca_situations.specs.Steps.Views.{situation};
ghost use Rattle.fisca_yaml.specs.Views.{node};

use crate::reading::{Reading, reading_of};
use fisca_inputs::{Inputs, SituationFault};
use fisca_members::Members;
use fisca_model::{Key, Value};
use fisca_symbols::Tables;
use fisca_time::Period;
use fisca_yaml::Tree;
use std::alloc::Global;

/// The members of entities, and their inputs after sharing.
#[derive(Drop)]
pub struct Situation {
    /// The members of each entity.
    pub members: Members,
    /// The inputs by keys.
    pub inputs: Inputs,
}

/// The situation of what is read.
fn situation_by(
    alloc: Global,
    tables: &Tables<'_>,
    reading: Reading,
) -> Result<Situation, SituationFault>
    ensures { Tells situation (spec.situation_by tables.now reading) result }
{
    let Reading { members, given } = reading;
    let counts = members.counts(alloc)?;
    let variables = tables.variables.as_slice();
    let inputs = Inputs::share(alloc, variables, counts.as_slice(), given.as_slice())?;
    Ok(Situation { members, inputs })
}

impl Situation {
    /// The situation of an input, whose key stands on `line`. Values without a period are of the default one.
    ///
    /// Else the first fault: of entities and then of inputs, as `reading_of` tells, then of sharing and of defaults, as `Inputs::share`
    /// tells. `Memory`, at line 0, comes only where a growth was refused. (OpenFisca's situations as its tests in YAML have them; sharing,
    /// roles that are given and the order of faults are this project's own.)
    #[tactic(auto, unfolding(crate::specs::Steps::Situations::situation_of))]
    pub fn read(
        alloc: Global,
        tables: &Tables<'_>,
        default: Option<Period>,
        line: usize,
        tree: &Tree<'_>,
    ) -> Result<Situation, SituationFault>
        ensures { Tells situation (spec.situation_of tables.now default line (node tree.now)) result }
    {
        let reading = reading_of(alloc, tables, default, line, tree)?;
        situation_by(alloc, tables, reading)
    }

    /// How many members the entity at a place has; none where there is no entity.
    pub fn members(&self, entity: usize) -> u32
        ensures { result ≡ count_at (situation self.now).members entity }
    {
        self.members.count(entity)
    }

    /// The name of a member of the entity at a place, if there is such a member.
    pub fn name(&self, entity: usize, member: u32) -> Option<&str>
        ensures { option_map (λ t. t.now) result ≡ name_at (situation self.now).members entity member }
    {
        self.members.name(entity, member)
    }

    /// The input of a key, by one look-up and without memory.
    #[inline(always)]
    pub fn input(&self, key: &Key) -> Option<Value>
        ensures { result ≡ value_at (situation self.now).inputs key.now }
    {
        self.inputs.input(key)
    }

    /// Takes out the inputs of the variables that have a mark, by their places. There is none past the last mark.
    pub fn neutralize(&mut self, marks: &[bool])
        ensures inputs { (situation self.new).inputs ≡ without_marked marks.now (situation self.old).inputs }
        ensures members { (situation self.new).members ≡ (situation self.old).members }
    {
        self.inputs.neutralize(marks);
    }
}
