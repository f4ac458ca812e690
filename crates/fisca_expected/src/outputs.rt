//! Expected values, in the order in which they are written.

ghost use Rattle.std.specs.Prelude.{◌≡◌, [], ◌∷◌, ◌++◌, map, IfOk, option_map};
ghost use Rattle.std.specs.List.{filter, flat_map};
ghost use Rattle.fisca_expected.specs.Steps.Tested.{is_tested};
ghost use Rattle.fisca_yaml.specs.Views.{node};
ghost use Rattle.fisca_expected.specs.Outputs as spec;
ghost use Rattle.fisca_expected.specs.Views.{expected_outputs, output_of, subject as subject_view};

use crate::subject::Subject;
use crate::tested::is_tested;
use crate::whom::ExpectedMembers;
use fisca_model::{Key, Value};
use fisca_symbols::Tables;
use fisca_time::Period;
use fisca_yaml::Tree;
use std::alloc::{AllocError, Global};
use std::marker::Model;

/// A value that is expected of a variable at a period, of one member or of each of all. It stands for an output of each of these.
#[derive(Clone, Copy, Debug, PartialEq, Eq)]
pub struct ExpectedOutput {
    /// The place of the variable among all.
    pub variable: usize,
    /// Whose value it is.
    pub whom: ExpectedMembers,
    /// The period.
    pub period: Period,
    /// The value.
    pub value: Value,
}

impl ExpectedOutput {
    /// What is expected of the member at this place: a key with its value.
    pub fn of_member(&self, member: u32) -> (Key, Value)
        ensures { result ≡ output_of self.now member }
    {
        let key = Key {
            variable: self.variable,
            member,
            period: self.period,
        };
        (key, self.value)
    }
}

/// The values that a test expects of keys, in the order in which they are written; seen as a list of keys with their values. It may
/// expect several of one key. What is expected of all members is kept once.
#[derive(Drop)]
pub struct Outputs {
    items: Vec<ExpectedOutput>,
}

impl Model for Outputs {
    ghost use Rattle.std.specs.Prelude.{List};
    ghost use Rattle.std.specs.List.{flat_map};
    ghost use Rattle.fisca_expected.specs.Outputs.{Output};
    ghost use Rattle.fisca_expected.specs.Views.{expected_outputs};

    ghost Value = { List Output };

    ghost view = { λ o. flat_map expected_outputs o.items.items };
}

impl Outputs {
    /// None.
    pub(crate) fn new(alloc: Global) -> Outputs
        ensures { result ≡ [] }
    {
        Outputs {
            items: Vec::new(alloc),
        }
    }

    /// What is expected, in order: the keys with their values are those of each, one after another.
    pub fn as_slice(&self) -> &[ExpectedOutput]
        ensures { flat_map expected_outputs result.now ≡ self.now }
    {
        self.items.as_slice()
    }

    /// Those of the variables whose values are compared: those that `only` names, where it is there, but for those that `ignored` names, each a name or a list
    /// of names. A name that no variable has names none.
    pub fn tested(
        self,
        tables: &Tables<'_>,
        only: Option<&Tree<'_>>,
        ignored: Option<&Tree<'_>>,
    ) -> Outputs
        ensures { result ≡ filter (λ o. is_tested tables.now (option_map (λ tree. node tree.now) only.entry) (option_map (λ tree. node tree.now) ignored.entry) o.0.variable) self }
    {
        let mut items = self.items;
        items.retain(|output| is_tested(tables, only, ignored, output.variable));
        Outputs { items }
    }

    /// One more of each of these members, in their order.
    fn with_each(
        self,
        subject: &Subject<'_, '_>,
        period: Period,
        value: &Value,
        whom: ExpectedMembers,
    ) -> Result<Outputs, AllocError>
        ensures { IfOk result (λ o. o ≡ self ++ map (spec.output (subject_view subject.now) period value.now) (spec.members_of whom)) }
    {
        let mut items = self.items;
        let output = ExpectedOutput {
            variable: subject.variable,
            whom,
            period,
            value: *value,
        };
        items.push(output).map_err(AllocError::from)?;
        Ok(Outputs { items })
    }

    /// One more, of a member.
    pub(crate) fn with(
        self,
        subject: &Subject<'_, '_>,
        period: Period,
        value: &Value,
        member: u32,
    ) -> Result<Outputs, AllocError>
        ensures { IfOk result (λ o. o ≡ self ++ spec.output (subject_view subject.now) period value.now member ∷ []) }
    {
        self.with_each(subject, period, value, ExpectedMembers::One(member))
    }

    /// One more of each member that is meant, in their order.
    pub(crate) fn with_all(
        self,
        subject: &Subject<'_, '_>,
        period: Period,
        value: &Value,
    ) -> Result<Outputs, AllocError>
        ensures { IfOk result (λ o. o ≡ self ++ spec.of_each (subject_view subject.now) period value.now) }
    {
        self.with_each(subject, period, value, subject.whom)
    }
}
