//! Defaults beside another member's input.

ghost use Rattle.std.specs.Prelude.{◌≡◌, ◌≢◌, map};
ghost use Rattle.std.specs.List.{AllByRecursion};
ghost use Rattle.std.specs.Map.{keys_of};
ghost use Rattle.fisca_inputs.specs.Defaults as spec;
ghost use Rattle.fisca_inputs.specs.Steps.Defaults as steps;
ghost use Rattle.fisca_inputs.specs.Steps.Entries as entries;
ghost use Rattle.fisca_inputs.specs.Outcomes.{Becomes};
ghost use Rattle.fisca_inputs.specs.Rules as rules;
ghost use Rattle.fisca_inputs.specs.Steps.Rules as rules_steps;

use crate::fault::{SituationFault, SituationKind};
use crate::given::Given;
use crate::hashed::Numbers;
use crate::inputs::Inputs;
use crate::sharing::fault;
use fisca_model::{Key, Value};
use fisca_symbols::{DefaultValue, Variable};

/// The line of the first given input of a variable; 0 where there is none.
fn first_line(givens: &[Given], variable: usize) -> usize
    ensures { result ≡ steps.first_line givens.now variable }
{
    for given in givens {
        if given.variable == variable {
            return given.line;
        }
    }
    0
}

/// The default of a variable, which days and texts have not.
fn default_of(default: &DefaultValue<'_>) -> Option<Value>
    ensures { result ≡ rules_steps.default_of default.now }
{
    match default {
        DefaultValue::Number(number) => Some(Value::Number(*number)),
        DefaultValue::Bool(bool) => Some(Value::Bool(*bool)),
        DefaultValue::Member(place) => Some(Value::Member(*place)),
        DefaultValue::Date(_) | DefaultValue::Text(_) => None,
    }
}

/// How many members an entity has.
fn count_of(counts: &[u32], entity: usize) -> u32
    ensures { result ≡ steps.count_of counts.now entity }
{
    match counts.get(entity) {
        Some(count) => *count,
        None => 0,
    }
}

/// A refusal of a default: `TooMany` is told of the line of the variable's first input.
fn of_first(refusal: SituationFault, givens: &[Given], variable: usize) -> SituationFault
    ensures too_many { refusal.kind ≡ SituationKind.TooMany → result ≡ record { line = steps.first_line givens.now variable; kind = SituationKind.TooMany } }
    ensures other { refusal.kind ≢ SituationKind.TooMany → result ≡ refusal }
{
    if refusal.kind == SituationKind::TooMany {
        fault(first_line(givens, variable), SituationKind::TooMany)
    } else {
        refusal
    }
}

impl Inputs {
    /// Puts this value for a key that has none. `TooMany` is told of the line of the variable's first input, which is looked for only then.
    fn put_default(
        &mut self,
        givens: &[Given],
        value: &Value,
        key: Key,
    ) -> Result<(), SituationFault>
        ensures { Becomes (entries.put_free (steps.first_line givens.now key.variable) value.now key self.old) self.new result }
    {
        let variable = key.variable;
        match self.put_free(0, *value, key) {
            Ok(()) => Ok(()),
            Err(refusal) => Err(of_first(refusal, givens, variable)),
        }
    }

    /// Puts this value for each member that has none at the variable and period of a key, where so many of the first members have one.
    fn put_row(
        &mut self,
        givens: &[Given],
        value: &Value,
        key: &Key,
        first: u32,
        count: u32,
    ) -> Result<(), SituationFault>
        requires { spec.HaveFirst self.old (key.now, first) }
        ensures { Becomes (entries.put_all (steps.first_line givens.now key.now.variable) value.now (steps.row_of key.now.variable count key.now.period) self.old) self.new result }
    {
        for member in first..count {
            let here = Key {
                variable: key.variable,
                member,
                period: key.period,
            };
            self.put_default(givens, value, here)?;
        }
        Ok(())
    }

    /// Puts the default of a key's variable for each member that has nothing at its period, where so many of the first members have something.
    fn put_beside(
        &mut self,
        variables: &[Variable<'_>],
        counts: &[u32],
        givens: &[Given],
        key: &Key,
        first: u32,
    ) -> Result<(), SituationFault>
        requires { spec.HaveFirst self.old (key.now, first) }
        ensures { Becomes (spec.beside (map rules.rule_of variables.now) counts.now givens.now key.now self.old) self.new result }
    {
        let Some(variable) = variables.get(key.variable) else {
            return Ok(());
        };
        match default_of(&variable.default_value) {
            Some(value) => {
                let count = count_of(counts, variable.entity);
                self.put_row(givens, &value, key, first, count)
            }
            None => Ok(()),
        }
    }

    /// Puts defaults beside each of these keys, each with how many of the first members have a value there: the members of its
    /// kind that have no value for its variable and period get the variable's default. `TooMany` where there would be more than
    /// 100,000 inputs, at the line of the variable's first input.
    pub(crate) fn put_defaults(
        &mut self,
        variables: &[Variable<'_>],
        counts: &[u32],
        givens: &[Given],
        rows: &Numbers,
    ) -> Result<(), SituationFault>
        requires { AllByRecursion (spec.HaveFirst self.old) rows.now.entries }
        ensures { Becomes (spec.with_defaults (map rules.rule_of variables.now) counts.now givens.now (keys_of rows.now.entries) self.old) self.new result }
    {
        for (row, first) in rows.iter() {
            self.put_beside(variables, counts, givens, row, *first)?;
        }
        Ok(())
    }
}
