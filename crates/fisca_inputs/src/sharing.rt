//! Given inputs over the parts of their periods.

ghost use Rattle.std.specs.Prelude.{◌≡◌, ◌≢◌, ◌<◌, ◌≤◌, ◌+◌, drop, length, slice_get, Some, Ok, Err, IfOk, IfErr, OnOk};
ghost use Rattle.fisca_inputs.specs.Steps.Entries as entries;
ghost use Rattle.fisca_inputs.specs.Outcomes.{Answers, Becomes};
ghost use Rattle.fisca_inputs.specs.Rules.{rule_of};
ghost use Rattle.fisca_inputs.specs.Sharing as spec;
ghost use Rattle.fisca_inputs.specs.Entries.{Entries};
ghost use Rattle.fisca_inputs.specs.Steps.Runs.{AreFilled, AreKept};
ghost use Rattle.fisca_inputs.specs.Steps.Sharing as steps;

use crate::fault::{SituationFault, SituationKind};
use crate::given::Given;
use crate::hashed::Numbers;
use crate::inputs::Inputs;
use crate::periods::key_period;
use crate::runs::{note_parts, run_from};
use fisca_model::{Key, Value, fits};
use fisca_num::{Fraction, NumFault};
use fisca_symbols::{SetInput, Variable};
use fisca_time::Unit;

/// From how many parts on it is noted that all of them have values. Fewer are sooner walked through.
const LONG: u32 = 32;

/// The fault of this kind at a line.
pub(crate) fn fault(line: usize, kind: SituationKind) -> SituationFault
    ensures { result ≡ record { line = line; kind = kind } }
{
    SituationFault { line, kind }
}

/// A number that was worked out; what is too wide is a bad value.
fn computed(line: usize, number: Result<Fraction, NumFault>) -> Result<Fraction, SituationFault>
    ensures { result ≡ steps.computed line number }
{
    match number {
        Ok(number) => Ok(number),
        Err(_) => Err(fault(line, SituationKind::BadValue)),
    }
}

/// A number less a value.
fn without(line: usize, value: Value, number: Fraction) -> Result<Fraction, SituationFault>
    ensures { result ≡ steps.without line (Some value) number }
{
    match value {
        Value::Number(other) => computed(line, number.sub(other)),
        Value::Bool(_) | Value::Member(_) => Err(fault(line, SituationKind::BadValue)),
    }
}

/// The key of the part of a given input at a place in order of time.
pub(crate) fn part_at(given: &Given, unit: Unit, i: u32) -> Key
    requires { i < length (steps.parts_by unit given.now) }
    ensures { slice_get (steps.parts_by unit given.now) i ≡ Some result }
{
    Key {
        variable: given.variable,
        member: given.member,
        period: given.period.sub(unit, i),
    }
}

/// One of so many equal parts of a number.
fn share_of(line: usize, number: Fraction, count: u32) -> Result<Fraction, SituationFault>
    requires { 0 < count }
    ensures { result ≡ steps.share_of line number count }
{
    match Fraction::new(i64::from(count), 1) {
        Ok(parts) => computed(line, number.div(parts)),
        Err(_) => unreachable!(),
    }
}

/// What is left of a number, and how many parts have nothing.
#[derive(Clone, Copy)]
struct Rest {
    number: Fraction,
    free: u32,
}

impl Inputs {
    /// Puts this value for each part of a given input that has none.
    fn put_all(
        &mut self,
        given: &Given,
        unit: Unit,
        count: u32,
        value: &Value,
    ) -> Result<(), SituationFault>
        requires { count ≡ length (steps.parts_by unit given.now) }
        ensures { Becomes (entries.put_all given.now.line value.now (steps.parts_by unit given.now) self.old) self.new result }
    {
        for i in 0..count {
            self.put_free(given.line, *value, part_at(given, unit, i))?;
        }
        Ok(())
    }

    /// Puts the value of a given input for its part at a place, where it has none, or passes over those that are noted from there on. How many
    /// parts that is.
    fn put_from(
        &mut self,
        runs: &Numbers,
        given: &Given,
        unit: Unit,
        i: u32,
        count: u32,
    ) -> Result<u32, SituationFault>
        requires count { count ≡ length (steps.parts_by unit given.now) }
        requires here { i < count }
        requires runs { AreFilled self.old runs.now.entries }
        ensures some { IfOk result (λ places. (0 < places) × (i + places ≤ count)) }
        ensures ok { IfOk result (λ places. entries.put_all given.now.line given.now.value (drop i (steps.parts_by unit given.now)) self.old ≡ entries.put_all given.now.line given.now.value (drop (i + places) (steps.parts_by unit given.now)) self.new) }
        ensures err { IfErr result (λ f. (f.kind ≢ SituationKind.Memory → entries.put_all given.now.line given.now.value (drop i (steps.parts_by unit given.now)) self.old ≡ Err f) × (f.kind ≡ SituationKind.Memory → f.line ≡ 0)) }
        ensures runs { OnOk result (AreFilled self.new runs.now.entries) }
    {
        let key = part_at(given, unit, i);
        let run = run_from(runs, &key).min(count - i);
        if run > 0 {
            return Ok(run);
        }
        self.put_free(given.line, given.value, key)?;
        Ok(1)
    }

    /// Puts the value of a given input for each of its parts that has none, and passes over those that are noted.
    fn put_long(
        &mut self,
        runs: &Numbers,
        given: &Given,
        unit: Unit,
        count: u32,
    ) -> Result<(), SituationFault>
        requires count { count ≡ length (steps.parts_by unit given.now) }
        requires runs { AreFilled self.old runs.now.entries }
        ensures { Becomes (entries.put_all given.now.line given.now.value (steps.parts_by unit given.now) self.old) self.new result }
    {
        let mut i = 0;
        while i < count {
            i += self.put_from(runs, given, unit, i, count)?;
        }
        Ok(())
    }

    /// Puts the value of a given input for each of its parts that has none. Of many parts, some of which had one, it is noted that all have
    /// values then: so inputs that do not overlap cost no more.
    fn dispatch(
        &mut self,
        runs: &mut Numbers,
        given: &Given,
        unit: Unit,
        count: u32,
    ) -> Result<(), SituationFault>
        requires count { count ≡ length (steps.parts_by unit given.now) }
        requires runs { AreFilled self.old runs.old.entries }
        ensures value { Becomes (entries.put_all given.now.line given.now.value (steps.parts_by unit given.now) self.old) self.new result }
        ensures runs { OnOk result ((es : Entries) → AreKept self.new es → AreFilled es runs.old.entries → AreFilled es runs.new.entries) }
    {
        if count < LONG {
            return self.put_all(given, unit, count, &given.value);
        }
        let full = self.count().saturating_add(count as usize);
        self.put_long(runs, given, unit, count)?;
        if self.count() < full {
            note_parts(runs, given, unit, count)?;
        }
        Ok(())
    }

    /// What is left of a number less what the parts of a given input have, one after another, and how many have nothing.
    fn rest(
        &self,
        given: &Given,
        unit: Unit,
        count: u32,
        number: Fraction,
    ) -> Result<Rest, SituationFault>
        requires { count ≡ length (steps.parts_by unit given.now) }
        ensures number { Answers (λ r. r.number) (spec.rest_of given.now.line self.now (steps.parts_by unit given.now) number) result }
        ensures free { IfOk result (λ r. r.free ≡ spec.count_free self.now (steps.parts_by unit given.now)) }
    {
        let mut rest = Rest { number, free: 0 };
        for i in 0..count {
            match self.input(&part_at(given, unit, i)) {
                Some(value) => rest.number = without(given.line, value, rest.number)?,
                None => rest.free += 1,
            }
        }
        Ok(rest)
    }

    /// Shares what is left equally over the parts that have nothing.
    fn spread(
        &mut self,
        given: &Given,
        unit: Unit,
        count: u32,
        rest: Rest,
    ) -> Result<(), SituationFault>
        requires { count ≡ length (steps.parts_by unit given.now) }
        ensures { Becomes (steps.spread given.now.line rest.free (steps.parts_by unit given.now) self.old rest.number) self.new result }
    {
        if rest.free == 0 {
            if rest.number.numerator() == 0 {
                return Ok(());
            }
            return Err(fault(given.line, SituationKind::InconsistentInput));
        }
        let share = share_of(given.line, rest.number, rest.free)?;
        self.put_all(given, unit, count, &Value::Number(share))
    }

    /// Divides a given input over the parts of its period.
    fn divide(&mut self, given: &Given, unit: Unit, count: u32) -> Result<(), SituationFault>
        requires { count ≡ length (steps.parts_by unit given.now) }
        ensures { Becomes (spec.divided_value given.now.line given.now.value (steps.parts_by unit given.now) self.old) self.new result }
    {
        match given.value {
            Value::Number(number) => {
                let rest = self.rest(given, unit, count, number)?;
                self.spread(given, unit, count, rest)
            }
            Value::Bool(_) | Value::Member(_) => Err(fault(given.line, SituationKind::BadValue)),
        }
    }

    /// Shares a given input over the parts of its period by a rule.
    fn put_over_parts(
        &mut self,
        runs: &mut Numbers,
        rule: Option<SetInput>,
        given: &Given,
        unit: Unit,
        count: u32,
    ) -> Result<(), SituationFault>
        requires count { count ≡ length (steps.parts_by unit given.now) }
        requires runs { AreFilled self.old runs.old.entries }
        ensures value { Becomes (spec.over_parts rule given.now (steps.parts_by unit given.now) self.old) self.new result }
        ensures runs { OnOk result ((es : Entries) → AreKept self.new es → AreFilled es runs.old.entries → AreFilled es runs.new.entries) }
    {
        match rule {
            Some(SetInput::DivideByPeriod) => self.divide(given, unit, count),
            Some(SetInput::DispatchByPeriod) => self.dispatch(runs, given, unit, count),
            None => Err(fault(given.line, SituationKind::PeriodMismatch)),
        }
    }

    /// Puts a given input of its variable's own definition period.
    fn put_alone(&mut self, variable: &Variable<'_>, given: &Given) -> Result<(), SituationFault>
        ensures { Becomes (spec.alone given.now.line (spec.own_key (rule_of variable.now) given.now) given.now.value self.old) self.new result }
    {
        let key = Key {
            variable: given.variable,
            member: given.member,
            period: key_period(variable, given.period),
        };
        if self.input(&key).is_some() {
            return Err(fault(given.line, SituationKind::InconsistentInput));
        }
        self.put(given.line, key, given.value)
    }

    /// Puts a given input: of the variable's definition period as it is, a longer one over its parts.
    ///
    /// `InconsistentInput` where its key has a value, or where a divided one leaves something that no part takes; `BadValue` where a
    /// divided one is no number, or a difference or a share is too wide; `PeriodMismatch` where the period is neither; `TooMany` where
    /// there would be more than 100,000 inputs; all at its line.
    pub(crate) fn put_given(
        &mut self,
        runs: &mut Numbers,
        variable: &Variable<'_>,
        given: &Given,
    ) -> Result<(), SituationFault>
        requires { AreFilled self.old runs.old.entries }
        ensures value { Becomes (spec.shared (rule_of variable.now) given.now self.old) self.new result }
        ensures runs { OnOk result ((es : Entries) → AreKept self.new es → AreFilled es runs.old.entries → AreFilled es runs.new.entries) }
    {
        let unit = variable.definition_period;
        if fits(unit, given.period) {
            return self.put_alone(variable, given);
        }
        match given.period.sub_count(unit) {
            Ok(count) if count > 1 => {
                self.put_over_parts(runs, variable.set_input, given, unit, count)
            }
            Ok(_) | Err(_) => Err(fault(given.line, SituationKind::PeriodMismatch)),
        }
    }
}
