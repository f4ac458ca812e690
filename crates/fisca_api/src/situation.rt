//! Situations that keep what is given, and their marks.

ghost use Rattle.std.specs.Prelude.{◌≡◌, ◌<◌, ◌==◌, ◌||◌, ℕ, true, option_map, IfOk, OnOk, OnErr};
ghost use Rattle.std.specs.List.{list_any};
ghost use Rattle.fisca_api.specs.Axes.{HasPeriod};
ghost use Rattle.fisca_api.specs.Eternal.{input_at, is_overlap, overlaps_another};
ghost use Rattle.fisca_api.specs.Evaluators.{Fits, HasNumbers, HaveNumbers};
ghost use Rattle.fisca_api.specs.Marks.{is_at, wheels_at, with_wheel as with_wheel_at};
ghost use Rattle.fisca_api.specs.OfGiven.{AreAxisValues, IsOfGiven};
ghost use Rattle.fisca_api.specs.Situations as spec;
ghost use Rattle.fisca_api.specs.Views.{marks as marks_view, situation as situation_view};
ghost use Rattle.fisca_evaluator.specs.Evaluators.{AreMarked};
ghost use Rattle.fisca_groups.specs.Lookup.{count_at, name_at};
ghost use Rattle.fisca_inputs.specs.Entries as entries;
ghost use Rattle.fisca_inputs.specs.Inputs.{without_marked};
ghost use Rattle.fisca_inputs.specs.Outcomes.{Tells};
ghost use Rattle.fisca_inputs.specs.Overlaps.{shares_day};
ghost use Rattle.fisca_inputs.specs.Steps.Overlaps as overlaps;
ghost use Rattle.fisca_model.specs.Values as meaning;
ghost use Rattle.fisca_rules.specs.Views.{rule_set};
ghost use Rattle.fisca_rules.specs.declared.rule_set.RuleSet as declared;
ghost use Rattle.fisca_simulation.specs.Sound.{IsSafeRules};
ghost use Rattle.fisca_situations.specs.Views.{slot as slot_view};
ghost use Rattle.fisca_symbols.specs.declared.tables.Tables as tables;
ghost use Rattle.fisca_time.specs.Period.{is_period};
ghost use Rattle.fisca_yaml.specs.Views.{node};

use crate::formula::{EntityId, VarId};
use crate::given::{AxisValue, given_copied, with_values};
use crate::marks::{marks_copied, wheels_copied, with_all, with_wheel};
use fisca_inputs::{Given, Inputs, SituationFault, SituationKind};
use fisca_members::Members;
use fisca_model::{Key, Value};
use fisca_rules::RuleSet;
use fisca_situations::{Reading, Slot, reading_of, shared_anew};
use fisca_symbols::Tables;
use fisca_time::{Period, Unit};
use fisca_yaml::Tree;
use std::alloc::Global;

/// The members of entities and their inputs, with what is given, which variables are neutralised, and which wheels move the inputs of each. A wheel
/// is a group of axes that turn together.
#[derive(Drop)]
pub struct Situation {
    pub(crate) alloc: Global,
    /// The members, and the inputs after sharing.
    pub(crate) shared: fisca_situations::Situation,
    /// The inputs as they are given.
    pub(crate) given: Vec<Given>,
    /// Which variables are neutralised, by their places.
    pub(crate) neutral: Vec<bool>,
    /// The wheels of each variable, by their places, as bits.
    pub(crate) wheels: Vec<u16>,
}

/// The situation of what is read, before it is marked.
fn situation_of(
    alloc: Global,
    tables: &Tables<'_>,
    reading: Reading,
) -> Result<Situation, SituationFault>
    ensures situation { Tells situation_view (spec.situation_in tables.now reading) result }
    ensures wheels { IfOk result (λ s. (k : meaning.Key) → marks_view s k ≡ 0) }
{
    let Reading { members, given } = reading;
    let counts = members.counts(alloc)?;
    let variables = tables.variables.as_slice();
    let inputs = Inputs::share(alloc, variables, counts.as_slice(), given.as_slice())?;
    Ok(Situation {
        alloc,
        shared: fisca_situations::Situation { members, inputs },
        given: given_copied(alloc, given.as_slice())?,
        neutral: Vec::new(alloc),
        wheels: Vec::new(alloc),
    })
}

/// The situation of these members in which this is given, shared anew, with these marks.
fn situation_with(
    alloc: Global,
    tables: &Tables<'_>,
    members: Members,
    given: Vec<Given>,
    neutral: Vec<bool>,
    wheels: Vec<u16>,
) -> Result<Situation, SituationFault>
    ensures situation { Tells situation_view (spec.situation_with tables.now neutral.items members given.items) result }
    ensures wheels { IfOk result (λ s. s.wheels.items ≡ wheels.items) }
{
    let inputs = shared_anew(
        alloc,
        tables,
        neutral.as_slice(),
        &members,
        given.as_slice(),
    )?;
    Ok(Situation {
        alloc,
        shared: fisca_situations::Situation { members, inputs },
        given,
        neutral,
        wheels,
    })
}

/// Whether two periods share a day.
fn shares_day(ours: Period, theirs: Period) -> bool
    ensures { result ≡ shares_day ours theirs }
{
    ours.overlaps(&theirs)
}

/// Whether this is given for this variable and member, and for a period that shares a day with this one.
fn is_across(variable: VarId, member: u32, period: Period, given: &Given) -> bool
    ensures { result ≡ overlaps.is_across variable member period given.now }
{
    given.variable == variable && given.member == member && shares_day(given.period, period)
}

/// Whether an input of this variable and member is for another period that shares a day with this one.
fn is_overlap(variable: VarId, member: u32, period: Period, given: &Given) -> bool
    ensures { result ≡ is_overlap variable member period given.now }
{
    given.period.unit() != Unit::Eternity
        && is_across(variable, member, period, given)
        && given.period != period
}

impl Situation {
    /// Makes the inputs that an axis will move, without a mark.
    fn put_axis(
        &mut self,
        alloc: Global,
        rules: &RuleSet<'_>,
        key: &Key,
        wheel: u32,
    ) -> Result<Slot, SituationFault>
        ensures moved { Tells (λ s. record { situation = situation_view self.new; slot = slot_view s })
            (spec.with_axis rules.now.tables (situation_view self.old) wheel key.now) result }
        ensures wheels { self.new.wheels ≡ self.old.wheels }
        ensures kept { OnErr result (self.new ≡ self.old) }
    {
        let neutral = self.neutral.as_slice();
        self.shared
            .axis(alloc, &rules.tables, neutral, &mut self.given, key, wheel)
    }
}

impl Situation {
    /// The situation of an input under a rule set. Values without a period are of the default one.
    ///
    /// Else the first fault: of entities and then of inputs from top to bottom, then of sharing and of defaults. A fault of an input that is no map
    /// or has no key has line 1. `Memory`, at line 0, comes only where a growth was refused. (OpenFisca's situations as its tests in YAML have
    /// them; sharing, roles that are given and the order of faults are this project's own.)
    #[tactic(auto, unfolding(crate::specs::Situations::situation_of))]
    pub fn read(
        alloc: Global,
        rules: &RuleSet<'_>,
        tree: &Tree<'_>,
        default: Option<Period>,
    ) -> Result<Situation, SituationFault>
        ensures situation { Tells situation_view (spec.situation_of rules.now.tables default (node tree.now)) result }
        ensures fit { IfOk result (λ s. IsSafeRules (rule_set rules.now) → Fits rules.now (situation_view s)) }
        ensures shared { IfOk result (λ s. HasPeriod default → IsOfGiven rules.now.tables (situation_view s)) }
        ensures wheels { IfOk result (λ s. (k : meaning.Key) → marks_view s k ≡ 0) }
    {
        let reading = reading_of(alloc, &rules.tables, default, 1, tree)?;
        situation_of(alloc, &rules.tables, reading)
    }

    /// How many members the entity has.
    pub fn members(&self, entity: EntityId) -> u32
        ensures { result ≡ count_at (situation_view self.now).shared.members entity }
    {
        self.shared.members(entity)
    }

    /// The name of a member of the entity, if there is such a member.
    pub fn name(&self, entity: EntityId, member: u32) -> Option<&str>
        ensures { option_map (λ t. t.now) result ≡ name_at (situation_view self.now).shared.members entity member }
    {
        self.shared.name(entity, member)
    }

    /// The input of a key after sharing and defaults, by two look-ups at most and without memory: of an eternal variable its input for eternity, whatever
    /// period the key has.
    pub fn input(&self, key: &Key) -> Option<Value>
        ensures { result ≡ input_at (situation_view self.now).shared.inputs key.now }
    {
        if let Some(value) = self.shared.input(key) {
            return Some(value);
        }
        let (variable, member) = (key.variable, key.member);
        self.shared.input(&Key {
            variable,
            member,
            period: Period::ETERNITY,
        })
    }

    /// Whether an input is given for this variable and member, and for another period that shares a day with this one; never of an eternal
    /// variable. It takes no memory. This project's own rule.
    pub fn overlaps(&self, variable: VarId, member: u32, period: &Period) -> bool
        ensures { result ≡ overlaps_another (situation_view self.now).given variable member period.now }
    {
        for given in self.given.as_slice() {
            if is_overlap(variable, member, *period, given) {
                return true;
            }
        }
        false
    }

    /// Makes the inputs that an axis will move, with the value 0, in place of that of just this variable, member and period, and marks the variable
    /// with the wheel, which is below 16. Inputs are shared anew, and neutralised variables have none.
    ///
    /// Else the first fault, at line 0, and the situation stays as it was:
    ///
    /// - `UnknownVariable` where there is no such variable, `BadValue` where it has no numbers, `UnknownPerson` where there is no such member;
    /// - `InconsistentInput` where an input of the variable and member is given for another period that shares a day with this one;
    /// - what sharing tells of the inputs then, as `PeriodMismatch` where the variable is given no values for the period;
    /// - `Memory` only where a growth was refused.
    ///
    /// (OpenFisca's axes; what is refused is this project's own rule.)
    pub fn axis(
        &mut self,
        alloc: Global,
        rules: &RuleSet<'_>,
        variable: VarId,
        member: u32,
        period: Period,
        wheel: u32,
    ) -> Result<Slot, SituationFault>
        requires wheel { wheel < 16 }
        ensures moved { Tells (λ s. record { situation = situation_view self.new; slot = slot_view s })
            (spec.with_axis rules.now.tables (situation_view self.old) wheel (entries.key variable member period)) result }
        ensures marks { OnOk result ((k : meaning.Key) → marks_view self.new k ≡ with_wheel_at wheel variable (wheels_at self.old.wheels.items) k.variable) }
        ensures marked { IfOk result (λ s. (s.wheel ≡ wheel) × AreMarked (marks_view self.new) (slot_view s)) }
        ensures numbers { IfOk result (λ s. HasNumbers rules.now s.variable) }
        ensures fit { IsSafeRules (rule_set rules.now) → Fits rules.now (situation_view self.old) → Fits rules.now (situation_view self.new) }
        ensures shared { is_period period ≡ true → IsOfGiven rules.now.tables (situation_view self.old) → IsOfGiven rules.now.tables (situation_view self.new) }
        ensures kept { OnErr result (self.new ≡ self.old) }
    {
        if variable >= rules.variables().len() {
            return Err(SituationFault {
                line: 0,
                kind: SituationKind::UnknownVariable,
            });
        }
        let wheels = with_wheel(alloc, self.wheels.as_slice(), variable, wheel)?;
        let key = Key {
            variable,
            member,
            period,
        };
        let slot = self.put_axis(alloc, rules, &key, wheel)?;
        self.wheels = wheels;
        Ok(slot)
    }

    /// Takes out the inputs of these variables, and marks them: they have no inputs from now on, and in an evaluator no formulas. `Memory`, at line
    /// 0, where a growth was refused: then nothing is changed. This project's own rule.
    pub fn neutralize(&mut self, variables: &[VarId]) -> Result<(), SituationFault>
        ensures inputs { OnOk result ((situation_view self.new).shared.inputs ≡ without_marked (situation_view self.new).neutral (situation_view self.old).shared.inputs) }
        ensures neutral { OnOk result ((x : ℕ) → is_at (situation_view self.new).neutral x ≡ (list_any (λ v. x == v) variables.now || is_at (situation_view self.old).neutral x)) }
        ensures given { OnOk result ((situation_view self.new).given ≡ (situation_view self.old).given) }
        ensures members { OnOk result ((situation_view self.new).shared.members ≡ (situation_view self.old).shared.members) }
        ensures wheels { OnOk result (self.new.wheels ≡ self.old.wheels) }
        ensures fit { (rules : declared.RuleSet) → Fits rules (situation_view self.old) → Fits rules (situation_view self.new) }
        ensures shared { (tables : tables.Tables) → IsOfGiven tables (situation_view self.old) → IsOfGiven tables (situation_view self.new) }
        ensures memory { OnErr result (self.new ≡ self.old) }
    {
        let marks = with_all(self.alloc, self.neutral.as_slice(), variables)?;
        self.shared.neutralize(marks.as_slice());
        self.neutral = marks;
        Ok(())
    }

    /// The situation in which these values are given too, each in place of that of just its variable, member and period: shared anew, and without
    /// the inputs of neutralised variables. Without values it is a copy. Else as [`axis`](Situation::axis) tells of sharing, at line 0.
    /// (OpenFisca's axes; this project's own rule.)
    pub fn at(
        &self,
        alloc: Global,
        rules: &RuleSet<'_>,
        values: &[AxisValue],
    ) -> Result<Situation, SituationFault>
        ensures situation { Tells situation_view (spec.situation_at rules.now.tables (situation_view self.now) values.now) result }
        ensures fit { IfOk result (λ s. IsSafeRules (rule_set rules.now) → Fits rules.now (situation_view self.now) → HaveNumbers rules.now values.now → Fits rules.now (situation_view s)) }
        ensures shared { IfOk result (λ s. IsOfGiven rules.now.tables (situation_view self.now) → AreAxisValues rules.now.tables values.now → IsOfGiven rules.now.tables (situation_view s)) }
        ensures wheels { IfOk result (λ s. s.wheels.items ≡ self.now.wheels.items) }
    {
        let tables = &rules.tables;
        let neutral = marks_copied(alloc, self.neutral.as_slice())?;
        let wheels = wheels_copied(alloc, self.wheels.as_slice())?;
        let given = with_values(alloc, tables, self.given.as_slice(), values)?;
        let members = self.shared.members.copied(alloc)?;
        situation_with(alloc, tables, members, given, neutral, wheels)
    }
}
