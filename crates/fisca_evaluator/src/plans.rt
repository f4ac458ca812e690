//! Plans of keys that are asked for again and again.

ghost use Rattle.std.specs.Prelude.{◌≡◌, IfSome, length};
ghost use Rattle.std.proofs.Props.{props};
ghost use Rattle.fisca_simulation.specs.Views.{simulation as simulation_view};
ghost use Rattle.fisca_model.specs.Seen.{key_seen};
ghost use Rattle.fisca_key_semantics.specs.Codes.{dialogues_are_a_set};
ghost use Rattle.fisca_evaluator.specs.Plans as spec;
ghost use Rattle.fisca_rules.specs.Views.{rule_set};

use fisca_machine::{Frame, Plan, plan_of};
use fisca_model::{Key, NOTES};
use fisca_rules::RuleSet;
use fisca_simulation::{Simulation, is_same_key};
use fisca_situations::Situation;
use std::alloc::Global;

/// Of a note: no key that has it was asked for.
const NEVER: u8 = 255;

/// Of a note: a key that has it was asked for once.
const ONCE: u8 = 254;

/// A key that was asked for, and the plan of its formula, where it has one.
#[derive(Drop)]
pub(crate) struct Planned {
    pub(crate) key: Key,
    pub(crate) plan: Option<Plan>,
}

/// A rule set, marks of the variables that are neutralised, and plans of keys whose values formulas work out then.
///
/// A plan is made where keys of one note are asked for the second time: what is asked for once costs none. Each note has one plan, that of the key
/// that was asked for then, so that two keys of one note do not drive each other out.
#[derive(Drop)]
pub(crate) struct Plans<'r, 't> {
    pub(crate) rules: &'r RuleSet<'t>,
    pub(crate) neutral: &'r [bool],
    alloc: Global,
    entries: Vec<Planned>,
    /// Where the plan of a key may stand.
    noted: [u8; NOTES],
    ghost truth: { spec.ArePlans (rule_set rules.now) neutral.now entries.items } by { Prim.hlevel (props, dialogues_are_a_set) },
    ghost notes: { length noted ≡ 64 },
}

/// The plan of a key, where a formula works out its value that has one.
fn plan_for(alloc: Global, simulation: Simulation<'_, '_, '_>, key: &Key) -> Option<Plan>
    ensures { IfSome result (λ p. spec.IsPlanOf (simulation_view simulation.entry).rules (simulation_view simulation.entry).neutral (key_seen key.now) p) }
{
    let variable = simulation.variable(*key)?;
    let formula = simulation.formula(variable, *key)?;
    let frame = Frame {
        entity: variable.entity,
        member: key.member,
        period: key.period,
    };
    match plan_of(
        alloc,
        &simulation.rules.tables,
        &formula.result,
        variable.value_type,
        frame,
    ) {
        Ok(plan) => plan,
        Err(_) => None,
    }
}

impl<'r, 't> Plans<'r, 't> {
    /// No plan yet.
    pub(crate) fn new(alloc: Global, rules: &'r RuleSet<'t>, neutral: &'r [bool]) -> Plans<'r, 't>
        ensures rules { rule_set result.rules.now ≡ rule_set rules.now }
        ensures neutral { result.neutral.now ≡ neutral.now }
    {
        Plans {
            rules,
            neutral,
            alloc,
            entries: Vec::new(alloc),
            noted: [NEVER; NOTES],
        }
    }

    /// The plan of a key, where there is one.
    #[inline(always)]
    pub(crate) fn of(&self, key: &Key) -> Option<&Plan>
        ensures { IfSome result (λ p. spec.IsPlanOf (rule_set self.now.rules.now) self.now.neutral.now (key_seen key.now) p.now) }
    {
        let entry = self.entries.get(self.noted[key.note()] as usize)?;
        if !is_same_key(&entry.key, key) {
            return None;
        }
        entry.plan.as_ref()
    }

    /// Makes a plan of the key, and keeps it behind the others. Where memory for it was refused it keeps none.
    fn make(&mut self, situation: &Situation, key: &Key)
        ensures rules { self.new.rules ≡ self.old.rules }
        ensures neutral { self.new.neutral ≡ self.old.neutral }
    {
        let simulation = Simulation {
            rules: self.rules,
            situation,
            neutral: self.neutral,
        };
        let plan = plan_for(self.alloc, simulation, key);
        let place = self.entries.len().min(NEVER as usize) as u8;
        if let Ok(()) = self.entries.push(Planned { key: *key, plan }) {
            self.noted[key.note()] = place;
        }
    }

    /// The key is asked for, and has no plan.
    pub(crate) fn ask(&mut self, situation: &Situation, key: &Key)
        ensures rules { self.new.rules ≡ self.old.rules }
        ensures neutral { self.new.neutral ≡ self.old.neutral }
    {
        let note = key.note();
        if self.noted[note] == NEVER {
            self.noted[note] = ONCE;
        } else if self.noted[note] == ONCE {
            self.make(situation, key);
        }
    }
}
