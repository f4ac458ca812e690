//! All given inputs, one after another.

ghost use Rattle.std.specs.Prelude.{◌≡◌, map, nat_lt, slice_get, OnOk};
ghost use Rattle.std.specs.List.{list_all};
ghost use Rattle.fisca_inputs.specs.Defaults.{rows_of, with_defaults};
ghost use Rattle.fisca_inputs.specs.Outcomes.{Becomes, Tells};
ghost use Rattle.fisca_inputs.specs.Inputs.{inputs_of};
ghost use Rattle.fisca_inputs.specs.Entries.{Entries};
ghost use Rattle.fisca_inputs.specs.Rules.{rule_of};
ghost use Rattle.fisca_inputs.specs.Steps.Runs.{AreFilled, AreKept};
ghost use Rattle.fisca_inputs.specs.Sharing as spec;

use crate::fault::{SituationFault, SituationKind};
use crate::given::Given;
use crate::hashed::Numbers;
use crate::inputs::{Inputs, LIMIT};
use crate::order::{Rank, in_order};
use crate::sharing::fault;
use fisca_symbols::Variable;
use std::alloc::Global;
use std::collections::BTreeMap;
use std::hash::BuildHasherDefault;

/// How many parts the period of a given input has.
fn parts_of(variables: &[Variable<'_>], given: &Given) -> usize {
    match variables.get(given.variable) {
        Some(variable) => match given.period.sub_count(variable.definition_period) {
            Ok(count) => count as usize,
            Err(_) => 1,
        },
        None => 0,
    }
}

/// For how many inputs the given ones need room, at most as many as there may be.
fn room_for(variables: &[Variable<'_>], givens: &[Given]) -> usize {
    let mut room = 0usize;
    for given in givens {
        room = room.saturating_add(parts_of(variables, given));
    }
    room.min(LIMIT)
}

/// Whether no entity has two members.
fn are_alone(counts: &[u32]) -> bool
    ensures { result ≡ list_all (λ c. nat_lt c 2) counts.now }
{
    for count in counts {
        if *count >= 2 {
            return false;
        }
    }
    true
}

impl Inputs {
    /// The inputs of a situation: those that are given, in the order of the file, beside the variables of a rule set and the number of
    /// members of each entity, by its place.
    ///
    /// First the given ones, the shorter before the longer ones, then those that start earlier, then those of the smaller unit: each of its
    /// variable's definition period as it is, a longer one divided or dispatched over its parts. Then, where a member has a value, each
    /// other of its kind that has none for the variable and period gets the variable's default.
    ///
    /// Else the first fault: `InconsistentInput`, `BadValue`, `PeriodMismatch`, `UnknownVariable` or `TooMany` at the line of the input that
    /// is shared, `TooMany` of defaults at the line of the variable's first input, and `Memory` at line 0 where a growth was refused. (This
    /// project's own rules.)
    pub fn share(
        alloc: Global,
        variables: &[Variable<'_>],
        counts: &[u32],
        givens: &[Given],
    ) -> Result<Inputs, SituationFault>
        ensures { Tells (λ i. i) (inputs_of (map rule_of variables.now) counts.now givens.now) result }
    {
        let sorted = in_order(alloc, variables, givens)?;
        let mut inputs = Inputs::new(alloc)?;
        inputs.reserve(room_for(variables, givens))?;
        inputs.put_givens(alloc, variables, &sorted)?;
        inputs.put_all_defaults(alloc, variables, counts, givens)?;
        Ok(inputs)
    }

    /// Puts the defaults beside what some members have. Where no entity has two members, and inputs are of first members alone, there are none.
    #[tactic(auto, using(crate::proofs::Alone::none_beside))]
    fn put_all_defaults(
        &mut self,
        alloc: Global,
        variables: &[Variable<'_>],
        counts: &[u32],
        givens: &[Given],
    ) -> Result<(), SituationFault>
        ensures { Becomes (with_defaults (map rule_of variables.now) counts.now givens.now (rows_of self.old) self.old) self.new result }
    {
        if are_alone(counts) && self.are_of_first() {
            return Ok(());
        }
        let rows = self.rows(alloc)?;
        self.put_defaults(variables, counts, givens, &rows)
    }

    /// Puts a given input by what its variable says. `UnknownVariable` at its line where there is none.
    fn put_by_variable(
        &mut self,
        runs: &mut Numbers,
        variables: &[Variable<'_>],
        given: &Given,
    ) -> Result<(), SituationFault>
        requires { AreFilled self.old runs.old.entries }
        ensures value { Becomes (spec.shared_by (slice_get (map rule_of variables.now) given.now.variable) given.now self.old) self.new result }
        ensures runs { OnOk result ((es : Entries) → AreKept self.new es → AreFilled es runs.old.entries → AreFilled es runs.new.entries) }
    {
        match variables.get(given.variable) {
            Some(variable) => self.put_given(runs, variable, given),
            None => Err(fault(given.line, SituationKind::UnknownVariable)),
        }
    }

    /// Puts given inputs one after another, in this order.
    pub(crate) fn put_givens(
        &mut self,
        alloc: Global,
        variables: &[Variable<'_>],
        givens: &BTreeMap<Rank, &Given>,
    ) -> Result<(), SituationFault>
        ensures { Becomes (spec.all_shared (map rule_of variables.now) (map (λ e. e.1.now) givens.now.entries) self.old) self.new result }
    {
        let mut runs = Numbers::with_hasher(alloc, BuildHasherDefault::new());
        for (_rank, given) in givens.iter() {
            self.put_by_variable(&mut runs, variables, given)?;
        }
        Ok(())
    }
}
