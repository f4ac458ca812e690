//! The situation of a run file at a position of its grid.

ghost use Rattle.std.specs.Prelude.{◌≡◌, ◌<◌, ◌++◌, ◌∷◌, [], Some, IfOk, OnOk, slice_get};
ghost use Rattle.fisca_grid.specs.AxesRow.{values_of};
ghost use Rattle.fisca_grid.specs.Grid.{axes_at, size_of};
ghost use Rattle.fisca_inputs.specs.Outcomes.{Tells};
ghost use Rattle.fisca_run_file.specs.Positions as spec;
ghost use Rattle.fisca_run_file.specs.Steps.Positions as spec_steps;
ghost use Rattle.fisca_run_file.specs.Views.{file_with};
ghost use Rattle.fisca_situations.specs.Steps.Views.{situation as situation_view};

use crate::file::RunRequest;
use crate::sharing::put_all_in;
use fisca_grid::Axes;
use fisca_inputs::{Given, Inputs, SituationFault};
use fisca_members::Members;
use fisca_model::Value;
use fisca_num::Fraction;
use fisca_situations::{Situation, cut_for, push_input};
use fisca_symbols::Tables;
use std::alloc::{AllocError, Global};

/// A value of an axis for the variable at a place.
fn cut_by(tables: &Tables<'_>, variable: usize, value: Fraction) -> Fraction
    ensures { result ≡ spec_steps.cut_by (slice_get tables.now.variables variable) value }
{
    match tables.variables.as_slice().get(variable) {
        Some(declared) => cut_for(declared.value_type, value),
        None => value,
    }
}

/// An input with the value of its axis.
fn given_with(tables: &Tables<'_>, given: &Given, value: Fraction) -> Given
    ensures { result ≡ spec_steps.given_with tables.now given.now value }
{
    Given {
        variable: given.variable,
        member: given.member,
        period: given.period,
        value: Value::Number(cut_by(tables, given.variable, value)),
        line: given.line,
    }
}

/// Puts a number behind these.
fn push_number(items: &mut Vec<Fraction>, number: Fraction) -> Result<(), AllocError>
    ensures { OnOk result (items.new.items ≡ items.old.items ++ number ∷ []) }
{
    items.push(number).map_err(AllocError::from)
}

/// Puts the values of the axes of a grid at a position in the place of what was there.
#[inline(always)]
fn put_steps(axes: &Axes, position: u64, steps: &mut Vec<Fraction>) -> Result<(), AllocError>
    requires { position < size_of axes.now }
    ensures { OnOk result (values_of (axes_at axes.now position) ≡ Some steps.new.items) }
{
    let count = axes.count();
    steps.clear();
    for axis in 0..count {
        push_number(steps, axes.step(axis, position))?;
    }
    Ok(())
}

/// Puts inputs, each with the value of its axis, in the place of what was there.
#[inline(always)]
fn put_values(
    tables: &Tables<'_>,
    moved: &[Given],
    values: &[Fraction],
    found: &mut Vec<Given>,
) -> Result<(), AllocError>
    ensures { OnOk result (found.new.items ≡ spec_steps.with_values tables.now moved.now values.now) }
{
    found.clear();
    for i in 0..moved.len() {
        if i >= values.len() {
            return Ok(());
        }
        push_input(found, given_with(tables, &moved[i], values[i]))?;
    }
    Ok(())
}

impl RunRequest {
    /// The inputs that the axes move, in the order of the axes, with the values that these have at a position: those of a variable of whole
    /// numbers are cut towards zero. `AllocError` only where memory was refused. This project's own rule.
    pub fn moved_at(
        &self,
        alloc: Global,
        tables: &Tables<'_>,
        position: u64,
    ) -> Result<Vec<Given>, AllocError>
        requires { position < size_of self.now.axes }
        ensures { IfOk result (λ v. spec_steps.moved_by tables.now self.now.axes self.now.moved position ≡ Some v.items) }
    {
        let mut steps = Vec::new(alloc);
        let mut found = Vec::new(alloc);
        self.moved_into(tables, position, &mut steps, &mut found)?;
        Ok(found)
    }

    /// Puts the inputs that `moved_at` answers in the place of those that were found before, and the values of the axes in the place of earlier
    /// ones: it takes memory only where these lists have no room for as many. `AllocError` only where memory was refused.
    #[inline(always)]
    pub fn moved_into(
        &self,
        tables: &Tables<'_>,
        position: u64,
        steps: &mut Vec<Fraction>,
        found: &mut Vec<Given>,
    ) -> Result<(), AllocError>
        requires { position < size_of self.now.axes }
        ensures { OnOk result (spec_steps.moved_by tables.now self.now.axes self.now.moved position ≡ Some found.new.items) }
    {
        put_steps(&self.axes, position, steps)?;
        put_values(tables, self.moved.as_slice(), steps.as_slice(), found)
    }

    /// The inputs of these members by keys, where these are put in or replace those of just their variables, members and periods: shared
    /// anew, and without those of neutralised variables. Else as `Inputs::share` tells.
    pub fn inputs_with(
        &self,
        alloc: Global,
        tables: &Tables<'_>,
        members: &Members,
        moved: &[Given],
    ) -> Result<Inputs, SituationFault>
        ensures { Tells (λ i. i) (spec_steps.inputs_with tables.now (file_with members.now self.now) moved.now) result }
    {
        let all = put_all_in(alloc, self.given.as_slice(), moved)?;
        let counts = members.counts(alloc)?;
        let variables = tables.variables.as_slice();
        let mut inputs = Inputs::share(alloc, variables, counts.as_slice(), all.as_slice())?;
        inputs.neutralize(self.neutral.as_slice());
        Ok(inputs)
    }

    /// The situation of these members, where these inputs are put in, as `inputs_with` does.
    pub fn situation_with(
        &self,
        alloc: Global,
        tables: &Tables<'_>,
        members: Members,
        moved: &[Given],
    ) -> Result<Situation, SituationFault>
        ensures { Tells situation_view (spec.situation_with tables.now (file_with members self.now) moved.now) result }
    {
        let inputs = self.inputs_with(alloc, tables, &members, moved)?;
        Ok(Situation { members, inputs })
    }
}
