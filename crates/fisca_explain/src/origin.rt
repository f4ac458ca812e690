//! What the value of a key comes from.

ghost use Rattle.std.specs.Prelude.{◌≡◌, None, Some};
ghost use Rattle.fisca_inputs.specs.Entries.{value_at};
ghost use Rattle.fisca_model.specs.Seen.{key_seen};
ghost use Rattle.fisca_simulation.specs.Simulations.{formula_of, variable_of};
ghost use Rattle.fisca_simulation.specs.Views.{simulation as simulation_view};
ghost use Rattle.fisca_explain.specs.Origins.{IsOrigin};

use fisca_check::TypedFormula;
use fisca_inputs::is_marked;
use fisca_model::Key;
use fisca_simulation::{Simulation, default_of};
use fisca_symbols::Variable;

/// What the value of a key comes from.
#[derive(Clone, Copy)]
pub(crate) enum Origin<'r, 't> {
    /// Nothing: its period does not fit, or there is no such variable.
    Unfit,
    /// An input.
    Input,
    /// The variable's default.
    Default,
    /// The variable's default, since it is neutralised.
    Neutral,
    /// The formula in force, of this variable.
    Formula(&'r Variable<'t>, &'r TypedFormula),
}

/// The same where there is no input and no formula.
fn without_formula<'r, 't>(
    simulation: &Simulation<'r, 't, '_>,
    variable: &Variable<'_>,
    key: &Key,
) -> Origin<'r, 't>
    requires variable { variable_of (simulation_view simulation.now).rules (key_seen key.now) ≡ Some variable.now }
    requires input { value_at (simulation_view simulation.now).situation.inputs key.now ≡ None }
    requires formula { formula_of (simulation_view simulation.now).rules (simulation_view simulation.now).neutral variable.now (key_seen key.now) ≡ None }
    ensures { IsOrigin (simulation_view simulation.now) (key_seen key.now) result }
{
    match default_of(variable) {
        None => Origin::Unfit,
        Some(_) => {
            if is_marked(simulation.neutral, key.variable) {
                Origin::Neutral
            } else {
                Origin::Default
            }
        }
    }
}

/// The same where there is no input.
fn without_input<'r, 't>(
    simulation: &Simulation<'r, 't, '_>,
    variable: &'r Variable<'t>,
    key: &Key,
) -> Origin<'r, 't>
    requires variable { variable_of (simulation_view simulation.now).rules (key_seen key.now) ≡ Some variable.now }
    requires input { value_at (simulation_view simulation.now).situation.inputs key.now ≡ None }
    ensures { IsOrigin (simulation_view simulation.now) (key_seen key.now) result }
{
    match simulation.formula(variable, *key) {
        Some(formula) => Origin::Formula(variable, formula),
        None => without_formula(simulation, variable, key),
    }
}

/// What the value of a key comes from.
pub(crate) fn origin_of<'r, 't>(simulation: &Simulation<'r, 't, '_>, key: &Key) -> Origin<'r, 't>
    ensures { IsOrigin (simulation_view simulation.now) (key_seen key.now) result }
{
    let Some(variable) = simulation.variable(*key) else {
        return Origin::Unfit;
    };
    match simulation.situation.input(key) {
        Some(_) => Origin::Input,
        None => without_input(simulation, variable, key),
    }
}
