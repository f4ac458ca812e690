//! The inputs that axes move.

ghost use Rattle.std.specs.Prelude.{◌≡◌, [], option_map};
ghost use Rattle.fisca_columns.specs.Outcomes.{Answers, Tells};
ghost use Rattle.fisca_run_file.specs.Moved as spec;
ghost use Rattle.fisca_run_file.specs.Steps.Moved as steps;
ghost use Rattle.fisca_situations.specs.AllAxes as all_axes;
ghost use Rattle.fisca_run_file.specs.Views.{said_axis as said_axis_view, said_list};
ghost use Rattle.fisca_situations.specs.Steps.Reading as naming;

use crate::said_axis::SaidAxis;
use fisca_columns::{RunFileFault, RunFileKind};
use fisca_grid::AxesFault;
use fisca_inputs::{Given, key_period, meets, overlaps, takes};
use fisca_members::Members;
use fisca_model::Value;
use fisca_num::Fraction;
use fisca_situations::{has_numbers, push_input};
use fisca_symbols::{Tables, Variable};
use fisca_time::{Period, Unit};
use std::alloc::Global;
use std::marker::Model;

/// The inputs that axes move, in the order of the axes, seen as a list. Each has the variable, the member and the period of its axis, and 0 in
/// the place of the values that the axis gives.
#[derive(Drop)]
pub struct MovedInputs {
    items: Vec<Given>,
}

impl Model for MovedInputs {
    ghost use Rattle.std.specs.Prelude.{List};
    ghost use Rattle.fisca_inputs.specs.declared.given.Given.{Given};

    ghost Value = { List Given };

    ghost view = { λ m. m.items.items };
}

impl MovedInputs {
    /// The inputs in order.
    pub fn as_slice(&self) -> &[Given]
        ensures { result.now ≡ self.now }
    {
        self.items.as_slice()
    }
}

/// The place of the variable that a name names.
fn variable_of(tables: &Tables<'_>, name: &str) -> Option<usize>
    ensures { result ≡ naming.variable_of tables.now name.now }
{
    match tables.variable_named(name) {
        Some((place, _)) => Some(place),
        None => None,
    }
}

/// The variable of this name, with its place, where its values are numbers.
fn variable_moved<'e, 'r>(tables: &'e Tables<'r>, name: &str) -> Option<(usize, &'e Variable<'r>)>
    ensures { option_map (λ p. (p.0, p.1.now)) result ≡ steps.variable_moved tables.now name.now }
{
    let place = variable_of(tables, name)?;
    let declared = tables.variables.as_slice().get(place)?;
    if has_numbers(declared.value_type) {
        Some((place, declared))
    } else {
        None
    }
}

/// The period of the input that an axis moves at a period, if the variable is given values for it.
fn period_moved(variable: &Variable<'_>, period: Option<Period>) -> Option<Period>
    ensures { result ≡ steps.period_moved variable.now period }
{
    match period {
        Some(period) if takes(variable, period) => Some(key_period(variable, period)),
        Some(_) => None,
        None => match variable.definition_period {
            Unit::Eternity => Some(Period::ETERNITY),
            Unit::Day | Unit::Month | Unit::Year => None,
        },
    }
}

/// A fault of an axis.
fn fault_of(axis: &SaidAxis, fault: AxesFault) -> RunFileFault
    ensures { result ≡ record { line = axis.now.line; kind = RunFileKind.Axes fault } }
{
    RunFileFault {
        line: axis.line,
        kind: RunFileKind::Axes(fault),
    }
}

/// The input that an axis moves.
fn moved_by(
    tables: &Tables<'_>,
    members: &Members,
    default: Option<Period>,
    axis: &SaidAxis,
) -> Result<Given, RunFileFault>
    ensures { Answers (λ g. g) (steps.moved_by tables.now members.now default (said_axis_view axis.now)) result }
{
    let Some((variable, declared)) = variable_moved(tables, axis.name.as_str()) else {
        return Err(fault_of(axis, AxesFault::UnknownVariable));
    };
    if axis.index >= u64::from(members.count(declared.entity)) {
        return Err(fault_of(axis, AxesFault::BadIndex));
    }
    let Some(period) = period_moved(declared, axis.period.or(default)) else {
        return Err(fault_of(axis, AxesFault::PeriodMismatch));
    };
    Ok(Given {
        variable,
        member: axis.index as u32,
        period,
        value: Value::Number(Fraction::zero()),
        line: axis.line,
    })
}

/// The inputs that the axes move, with the faults of single axes.
pub(crate) fn all_moved(
    alloc: Global,
    tables: &Tables<'_>,
    members: &Members,
    default: &Option<Period>,
    axes: &[SaidAxis],
) -> Result<MovedInputs, RunFileFault>
    ensures { Tells (λ m. m) (spec.with_moved tables.now members.now default.now [] (said_list axes.now)) result }
{
    let mut items = Vec::new(alloc);
    for axis in axes {
        let Given {
            variable,
            member,
            period,
            value,
            line,
        } = moved_by(tables, members, *default, axis)?;
        let input = Given {
            variable,
            member,
            period,
            value,
            line,
        };
        push_input(&mut items, input)?;
    }
    Ok(MovedInputs { items })
}

/// Whether this moves what one of these moves, or what an input says for another period.
fn is_overlap(given: &[Given], before: &[Given], input: &Given) -> bool
    ensures { result ≡ all_axes.is_overlap given.now before.now input.now }
{
    meets(before, input.variable, input.member, input.period)
        || overlaps(given, input.variable, input.member, input.period)
}

/// The first of these inputs that moves what an earlier one does, or what an input says for another period, is told.
pub(crate) fn check_apart(given: &[Given], moved: &[Given]) -> Result<(), RunFileFault>
    ensures { Answers (λ _. []) (spec.apart_from given.now [] moved.now) result }
{
    for i in 0..moved.len() {
        if is_overlap(given, &moved[..i], &moved[i]) {
            return Err(RunFileFault {
                line: moved[i].line,
                kind: RunFileKind::Axes(AxesFault::AxisOverlap),
            });
        }
    }
    Ok(())
}
