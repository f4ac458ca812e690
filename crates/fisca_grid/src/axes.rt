//! An axis: its limits, its values, and how they stand to numbers.

ghost use Rattle.std.specs.Prelude.{◌≡◌, ◌≢◌, ℕ, ◌≤◌, ◌<◌, ◌*◌, ◌+◌, ◌^◌, ◌+ℤ◌, ◌-ℤ◌, ◌*ℤ◌, pos, unsigned_abs, length, sum, IsOk, IfOk, IfErr, IfSome, Some, None, Ok, true, slice_get};
ghost use Rattle.std.specs.Int.{◌∣◌, IsGcd};
ghost use Rattle.fisca_num.specs.Number.{number_cmp};
ghost use Rattle.fisca_num.specs.Operations.{number_of};
ghost use Rattle.fisca_grid.specs.Axes.{axis_fault, step_of, IsLine};
ghost use Rattle.fisca_grid.specs.Steps.Axes.{is_bound};

use fisca_num::Fraction;
use std::alloc::{AllocError, AllocFailed};
use std::cmp::Ordering;
use thiserror::Error;

/// An axis as it is asked for: so many values, from `min` to `max` in equal steps.
#[derive(Clone, Copy, Debug, PartialEq, Eq)]
pub struct AxisSpec {
    /// The number of values, 1 to 1,048,576.
    pub count: u64,
    /// The first value, of size at most 10^9 with at most three decimals.
    pub min: Fraction,
    /// The last value, with the same limits.
    pub max: Fraction,
}

/// Why axes make no grid. This project's own limits.
#[derive(Clone, Copy, Debug, PartialEq, Eq, Error)]
#[error("{}", self.name())]
pub enum AxesFault {
    /// 1: there is no axis, or a group has none.
    NoAxes = 1,
    /// 2: two axes of a group have different counts.
    CountsDiffer = 2,
    /// 3: a count is outside 1 to 1,048,576.
    BadCount = 3,
    /// 4: there are more than 16 axes, or more than 2^32 positions.
    TooLarge = 4,
    /// 5: an axis names no variable, or one that has no numbers.
    UnknownVariable = 5,
    /// 6: an axis names no member.
    BadIndex = 6,
    /// 7: an axis moves what another axis or an input says.
    AxisOverlap = 7,
    /// 8: an axis has no period, or one that its variable is given no values for.
    PeriodMismatch = 8,
    /// 9: a bound's size is above 10^9, or it has more than three decimals.
    BadBound = 9,
    /// 10: memory was refused.
    Memory = 10,
}

impl AxesFault {
    ghost use Rattle.fisca_grid.specs.AxesFault.{name_of, number_of as number_of_fault};

    /// The plain name of the fault, as `BadCount`.
    pub fn name(self) -> &'static str
        ensures { result.now ≡ name_of self }
    {
        match self {
            AxesFault::NoAxes => "NoAxes",
            AxesFault::CountsDiffer => "CountsDiffer",
            AxesFault::BadCount => "BadCount",
            AxesFault::TooLarge => "TooLarge",
            AxesFault::UnknownVariable => "UnknownVariable",
            AxesFault::BadIndex => "BadIndex",
            AxesFault::AxisOverlap => "AxisOverlap",
            AxesFault::PeriodMismatch => "PeriodMismatch",
            AxesFault::BadBound => "BadBound",
            AxesFault::Memory => "Memory",
        }
    }

    /// The number of the fault, from 1 to 10.
    pub fn number(self) -> u8
        ensures { result ≡ number_of_fault self }
    {
        self as u8
    }
}

impl From<AllocError> for AxesFault {
    ghost use Rattle.fisca_grid.specs.declared.axes.AxesFault.TheVariants.{Memory};

    ghost from_gives = { λ _ fault. fault ≡ Memory };

    fn from(_error: AllocError) -> AxesFault {
        AxesFault::Memory
    }
}

impl<T: Drop> From<AllocFailed<T>> for AxesFault {
    ghost use Rattle.fisca_grid.specs.declared.axes.AxesFault.TheVariants.{Memory};

    ghost from_gives = { λ _ fault. fault ≡ Memory };

    fn from(_error: AllocFailed<T>) -> AxesFault {
        AxesFault::Memory
    }
}

/// Whether a bound has a size of at most 10^9 and at most three decimals.
fn is_bound(bound: Fraction) -> bool
    ensures { result ≡ is_bound bound }
{
    1000 % bound.denominator() == 0
        && bound.numerator().unsigned_abs() <= 1_000_000_000 * bound.denominator()
}

/// A product of words that is a word.
fn times(a: i64, by: u64) -> i64
    requires few { by < 2 ^ 63 }
    requires within { unsigned_abs a * by < 2 ^ 63 }
    ensures value { result ≡ a *ℤ pos by }
    ensures size { unsigned_abs result ≡ unsigned_abs a * by }
{
    a * by as i64
}

/// A product of words.
fn wide_product(a: i64, by: u64) -> i128
    requires above { unsigned_abs a < 2 ^ 63 }
    requires below { by < 2 ^ 63 }
    ensures { result ≡ a *ℤ pos by }
{
    i128::from(a) * i128::from(by)
}

/// The difference of two words whose sizes are at most 10^12.
fn way(from: i64, to: i64) -> i64
    requires from { unsigned_abs from ≤ 1000000000000 }
    requires to { unsigned_abs to ≤ 1000000000000 }
    ensures value { result ≡ to -ℤ from }
    ensures size { unsigned_abs result ≤ 2000000000000 }
{
    to - from
}

/// A bound in thousandths.
fn thousandths(bound: Fraction) -> i64
    requires { is_bound bound ≡ true }
    ensures value { result *ℤ pos bound.denominator ≡ bound.numerator *ℤ pos 1000 }
    ensures size { unsigned_abs result ≤ 1000000000000 }
{
    times(bound.numerator(), 1000 / bound.denominator())
}

/// An axis whose values are (first + place * increment) / denominator.
#[derive(Clone, Copy, Debug)]
pub(crate) struct Axis {
    pub(crate) spec: AxisSpec,
    first: i64,
    increment: i64,
    denominator: u64,
    ghost some: { 0 < spec.count },
    ghost line: { IsLine spec first increment denominator },
}

impl Axis {
    ghost use Rattle.fisca_grid.specs.Axes.{axis_fault};

    /// The axis, where its count and its bounds are within the limits.
    pub(crate) fn new(spec: AxisSpec) -> Result<Axis, AxesFault>
        ensures ok { IfOk result (λ axis. (axis.spec ≡ spec) × (axis_fault spec ≡ None)) }
        ensures err { IfErr result (λ fault. axis_fault spec ≡ Some fault) }
    {
        if spec.count == 0 || spec.count > 1_048_576 {
            return Err(AxesFault::BadCount);
        }
        if !is_bound(spec.min) || !is_bound(spec.max) {
            return Err(AxesFault::BadBound);
        }
        let steps = (spec.count - 1).max(1);
        let first = thousandths(spec.min);
        let last = thousandths(spec.max);
        let increment = way(first, last);
        Ok(Axis::on_line(spec, times(first, steps), increment, 1000 * steps))
    }

    /// The axis on this line of rationals, without a factor that all three numbers have in common.
    fn on_line(spec: AxisSpec, first: i64, increment: i64, denominator: u64) -> Axis
        requires some { 0 < spec.count }
        requires line { IsLine spec first increment denominator }
        ensures { result.spec ≡ spec }
    {
        let shared = common_divisor(first.unsigned_abs(), increment.unsigned_abs());
        let factor = common_divisor(shared, denominator);
        Axis {
            spec,
            first: divided(first, factor),
            increment: divided(increment, factor),
            denominator: denominator / factor,
        }
    }

    /// The numerator of the value at a place, over the denominator.
    fn numerator_at(&self, place: u64) -> i64
        requires { place < self.now.spec.count }
        ensures value { result ≡ self.now.first +ℤ pos place *ℤ self.now.increment }
        ensures within { unsigned_abs result < 2 ^ 63 }
    {
        along(self.first, self.increment, place)
    }

    /// The value at a place.
    pub(crate) fn value(&self, place: u64) -> Fraction
        requires { place < self.now.spec.count }
        ensures { step_of self.now.spec place ≡ Ok result }
    {
        fraction(self.numerator_at(place), self.denominator)
    }

    /// How the value at a place stands to a number. Nothing is brought to lowest terms.
    pub(crate) fn compare(&self, place: u64, number: Fraction) -> Ordering
        requires { place < self.now.spec.count }
        ensures { IfOk (step_of self.now.spec place) (λ value. result ≡ number_cmp value number) }
    {
        let left = wide_product(self.numerator_at(place), number.denominator());
        let right = wide_product(number.numerator(), self.denominator);
        left.cmp(&right)
    }
}

/// Each value of an accepted axis is a number within the limits of numbers.
pub fn each_step_is_a_number(axis: AxisSpec, place: u64)
    requires accepted { axis_fault axis ≡ None }
    requires inside { place < axis.count }
    ensures { IsOk (step_of axis place) }
{
    match Axis::new(axis) {
        Ok(axis) => {
            let _ = axis.value(place);
        }
        Err(_) => unreachable!(),
    }
}

/// A divisor of both numbers, the greatest.
fn common_divisor(a: u64, b: u64) -> u64
    ensures { IsGcd a b result }
{
    let mut x = a;
    let mut y = b;
    while y != 0 {
        let rest = x % y;
        x = y;
        y = rest;
    }
    x
}

/// The quotient by a divisor.
fn divided(a: i64, by: u64) -> i64
    requires some { 0 < by }
    requires divides { by ∣ unsigned_abs a }
    requires within { unsigned_abs a < 2 ^ 63 }
    ensures { result *ℤ pos by ≡ a }
{
    let size = (a.unsigned_abs() / by) as i64;
    if a < 0 { -size } else { size }
}

/// How far a line has come from its first number after so many increments.
fn along(first: i64, increment: i64, count: u64) -> i64
    requires few { count < 2 ^ 63 }
    requires within { unsigned_abs first + count * unsigned_abs increment < 2 ^ 63 }
    ensures { result ≡ first +ℤ pos count *ℤ increment }
{
    first + times(increment, count)
}

/// A fraction of words, which always is a number.
#[tactic(auto, unfolding(fisca_num::specs::Operations::number_over))]
fn fraction(numerator: i64, denominator: u64) -> Fraction
    requires some { 0 < denominator }
    requires small { denominator < 2 ^ 63 }
    requires within { unsigned_abs numerator < 2 ^ 63 }
    ensures { number_of (record { numerator = numerator; denominator = denominator }) ≡ Ok result }
{
    match Fraction::new(numerator, denominator as i64) {
        Ok(value) => value,
        Err(_) => unreachable!(),
    }
}
