//! The keys that are asked for.

ghost use Rattle.std.specs.Prelude.{◌≡◌};
ghost use Rattle.fisca_model.specs.Seen.{value_seen};
ghost use Rattle.fisca_key_semantics.specs.Dialogues.{gives};
ghost use Rattle.fisca_typing.specs.Questions.{ask_part, ask_plain};
ghost use Rattle.fisca_typing.specs.Questions as asking;
ghost use Rattle.fisca_num.specs.Operations.{quotient_of};
ghost use Rattle.fisca_ops.specs.Ended.{IsMoving, asked, ended};
ghost use Rattle.fisca_ops.specs.Parts as spec;

use crate::fault::OperationFault;
use crate::numbers::computed;
use crate::operands::number_of;
use crate::periods::key_period;
use fisca_model::{Key, Value, fits};
use fisca_num::{Fraction, NumFault};
use fisca_time::{Period, Unit};

/// What falls to a period of a year's value.
#[derive(Clone, Copy, Debug, PartialEq, Eq)]
pub enum Share {
    /// To a month a twelfth.
    Twelfth,
    /// To a year the whole.
    Whole,
}

/// The key of a year's value, and what of it is meant.
#[derive(Clone, Copy, Debug, PartialEq, Eq)]
pub struct YearPart {
    /// The variable, the member and the calendar year.
    pub key: Key,
    /// What of its value is meant.
    pub share: Share,
}

/// The fault of a variable that has no value at this period.
fn mismatch(variable: usize, member: u32, period: Period) -> OperationFault
    ensures { result ≡ OperationFault.PeriodMismatch (record { variable = variable; member = member; period = period }) }
{
    OperationFault::PeriodMismatch(Key {
        variable,
        member,
        period,
    })
}

/// The key of a variable with definition period `unit` that is asked for as it stands, as `ask_plain` has it. `PeriodMismatch` where the period is no such one.
pub fn plain_key(
    variable: usize,
    unit: Unit,
    member: u32,
    period: Period,
) -> Result<Key, OperationFault>
    ensures { ask_plain variable unit member period ≡ asked result gives }
{
    if !fits(unit, period) {
        return Err(mismatch(variable, member, period));
    }
    Ok(Key {
        variable,
        member,
        period: key_period(unit, period),
    })
}

/// The calendar year in which a period starts, with what of its value is meant. `PeriodOutOfRange` for eternity.
fn year_with(
    variable: usize,
    member: u32,
    period: Period,
    share: Share,
) -> Result<YearPart, OperationFault>
    ensures { spec.year_by variable member period share ≡ spec.year_asked result }
{
    match period.this_year() {
        Ok(period) => Ok(YearPart {
            key: Key {
                variable,
                member,
                period,
            },
            share,
        }),
        Err(_) => Err(OperationFault::PeriodOutOfRange),
    }
}

/// The year's value of which a variable with definition period `unit` has a part at a period, as `ask_part` has it. `PeriodMismatch` where the variable is no yearly
/// one or the period neither a month nor a year.
pub fn year_part(
    variable: usize,
    unit: Unit,
    member: u32,
    period: Period,
) -> Result<YearPart, OperationFault>
    ensures { ask_part variable unit member period ≡ spec.year_asked result }
{
    if unit == Unit::Year && fits(Unit::Month, period) {
        year_with(variable, member, period, Share::Twelfth)
    } else if unit == Unit::Year && fits(Unit::Year, period) {
        year_with(variable, member, period, Share::Whole)
    } else {
        Err(mismatch(variable, member, period))
    }
}

/// A twelfth. `TooWide` where a part of it is beyond the limits.
#[tactic(auto, using(crate::proofs::WholeNumbers::twelve_over))]
fn twelfth(number: Fraction) -> Result<Fraction, NumFault>
    ensures { result ≡ quotient_of number asking.twelve }
{
    let twelve = Fraction::new(12, 1)?;
    number.div(twelve)
}

/// What falls to a period of a year's value, as `shared` has it. `TooWide` where a part of the twelfth is beyond the limits.
pub fn share_of(share: Share, value: Value) -> Result<Value, OperationFault>
    requires { IsMoving (spec.shared share (value_seen value)) }
    ensures { ended result ≡ spec.shared share (value_seen value) }
{
    let number = number_of(value);
    match share {
        Share::Twelfth => computed(twelfth(number)),
        Share::Whole => Ok(Value::Number(number)),
    }
}
