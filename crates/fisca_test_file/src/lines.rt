//! The lines of outputs that failed.

ghost use Rattle.std.specs.Prelude.{◌≡◌, ◌++◌, codes, string_bytes, OnOk};
ghost use Rattle.fisca_test_file.specs.Report as spec;
ghost use Rattle.fisca_situations.specs.Steps.Views.{situation as situation_view};
ghost use Rattle.fisca_symbols.specs.Known.{tables as known};

use crate::key_fault::KeyFault;
use crate::outcome::Outcome;
use fisca_columns::{write_key, write_value};
use fisca_model::{Key, Value};
use fisca_situations::Situation;
use fisca_symbols::Tables;
use std::alloc::{AllocError, Global};

/// Appends the key that a fault is told of, if there is one.
fn write_behind(
    alloc: Global,
    tables: &Tables<'_>,
    situation: &Situation,
    key: Option<Key>,
    line: &mut String,
) -> Result<(), AllocError>
    ensures { OnOk result (string_bytes line.new ≡ string_bytes line.old ++ spec.behind_name (known tables.now) (situation_view situation.now).members key) }
{
    match key {
        Some(key) => {
            line.push(' ')?;
            write_key(alloc, tables, situation, &key, " ", line)
        }
        None => Ok(()),
    }
}

/// Appends the name of a fault, and its key.
fn write_fault<F: KeyFault>(
    alloc: Global,
    tables: &Tables<'_>,
    situation: &Situation,
    fault: &F,
    line: &mut String,
) -> Result<(), AllocError>
    ensures { OnOk result (string_bytes line.new ≡ string_bytes line.old ++ spec.fault_said (known tables.now) (situation_view situation.now).members (F.fault_name fault.now) (F.fault_key fault.now)) }
{
    line.push_str(fault.name())?;
    write_behind(alloc, tables, situation, fault.key(), line)
}

/// Appends the expected value and the one that came out.
fn write_values(
    tables: &Tables<'_>,
    variable: usize,
    expected: Value,
    got: Value,
    line: &mut String,
) -> Result<(), AllocError>
    ensures { OnOk result (string_bytes line.new ≡ string_bytes line.old ++ spec.values_said (known tables.now) variable expected got) }
{
    line.push_str("expected ")?;
    write_value(tables, variable, expected, line)?;
    line.push_str(", got ")?;
    write_value(tables, variable, got, line)
}

/// Appends the beginning of the line of an output that failed.
fn write_head(
    alloc: Global,
    tables: &Tables<'_>,
    situation: &Situation,
    key: &Key,
    line: &mut String,
) -> Result<(), AllocError>
    ensures { OnOk result (string_bytes line.new ≡ string_bytes line.old ++ spec.failed_head (known tables.now) (situation_view situation.now).members key.now) }
{
    line.push_str("  ")?;
    write_key(alloc, tables, situation, key, " ", line)?;
    line.push_str(": ")
}

/// Appends the line of an output that failed: its key, and why; nothing of one that passed.
pub(crate) fn write_outcome<F: KeyFault>(
    alloc: Global,
    tables: &Tables<'_>,
    situation: &Situation,
    output: &(Key, Value),
    outcome: &Outcome<F>,
    line: &mut String,
) -> Result<(), AllocError>
    ensures { OnOk result (string_bytes line.new ≡ string_bytes line.old ++ spec.outcome_line (known tables.now) (situation_view situation.now).members F.fault_name F.fault_key output.now outcome.now) }
{
    match outcome {
        Outcome::Passed => Ok(()),
        Outcome::Missed(got) => {
            write_head(alloc, tables, situation, &output.0, line)?;
            write_values(tables, output.0.variable, output.1, *got, line)?;
            line.push('\n')
        }
        Outcome::TooWide => {
            write_head(alloc, tables, situation, &output.0, line)?;
            line.push_str("TooWide")?;
            line.push('\n')
        }
        Outcome::Faulted(fault) => {
            write_head(alloc, tables, situation, &output.0, line)?;
            write_fault(alloc, tables, situation, fault, line)?;
            line.push('\n')
        }
    }
}
