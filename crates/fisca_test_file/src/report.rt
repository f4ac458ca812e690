//! What is told of an output and of a test.

ghost use Rattle.std.specs.Prelude.{◌≡◌, ◌++◌, string_bytes, option_map, IfOk, OnOk};
ghost use Rattle.fisca_symbols.specs.Known.{tables as known};
ghost use Rattle.fisca_test_file.specs.Report as spec;
ghost use Rattle.fisca_test_file.specs.Steps.Verdicts.{outcome_of as outcome_spec};

use crate::comparing::outcome_of;
use crate::key_fault::KeyFault;
use crate::lines::write_outcome;
use crate::margins::Margins;
use crate::outcome::Outcome;
use fisca_model::{Key, Value};
use fisca_situations::Answers;
use fisca_symbols::Tables;
use fisca_writer::RowFault;
use std::alloc::{AllocError, Global};

/// How an output comes out. `AllocError` only where the value could not be worked out for want of memory.
pub(crate) fn outcome_at<F: Drop, A: Answers<Fault = F>>(
    margins: Margins,
    output: &(Key, Value),
    answers: &mut A,
) -> Result<Outcome<F>, AllocError>
    requires { A.ready answers.old }
    ensures outcome { IfOk result (λ o. o ≡ outcome_spec margins output.now.1 (A.answer answers.old output.now.0)) }
    ensures ready { A.ready answers.new }
    ensures same_answers { A.answer answers.new ≡ A.answer answers.old }
    ensures same_members { A.members answers.new ≡ A.members answers.old }
{
    match answers.value(output.0) {
        Ok(got) => Ok(outcome_of(margins, output.1, &got)),
        Err(RowFault::Eval(fault)) => Ok(Outcome::Faulted(fault)),
        Err(RowFault::Memory) => Err(AllocError),
    }
}

/// Works out an output, and appends its line where it failed.
pub(crate) fn write_output<F: KeyFault + Drop, A: Answers<Fault = F>>(
    alloc: Global,
    tables: &Tables<'_>,
    margins: &Margins,
    output: &(Key, Value),
    answers: &mut A,
    line: &mut String,
) -> Result<(), AllocError>
    requires { A.ready answers.old }
    ensures text { OnOk result (string_bytes line.new ≡ string_bytes line.old ++ spec.output_line (spec.test_context (known tables.now) (A.members answers.old) (A.answer answers.old) F.fault_name F.fault_key) margins.now output.now) }
    ensures ready { A.ready answers.new }
    ensures same_answers { A.answer answers.new ≡ A.answer answers.old }
    ensures same_members { A.members answers.new ≡ A.members answers.old }
{
    let outcome = outcome_at(*margins, output, answers)?;
    let situation = answers.situation();
    write_outcome(alloc, tables, situation, output, &outcome, line)
}

/// Appends the name of a test, or its number where it has none.
fn write_title(number: u64, name: Option<&str>, line: &mut String) -> Result<(), AllocError>
    ensures { OnOk result (string_bytes line.new ≡ string_bytes line.old ++ spec.title number (option_map (λ t. t.now) name.entry)) }
{
    match name {
        Some(name) => line.push_str(name),
        None => {
            line.push_str("test ")?;
            line.push_str(itoa::Buffer::new().format(number))
        }
    }
}

/// Appends the first line of a test.
pub(crate) fn write_head(
    passed: bool,
    number: u64,
    name: Option<&str>,
    line: &mut String,
) -> Result<(), AllocError>
    ensures { OnOk result (string_bytes line.new ≡ string_bytes line.old ++ spec.head_line passed number (option_map (λ t. t.now) name.entry)) }
{
    line.push_str(if passed { "ok " } else { "failed " })?;
    write_title(number, name, line)?;
    line.push('\n')
}

/// Appends the last line of a report: `passed P, failed F`.
pub(crate) fn write_counts(passed: u64, failed: u64, text: &mut String) -> Result<(), AllocError>
    ensures { OnOk result (string_bytes text.new ≡ string_bytes text.old ++ spec.counts_text passed failed) }
{
    text.push_str("passed ")?;
    text.push_str(itoa::Buffer::new().format(passed))?;
    text.push_str(", failed ")?;
    text.push_str(itoa::Buffer::new().format(failed))?;
    text.push('\n')
}
