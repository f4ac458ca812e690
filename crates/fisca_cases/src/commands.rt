//! Calls of commands over sinks: once more where memory was refused, and into sinks that fail.

use crate::fault::{CaseFault, malformed};
use crate::narrow::Narrow;
use fisca_cases_base::{Written, limit, number};
use fisca_commands::{
    Refusal, RunOptions, TableForm, axes_words, calc_rules, check_rules, run_rules, test_rules,
};
use fisca_params::SourceFile;
use fisca_writer::{MemorySink, Range, RowSink, RunFault};
use std::alloc::Global;

/// Lines as they are without an option.
const PLAIN: TableForm = TableForm {
    header: false,
    decimals: None,
    format: None,
};

/// What a command writes into a sink in memory, and behind it how the call ends. Where memory was refused, the same below it of a second call, from the
/// position where the first one stopped.
pub fn again(
    alloc: Global,
    command: &str,
    files: &[SourceFile],
    words: &[String],
) -> Result<String, CaseFault> {
    let mut shown = Written::new(alloc);
    let end = push_call(alloc, &mut shown, command, files, words, 0)?;
    if let Some(position) = stop_of(&end) {
        shown.push("\n");
        push_call(alloc, &mut shown, command, files, words, position)?;
    }
    Ok(shown.finish()?)
}

/// Appends what a command writes from a position on, and how it ends. Answers that.
fn push_call(
    alloc: Global,
    shown: &mut Written,
    command: &str,
    files: &[SourceFile],
    words: &[String],
    from: u64,
) -> Result<Option<Refusal>, CaseFault> {
    let mut sink = MemorySink::new(alloc);
    let end = call(alloc, command, files, words, from, &mut sink)?;
    shown.push(str::from_utf8(sink.bytes()).unwrap_or("no text\n"));
    push_end(alloc, shown, &end, sink.failures())?;
    Ok(end)
}

/// For each number of bytes from the third word on, up to the fourth and without it, a line: how a command ends over a sink that takes so many bytes, in
/// pieces as long as the second word says, and what the sink has then. The first word says how it fails: by an `error`, or as it takes `nothing`.
pub fn failing(
    alloc: Global,
    command: &str,
    files: &[SourceFile],
    words: &[String],
) -> Result<String, CaseFault> {
    let [how, piece, first, last, words @ ..] = words else {
        return Err(malformed());
    };
    let (first, last): (usize, usize) = (number(first.as_str())?, number(last.as_str())?);
    let mut shown = Written::new(alloc);
    for room in first..last {
        let mut sink = Narrow::new(
            alloc,
            how.as_str() == "nothing",
            number(piece.as_str())?,
            room,
        );
        let end = call(alloc, command, files, words, 0, &mut sink)?;
        shown.push(if room == first { "" } else { "\n" });
        push_end(alloc, &mut shown, &end, sink.failures())?;
        shown.push(", has ");
        push_bytes(&mut shown, sink.bytes());
    }
    Ok(shown.finish()?)
}

/// Calls a command with words from a position on, and answers why it was refused: `axes CONDITION ROWS WORD..`, `run ROWS TEXT`, `calc TEXT`, `test TEXT`
/// or `check`.
fn call<S: RowSink>(
    alloc: Global,
    command: &str,
    files: &[SourceFile],
    words: &[String],
    from: u64,
    sink: &mut S,
) -> Result<Option<Refusal>, CaseFault> {
    match words {
        [keep, rows, axes @ ..] if command == "axes" => {
            let rows = limit(rows.as_str())?;
            let options = from_on(from, rows);
            Ok(axes_words(alloc, axes, Some(keep.as_str()), &options, sink).err())
        }
        [rows, text] if command == "run" => {
            let rows = limit(rows.as_str())?;
            let options = from_on(from, rows);
            Ok(run_rules(alloc, files, text.as_str(), &options, &mut false, sink).err())
        }
        [text] if command == "calc" => Ok(calc_rules(
            alloc,
            files,
            text.as_str(),
            PLAIN,
            sink,
        ).err()),
        [text] if command == "test" => Ok(test_rules(
            alloc,
            files,
            text.as_str(),
            None,
            sink,
        ).err()),
        [] if command == "check" => Ok(check_rules(alloc, files, sink).err()),
        _ => Err(malformed()),
    }
}

/// A run from a position on, up to a limit of lines.
fn from_on(from: u64, rows: Option<u64>) -> RunOptions {
    RunOptions {
        range: Range::Between { from, to: None },
        rows,
        form: PLAIN,
        keeps_going: false,
    }
}

/// The position where a call stopped for want of memory, or as its sink had none: 0 where it was no run.
fn stop_of(end: &Option<Refusal>) -> Option<u64> {
    match end {
        Some(Refusal::Memory | Refusal::Write) => Some(0),
        Some(refusal) => position_of(refusal),
        None => None,
    }
}

/// The position where a run stopped for want of memory or of a place to write to.
fn position_of(refusal: &Refusal) -> Option<u64> {
    match refusal {
        Refusal::Run(RunFault::Memory { position } | RunFault::Write { position }) => {
            Some(*position)
        }
        _ => None,
    }
}

/// Appends how a call ends: its status and its line, and where it stopped; and how often its sink failed.
fn push_end(
    alloc: Global,
    shown: &mut Written,
    end: &Option<Refusal>,
    failures: u64,
) -> Result<(), CaseFault> {
    match end {
        None => shown.push("end"),
        Some(refusal) => {
            shown.push("status ");
            shown.push_number(u64::from(refusal.status()));
            shown.push(", ");
            shown.push(refusal.line(alloc, "file.yaml", &[])?.as_str());
            if let Some(position) = position_of(refusal) {
                shown.push(" at ");
                shown.push_number(position);
            }
        }
    }
    shown.push(", failures ");
    shown.push_number(failures);
    Ok(())
}

/// Appends a text in quotes.
fn push_bytes(shown: &mut Written, bytes: &[u8]) {
    let text = str::from_utf8(bytes).unwrap_or("no text");
    shown.push("\"");
    for c in text.chars() {
        match c {
            '\n' => shown.push("\\n"),
            '\t' => shown.push("\\t"),
            other => shown.push_shown(&other),
        }
    }
    shown.push("\"");
}
