//! `fisca calc --lines`: the values of the columns of many files, one in each line.

ghost use Rattle.std.specs.Prelude.{◌≡◌, ◌++◌, ℕ, IfOk, IfErr, string_bytes};
ghost use Rattle.std.specs.Io.KnownBytes.{Appends};
ghost use Rattle.fisca_commands.specs.CalcLines.{AreWorkedOut, IsCalcLines, IsEndedBy, IsFile, IsHanded, line_names, line_told, streams_of};
ghost use Rattle.fisca_grid_run.specs.Forms.{IsHeaderRefused, header_of, line_form_of, shown_form};
ghost use Rattle.fisca_commands.specs.Steps.CalcLines.{AreFew, AreReady, IsLineDone, IsNextDone, IsTelling, IsTextWritten, stop_of};
ghost use Rattle.fisca_rule_files.specs.Refusal.{is_write, key_of, reason_of, status_of};
ghost use Rattle.fisca_writer.specs.Sink.{CountsFailure};

use super::calc::{calc_names, read_file, write_values};
use crate::calc_inputs_fit;
use fisca_command_line::TableForm;
use fisca_folder::{LONGEST, ToldPath, write_shown};
use fisca_forms::LineForm;
use fisca_grid_run::begin_table;
use fisca_params::SourceFile;
use fisca_rule_files::{Ending, Refusal, rules_of};
use fisca_rules::RuleSet;
use fisca_simulation::rule_sets_are_safe;
use fisca_writer::{RowSink, RunFault, hand_over};
use std::alloc::{AllocError, Global};

/// Why a line cannot be read.
#[derive(Clone, Copy, Debug, PartialEq, Eq)]
pub enum LineFault {
    /// What is read from failed.
    Read,
    /// Memory was refused.
    Memory,
}

/// Lines, of which one is read after another.
pub trait LineSource {
    ghost use Rattle.std.specs.Prelude.{◌<◌, ◌^◌, List, Option, IfSome, length, ℕ};
    ghost use Rattle.fisca_commands.specs.CalcLines.{IsNextLine};

    // the lines that are left, `None` where the source does not tell
    ghost left: { Self → Option (List (List ℕ)) };

    /// Puts the first `most` bytes of the next line, without its line feed, in the place of what is in the buffer, and passes over the rest of the
    /// line. Answers whether there was one.
    fn next_line(&mut self, most: u64, line: &mut Vec<u8>) -> Result<bool, LineFault>
        ensures next { IsNextLine most (left self.old) (left self.new) line.new.items result }
        ensures few { IfSome (left self.old) (λ lines. length lines < 2 ^ 63) };
}

/// Why no further line is worked out.
#[derive(Clone, Copy)]
enum LineStop {
    /// There is none.
    Over,
    /// It cannot be read.
    Unread,
    /// The output could not be written.
    Write,
    /// Memory was refused.
    Memory,
}

/// Works out the columns of many files under a rule set, one in each line, as [`calc_rules`](crate::calc_rules) does of one, in order; each line that is
/// written begins with the number of the line that it is of, counted from 1. The rule files are read once.
///
/// A line that is longer than 1 MiB, is no UTF-8, is refused or has no value is told by a line, `fisca: PATH:NUMBER: ` and the word, to what takes them, and
/// the others go on; that it fails changes nothing. The status is the greatest of all lines. A refusal of the rule files, a failed writing and want of
/// memory end it, as does a source that cannot be read further. Memory is that of one line.
///
/// This project's own rule.
pub fn calc_lines<L: LineSource, S: RowSink, T: RowSink>(
    alloc: Global,
    files: &[SourceFile],
    told_paths: &[ToldPath],
    path: &str,
    form: TableForm,
    source: &mut L,
    sink: &mut S,
    told: &mut T,
) -> Ending
    ensures { IsCalcLines files.now told_paths.now path.now form (streams_of (L.left source.old) (S.taken sink.old) (S.failures sink.old) (T.taken told.old) (T.failures told.old)) (streams_of (L.left source.new) (S.taken sink.new) (S.failures sink.new) (T.taken told.new) (T.failures told.new)) result }
{
    let rules = match rules_of(alloc, files) {
        Ok(rules) => rules,
        Err(refusal) => return Ending::refused(alloc, &refusal, path, told_paths),
    };
    rule_sets_are_safe();
    calc_inputs_fit();
    match begin_lines(alloc, form, sink) {
        Ok(form) => write_all(alloc, &rules, path, &form, source, sink, told),
        Err(refusal) => Ending::refused(alloc, &refusal, path, &[]),
    }
}

/// Writes the line of the names, where it is asked for, and answers the form of the lines.
fn begin_lines<S: RowSink>(
    alloc: Global,
    form: TableForm,
    sink: &mut S,
) -> Result<LineForm, Refusal>
    ensures ok { IfOk result (λ made. (made ≡ line_form_of form line_names) × Appends (S.taken sink.old) (S.taken sink.new) (header_of form line_names)) }
    ensures err { IfErr result (λ refusal. IsHeaderRefused form line_names (S.taken sink.old) (S.taken sink.new) refusal) }
    ensures failures { CountsFailure (is_write result) (S.failures sink.old) (S.failures sink.new) }
{
    let names = calc_names(alloc, Some("line"))?;
    begin_table(alloc, form, names, sink)
}

/// Works out the lines of a source, one after another.
fn write_all<L: LineSource, S: RowSink, T: RowSink>(
    alloc: Global,
    rules: &RuleSet<'_>,
    path: &str,
    form: &LineForm,
    source: &mut L,
    sink: &mut S,
    told: &mut T,
) -> Ending
    requires { AreReady rules.now }
    ensures { AreWorkedOut rules.now (shown_form form.now) path.now (streams_of (L.left source.old) (S.taken sink.old) (S.failures sink.old) (T.taken told.old) (T.failures told.old)) (streams_of (L.left source.new) (S.taken sink.new) (S.failures sink.new) (T.taken told.new) (T.failures told.new)) result }
{
    let mut worst = 0u8;
    let mut line = Vec::new(alloc);
    for number in 1..u64::MAX {
        match write_next(
            alloc, rules, path, form, number, source, &mut line, sink, told,
        ) {
            Ok(status) => worst = worst.max(status),
            Err(stop) => return ending_of(alloc, stop, worst, path),
        }
    }
    ending_of(alloc, LineStop::Unread, worst, path)
}

/// How lines end that stop so, where this is their greatest status.
fn ending_of(alloc: Global, stop: LineStop, worst: u8, path: &str) -> Ending
    ensures { IsEndedBy path.now worst stop result }
{
    match stop {
        LineStop::Over => Ending::of_status(worst),
        LineStop::Unread => Ending::unread(alloc, path),
        LineStop::Write => Ending::refused(alloc, &Refusal::Write, path, &[]),
        LineStop::Memory => Ending::refused(alloc, &Refusal::Memory, path, &[]),
    }
}

/// Reads and works out the next line, and answers its status.
fn write_next<L: LineSource, S: RowSink, T: RowSink>(
    alloc: Global,
    rules: &RuleSet<'_>,
    path: &str,
    form: &LineForm,
    number: u64,
    source: &mut L,
    line: &mut Vec<u8>,
    sink: &mut S,
    told: &mut T,
) -> Result<u8, LineStop>
    requires { AreReady rules.now }
    ensures done { IsNextDone rules.now (shown_form form.now) path.now number (streams_of (L.left source.old) (S.taken sink.old) (S.failures sink.old) (T.taken told.old) (T.failures told.old)) (streams_of (L.left source.new) (S.taken sink.new) (S.failures sink.new) (T.taken told.new) (T.failures told.new)) result }
    ensures few { AreFew (L.left source.old) }
{
    match source.next_line(LONGEST + 1, line) {
        Ok(true) => write_line(
            alloc,
            rules,
            path,
            form,
            number,
            line.as_slice(),
            sink,
            told,
        ),
        Ok(false) => Err(LineStop::Over),
        Err(LineFault::Read) => Err(LineStop::Unread),
        Err(LineFault::Memory) => Err(LineStop::Memory),
    }
}

/// Works out a line, and answers its status. Its length is judged before its encoding.
fn write_line<S: RowSink, T: RowSink>(
    alloc: Global,
    rules: &RuleSet<'_>,
    path: &str,
    form: &LineForm,
    number: u64,
    line: &[u8],
    sink: &mut S,
    told: &mut T,
) -> Result<u8, LineStop>
    requires { AreReady rules.now }
    ensures { IsLineDone rules.now (shown_form form.now) path.now number line.now (record { taken = S.taken sink.old; failures = S.failures sink.old }) (record { taken = S.taken sink.new; failures = S.failures sink.new }) (record { taken = T.taken told.old; failures = T.failures told.old }) (record { taken = T.taken told.new; failures = T.failures told.new }) result }
{
    if line.len() as u64 > LONGEST {
        return tell(alloc, path, number, "TooLong", 3, told);
    }
    match std::str::from_utf8(line) {
        Ok(text) => write_text(alloc, rules, path, form, number, text, sink, told),
        Err(_) => tell(alloc, path, number, "cannot read", 5, told),
    }
}

/// Works out a line that is a text, and answers its status.
fn write_text<S: RowSink, T: RowSink>(
    alloc: Global,
    rules: &RuleSet<'_>,
    path: &str,
    form: &LineForm,
    number: u64,
    text: &str,
    sink: &mut S,
    told: &mut T,
) -> Result<u8, LineStop>
    requires ready { AreReady rules.now }
    requires file { IsFile text.now }
    ensures { IsLineDone rules.now (shown_form form.now) path.now number text.now (record { taken = S.taken sink.old; failures = S.failures sink.old }) (record { taken = S.taken sink.new; failures = S.failures sink.new }) (record { taken = T.taken told.old; failures = T.failures told.old }) (record { taken = T.taken told.new; failures = T.failures told.new }) result }
{
    match calc_text(alloc, rules, text, form, number, sink) {
        Ok(()) => Ok(0),
        Err(refusal) => match stop_of(&refusal) {
            Some(stop) => Err(stop),
            None => tell_refusal(alloc, path, number, &refusal, told),
        },
    }
}

/// Why lines stop at one that is refused so, if they do.
fn stop_of(refusal: &Refusal) -> Option<LineStop>
    ensures { result ≡ stop_of refusal.now }
{
    match refusal {
        Refusal::Write => Some(LineStop::Write),
        Refusal::Memory => Some(LineStop::Memory),
        _ => None,
    }
}

/// Writes what a text asks for under a rule set, each line behind this number.
fn calc_text<S: RowSink>(
    alloc: Global,
    rules: &RuleSet<'_>,
    text: &str,
    form: &LineForm,
    number: u64,
    sink: &mut S,
) -> Result<(), Refusal>
    requires { AreReady rules.now }
    ensures written { IsTextWritten rules.now (shown_form form.now) number text.now (S.taken sink.old) (S.taken sink.new) result }
    ensures failures { CountsFailure (is_write result) (S.failures sink.old) (S.failures sink.new) }
{
    let file = read_file(alloc, rules, text)?;
    write_values(alloc, rules, file, form, Some(number), sink)
}

/// Tells why a line is refused: its word, and the key of a value that cannot be worked out.
fn tell_refusal<T: RowSink>(
    alloc: Global,
    path: &str,
    number: u64,
    refusal: &Refusal,
    told: &mut T,
) -> Result<u8, LineStop>
    ensures { IsTelling (line_told path.now number (reason_of refusal.now ++ key_of refusal.now)) (status_of refusal.now) (record { taken = T.taken told.old; failures = T.failures told.old }) (record { taken = T.taken told.new; failures = T.failures told.new }) result }
{
    match word_of(alloc, refusal) {
        Ok(word) => tell(alloc, path, number, word.as_str(), refusal.status(), told),
        Err(_) => Err(LineStop::Memory),
    }
}

/// The word of a refusal, and behind it the key that it is told of, if there is one.
fn word_of(alloc: Global, refusal: &Refusal) -> Result<String, AllocError>
    ensures { IfOk result (λ word. string_bytes word ≡ reason_of refusal.now ++ key_of refusal.now) }
{
    let mut word = String::from_str(alloc, refusal.reason())?;
    match refusal {
        Refusal::Eval(unanswered)
        | Refusal::Run(
            RunFault::Eval {
                fault: unanswered,
                ..
            },
        ) => {
            word.push(' ')?;
            write_shown(unanswered.key.as_str(), &mut word)?;
        }
        _ => {}
    }
    Ok(word)
}

/// Tells a word of a line of the file at a path, and answers this status.
fn tell<T: RowSink>(
    alloc: Global,
    path: &str,
    number: u64,
    word: &str,
    status: u8,
    told: &mut T,
) -> Result<u8, LineStop>
    ensures { IsTelling (line_told path.now number word.now) status (record { taken = T.taken told.old; failures = T.failures told.old }) (record { taken = T.taken told.new; failures = T.failures told.new }) result }
{
    match told_line(alloc, path, number, word) {
        Ok(line) => {
            hand_line(line.as_bytes(), told);
            Ok(status)
        }
        Err(_) => Err(LineStop::Memory),
    }
}

/// Hands over a line that is told. That it fails changes nothing.
fn hand_line<T: RowSink>(line: &[u8], told: &mut T)
    ensures { IsHanded (record { taken = T.taken told.old; failures = T.failures told.old }) line.now (record { taken = T.taken told.new; failures = T.failures told.new }) }
{
    match hand_over(told, line) {
        Ok(()) => {}
        Err(_) => {}
    }
}

/// `fisca: PATH:NUMBER: WORD` and a line feed.
fn told_line(alloc: Global, path: &str, number: u64, word: &str) -> Result<String, AllocError>
    ensures { IfOk result (λ line. string_bytes line ≡ line_told path.now number word.now) }
{
    let mut line = String::from_str(alloc, "fisca: ")?;
    write_shown(path, &mut line)?;
    line.push(':')?;
    line.push_str(itoa::Buffer::new().format(number))?;
    line.push_str(": ")?;
    line.push_str(word)?;
    line.push('\n')?;
    Ok(line)
}
