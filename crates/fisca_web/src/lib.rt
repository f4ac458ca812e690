//! The commands over a message of a web page: words, a text and files come in as bytes, and what a task writes and tells goes out as bytes.
#![tactic(auto)]

ghost use Rattle.std.specs.Prelude.{◌≡◌, true, map, string_bytes, option_map};
ghost use Rattle.fisca_web.specs.Reply.{IsAnswered, IsLinesReply, IsReply, IsTaskReply, IsFilesReply, IsTestReply, IsTestsReply, is_named, own_file};

mod message;
mod reply;
mod room;
mod text_lines;

use fisca_command_line::{LinesTask, Task, TestsTask, Work, read_task};
use fisca_commands::{calc_lines, run_task, run_test, run_tests};
use fisca_params::SourceFile;
use fisca_writer::{MemorySink, hand_over};
use message::{MessageFault, message_in, part};
pub use reply::{Outcome, Reply};
use room::{line_of, put_error, tell};
use std::alloc::Global;
use text_lines::TextLines;

/// Runs the task of a message, and says whether it did.
///
/// The parts of the message stand in `bytes`, each up to where `ends` says: so many words of a command line, of which the first is the program's own
/// name, the text of the file that they name, no one's where they name none, and then the path and the text of each file: so many files of tests, and the
/// rule files, in any order. Where the words name reforms, the rule files are those that are left when these are laid over the rule set. The files of tests
/// are those that the words name, or that stand in folders that they name, in order; the lines of `calc --lines` are those of the text. Each path is told
/// as it is.
///
/// Where it did, what the task wrote stands at the beginning of `out`, behind it the line for standard error, and `reply` has the length of both and
/// the exit status: they are what [`run_task`], [`run_test`], [`run_tests`] or [`calc_lines`] promises of this task, these files and this text; before the
/// line for standard error stands what is told of lines. Where it did not, [`Outcome`] tells why, as a number in `reply`. It keeps nothing from one call
/// to the next. This project's own rule.
#[unsafe(no_mangle)]
pub extern "C" fn fisca_task(
    alloc: Global,
    bytes: &[u8],
    ends: &[usize],
    words: usize,
    tests: usize,
    out: &mut [u8],
    reply: &mut Reply,
) -> bool
    ensures { result ≡ true → IsReply bytes.now ends.now words tests out.new reply.new }
{
    answer_message(alloc, bytes, ends, words, tests, out, reply)
}

/// Runs what a message asks for, and tells a page how it ended.
fn answer_message(
    alloc: Global,
    bytes: &[u8],
    ends: &[usize],
    words: usize,
    tests: usize,
    out: &mut [u8],
    reply: &mut Reply,
) -> bool
    ensures { result ≡ true → IsReply bytes.now ends.now words tests out.new reply.new }
{
    let Some(text) = part(bytes, ends, words) else {
        return reply.fail(Outcome::NoMessage);
    };
    let message = match message_in(alloc, bytes, ends, words) {
        Ok(message) => message,
        Err(MessageFault::NoText) => return reply.fail(Outcome::NoMessage),
        Err(MessageFault::Memory) => return reply.fail(Outcome::NoMemory),
    };
    if message.files.len() < tests {
        return reply.fail(Outcome::NoMessage);
    }
    let files = message.files.as_slice();
    let (tests, rules) = (&files[..tests], &files[tests..]);
    answer_words(
        alloc,
        message.words.as_slice(),
        rules,
        tests,
        text,
        out,
        reply,
    )
}

/// Runs what words ask for over rule files, files of tests and a text, and tells a page how it ended.
fn answer_words(
    alloc: Global,
    words: &[String],
    rules: &[SourceFile],
    tests: &[SourceFile],
    text: &str,
    out: &mut [u8],
    reply: &mut Reply,
) -> bool
    ensures { result ≡ true → IsAnswered (map (λ word. string_bytes word) words.now) rules.now tests.now text.now out.new reply.new }
{
    match read_task(alloc, words) {
        Ok(Work::Task(task)) => answer_task(alloc, &task, rules, text, out, reply),
        Ok(Work::Tests(task)) => answer_tests(alloc, &task, rules, tests, out, reply),
        Ok(Work::Lines(task)) => answer_lines(alloc, &task, rules, text, out, reply),
        Err(error) => put_error(alloc, &error, out, reply),
    }
}

/// Runs a task over these files and this text, and tells a page how it ended.
fn answer_task(
    alloc: Global,
    task: &Task<'_>,
    files: &[SourceFile],
    text: &str,
    out: &mut [u8],
    reply: &mut Reply,
) -> bool
    ensures { result ≡ true → IsTaskReply task.now files.now text.now out.new reply.new }
{
    let mut sink = MemorySink::new(alloc);
    let ending = run_task(alloc, task, files, &[], text, &mut sink);
    let told = line_of(&ending).as_bytes();
    tell(&mut sink, told, ending.status(), out, reply)
}

/// Runs the tests of these files, of one that the words name as a file as of a file, and else as of several, and tells a page how they ended.
fn answer_tests(
    alloc: Global,
    task: &TestsTask<'_>,
    rules: &[SourceFile],
    tests: &[SourceFile],
    out: &mut [u8],
    reply: &mut Reply,
) -> bool
    ensures { result ≡ true → IsTestsReply task.now rules.now tests.now out.new reply.new }
{
    match own_file(task.paths.as_slice(), tests) {
        Some(file) => answer_test(alloc, task, rules, file, out, reply),
        None => answer_files(alloc, task, rules, tests, out, reply),
    }
}

/// The file of tests, if it is the only one, and the paths are its own alone.
fn own_file<'a>(paths: &[String], tests: &'a [SourceFile]) -> Option<&'a SourceFile>
    ensures { option_map (λ file. file.now) result ≡ own_file (map (λ path. string_bytes path) paths.now) tests.now }
{
    match tests {
        [file] => {
            if is_named(paths, file) {
                Some(file)
            } else {
                None
            }
        }
        _ => None,
    }
}

/// Whether the paths are that of this file alone.
fn is_named(paths: &[String], file: &SourceFile) -> bool
    ensures { result ≡ is_named (map (λ path. string_bytes path) paths.now) file.now }
{
    match paths {
        [path] => path.as_str() == file.path(),
        _ => false,
    }
}

/// Runs the tests of a file, and tells a page how they ended.
fn answer_test(
    alloc: Global,
    task: &TestsTask<'_>,
    rules: &[SourceFile],
    file: &SourceFile,
    out: &mut [u8],
    reply: &mut Reply,
) -> bool
    ensures { result ≡ true → IsTestReply task.now rules.now file.now out.new reply.new }
{
    let mut sink = MemorySink::new(alloc);
    let (path, text) = (file.path(), file.text());
    let ending = run_test(alloc, rules, &[], path, text, task.name, &mut sink);
    let told = line_of(&ending).as_bytes();
    tell(&mut sink, told, ending.status(), out, reply)
}

/// Runs the tests of several files, and tells a page how they ended.
fn answer_files(
    alloc: Global,
    task: &TestsTask<'_>,
    rules: &[SourceFile],
    tests: &[SourceFile],
    out: &mut [u8],
    reply: &mut Reply,
) -> bool
    ensures { result ≡ true → IsFilesReply task.now rules.now tests.now out.new reply.new }
{
    let mut sink = MemorySink::new(alloc);
    let ending = run_tests(alloc, rules, &[], tests, task.name, &mut sink);
    let told = line_of(&ending).as_bytes();
    tell(&mut sink, told, ending.status(), out, reply)
}

/// Works out the columns of each line of this text under these files, and tells a page how that ended.
fn answer_lines(
    alloc: Global,
    task: &LinesTask<'_>,
    files: &[SourceFile],
    text: &str,
    out: &mut [u8],
    reply: &mut Reply,
) -> bool
    ensures { result ≡ true → IsLinesReply task.now files.now text.now out.new reply.new }
{
    let (mut sink, mut told) = (MemorySink::new(alloc), MemorySink::new(alloc));
    let Some(mut lines) = TextLines::new(text) else {
        return reply.fail(Outcome::NoMemory);
    };
    let (path, form) = (task.file, task.form);
    let ending = calc_lines(
        alloc,
        files,
        &[],
        path,
        form,
        &mut lines,
        &mut sink,
        &mut told,
    );
    if hand_over(&mut told, line_of(&ending).as_bytes()).is_err() {
        return reply.fail(Outcome::NoMemory);
    }
    tell(&mut sink, told.bytes(), ending.status(), out, reply)
}
