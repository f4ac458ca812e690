//! The program `fisca`: reads the command line, runs the command, and tells how it ended by its exit status.
#![tactic(auto)]

mod folder;
mod lines;
mod output;
mod terminal;
mod tests;

use clap::error::ErrorKind;
use fisca_command_line::{LinesTask, RuleFolders, Task, TestsTask, Work, read_task};
use fisca_commands::{Ending, LineSource, calc_lines, run_task, run_test, run_tests};
use fisca_folder::{FolderFault, LONGEST, LaidFiles, LayerFault, read_layers, text_of_file};
use fisca_params::SourceFile;
use fisca_words::Place;
use fisca_writer::StreamSink;
use folder::{DiskFolder, open_regular, read_named};
use lines::ReadLines;
use output::{ErrorOutput, Output, Stream, fits};
use std::alloc::AllocError;
use std::io::{BufReader, BufWriter, Input, IsTerminal, Write};
use std::process::ExitCode;
use std::{env, io};
use terminal::{OwnFile, Texts, help_on, shown_below};
use tests::read_tests;

/// The status of a command line that `clap` refused.
const USAGE: u8 = 2;

/// The status of a failed write of the last line.
const WRITE_FAILED: u8 = 5;

/// The status for want of memory.
const NO_MEMORY: u8 = 6;

/// What is told where the command line is no text, in `clap`'s words.
const NO_TEXT: &str = "error: invalid UTF-8 was detected in one or more arguments";

/// What is told where memory was refused.
const OUT_OF_MEMORY: &str = "fisca: out of memory";

/// What is told where standard output could not be written.
const NOT_WRITTEN: &str = "fisca: write failed";

fn main(rt: HostRuntime) -> ExitCode {
    let words = env::args(&rt).and_then(|args| Ok(args.collect::<Vec<String>>(rt.alloc())?));
    ExitCode::from(match words {
        Ok(words) => run_words(&rt, words.as_slice()),
        Err(error) if error.kind() == io::ErrorKind::OutOfMemory => {
            tell(&rt, OUT_OF_MEMORY, NO_MEMORY)
        }
        Err(_) => tell(&rt, NO_TEXT, USAGE),
    })
}

/// Runs what the words ask for, and answers the exit status.
fn run_words(rt: &HostRuntime, words: &[String]) -> u8 {
    if let [_, help, word] = words
        && help.as_str() == "help"
    {
        match help_on(rt.alloc(), word.as_str()) {
            Ok(text) if text.is_empty() => {}
            Ok(text) => return print_out(rt, text.as_str()),
            Err(_) => return tell(rt, OUT_OF_MEMORY, NO_MEMORY),
        }
    }
    match read_task(rt.alloc(), words) {
        Ok(Work::Task(task)) => run_task_of(rt, &task),
        Ok(Work::Lines(lines)) => run_lines(rt, &lines),
        Ok(Work::Tests(tests)) => run_files(rt, &tests),
        Err(error) => print_text(rt, &error),
    }
}

/// Prints `clap`'s text: the help that was asked for, or on standard error why the command line is wrong. That
/// standard error can't be written changes no status.
fn print_text(rt: &HostRuntime, error: &clap::Error) -> u8 {
    if error.kind() == ErrorKind::OutOfMemory {
        return tell(rt, OUT_OF_MEMORY, NO_MEMORY);
    }
    let Ok(text) = format!(in rt.alloc(); "{error}") else {
        return tell(rt, OUT_OF_MEMORY, NO_MEMORY);
    };
    if error.use_stderr() {
        print_error(rt, text.as_str());
        return USAGE;
    }
    print_out(rt, text.as_str())
}

/// Prints a text, and answers the exit status.
fn print_out(rt: &HostRuntime, text: &str) -> u8 {
    let mut output = Output::new(rt);
    match output.write_all(text.as_bytes()) {
        Ok(()) => 0,
        Err(_) => tell(rt, NOT_WRITTEN, WRITE_FAILED),
    }
}

/// Runs a task over the files of the folders and the file that it names, if it names any, and answers the exit status.
fn run_task_of(rt: &HostRuntime, task: &Task<'_>) -> u8 {
    match task {
        Task::Check { rules } | Task::List { rules, .. } => run_in(rt, task, rules, None),
        Task::Calc { rules, file, .. }
        | Task::Run { rules, file, .. }
        | Task::Size { rules, file }
        | Task::Explain { rules, file, .. } => run_in(rt, task, rules, Some(*file)),
        Task::Axes { .. } => run_over(
            rt,
            task,
            Texts {
                files: &[],
                told: &[],
                tests: &[],
                own: own_file(task, ""),
            },
        ),
    }
}

/// Runs a task over the files of folders and its own file, if it has one, and answers the exit status.
fn run_in(rt: &HostRuntime, task: &Task<'_>, folders: &RuleFolders<'_>, file: Option<&str>) -> u8 {
    match read_folders(rt, folders) {
        Ok(laid) => run_under(rt, task, &laid, file),
        Err(fault) => tell_layer(rt, folders, &fault),
    }
}

/// Runs a task over these files and its own file, if it has one, and answers the exit status.
fn run_under<'x>(
    rt: &HostRuntime,
    task: &'x Task<'_>,
    laid: &'x LaidFiles,
    file: Option<&str>,
) -> u8 {
    match read_own(rt, file) {
        Ok(text) => run_over(
            rt,
            task,
            Texts {
                files: laid.files.as_slice(),
                told: laid.told.as_slice(),
                tests: &[],
                own: own_file(task, text.as_str()),
            },
        ),
        Err(fault) => tell_fault(rt, "", &fault),
    }
}

/// A task's own file, of this text.
fn own_file<'a>(task: &'a Task<'_>, text: &'a str) -> OwnFile<'a> {
    let (path, place) = match task {
        Task::Check { .. } | Task::List { .. } => ("", Place::Rules),
        Task::Calc { file, .. } => (*file, Place::Calc),
        Task::Run { file, .. } | Task::Size { file, .. } => (*file, Place::Run),
        Task::Explain { file, .. } => (*file, Place::Explain),
        Task::Axes { .. } => ("", Place::Axes),
    };
    OwnFile { path, text, place }
}

/// The text of a command's own file, if it has one.
fn read_own(rt: &HostRuntime, file: Option<&str>) -> Result<String, FolderFault> {
    match file {
        Some(path) => text_of_file(rt.alloc(), path, read_named(rt, path, LONGEST + 1)?),
        None => Ok(String::new(rt.alloc())),
    }
}

/// The files of a rule set in these folders.
fn read_folders(rt: &HostRuntime, folders: &RuleFolders<'_>) -> Result<LaidFiles, LayerFault> {
    let mut reforms = Vec::new(rt.alloc());
    for reform in folders.reforms.as_slice() {
        match reforms.push(DiskFolder::new(rt, reform.as_str())) {
            Ok(()) => {}
            Err(_) => {
                return Err(LayerFault {
                    folder: 0,
                    fault: FolderFault::Memory,
                });
            }
        }
    }
    let rules = DiskFolder::new(rt, folders.rules);
    read_layers(rt.alloc(), &rules, reforms.as_slice())
}

/// Works out the lines of a file, and answers the exit status.
fn run_lines(rt: &HostRuntime, lines: &LinesTask<'_>) -> u8 {
    match read_folders(rt, &lines.rules) {
        Ok(laid) => run_lines_over(rt, lines, &laid),
        Err(fault) => tell_layer(rt, &lines.rules, &fault),
    }
}

/// Works out the lines of a file, or of standard input where it is `-`, over the files of a folder, and answers the exit status.
fn run_lines_over(rt: &HostRuntime, lines: &LinesTask<'_>, laid: &LaidFiles) -> u8 {
    if lines.file == "-" {
        return match BufReader::new(rt.alloc(), rt.reader()) {
            Ok(reader) => run_lines_of(rt, lines, laid, &mut ReadLines::new(reader)),
            Err(_) => tell(rt, OUT_OF_MEMORY, NO_MEMORY),
        };
    }
    match open_regular(rt, lines.file) {
        Ok(file) => match BufReader::new(rt.alloc(), file) {
            Ok(reader) => run_lines_of(rt, lines, laid, &mut ReadLines::new(reader)),
            Err(_) => tell(rt, OUT_OF_MEMORY, NO_MEMORY),
        },
        Err(fault) => tell_fault(rt, "", &fault),
    }
}

/// Works out these lines, and answers the exit status.
fn run_lines_of<L: LineSource>(
    rt: &HostRuntime,
    lines: &LinesTask<'_>,
    laid: &LaidFiles,
    source: &mut L,
) -> u8 {
    let Ok(writer) = BufWriter::new(rt.alloc(), Output::new(rt)) else {
        return tell(rt, OUT_OF_MEMORY, NO_MEMORY);
    };
    let (mut sink, mut told) = (
        StreamSink::new(writer),
        StreamSink::new(ErrorOutput::new(rt)),
    );
    let ending = calc_lines(
        rt.alloc(),
        laid.files.as_slice(),
        laid.told.as_slice(),
        lines.file,
        lines.form,
        source,
        &mut sink,
        &mut told,
    );
    finish(rt, sink, &ending)
}

/// Works out the tests of files and folders, and answers the exit status.
fn run_files(rt: &HostRuntime, task: &TestsTask<'_>) -> u8 {
    match read_folders(rt, &task.rules) {
        Ok(laid) => run_files_under(rt, task, &laid),
        Err(fault) => tell_layer(rt, &task.rules, &fault),
    }
}

/// Works out the tests of files and folders over the files of a rule set, and answers the exit status.
fn run_files_under(rt: &HostRuntime, task: &TestsTask<'_>, laid: &LaidFiles) -> u8 {
    let paths = task.paths.as_slice();
    match read_tests(rt, paths) {
        Ok(tests) => run_files_over(rt, task, laid, tests.as_slice()),
        Err(fault) => match paths.get(fault.folder) {
            Some(path) => tell_fault(rt, path.as_str(), &fault.fault),
            None => tell_fault(rt, "", &fault.fault),
        },
    }
}

/// Works out the tests of these files over the files of a rule set, and answers the exit status.
fn run_files_over<'x>(
    rt: &HostRuntime,
    task: &TestsTask<'_>,
    laid: &'x LaidFiles,
    tests: &'x [SourceFile],
) -> u8 {
    let Ok(writer) = BufWriter::new(rt.alloc(), Output::new(rt)) else {
        return tell(rt, OUT_OF_MEMORY, NO_MEMORY);
    };
    let mut sink = StreamSink::new(writer);
    let ending = run_each(rt, task, laid, tests, &mut sink);
    let status = finish(rt, sink, &ending);
    let own = OwnFile {
        path: "",
        text: "",
        place: Place::Test,
    };
    explain_ending(
        rt,
        status,
        &ending,
        Texts {
            files: laid.files.as_slice(),
            told: laid.told.as_slice(),
            tests,
            own,
        },
    );
    status
}

/// Works out the tests of these files: of one that is named as a file as of a file, else as of several.
fn run_each<W: Write + Drop>(
    rt: &HostRuntime,
    task: &TestsTask<'_>,
    laid: &LaidFiles,
    tests: &[SourceFile],
    sink: &mut StreamSink<W>,
) -> Ending {
    let (files, told) = (laid.files.as_slice(), laid.told.as_slice());
    if let ([path], [file]) = (task.paths.as_slice(), tests)
        && file.path() == path.as_str()
    {
        return run_test(
            rt.alloc(),
            files,
            told,
            file.path(),
            file.text(),
            task.name,
            sink,
        );
    }
    run_tests(rt.alloc(), files, told, tests, task.name, sink)
}

/// Runs a task over these texts, and answers the exit status.
fn run_over(rt: &HostRuntime, task: &Task<'_>, texts: Texts<'_>) -> u8 {
    let Ok(writer) = BufWriter::new(rt.alloc(), Output::new(rt)) else {
        return tell(rt, OUT_OF_MEMORY, NO_MEMORY);
    };
    let mut sink = StreamSink::new(writer);
    let ending = run_task(
        rt.alloc(),
        task,
        texts.files,
        texts.told,
        texts.own.text,
        &mut sink,
    );
    let status = finish(rt, sink, &ending);
    explain_ending(rt, status, &ending, texts);
    status
}

/// Shows on a terminal what the line of an ending means that was told with this status.
fn explain_ending(rt: &HostRuntime, status: u8, ending: &Ending, texts: Texts<'_>) {
    if let Some(line) = ending.line()
        && status == ending.status()
    {
        explain(rt, line, Some(texts));
    }
}

/// Hands over what still waits in a buffer, tells how the command ended, and answers the exit status.
fn finish<W: Write + Drop>(rt: &HostRuntime, mut sink: StreamSink<W>, ending: &Ending) -> u8 {
    if sink.flush().is_err() {
        return tell(rt, NOT_WRITTEN, WRITE_FAILED);
    }
    match ending.line() {
        None => ending.status(),
        Some(line) => tell(rt, line, ending.status()),
    }
}

/// Tells why the files of folders could not be read, with the folder where there are several, and answers the status.
fn tell_layer(rt: &HostRuntime, folders: &RuleFolders<'_>, fault: &LayerFault) -> u8 {
    let name = match fault.folder.checked_sub(1) {
        None => folders.rules,
        Some(place) => match folders.reforms.as_slice().get(place) {
            Some(reform) => reform.as_str(),
            None => "",
        },
    };
    if folders.reforms.is_empty() {
        return tell_fault(rt, name, &fault.fault);
    }
    tell_line(rt, fault.fault.line_below(rt.alloc(), name), &fault.fault)
}

/// Tells why the files of the folder of this name, or a file outside it, could not be read, and answers the status.
fn tell_fault(rt: &HostRuntime, folder: &str, fault: &FolderFault) -> u8 {
    tell_line(rt, fault.line(rt.alloc(), folder), fault)
}

/// Tells a fault by its line, if there is memory for it, and answers its status.
fn tell_line(rt: &HostRuntime, line: Result<String, AllocError>, fault: &FolderFault) -> u8 {
    match line {
        Ok(line) => {
            let status = tell(rt, line.as_str(), fault.status());
            explain(rt, line.as_str(), None);
            status
        }
        Err(_) => tell(rt, OUT_OF_MEMORY, NO_MEMORY),
    }
}

/// Shows on a terminal what a line means, with the texts that it may speak of, if these were read. That it can't be shown changes no status.
fn explain(rt: &HostRuntime, line: &str, texts: Option<Texts<'_>>) {
    if !rt.stderr().is_terminal() {
        return;
    }
    if let Ok(shown) = shown_below(rt.alloc(), line, texts) {
        print_error(rt, shown.as_str());
    }
}

/// Writes a line on standard error, and answers the status. That standard error can't be written changes no status.
fn tell(rt: &HostRuntime, line: &str, status: u8) -> u8 {
    // one more for the line feed
    if fits(rt, Stream::Error, line.len().saturating_add(1)) {
        let _ = eprintln!(rt; "{line}");
    }
    status
}

/// Writes a text on standard error, if it can be written.
fn print_error(rt: &HostRuntime, text: &str) {
    if fits(rt, Stream::Error, text.len()) {
        let _ = eprint!(rt; "{text}");
    }
}
